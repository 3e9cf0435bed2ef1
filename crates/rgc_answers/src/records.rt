//! The record of a step as a JSON value.

ghost use Rattle.std.specs.Prelude.{◌≡◌, map, string_bytes, IfOk};
ghost use Rattle.serde_json.specs.Data.{array};
ghost use Rattle.serde_json.specs.View.{view, items_of};
ghost use Rattle.rg_words.specs.Layout.{names_of};
ghost use Rattle.rg_tree.specs.ProgramView.{part};
ghost use Rattle.rg_tree.specs.ProgramTrees.{program as program_tree};
ghost use Rattle.rg_monitor.specs.Lines.{name_of};
ghost use Rattle.rgc_answers.specs.Lines.{json_line};
ghost use Rattle.rgc_answers.specs.Records.{word_data, words_data, cover_data, step_data, record_data};

use crate::json_line::line_of;
use rg_monitor::record::Record;
use rg_tree::part::Part;
use rg_tree::program::Program;
use rg_words::{Layout, State};
use serde_json::{Value, json};
use std::alloc::{AllocError, Global};

/// The name of the part of this number, from 1, and `env` for 0.
fn name(parts: &[Part], who: usize) -> &str
    ensures { result.now ≡ name_of (map part parts.now) who }
{
    if who == 0 {
        return "env";
    }
    match parts.get(who - 1) {
        Some(part) => &part.name,
        None => "env",
    }
}

/// A word with its values before and after a step.
fn word_value(alloc: Global, name: &str, before: u64, after: u64) -> Result<Value, AllocError>
    ensures { IfOk result (λ v. view v ≡ word_data name.now before after) }
{
    json!(in alloc; {"after": after, "before": before, "word": name})
}

/// Each word with its values before and after a step.
fn words_value(
    alloc: Global,
    layout: &Layout,
    before: &State,
    after: &State,
) -> Result<Value, AllocError>
    ensures { IfOk result (λ v. view v ≡ array (items_of (words_data (names_of layout.now) before.now.values after.now.values))) }
{
    let mut values = Vec::new(alloc);
    for word in 0..layout.len().min(before.len()).min(after.len()) {
        let name = layout.name(word);
        values.push(word_value(alloc, name, before.get(word), after.get(word))?)?;
    }
    Ok(Value::Array(values))
}

/// The names of the parts of these numbers.
fn cover_value(alloc: Global, parts: &[Part], numbers: &[usize]) -> Result<Value, AllocError>
    ensures { IfOk result (λ v. view v ≡ cover_data (map part parts.now) numbers.now) }
{
    let mut values = Vec::new(alloc);
    for who in numbers {
        values.push(Value::String(String::from_str(alloc, name(parts, *who))?))?;
    }
    Ok(Value::Array(values))
}

/// A record by the values of its words and of the parts that cover it.
fn whole_value(
    alloc: Global,
    name: &str,
    step: &Record,
    cover: Value,
    words: Value,
) -> Result<Value, AllocError>
    ensures { IfOk result (λ v. view v ≡ step_data name.now step.now.number step.now.line (view cover) (view words)) }
{
    json!(in alloc; {"in": cover, "kind": "record", "line": step.line(), "number": step.number(), "part": name, "words": words})
}

/// A record.
fn record_value(alloc: Global, program: &Program, step: &Record) -> Result<Value, AllocError>
    ensures { IfOk result (λ v. view v ≡ record_data (program_tree program.now) step.now) }
{
    let parts = program.parts.as_slice();
    let cover = cover_value(alloc, parts, step.cover())?;
    let words = words_value(alloc, &program.layout, step.before(), step.after())?;
    whole_value(alloc, name(parts, step.who()), step, cover, words)
}

/// A record's line.
pub(crate) fn record_line(
    alloc: Global,
    program: &Program,
    step: &Record,
) -> Result<String, AllocError>
    ensures { IfOk result (λ line. string_bytes line ≡ json_line (record_data (program_tree program.now) step.now)) }
{
    let value = record_value(alloc, program, step)?;
    line_of(alloc, &value)
}
