//! The line of a record.

ghost use Rattle.std.specs.Prelude.{◌≡◌, ◌++◌, map, length, decimal, codes, IfOk, OnOk};
ghost use Rattle.rg_words.specs.States.{IsState};
ghost use Rattle.rg_tree.specs.ProgramView.{part};
ghost use Rattle.rg_tree.specs.ProgramTrees.{program as program_tree};
ghost use Rattle.rg_monitor.specs.Lines.{Fits, name_of, change_text, change_if, changes_text, words_text, names_text, cover_text, line_of};

use crate::record::Record;
use itoa::Buffer;
use rg_tree::part::Part;
use rg_tree::program::Program;
use rg_words::{Layout, State};
use std::alloc::{AllocError, Global};

/// The line of a record, with its line end: the number, the part's name or `env`, the statement's line, `name=before>after`
/// for each changed word or `same`, and `in` with the names of the covering parts or `-`.
///
/// An error comes only where memory was refused.
pub fn line(alloc: Global, program: &Program, step: &Record) -> Result<Vec<u8>, AllocError>
    requires { Fits (program_tree program.now) step.now }
    ensures { IfOk result (λ text. text.items ≡ line_of (program_tree program.now) step.now) }
{
    let mut text = Vec::new(alloc);
    push_line(&mut text, program, step)?;
    Ok(text)
}

/// Adds the line of a record, as `line` gives it, to a text.
///
/// An error comes only where memory was refused; the text may then end in a part of the line.
pub fn push_line(text: &mut Vec<u8>, program: &Program, step: &Record) -> Result<(), AllocError>
    requires { Fits (program_tree program.now) step.now }
    ensures { OnOk result (text.new.items ≡ text.old.items ++ line_of (program_tree program.now) step.now) }
{
    let parts = program.parts.as_slice();
    push_number(text, step.number())?;
    text.extend_from_slice(b" ")?;
    text.extend_from_slice(name(parts, step.who()).as_bytes())?;
    text.extend_from_slice(b" ")?;
    push_number(text, u64::from(step.line()))?;
    push_words(text, &program.layout, step.before(), step.after())?;
    text.extend_from_slice(b" in")?;
    push_cover(text, parts, step.cover())?;
    text.extend_from_slice(b"\n")?;
    Ok(())
}

/// The name of the part of this number, from 1, and `env` for 0.
pub fn name(parts: &[Part], who: usize) -> &str
    ensures { result.now ≡ name_of (map part parts.now) who }
{
    if who == 0 {
        return "env";
    }
    match parts.get(who - 1) {
        Some(part) => &part.name,
        None => "env",
    }
}

/// Adds a number in decimal. An error comes only where memory was refused.
pub fn push_number(text: &mut Vec<u8>, n: u64) -> Result<(), AllocError>
    ensures { OnOk result (text.new.items ≡ text.old.items ++ decimal n) }
{
    let mut digits = Buffer::new();
    text.extend_from_slice(digits.format(n).as_bytes())?;
    Ok(())
}

/// Adds a word with its values before and after.
fn push_change(text: &mut Vec<u8>, name: &str, before: u64, after: u64) -> Result<(), AllocError>
    ensures { OnOk result (text.new.items ≡ text.old.items ++ change_text name.now before after) }
{
    text.extend_from_slice(b" ")?;
    text.extend_from_slice(name.as_bytes())?;
    text.extend_from_slice(b"=")?;
    push_number(text, before)?;
    text.extend_from_slice(b">")?;
    push_number(text, after)
}

/// Adds a word with its values before and after where it changed; nothing where it didn't.
fn push_if_changed(
    text: &mut Vec<u8>,
    name: &str,
    before: u64,
    after: u64,
) -> Result<(), AllocError>
    ensures { OnOk result (text.new.items ≡ text.old.items ++ change_if name.now before after) }
{
    if before == after {
        return Ok(());
    }
    push_change(text, name, before, after)
}

/// Adds the changed words with their values.
fn push_changes(
    text: &mut Vec<u8>,
    layout: &Layout,
    before: &State,
    after: &State,
) -> Result<(), AllocError>
    requires before { IsState layout.now before.now.values }
    requires after { IsState layout.now after.now.values }
    ensures { OnOk result (text.new.items ≡ text.old.items ++ changes_text layout.now before.now.values after.now.values) }
{
    for word in 0..layout.len() {
        push_if_changed(text, layout.name(word), before.get(word), after.get(word))?;
    }
    Ok(())
}

/// Adds the words that changed, and `same` where none did.
fn push_words(
    text: &mut Vec<u8>,
    layout: &Layout,
    before: &State,
    after: &State,
) -> Result<(), AllocError>
    requires before { IsState layout.now before.now.values }
    requires after { IsState layout.now after.now.values }
    ensures { OnOk result (text.new.items ≡ text.old.items ++ words_text layout.now before.now.values after.now.values) }
{
    if before.same(after) {
        text.extend_from_slice(b" same")?;
        return Ok(());
    }
    push_changes(text, layout, before, after)
}

/// Adds the names of the parts of these numbers.
fn push_names(text: &mut Vec<u8>, parts: &[Part], numbers: &[usize]) -> Result<(), AllocError>
    ensures { OnOk result (text.new.items ≡ text.old.items ++ names_text (map part parts.now) numbers.now) }
{
    for who in numbers {
        text.extend_from_slice(b" ")?;
        text.extend_from_slice(name(parts, *who).as_bytes())?;
    }
    Ok(())
}

/// Adds the names of the parts of these numbers, each after a space, and a dash where there is none. An error comes only where memory was refused;
/// the text may then have some of them.
pub fn push_cover(text: &mut Vec<u8>, parts: &[Part], cover: &[usize]) -> Result<(), AllocError>
    ensures { OnOk result (text.new.items ≡ text.old.items ++ cover_text (map part parts.now) cover.now) }
{
    if cover.is_empty() {
        text.extend_from_slice(b" -")?;
        return Ok(());
    }
    push_names(text, parts, cover)
}
