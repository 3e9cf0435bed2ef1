//! What is printed of a program that has a derivation, and of one that has code.

ghost use Rattle.std.specs.Prelude.{◌≡◌, ◌++◌, [], map, codes, string_bytes, IfOk};
ghost use Rattle.serde_json.specs.View.{view};
ghost use Rattle.serde_json.specs.Written.{compact_text};
ghost use Rattle.rg_tree.specs.ProgramTrees.{program as program_tree};
ghost use Rattle.rg_tree.specs.Printed.{formula_text};
ghost use Rattle.rgc_answers.specs.Listing.{listing_data};
ghost use Rattle.rgc_answers.specs.Conditions.{pre_data, pre_line, condition_data, condition_line, condition_lines, conditions_text};
ghost use Rattle.rg_accept.specs.Stages.{derived_program, derived_lines};

use crate::json_line::line_of;
use crate::listing::listing;
use itoa::Buffer;
use rg_code::code::Code;
use rg_tree::print::print;
use rg_tree::program::Program;
use rg_tree::typing::typed_trees_fit;
use rgc::Derived;
use rgc_line::Format;
use serde_json::{Value, json};
use std::alloc::{AllocError, Global};

/// The listing of code and a line end.
pub fn listing_text(alloc: Global, code: &Code) -> Result<String, AllocError>
    ensures { IfOk result (λ text. string_bytes text ≡ compact_text (listing_data code.now) ++ codes "\n") }
{
    let mut text = listing(alloc, code)?;
    text.push_str("\n")?;
    Ok(text)
}

/// The text of a program's pre.
fn pre_text(alloc: Global, program: &Program) -> Result<String, AllocError>
    ensures { IfOk result (λ text. string_bytes text ≡ formula_text program.now.layout (program_tree program.now).spec.pre []) }
{
    // Typed trees over the words of a layout fit them.
    program.layout.facts();
    typed_trees_fit();
    print(alloc, &program.layout, &program.spec.pre)
}

/// A pre by its text.
fn pre_value(alloc: Global, text: &str) -> Result<Value, AllocError>
    ensures { IfOk result (λ v. view v ≡ pre_data text.now) }
{
    json!(in alloc; {"kind": "pre", "text": text})
}

/// The line of a pre by its text.
fn pre_line(alloc: Global, format: Format, text: &str) -> Result<String, AllocError>
    ensures { IfOk result (λ line. string_bytes line ≡ pre_line format text.now) }
{
    match format {
        Format::Plain => format!(in alloc; "pre {text}\n"),
        Format::Json => {
            let value = pre_value(alloc, text)?;
            line_of(alloc, &value)
        }
    }
}

/// A condition.
fn condition_value(alloc: Global, number: usize, name: &str) -> Result<Value, AllocError>
    ensures { IfOk result (λ v. view v ≡ condition_data number name.now) }
{
    json!(in alloc; {"kind": "condition", "name": name, "number": number})
}

/// A condition's line.
fn condition_line(
    alloc: Global,
    format: Format,
    number: usize,
    name: &str,
) -> Result<String, AllocError>
    ensures { IfOk result (λ line. string_bytes line ≡ condition_line format number name.now) }
{
    match format {
        Format::Plain => {
            let mut digits = Buffer::new();
            let number = digits.format(number);
            format!(in alloc; "{number} {name}\n")
        }
        Format::Json => {
            let value = condition_value(alloc, number, name)?;
            line_of(alloc, &value)
        }
    }
}

/// The lines of conditions with these names, which are numbered from 1.
fn names_text(alloc: Global, names: &[String], format: Format) -> Result<String, AllocError>
    ensures { IfOk result (λ text. string_bytes text ≡ condition_lines format 1 (map string_bytes names.now)) }
{
    let mut text = String::new(alloc);
    for (i, name) in names.iter().enumerate() {
        let line = condition_line(alloc, format, i + 1, name)?;
        text.push_str(&line)?;
    }
    Ok(text)
}

/// The pre of a program, and then each of its conditions with its number and its name, a line each; as JSON a value of kind `pre` and then one of
/// kind `condition` each.
pub fn conditions_text(
    alloc: Global,
    derived: &Derived,
    format: Format,
) -> Result<String, AllocError>
    ensures { IfOk result (λ text. string_bytes text ≡ conditions_text format (derived_program derived.now) (derived_lines derived.now)) }
{
    let names = derived.names(alloc)?;
    let pre = pre_text(alloc, derived.program())?;
    let mut text = pre_line(alloc, format, &pre)?;
    let lines = names_text(alloc, names.as_slice(), format)?;
    text.push_str(&lines)?;
    Ok(text)
}
