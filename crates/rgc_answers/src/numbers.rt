//! The statements of a program with their numbers, a line each.

ghost use Rattle.std.specs.Prelude.{◌≡◌, map, string_bytes, IfOk};
ghost use Rattle.rg_tree.specs.ProgramView.{part};
ghost use Rattle.serde_json.specs.View.{view};
ghost use Rattle.rgc_answers.specs.Numbers.{kind_text, part_name, statement_data, statement_line, lines_text, numbers_text};

use crate::json_line::line_of;
use itoa::Buffer;
use rg_tree::numbered::{Numbered, StatementKind};
use rg_tree::part::Part;
use rg_tree::program::Program;
use rgc_line::Format;
use serde_json::{Value, json};
use std::alloc::{AllocError, Global};

/// The word for a kind of statement.
pub fn kind_text(kind: StatementKind) -> &'static str
    ensures { result.now ≡ kind_text kind }
{
    match kind {
        StatementKind::Skip => "skip",
        StatementKind::Assign => "assign",
        StatementKind::Await => "await",
        StatementKind::If => "if",
        StatementKind::While => "while",
        StatementKind::Seq => "seq",
    }
}

/// The name of a part by its number, from 1; no text where there is none.
pub fn part_name(parts: &[Part], number: usize) -> &str
    ensures { result.now ≡ part_name (map part parts.now) number }
{
    if number == 0 || number > parts.len() {
        return "";
    }
    &parts[number - 1].name
}

/// A statement of the part of this name.
fn statement_value(alloc: Global, name: &str, statement: &Numbered) -> Result<Value, AllocError>
    ensures { IfOk result (λ v. view v ≡ statement_data name.now statement.now) }
{
    let kind = kind_text(statement.kind);
    json!(in alloc; {
        "kind": "statement",
        "line": statement.line,
        "number": statement.number,
        "part": name,
        "statement": kind
    })
}

/// The line of a statement of the part of this name.
fn statement_line(
    alloc: Global,
    format: Format,
    name: &str,
    statement: &Numbered,
) -> Result<String, AllocError>
    ensures { IfOk result (λ line. string_bytes line ≡ statement_line format name.now statement.now) }
{
    match format {
        Format::Plain => {
            let (mut numbers, mut lines) = (Buffer::new(), Buffer::new());
            let number = numbers.format(statement.number);
            let line = lines.format(statement.line);
            let kind = kind_text(statement.kind);
            format!(in alloc; "{number} {name} {line} {kind}\n")
        }
        Format::Json => {
            let value = statement_value(alloc, name, statement)?;
            line_of(alloc, &value)
        }
    }
}

/// The lines of numbered statements of these parts.
fn lines_text(
    alloc: Global,
    parts: &[Part],
    statements: &[Numbered],
    format: Format,
) -> Result<String, AllocError>
    ensures { IfOk result (λ text. string_bytes text ≡ lines_text format (map part parts.now) statements.now) }
{
    let mut text = String::new(alloc);
    for statement in statements {
        let name = part_name(parts, statement.part);
        let line = statement_line(alloc, format, name, statement)?;
        text.push_str(&line)?;
    }
    Ok(text)
}

/// For each statement of a program its number, its part's name, the line of its first token and its kind, in the order of the numbers, a line
/// each; as JSON a value of kind `statement` each. As with all calls that give a text, an error comes only where memory is refused.
pub fn numbers_text(alloc: Global, program: &Program, format: Format) -> Result<String, AllocError>
    ensures { IfOk result (λ text. string_bytes text ≡ numbers_text format (map part program.now.parts.items)) }
{
    let statements = program.numbered(alloc)?;
    lines_text(alloc, &program.parts, &statements, format)
}
