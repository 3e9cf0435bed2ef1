//! The line that says that an outline is verified.

ghost use Rattle.std.specs.Prelude.{◌≡◌, ◌++◌, string_bytes, codes, IfOk, OnOk};
ghost use Rattle.serde_json.specs.View.{view};
ghost use Rattle.serde_json.specs.Written.{compact_text};
ghost use Rattle.rgc_outlines.specs.Verdict.{verdict_data, verdict_text, name_text};

use itoa::Buffer;
use serde_json::{Value, json};
use std::alloc::{AllocError, Global};

/// How it is said whether an outline is verified, or whether a run breaks it.
#[derive(Clone, Copy)]
pub enum VerdictForm<'a> {
    /// A line to be read.
    Alone,
    /// A line to be read, after the outline's name.
    Named(&'a str),
    /// A JSON value, with the outline's name, in a line of its own.
    Json(&'a str),
}

/// How many conditions were proved, as a JSON value.
fn counts_value(
    alloc: Global,
    name: &str,
    conditions: usize,
    found: usize,
) -> Result<Value, AllocError>
    ensures { IfOk result (λ v. view v ≡ verdict_data name.now conditions found) }
{
    json!(in alloc; {"by_search": found, "conditions": conditions, "file": name, "kind": "verified"})
}

/// The JSON value in a line of its own.
fn counts_line(
    alloc: Global,
    name: &str,
    conditions: usize,
    found: usize,
) -> Result<String, AllocError>
    ensures { IfOk result (λ line. string_bytes line ≡ compact_text (verdict_data name.now conditions found) ++ codes "\n") }
{
    let value = counts_value(alloc, name, conditions, found)?;
    let mut line = value.to_string(alloc)?;
    line.push_str("\n")?;
    Ok(line)
}

/// The line that says that an outline is verified, with how many conditions were proved, and for how many of them a search found lines.
/// An error comes only where memory is refused.
pub fn verdict_line(
    alloc: Global,
    form: VerdictForm<'_>,
    conditions: usize,
    found: usize,
) -> Result<String, AllocError>
    ensures { IfOk result (λ line. string_bytes line ≡ verdict_text form.entry conditions found) }
{
    let (mut all_digits, mut found_digits) = (Buffer::new(), Buffer::new());
    let all = all_digits.format(conditions);
    let by_search = found_digits.format(found);
    match form {
        VerdictForm::Alone => format!(in alloc;
            "verified: {all} conditions, {by_search} by search\n"
        ),
        VerdictForm::Named(name) => format!(in alloc;
            "{name}: verified: {all} conditions, {by_search} by search\n"
        ),
        VerdictForm::Json(name) => counts_line(alloc, name, conditions, found),
    }
}

/// Adds the outline's name where lines about it begin with it.
/// An error comes only where memory is refused.
pub fn push_name(form: VerdictForm<'_>, reported: &mut Vec<u8>) -> Result<(), AllocError>
    ensures { OnOk result (reported.new.items ≡ reported.old.items ++ name_text form.entry) }
{
    if let VerdictForm::Named(name) = form {
        reported.extend_from_slice(name.as_bytes())?;
        reported.extend_from_slice(b": ")?;
    }
    Ok(())
}
