//! The text of an answer.

ghost use Rattle.std.specs.Prelude.{◌≡◌, IfOk};
ghost use Rattle.rgc_commands.specs.Texts.{answer_text, verified_text};

use crate::answers::{Answer, Verified};
use crate::entries::explanation;
use rg_smt::script;
use rgc_answers::{
    accepted_text, conditions_text, formulas_text, found_text, numbers_text, proofs_text,
    unproved_text,
};
use rgc_line::Format;
use rgc_outlines::verdict_line;
use std::alloc::{AllocError, Global};

/// The verdict on an outline, and what is printed after it.
fn verified_text(alloc: Global, verified: &Verified<'_>) -> Result<Vec<u8>, AllocError>
    ensures { IfOk result (λ text. text.items ≡ verified_text verified.now) }
{
    let line = verdict_line(alloc, verified.form, verified.conditions, verified.found)?;
    let mut text = line.into_bytes();
    text.extend_from_slice(&verified.more)?;
    Ok(text)
}

/// The text of an answer in a format; nothing of clauses and of a run, which go out as they are made.
///
/// An error comes only where memory is refused.
pub fn render(alloc: Global, format: Format, answer: &Answer<'_>) -> Result<Vec<u8>, AllocError>
    ensures { IfOk result (λ text. text.items ≡ answer_text format answer.now) }
{
    match answer {
        Answer::Numbered(parsed) => Ok(numbers_text(alloc, parsed.program(), format)?.into_bytes()),
        Answer::Accepted => Ok(accepted_text(alloc, format)?.into_bytes()),
        Answer::Conditions(derived) => Ok(conditions_text(alloc, derived, format)?.into_bytes()),
        Answer::Formulas(derived) => Ok(formulas_text(alloc, derived)?.into_bytes()),
        Answer::Proved(range, pieces) => Ok(proofs_text(
            alloc, *range, pieces, format,
        )?.into_bytes()),
        Answer::Unproved(derived, unproved) => {
            Ok(unproved_text(alloc, derived, unproved, format)?.into_bytes())
        }
        Answer::Holds => Vec::from_slice(alloc, b"holds\n"),
        Answer::Script(condition) => Ok(script(alloc, condition)?.into_bytes()),
        Answer::Found(condition, judged) => Ok(found_text(alloc, condition, judged)?.into_bytes()),
        Answer::Explained(number, entry) => Ok(explanation(alloc, *number, *entry)?.into_bytes()),
        Answer::Code(code) => Vec::from_slice(alloc, code.as_bytes()),
        Answer::Verified(verified) => verified_text(alloc, verified),
        Answer::Walked(_, text) | Answer::Expanded(text) => Vec::from_slice(alloc, text),
        Answer::Clauses(_) | Answer::Run(_) => Ok(Vec::new(alloc)),
    }
}
