//! What is printed of a condition that was searched.

ghost use Rattle.std.specs.Prelude.{◌≡◌, string_bytes, IfOk};
ghost use Rattle.rgc_answers.specs.Found.{found_text, reason_text};

use rg_find::Judged;
use rg_tree::condition::Condition;
use rgc::failure_text;
use std::alloc::{AllocError, Global};

/// The lines that prove a condition, or the states at which it fails, or that the search gave up.
pub fn found_text(
    alloc: Global,
    condition: &Condition,
    judged: &Judged,
) -> Result<String, AllocError>
    ensures { IfOk result (λ text. string_bytes text ≡ found_text condition.now.layout judged.now) }
{
    match judged {
        Judged::Holds(lines) => match lines.text(alloc) {
            Ok(text) => Ok(text),
            Err(_) => Err(AllocError),
        },
        Judged::Fails(first, second) => failure_text(alloc, &condition.layout, first, second),
        Judged::GaveUp | Judged::TooLarge => String::from_str(alloc, "gave up\n"),
    }
}

/// The line that says why a search gave up; nothing where it didn't.
pub fn reason(judged: &Judged) -> &'static str
    ensures { result.now ≡ reason_text judged.now }
{
    match judged {
        Judged::GaveUp => "no answer was found within the bounds of the search\n",
        Judged::TooLarge =>
            "no proof within the 16777216 bytes of a file was found; a smaller condition may help\n",
        _ => "",
    }
}
