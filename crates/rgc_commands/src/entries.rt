//! The entries of refusals by their numbers, and how they are printed.

ghost use Rattle.std.specs.Prelude.{◌≡◌, string_bytes, IfOk};
ghost use Rattle.rgc_commands.specs.Explanation.{explanation_text};

use crate::derivation_entries::derivation_entry;
use crate::proof_entries::proof_entry;
use crate::run_entries::run_entry;
use crate::text_entries::text_entry;
use itoa::Buffer;
use std::alloc::{AllocError, Global};

/// A refusal: what it means, and what to do.
#[derive(Clone, Copy)]
pub struct Entry {
    /// Its name in the library.
    pub name: &'static str,
    /// When it is given, in a few words.
    pub when: &'static str,
    /// What it means.
    pub meaning: &'static str,
    /// What to do.
    pub remedy: &'static str,
    /// A command with files that have it, as it is printed; empty where no files do.
    pub example: &'static str,
}

/// The entry of a refusal's number; none where no refusal has it.
pub(crate) fn entry_of(number: u64) -> Option<Entry> {
    match number {
        0..=20 => text_entry(number),
        21..=40 => derivation_entry(number),
        41..=60 => proof_entry(number),
        _ => run_entry(number),
    }
}

/// What `rgc explain` prints of a refusal of this number.
///
/// # Errors
///
/// `AllocError` where memory is refused.
pub(crate) fn explanation(alloc: Global, number: u64, entry: Entry) -> Result<String, AllocError>
    ensures { IfOk result (λ text. string_bytes text ≡ explanation_text number entry) }
{
    let mut digits = Buffer::new();
    format!(in alloc;
        "refused {} {}: {}\n\n{}\n\nWhat to do: {}\n{}",
        digits.format(number),
        entry.name,
        entry.when,
        entry.meaning,
        entry.remedy,
        entry.example
    )
}
