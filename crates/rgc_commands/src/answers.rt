//! What a command finds out of its files.

ghost use Rattle.std.specs.Prelude.{◌≡◌};
ghost use Rattle.rgc_commands.specs.Answers.{has_succeeded};
ghost use Rattle.rgc_commands.specs.Code.{is_plain};

use crate::code::Ready;
use crate::entries::Entry;
use rg_clauses::Clauses;
use rg_find::Judged;
use rg_tree::condition::Condition;
use rgc::{Derived, Parsed, Unproved};
use rgc_answers::Range;
use rgc_line::Format;
use rgc_outlines::VerdictForm;

/// What a command finds out of its files: it is so of them, and nothing is printed yet.
#[derive(Drop)]
pub enum Answer<'a> {
    /// A program, whose statements are numbered.
    Numbered(Parsed),
    /// The files are accepted.
    Accepted,
    /// What is derived, whose conditions are listed by their names.
    Conditions(Derived),
    /// What is derived, whose conditions are printed as formulas.
    Formulas(Derived),
    /// Pieces of the proofs of these conditions.
    Proved(Range, Vec<String>),
    /// Some conditions of what is derived have no proof.
    Unproved(Derived, Vec<Unproved>),
    /// The hint lines prove the formula.
    Holds,
    /// The clauses of a formula or of a condition.
    Clauses(Clauses),
    /// A formula or a condition, which is printed as SMT-LIB.
    Script(Condition),
    /// What a search found of a formula or of a condition.
    Found(Condition, Judged),
    /// The entry of the refusal of this number.
    Explained(u64, Entry),
    /// The text of code, or of how its steps are done in C.
    Code(String),
    /// Code that is ready to run.
    Run(Ready<'a>),
    /// An outline is verified.
    Verified(Verified<'a>),
    /// Whether a run of an outline's program breaks its specification, and what is printed of its runs.
    Walked(bool, Vec<u8>),
    /// The text that an outline stands for, or nothing where it goes to a file.
    Expanded(Vec<u8>),
}

/// The verdict on an outline, in a form: how many conditions are proved, and for how many of them a search found lines.
#[derive(Drop)]
pub struct Verified<'a> {
    pub form: VerdictForm<'a>,
    pub conditions: usize,
    pub found: usize,
    /// What is printed after it: how each step is done in C, or which changes the specification doesn't see.
    pub more: Vec<u8>,
}

/// Whether a format is that of lines.
pub(crate) fn is_plain(format: Format) -> bool
    ensures { result ≡ is_plain format }
{
    match format {
        Format::Plain => true,
        Format::Json => false,
    }
}

/// Whether an answer is what the command is asked for.
pub(crate) fn has_succeeded(answer: &Answer<'_>) -> bool
    ensures { result ≡ has_succeeded answer.now }
{
    match answer {
        Answer::Unproved(..) => false,
        Answer::Found(_, Judged::Holds(_)) => true,
        Answer::Found(..) => false,
        Answer::Walked(is_broken, _) => !*is_broken,
        _ => true,
    }
}
