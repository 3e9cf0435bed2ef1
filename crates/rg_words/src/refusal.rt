//! Refusals: what the tool answers in place of a result.

ghost use Rattle.std.specs.Prelude.{◌≡◌, None};

use crate::sink::WriteFault;
use itoa::Buffer;
use std::alloc::{AllocError, AllocFailed};
use std::error::Error;
use std::fmt;

/// What is at fault. Each has a number of its own, which `code` gives.
#[derive(Clone, Copy, Debug, PartialEq, Eq)]
pub enum RefusalNumber {
    /// A byte that begins no token.
    BadByte = 1,
    /// The first token such that the tokens up to it begin no spelling.
    Unexpected = 2,
    /// A word that isn't declared.
    UnknownName = 3,
    /// A second declaration of a word, a second part of one name, or a word given twice.
    NameTwice = 4,
    /// A width that is out of range.
    Width = 5,
    /// A number that is too large for where it stands.
    NumberTooLarge = 6,
    /// A word whose width isn't that of its group.
    WidthsDiffer = 7,
    /// The first number of a group without a word.
    WidthUnknown = 8,
    /// A primed word where one state is spoken of.
    Prime = 9,
    /// An opener, or an operand of a chain, that is one too many.
    Depth = 10,
    /// A limit is passed.
    Limit = 11,
    /// The tokens end too early.
    Unfinished = 12,
    /// An assignment to a fixed word.
    FixedAssigned = 13,
    /// As `Unexpected`, in a derivation.
    UnexpectedInDerivation = 21,
    /// A derivation line whose number isn't its place.
    LineNumber = 22,
    /// A premise that isn't an earlier line.
    NotEarlier = 23,
    /// A rule for another kind of statement, or a wrong count of premises.
    RuleDoesNotFit = 24,
    /// No such statement, or a premise of another statement than the rule asks.
    WrongStatement = 25,
    /// A formula tree that isn't as the rule asks.
    FormulaDiffers = 26,
    /// A part of which no line is derived.
    PartNotDerived = 27,
    /// A line of a proofs file that has no known form.
    Unreadable = 41,
    /// A condition that needs a section and has none.
    NoSection = 42,
    /// An id that doesn't rise, or a section head that doesn't.
    IdOrder = 43,
    /// A hint that names neither a given clause nor an earlier line.
    HintNotEarlier = 44,
    /// A hint clause with two or more literals that aren't false.
    HintNotUnit = 45,
    /// The hints ran out.
    NoConflict = 46,
    /// All lines follow, and no clause is empty.
    NoEmptyClause = 47,
    /// A condition number that names no condition.
    UnknownCondition = 48,
    /// The start isn't in the pre.
    StartOutsidePre = 61,
    /// A move that isn't inside the rely.
    OutsideRely = 62,
    /// The writer failed.
    Write = 63,
    /// The printed records aren't the history.
    Mismatch = 64,
    /// A record whose number was already taken.
    Stranger = 65,
    /// A move after the last one.
    MovesEnded = 66,
    /// A move that changes a fixed word.
    FixedMoved = 67,
    /// Memory was refused.
    Memory = 99,
}

/// The file in which a fault was found.
#[derive(Clone, Copy, Debug, PartialEq, Eq)]
pub enum SourceFile {
    Text,
    Derivation,
    Proofs,
    Start,
    Moves,
}

/// The place of a fault; each counts from 1.
#[derive(Clone, Copy, Debug, PartialEq, Eq)]
pub enum Place {
    Line(u64),
    Condition(u64),
    Move(u64),
}

/// Why something is refused, and where.
#[derive(Clone, Copy, Debug, PartialEq, Eq)]
pub struct Refusal {
    pub number: RefusalNumber,
    pub file: Option<SourceFile>,
    pub place: Option<Place>,
}

impl RefusalNumber {
    ghost use Rattle.rg_words.specs.Refusals.{printed_number};

    /// The number that a refusal prints.
    #[tactic(auto, unfolding(crate::specs::Refusals::printed_number))]
    pub fn code(self) -> u8
        ensures { result ≡ printed_number self }
    {
        self as u8
    }
}

impl fmt::Display for SourceFile {
    ghost use Rattle.std.specs.Prelude.{Some};
    ghost use Rattle.rg_words.specs.Refusals.{file_name};

    ghost output = { λ file. Some (file_name file) };

    fn fmt<W: fmt::Write>(&self, f: &mut fmt::Formatter<W>) -> fmt::Result {
        match self {
            SourceFile::Text => f.write_str("text"),
            SourceFile::Derivation => f.write_str("derivation"),
            SourceFile::Proofs => f.write_str("proofs"),
            SourceFile::Start => f.write_str("start"),
            SourceFile::Moves => f.write_str("moves"),
        }
    }
}

impl fmt::Display for Place {
    ghost use Rattle.std.specs.Prelude.{Some};
    ghost use Rattle.rg_words.specs.Refusals.{place_text};

    ghost output = { λ place. Some (place_text place) };

    fn fmt<W: fmt::Write>(&self, f: &mut fmt::Formatter<W>) -> fmt::Result {
        let mut digits = Buffer::new();
        match self {
            Place::Line(number) => write!(f, "line {}", digits.format(*number)),
            Place::Condition(number) => write!(f, "condition {}", digits.format(*number)),
            Place::Move(number) => write!(f, "move {}", digits.format(*number)),
        }
    }
}

/// The line that a refusal prints, without its end: `refused`, the number, the file and the place where there are any.
impl fmt::Display for Refusal {
    ghost use Rattle.std.specs.Prelude.{Some};
    ghost use Rattle.rg_words.specs.Refusals.{refusal_text};

    ghost output = { λ refusal. Some (refusal_text refusal) };

    fn fmt<W: fmt::Write>(&self, f: &mut fmt::Formatter<W>) -> fmt::Result {
        let mut digits = Buffer::new();
        write!(f, "refused {}", digits.format(self.number.code()))?;
        if let Some(file) = self.file {
            write!(f, " {file}")?;
        }
        if let Some(place) = self.place {
            write!(f, " {place}")?;
        }
        Ok(())
    }
}

impl Error for Refusal {}

impl Refusal {
    ghost use Rattle.rg_words.specs.Refusals.{refused, refused_in};

    /// A refusal that has neither a file nor a place.
    pub fn new(number: RefusalNumber) -> Refusal
        ensures { result ≡ refused number }
    {
        Refusal {
            number,
            file: None,
            place: None,
        }
    }

    /// A refusal at a place of a file.
    pub fn at(number: RefusalNumber, file: SourceFile, place: Place) -> Refusal
        ensures { result ≡ refused_in number file place }
    {
        Refusal {
            number,
            file: Some(file),
            place: Some(place),
        }
    }
}

impl From<WriteFault> for Refusal {
    ghost use Rattle.std.specs.Prelude.{◌≡◌};
    ghost use Rattle.rg_words.specs.Refusals.{refused};
    ghost use Rattle.rg_words.specs.declared.refusal.RefusalNumber.TheVariants.{Write};

    ghost from_gives = { λ _ e. e ≡ refused Write };

    fn from(_: WriteFault) -> Refusal {
        Refusal::new(RefusalNumber::Write)
    }
}

impl From<AllocError> for Refusal {
    ghost use Rattle.std.specs.Prelude.{◌≡◌};
    ghost use Rattle.rg_words.specs.Refusals.{no_memory};

    ghost from_gives = { λ _ e. e ≡ no_memory };

    fn from(_: AllocError) -> Refusal {
        Refusal::new(RefusalNumber::Memory)
    }
}

impl<T: Drop> From<AllocFailed<T>> for Refusal {
    ghost use Rattle.std.specs.Prelude.{◌≡◌};
    ghost use Rattle.rg_words.specs.Refusals.{no_memory};

    ghost from_gives = { λ _ e. e ≡ no_memory };

    fn from(_: AllocFailed<T>) -> Refusal {
        Refusal::new(RefusalNumber::Memory)
    }
}
