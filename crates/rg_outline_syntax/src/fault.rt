//! Why an outline is refused, and where.

use crate::span::Span;
use std::alloc::{AllocError, AllocFailed};

/// What is at fault, and the place that is reported.
#[derive(Clone, Copy)]
pub struct Fault {
    pub kind: FaultKind,
    pub span: Span,
}

/// What is at fault. An outline is read in three passes over the whole of it, and the first fault of the first faulty pass is reported.
#[derive(Clone, Copy)]
pub enum FaultKind {
    Token(TokenFault),
    Shape(ShapeFault),
    Meaning(MeaningFault),
    /// A file that can't be used.
    Use(UseFault),
    /// Memory was refused; nothing is reported of the outline.
    Memory,
}

/// Bytes that are no token.
#[derive(Clone, Copy)]
pub enum TokenFault {
    /// The outline has too many bytes.
    TooManyBytes,
    /// A byte that begins no token.
    NoToken,
    /// A `_` at an end of a number, or beside another one.
    MisplacedUnderscore,
    /// A number that no word can hold.
    NumberTooLarge,
    /// White space before a prime.
    PrimeApart,
    /// A sign of other languages: what stands for it here.
    Foreign(&'static str),
    /// A quote with no second one in its line.
    QuoteOpen,
}

/// Why a file can't be used.
#[derive(Clone, Copy)]
pub enum UseFault {
    /// There is none of this name.
    NoFile,
    /// It can't be read.
    Unread,
    /// Its name leads out of the folder of the file that uses it.
    Outside,
    /// It uses, perhaps through others, the file that uses it.
    Circular,
    /// The outline has too many files.
    TooManyFiles,
    /// A file, the outline's own or a used one, has the byte that separates files.
    Separator,
}

/// A token that can't stand where it stands, or that a reader could take in two ways.
#[derive(Clone, Copy)]
pub enum ShapeFault {
    /// Another token is wanted: the beginning of the sentence, which goes on with what was found.
    Wanted(&'static str),
    /// A name is wanted, and this is none.
    NameWanted(&'static str),
    /// A name is wanted, and this is a keyword.
    KeywordIsNoName(&'static str),
    /// A keyword where a word is declared.
    KeywordIsNoWord,
    /// A second `implies` or `iff`, after this first one.
    ImplicationsChained { first: Span },
    /// `and` beside `or`.
    JunctionsMixed,
    /// An operator beside another that it doesn't go with, or a second shift.
    OperatorsMixed,
    ComparisonsChained,
    /// A prime after parentheses.
    GroupPrimed,
    /// `sum` or `if` as a value without parentheses.
    ValueIsBare(&'static str),
    /// A formula where an `if` gives a value.
    ChoiceOfFormulas,
    /// A `;` after an assertion.
    SemicolonAfterAssertion,
    /// A `;` with no statement between it and this keyword.
    SemicolonBeforeEnd(&'static str),
    /// A block in braces, which stands between this keyword and `end`.
    BlockInBraces(&'static str),
    /// A keyword with no `end`.
    EndMissing,
    /// An `if` directly after an `else`, where an `end` is missing.
    ElseIfOpen,
    /// An assertion with no `;` before it.
    SemicolonMissing,
    /// A `use` that doesn't stand at the beginning of its file.
    UseLate,
    /// What a used file doesn't have.
    NotInUsedFile,
    /// Trees or blocks within one another, one too many.
    TooDeep,
}

/// What means nothing, though its shape is right.
#[derive(Clone, Copy)]
pub enum MeaningFault {
    /// A name that nothing has; perhaps this one is meant.
    NothingNamed(Option<Span>),
    /// A name that is no word's; perhaps this one is meant.
    NoWordNamed(Span, Option<Span>),
    /// A name that is declared as a word already, at this place.
    DeclaredAlready(Span),
    /// A name that something else has here.
    NamedAlready,
    /// A parameter's name that an earlier parameter has.
    ParameterTwice,
    /// A member of a family that is this word already.
    MemberTwice(usize),
    /// A range without numbers, in a declaration or of a part.
    EmptyRange,
    RangeTooLong,
    /// A family whose indices begin below 0.
    IndexBelowZero,
    /// A number has to be known here: what it is for.
    NumberWanted(&'static str),
    /// A second index that reads words.
    SecondIndex,
    /// The index of an assignment that reads a word which the assignment may change.
    IndexReadsAssigned {
        word: usize,
    },
    /// An assignment to a member that an index chooses: a step would have so many assignments.
    TooManyChosen(usize),
    /// A width that isn't 1 to 64.
    Width,
    TooManyWords(usize),
    TooManyParts(usize),
    TooManyAssignments,
    /// A name that has so many indices or parameters, as the text says, and is given so many.
    CountDiffers(Span, &'static str, usize, usize),
    /// Indices of a word that is in no family.
    NoIndex(Span),
    /// A family with an index that is outside its range, from the first to the last number.
    OutsideFamily(Span, i128, (i128, i128)),
    FormulaWanted,
    ValueWanted,
    /// A name of statements where a formula or a value stands.
    IsStatements(Span),
    /// A name that is no statements'; perhaps this one is meant.
    NoStatementsNamed(Span, Option<Span>),
    /// An argument of statements with an index that reads words.
    IndexPassed,
    /// A prime where one state is spoken of.
    PrimeHere,
    PrimedAlready,
    NumberPrimed(Span),
    /// Arguments or indices after a parameter or an index.
    IsValue(Span),
    /// Arguments after a word.
    IsWord(Span),
    /// Indices after the name of a tree.
    IsNoWord(Span),
    /// `mod` by this number, which isn't above 0.
    Modulus(i128),
    ShiftCount(i128),
    ModulusOfWords,
    ShiftByWords,
    /// A comparison without a word.
    NoWidth,
    /// A word beside the first one, each with its width.
    WidthsDiffer((usize, u32), (usize, u32)),
    Negative(i128),
    /// A number that is too large for a word of this width.
    DoesNotFit(i128, (usize, u32)),
    /// A number that was worked out and is beyond all words, on one side or the other.
    OutOfBounds,
    FixedOwned {
        word: usize,
    },
    FixedAssigned {
        word: usize,
    },
    /// A second `pre` or `post`.
    ClauseTwice,
    /// A second part of one name.
    PartTwice {
        part: usize,
    },
    OwnedAlready {
        word: usize,
        part: usize,
    },
    AssignsOwned {
        part: usize,
        word: usize,
        owner: usize,
    },
    /// An interrupted part of this name, which comes after those of the parts.
    NoPartNamed {
        part: usize,
    },
    /// A part that interrupts itself, or one that interrupts it.
    InterruptsItself,
    /// A part that is interrupted directly by two: the first of these.
    InterruptedAlready {
        part: usize,
    },
    /// What decides a step, or goes into a real word, reads an auxiliary word.
    ReadsAuxiliary {
        word: usize,
    },
    NoStatement,
    /// An await without assignments, where all words are fixed.
    NothingToAssign,
    /// What the outline stands for is too large.
    TooLarge,
    /// The text that the outline stands for is longer than a text may be, mostly because its parts repeat this formula.
    TextTooLarge,
    /// What the outline stands for is nested too deeply.
    TooDeep,
}

impl Fault {
    /// Bytes that are no token.
    pub(crate) fn token(fault: TokenFault, span: Span) -> Fault {
        Fault {
            kind: FaultKind::Token(fault),
            span,
        }
    }

    /// What means nothing.
    pub fn meaning(fault: MeaningFault, span: Span) -> Fault {
        Fault {
            kind: FaultKind::Meaning(fault),
            span,
        }
    }

    /// A file that can't be used.
    pub fn of_use(fault: UseFault, span: Span) -> Fault {
        Fault {
            kind: FaultKind::Use(fault),
            span,
        }
    }

    /// Refused memory.
    pub fn memory() -> Fault {
        Fault {
            kind: FaultKind::Memory,
            span: Span::NOWHERE,
        }
    }
}

impl From<AllocError> for Fault {
    fn from(_: AllocError) -> Fault {
        Fault::memory()
    }
}

impl<T: Drop> From<AllocFailed<T>> for Fault {
    fn from(_: AllocFailed<T>) -> Fault {
        Fault::memory()
    }
}
