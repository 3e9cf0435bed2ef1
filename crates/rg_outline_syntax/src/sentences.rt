//! The sentence of each fault: a template, in which each `{}` is a gap, and what is inserted at the gaps, in their order.

use crate::fault::{Fault, FaultKind, MeaningFault, ShapeFault, TokenFault, UseFault};
use crate::sentences::Insert::{Bindings, Byte, Line, Member, Number, Part, Quoted, Text, Word};
use crate::span::Span;

/// The most gaps of a template.
const MOST_INSERTS: usize = 5;

/// What is inserted at a gap.
#[derive(Clone, Copy)]
pub(crate) enum Insert {
    Text(&'static str),
    Number(i128),
    /// The line of a place; in another file also the name of that.
    Line(Span),
    /// What stands in the outline, between backticks; `the end of the file` where nothing stands there.
    Quoted(Span),
    /// The byte that begins no token.
    Byte(Span),
    /// A word as the outline writes it, between backticks.
    Word(usize),
    /// A word as the text writes it, between backticks.
    Member(usize),
    /// The name of a part.
    Part(usize),
    /// The numbers that indices stand for here, in parentheses; nothing where there are none.
    Bindings,
}

/// The inserts of a sentence, with empty texts after the last one.
type Inserts = [Insert; MOST_INSERTS];

impl FaultKind {
    /// The template of its sentence.
    pub(crate) fn template(self) -> &'static str {
        match self {
            Self::Token(kind) => kind.template(),
            Self::Shape(kind) => kind.template(),
            Self::Meaning(kind) => kind.template(),
            Self::Use(kind) => kind.template(),
            Self::Memory => "memory was refused",
        }
    }
}

impl TokenFault {
    fn template(self) -> &'static str {
        match self {
            Self::TooManyBytes => "an outline has 1,048,576 bytes at most",
            Self::NoToken => "no token begins with {}",
            Self::MisplacedUnderscore => "a `_` in a number stands between two digits",
            Self::NumberTooLarge => "a number is below 2 to the power of 64",
            Self::PrimeApart => "a prime stands directly behind what it primes",
            Self::Foreign(_) => "{} is no sign here: {}",
            Self::QuoteOpen => "this quote has no second one in its line",
        }
    }
}

impl UseFault {
    fn template(self) -> &'static str {
        match self {
            Self::NoFile => "there is no file {}; its name is read from the folder of this file",
            Self::Unread => "the file {} can't be read",
            Self::Outside => {
                "a used file stands in the folder of this file or in one below it: {} has a step that leads elsewhere"
            }
            Self::Circular =>
                "{} uses this file, directly or through others: files don't use one another in a circle",
            Self::TooManyFiles => "an outline has 64 files at most",
            Self::Separator => "the byte 28 stands in no outline",
        }
    }
}

impl ShapeFault {
    fn template(self) -> &'static str {
        match self {
            Self::Wanted(_) => "{}, not {}",
            Self::NameWanted(_) => "{} is wanted here, not {}",
            Self::KeywordIsNoName(_) => "{} is wanted here; {} is a keyword, so it names nothing",
            Self::KeywordIsNoWord => "{} is a keyword, so it can't name a word",
            Self::ImplicationsChained { .. } => "put parentheses: {} and {} aren't chained",
            Self::JunctionsMixed => "put parentheses: `and` and `or` aren't mixed without them",
            Self::OperatorsMixed => {
                "put parentheses: {} isn't mixed or chained with what stands before it"
            }
            Self::ComparisonsChained => "comparisons aren't chained: write `a < b and b < c`",
            Self::GroupPrimed => {
                "a prime stands behind a word or a name alone; give the formula a name by `let`"
            }
            Self::ValueIsBare(_) => "put parentheses round {} where it is a value",
            Self::ChoiceOfFormulas => {
                "an `if` gives a value: say `(c implies F) and (not c implies G)`"
            }
            Self::SemicolonAfterAssertion => {
                "the `;` stands directly behind the statement, before the assertion"
            }
            Self::SemicolonBeforeEnd(_) => {
                "leave this `;` out: it stands between two statements, and none follows before {}"
            }
            Self::BlockInBraces(_) => {
                "a block stands between {} and `end`; braces are for assertions"
            }
            Self::EndMissing => {
                "this {} has no `end`: each `begin`, `if`, `while`, `for`, `atomic` and `await .. do` has one of its own"
            }
            Self::ElseIfOpen => {
                "an `end` is missing: this `if` after `else` has one of its own, before that of the `if` around it"
            }
            Self::SemicolonMissing => {
                "`end` is wanted here; or a `;` is missing behind the statement before the assertion"
            }
            Self::UseLate => "`use` stands at the beginning of a file, before all else",
            Self::NotInUsedFile => {
                "a used file has `let`, `words`, `invariant`, `rely` and `guar`, and then ends; {} stands in the file that uses it"
            }
            Self::TooDeep => "this is nested too deeply: put a part of it under a name by `let`",
        }
    }
}

impl MeaningFault {
    fn template(self) -> &'static str {
        match self {
            Self::NothingNamed(None) => "nothing is named {}",
            Self::NothingNamed(Some(_)) => "nothing is named {}: do you mean {}?",
            Self::NoWordNamed(_, None) => "no word is named {}",
            Self::NoWordNamed(_, Some(_)) => "no word is named {}: do you mean {}?",
            Self::DeclaredAlready(_) => "{} is declared already, at line {}",
            Self::NamedAlready => "{} is named already",
            Self::ParameterTwice => "{} is a parameter twice",
            Self::MemberTwice(_) => "its member {} is a word already",
            Self::NumberWanted(_) => "{} must be a number that is known here, without words",
            Self::CountDiffers(..) => "{} has {} {}, not {}",
            Self::NoIndex(_) => "{} is one word and has no index",
            Self::OutsideFamily(..) => "the index is {} here{}; {} goes from {} to {}",
            Self::FormulaWanted => "a formula is wanted here, not a value",
            Self::ValueWanted => "a value is wanted here, not a formula",
            Self::PrimeHere => "one state is spoken of here, so nothing is primed",
            Self::PrimedAlready => {
                "this is primed already, so the formula can't be primed as a whole"
            }
            Self::NumberPrimed(_) => "{} is a number here: it has no next state",
            Self::IsValue(_) => "{} is a value here: it has no arguments and no index",
            Self::IsWord(_) => "{} is a word: an index stands in `[` `]`",
            Self::IsNoWord(_) => "{} isn't a word; its arguments stand in parentheses",
            Self::IsStatements(_) => "{} names statements: it stands where a statement does",
            Self::NoStatementsNamed(_, None) => {
                "{} names no statements, and an assignment goes on with `:=`"
            }
            Self::NoStatementsNamed(_, Some(_)) => "no statements are named {}: do you mean {}?",
            Self::IndexPassed => {
                "statements aren't given a member that an index over words chooses: give them the index"
            }
            Self::ClauseTwice => "a second {}",
            Self::PartTwice { .. } => "a second part is named `{}`",
            _ => self.number_template(),
        }
    }

    /// The templates of ranges, numbers and widths.
    fn number_template(self) -> &'static str {
        match self {
            Self::EmptyRange => "this range is empty",
            Self::RangeTooLong => "a range has 1,000 numbers at most",
            Self::IndexBelowZero => "the indices of a family aren't below 0",
            Self::Width => "a width is 1 to 64",
            Self::TooManyWords(_) => "these are {} words; 64 is the most",
            Self::TooManyParts(_) => "these are {} parts; 32 is the most",
            Self::TooManyAssignments => "a step has 16 assignments at most",
            Self::TooManyChosen(_) =>
                "this makes {} assignments in one step, one for each member that the index can choose, and 16 is the most: divide the family by a further index, as `f[0..1][0..15]`, and choose that by an `if`",
            Self::SecondIndex =>
                "one index of a family may read words: give this one as a number, and choose it by an `if`",
            Self::IndexReadsAssigned { .. } =>
                "this index reads {}, which the assignment may change: assign the index to another word before, and write that word here",
            Self::Modulus(_) => "`mod {}`: the second number must be above 0",
            Self::ShiftCount(_) => "the shift count is {}; it is 0 to 63",
            Self::ModulusOfWords => "`mod` is for numbers alone, without words",
            Self::ShiftByWords => "a shift count is a number, without words",
            Self::NoWidth =>
                "no word stands here, so nothing tells the width: compare with a word that is wide enough, or say it without numbers",
            Self::WidthsDiffer(..) => {
                "{} has {} bits and {} has {}; one comparison or assignment has one width"
            }
            Self::Negative(_) => "this is {}{}; the values of words aren't below 0",
            Self::DoesNotFit(..) => "{} doesn't fit into the {} bits of {}",
            Self::OutOfBounds => {
                "a number is between -2 to the power of 64 and 2 to the power of 64"
            }
            _ => self.program_template(),
        }
    }

    /// The templates of what the parts may do, and of the whole.
    fn program_template(self) -> &'static str {
        match self {
            Self::FixedOwned { .. } => "{} is fixed: nobody owns it",
            Self::FixedAssigned { .. } => "{} is fixed: no step changes it",
            Self::OwnedAlready { .. } => "{} is owned by part {} already",
            Self::AssignsOwned { .. } => "part {} assigns {}, which part {} owns",
            Self::NoPartNamed { .. } => "no part is named `{}`",
            Self::InterruptsItself => "this part interrupts itself, directly or through others",
            Self::InterruptedAlready { .. } => {
                "part {} interrupts {} already: let this part interrupt {}"
            }
            Self::ReadsAuxiliary { .. } => {
                "{} is auxiliary: nothing that the program does may depend on it"
            }
            Self::NoStatement => { "no statement is left here: the ranges of its `for` are empty" }
            Self::NothingToAssign => "an await needs a word that isn't fixed",
            Self::TooDeep => "what this stands for is nested too deeply",
            Self::TextTooLarge =>
                "the text that the outline stands for has more than 1048576 bytes, and this is the longest of the formulas that its parts repeat",
            _ => "what the outline stands for is too large",
        }
    }

    /// The inserts, where the fault stands at this place.
    fn inserts(self, found: Insert) -> Inserts {
        match self {
            Self::NothingNamed(Some(near)) => filled(&[found, Quoted(near)]),
            Self::NoWordNamed(name, Some(near)) | Self::NoStatementsNamed(name, Some(near)) => {
                filled(&[Quoted(name), Quoted(near)])
            }
            Self::NoWordNamed(name, None)
            | Self::NoStatementsNamed(name, None)
            | Self::IsStatements(name)
            | Self::NoIndex(name)
            | Self::NumberPrimed(name)
            | Self::IsValue(name)
            | Self::IsWord(name)
            | Self::IsNoWord(name) => filled(&[Quoted(name)]),
            Self::DeclaredAlready(place) => filled(&[found, Line(place)]),
            Self::NumberWanted(what) => filled(&[Text(what)]),
            Self::CountDiffers(name, what, wanted, given) => {
                let (wanted, given) = (Number(wanted as i128), Number(given as i128));
                filled(&[Quoted(name), wanted, Text(what), given])
            }
            Self::OutsideFamily(name, index, (first, last)) => {
                let (first, last) = (Number(first), Number(last));
                filled(&[Number(index), Bindings, Quoted(name), first, last])
            }
            Self::TooManyWords(count) | Self::TooManyParts(count) | Self::TooManyChosen(count) => {
                filled(&[Number(count as i128)])
            }
            Self::Modulus(number) | Self::ShiftCount(number) | Self::Negative(number) => {
                filled(&[Number(number), Bindings])
            }
            _ => self.word_inserts(found),
        }
    }

    /// The inserts of faults of words and parts.
    fn word_inserts(self, found: Insert) -> Inserts {
        match self {
            Self::WidthsDiffer((word, width), (first, first_width)) => {
                let (width, first_width) = (i128::from(width), i128::from(first_width));
                filled(&[Word(word), Number(width), Word(first), Number(first_width)])
            }
            Self::DoesNotFit(number, (word, width)) => {
                filled(&[Number(number), Number(i128::from(width)), Word(word)])
            }
            Self::MemberTwice(word) => filled(&[Member(word)]),
            Self::FixedOwned { word }
            | Self::FixedAssigned { word }
            | Self::IndexReadsAssigned { word }
            | Self::ReadsAuxiliary { word } => filled(&[Word(word)]),
            Self::OwnedAlready { word, part } => filled(&[Word(word), Part(part)]),
            Self::AssignsOwned { part, word, owner } => {
                filled(&[Part(part), Word(word), Part(owner)])
            }
            Self::PartTwice { part } | Self::NoPartNamed { part } => filled(&[Part(part)]),
            Self::InterruptedAlready { part } => filled(&[Part(part), found, Part(part)]),
            _ => filled(&[found]),
        }
    }
}

fn filled(given: &[Insert]) -> Inserts {
    let mut inserts = [Text(""); MOST_INSERTS];
    for (slot, insert) in inserts.iter_mut().zip(given) {
        *slot = *insert;
    }
    inserts
}

/// The inserts of a fault; where its template has fewer gaps, the others are of no use.
pub(crate) fn inserts(fault: Fault) -> Inserts {
    let found = Quoted(fault.span);
    match fault.kind {
        FaultKind::Token(TokenFault::Foreign(instead)) => filled(&[found, Text(instead)]),
        FaultKind::Token(_) => filled(&[Byte(fault.span)]),
        FaultKind::Shape(
            ShapeFault::Wanted(text)
            | ShapeFault::NameWanted(text)
            | ShapeFault::KeywordIsNoName(text)
            | ShapeFault::ValueIsBare(text)
            | ShapeFault::SemicolonBeforeEnd(text)
            | ShapeFault::BlockInBraces(text),
        ) => filled(&[Text(text), found]),
        FaultKind::Shape(ShapeFault::ImplicationsChained { first }) => {
            filled(&[Quoted(first), found])
        }
        FaultKind::Meaning(kind) => kind.inserts(found),
        _ => filled(&[found]),
    }
}
