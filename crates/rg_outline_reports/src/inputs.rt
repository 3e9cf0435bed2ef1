//! The start and the moves of a run, which name words as the outline does, and the same as the text's words and decimal numbers.

use crate::falsity::{Falsity, Finding};
use crate::files::NoFiles;
use crate::input_faults::{InputFault, InputFaultKind, refused_input};
use crate::outlined::Outlined;
use crate::reports::{Cause, Moved, Reports};
use crate::template::Gap::{Count, Text};
use crate::template::fill;
use crate::values::{Moment, is_true, zeros};
use crate::warnings::clause_span;
use rg_outline::Expansion;
use rg_outline_syntax::{Clause, Comparison, Infix, Kind, Span, Symbol, Token, Tokens};
use rg_outline_terms::bit_of;
use std::alloc::AllocError;

/// The greatest number of a move.
const MOST_BEFORE_MOVE: u64 = 4_294_967_295;

/// A file of a run: its name, and its bytes.
#[derive(Clone, Copy)]
pub struct Input<'a> {
    pub name: &'a str,
    pub source: &'a [u8],
}

/// The files of a run as the text's program reads them.
#[derive(Drop)]
pub struct Inputs {
    /// The start; none where none is given.
    pub start: Option<Vec<u8>>,
    /// The moves; none where none are given.
    pub moves: Option<Vec<u8>>,
    /// The values of all words at the start.
    pub values: Vec<u64>,
}

/// What was read of a start or of moves.
#[derive(Drop)]
struct Plain {
    /// The same in the words of the text and in decimal numbers, line for line.
    bytes: Vec<u8>,
    /// The values of all words at the start; each word that has none is 0.
    values: Vec<u64>,
}

/// A start or moves while they are read.
#[derive(Drop)]
struct Reading<'a> {
    expansion: &'a Expansion<'a>,
    source: &'a [u8],
    tokens: &'a Tokens,
    /// The place of the next token.
    place: usize,
    /// How many bytes of the source were counted for the line at the end of what was read.
    counted: usize,
    /// The words that were given a value, by the start or by the last move, as bits.
    given: u64,
    plain: Plain,
}

impl Reading<'_> {
    /// The next token.
    fn token(&self) -> Token {
        self.tokens.at(self.place)
    }

    /// Whether the next token is `at`.
    fn is_at_move(&self) -> bool {
        self.token().span.of(self.source) == b"at".as_slice()
    }

    /// The fault that another token is wanted.
    fn wanted(&self, what: &'static str) -> InputFault {
        InputFault::at(InputFaultKind::Wanted(what), self.token().span)
    }

    /// Reads a sign.
    fn sign(&mut self, symbol: Symbol, what: &'static str) -> Result<(), InputFault> {
        if self.token().kind != Kind::Symbol(symbol) {
            return Err(self.wanted(what));
        }
        self.place = self.place.saturating_add(1);
        Ok(())
    }

    /// Reads a number.
    fn number(&mut self, what: &'static str) -> Result<u64, InputFault> {
        let Kind::Number(number) = self.token().kind else {
            return Err(self.wanted(what));
        };
        self.place = self.place.saturating_add(1);
        Ok(number)
    }

    /// Adds the ends of the lines before a place, or else a space after what stands there.
    fn push_gap(&mut self, place: Span) -> Result<(), AllocError> {
        let passed = self.source.get(self.counted..place.start).unwrap_or(&[]);
        let lines = passed.iter().filter(|byte| **byte == b'\n').count();
        for _ in 0..lines {
            self.plain.bytes.push(b'\n')?;
        }
        if lines == 0 && !self.plain.bytes.is_empty() {
            self.plain.bytes.push(b' ')?;
        }
        self.counted = self.counted.max(place.start);
        Ok(())
    }

    /// Reads the indices of a word, and adds them to its name; where the last one ends.
    fn indices(&mut self, name: &mut Vec<u8>, first: Span) -> Result<Span, InputFault> {
        let mut end = first;
        for _ in 0..self.tokens.len() {
            if self.token().kind != Kind::Symbol(Symbol::OpenBracket) {
                break;
            }
            self.place = self.place.saturating_add(1);
            let index = self.number("the number of an index")?;
            fill(self.expansion, name, "[$0]", &[Count(index)])?;
            end = self.token().span;
            self.sign(Symbol::CloseBracket, "`]`")?;
        }
        Ok(end)
    }

    /// Reads the name of a word that has no value yet, as the outline writes it or as the text does; the word's number.
    fn word(&mut self) -> Result<usize, InputFault> {
        let first = self.token();
        if first.kind != Kind::Name {
            return Err(self.wanted("a word"));
        }
        self.place = self.place.saturating_add(1);
        let mut name = Vec::new(self.expansion.scope.alloc);
        name.extend_from_slice(first.span.of(self.source))?;
        let span = first.span.to(self.indices(&mut name, first.span)?);
        let scope = &self.expansion.scope;
        match scope.shown.find(&name).or(scope.members.find(&name)) {
            None => Err(InputFault::at(InputFaultKind::NoWord, span)),
            Some(word) => {
                if self.given & bit_of(word) != 0 {
                    return Err(InputFault::at(InputFaultKind::GivenAlready(word), span));
                }
                Ok(word)
            }
        }
    }

    /// Reads the value of a word.
    fn value(&mut self, word: usize) -> Result<u64, InputFault> {
        self.sign(Symbol::Infix(Infix::Compare(Comparison::Equal)), "`=`")?;
        let span = self.token().span;
        let value = self.number("a number")?;
        let width = self.expansion.scope.word(word).width;
        if value.checked_shr(width).unwrap_or(0) != 0 {
            return Err(InputFault::at(InputFaultKind::DoesNotFit(word, value), span));
        }
        Ok(value)
    }

    /// Reads a word with its value.
    fn setting(&mut self) -> Result<(), InputFault> {
        let place = self.token().span;
        let word = self.word()?;
        let value = self.value(word)?;
        self.given |= bit_of(word);
        if let Some(slot) = self.plain.values.get_mut(word) {
            *slot = value;
        }
        self.push_gap(place)?;
        let expansion = self.expansion;
        let gaps = [Text(expansion.scope.members.at(word)), Count(value)];
        fill(expansion, &mut self.plain.bytes, "$0 = $1", &gaps)?;
        Ok(())
    }

    /// Reads `at` and the number of a move.
    fn head(&mut self) -> Result<(), InputFault> {
        let place = self.token().span;
        self.place = self.place.saturating_add(1);
        let span = self.token().span;
        let number = self.number("the number of steps before the move")?;
        if number > MOST_BEFORE_MOVE {
            return Err(InputFault::at(InputFaultKind::TooLate, span));
        }
        self.push_gap(place)?;
        let count = Count(number);
        fill(self.expansion, &mut self.plain.bytes, "at $0", &[count])?;
        self.given = 0;
        Ok(())
    }

    /// Reads all of a start or of moves.
    fn all(&mut self, kind: InputKind) -> Result<(), InputFault> {
        for _ in 0..self.tokens.len() {
            if self.token().kind == Kind::End {
                break;
            }
            if kind == InputKind::Start {
                self.setting()?;
            } else if self.is_at_move() {
                self.head()?;
            } else if self.plain.bytes.is_empty() {
                return Err(self.wanted("`at`"));
            } else {
                self.setting()?;
            }
        }
        Ok(())
    }
}

/// Which of the two files it is.
#[derive(Clone, Copy, PartialEq, Eq)]
enum InputKind {
    Start,
    Moves,
}

/// What a start or moves stand for, or the first fault.
fn plain_in(
    expansion: &Expansion<'_>,
    source: &[u8],
    kind: InputKind,
) -> Result<Plain, InputFault> {
    let alloc = expansion.scope.alloc;
    let tokens = match Tokens::read_alone(alloc, source) {
        Ok(tokens) => tokens,
        Err(fault) => return Err(InputFault::of_tokens(fault)),
    };
    let values = zeros(expansion)?;
    let mut reading = Reading {
        expansion,
        source,
        tokens: &tokens,
        place: 0,
        counted: 0,
        given: 0,
        plain: Plain {
            bytes: Vec::new(alloc),
            values,
        },
    };
    reading.all(kind)?;
    let Reading { plain, .. } = reading;
    Ok(plain)
}

/// What a start or moves stand for, nothing where none are given, and the values of all words at the start.
fn plain_of(
    expansion: &Expansion<'_>,
    input: Option<Input<'_>>,
    kind: InputKind,
) -> Result<(Option<Vec<u8>>, Vec<u64>), NoFiles> {
    let Some(input) = input else {
        return Ok((None, zeros(expansion)?));
    };
    match plain_in(expansion, input.source, kind) {
        Ok(Plain { bytes, values }) => Ok((Some(bytes), values)),
        Err(fault) => Err(refused_input(expansion, input, fault)),
    }
}

impl Outlined<'_> {
    /// What the start and the moves of a run stand for, which name words as the outline does or as the text does.
    ///
    /// # Errors
    ///
    /// - `NoFiles::Reported`, with the first fault of the start, else of the moves.
    /// - `NoFiles::Memory` where memory is refused.
    pub fn inputs(
        &self,
        start: Option<Input<'_>>,
        moves: Option<Input<'_>>,
    ) -> Result<Inputs, NoFiles> {
        let (start, values) = plain_of(&self.expansion, start, InputKind::Start)?;
        let (moves, _values) = plain_of(&self.expansion, moves, InputKind::Moves)?;
        Ok(Inputs {
            start,
            moves,
            values,
        })
    }
}

/// Reports what is false of the program's pre where a run starts in a state in which it isn't so.
pub(crate) fn report_outside_pre(
    reports: &mut Reports<'_>,
    values: &[u64],
) -> Result<(), AllocError> {
    let expansion = reports.expansion;
    let (pre, moment) = (expansion.specification.pre, Moment::at(values));
    if is_true(expansion, pre, moment)? {
        return Ok(());
    }
    let around = clause_span(expansion, Clause::Pre).unwrap_or(Span::NOWHERE);
    let falsity = Falsity::of(expansion, pre, moment)?;
    let place = falsity.place(expansion, around);
    let finding = Finding {
        cause: Cause::OutsidePre,
        at: place,
        what: place,
        place,
        line: None,
        moved: Moved::State,
        moment,
    };
    falsity.report(reports, finding, "the start isn't in the pre", &[])?;
    Ok(())
}
