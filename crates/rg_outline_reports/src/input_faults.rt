//! What is wrong with a start or with moves, and how it is reported.

use crate::faults::printable;
use crate::files::NoFiles;
use crate::inputs::Input;
use crate::template::Gap::{Count, Phrase, Text, WordsIn};
use crate::template::{fill, filled};
use rg_outline::Expansion;
use rg_outline_syntax::{
    Fault, FaultKind, Names, Span, TokenFault, push_carets, push_place, push_sentence,
};
use rg_outline_terms::bit_of;
use std::alloc::{AllocError, AllocFailed};

/// What is wrong with a start or with moves.
#[derive(Clone, Copy)]
pub(crate) enum InputFaultKind {
    /// The file has too many bytes.
    TooManyBytes,
    /// Bytes that are no token.
    Token(Fault),
    /// Another token is wanted: what.
    Wanted(&'static str),
    /// A name that no word has.
    NoWord,
    /// A word that has a value already.
    GivenAlready(usize),
    /// A value that is too large for a word.
    DoesNotFit(usize, u64),
    /// A move after more steps than a run counts.
    TooLate,
    /// Memory was refused.
    Memory,
}

/// What is wrong, and where.
#[derive(Clone, Copy)]
pub(crate) struct InputFault {
    pub(crate) kind: InputFaultKind,
    pub(crate) span: Span,
}

impl InputFault {
    /// A fault at a place.
    pub(crate) fn at(kind: InputFaultKind, span: Span) -> InputFault {
        InputFault { kind, span }
    }

    /// A fault of the tokens.
    pub(crate) fn of_tokens(fault: Fault) -> InputFault {
        let kind = match fault.kind {
            FaultKind::Memory => InputFaultKind::Memory,
            FaultKind::Token(TokenFault::TooManyBytes) => InputFaultKind::TooManyBytes,
            _ => InputFaultKind::Token(fault),
        };
        InputFault::at(kind, fault.span)
    }
}

impl From<AllocError> for InputFault {
    fn from(_: AllocError) -> InputFault {
        InputFault::at(InputFaultKind::Memory, Span::NOWHERE)
    }
}

impl<T: Drop> From<AllocFailed<T>> for InputFault {
    fn from(_: AllocFailed<T>) -> InputFault {
        InputFault::at(InputFaultKind::Memory, Span::NOWHERE)
    }
}

/// Adds the words, as the outline writes them.
fn push_words(expansion: &Expansion<'_>, text: &mut Vec<u8>) -> Result<(), AllocError> {
    for word in 0..expansion.scope.words.len() {
        text.push(b' ')?;
        text.extend_from_slice(expansion.scope.shown.at(word))?;
    }
    Ok(())
}

/// Adds the sentence of a fault in these bytes.
fn push_sentence_of(
    expansion: &Expansion<'_>,
    text: &mut Vec<u8>,
    source: &[u8],
    fault: InputFault,
) -> Result<(), AllocError> {
    let found = fault.span.of(source);
    match fault.kind {
        InputFaultKind::TooManyBytes => {
            text.extend_from_slice(b"a start, or moves, have 1,048,576 bytes at most")
        }
        InputFaultKind::Token(fault) => {
            let names = Names {
                source,
                ..expansion.names(&[])
            };
            push_sentence(text, fault, names)
        }
        InputFaultKind::Wanted(what) => {
            let template = if found.is_empty() {
                "$0 is wanted here, not the end of the file"
            } else {
                "$0 is wanted here, not `$1`"
            };
            let gaps = [Text(what.as_bytes()), Phrase(found)];
            fill(expansion, text, template, &gaps)
        }
        InputFaultKind::NoWord => {
            let template = "no word is named `$0`; the words are";
            fill(expansion, text, template, &[Phrase(found)])?;
            push_words(expansion, text)
        }
        InputFaultKind::GivenAlready(word) => {
            let word = WordsIn(bit_of(word));
            fill(expansion, text, "`$0` has a value already", &[word])
        }
        InputFaultKind::DoesNotFit(word, value) => {
            let width = Count(u64::from(expansion.scope.word(word).width));
            let gaps = [Count(value), width, WordsIn(bit_of(word))];
            let template = "$0 doesn't fit into the $1 bits of `$2`";
            fill(expansion, text, template, &gaps)
        }
        InputFaultKind::TooLate => {
            text.extend_from_slice(b"a move comes after at most 4,294,967,295 steps")
        }
        InputFaultKind::Memory => Err(AllocError),
    }
}

/// The lines that report a fault: `FILE:LINE:COLUMN: sentence`, the line, and a row with carets under the place.
fn lines_of(
    expansion: &Expansion<'_>,
    input: Input<'_>,
    fault: InputFault,
) -> Result<Vec<u8>, AllocError> {
    let mut lines = filled(expansion, "$0:", &[Text(input.name.as_bytes())])?;
    push_place(&mut lines, input.source, fault.span)?;
    lines.extend_from_slice(b": ")?;
    push_sentence_of(expansion, &mut lines, input.source, fault)?;
    lines.push(b'\n')?;
    push_carets(&mut lines, input.source, fault.span)?;
    printable(expansion.scope.alloc, &lines)
}

/// Why a start or moves with this fault stand for nothing.
pub(crate) fn refused_input(
    expansion: &Expansion<'_>,
    input: Input<'_>,
    fault: InputFault,
) -> NoFiles {
    match lines_of(expansion, input, fault) {
        Ok(lines) => NoFiles::Reported(lines),
        Err(_) => NoFiles::Memory,
    }
}
