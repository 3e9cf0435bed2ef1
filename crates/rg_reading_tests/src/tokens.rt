//! Tokens with their kinds and places, with the expected answers written by hand.

use rg_text::Tokens;
use rg_text::kind::{Kind, Terminal};
use rg_words::operators::{Comparison, Operator};
use rg_words::{Refusal, SourceFile};
use std::alloc::Global;

/// A token: its kind, where it begins, where it ends, and its line.
type Placed = (Kind, usize, usize, u32);

// The comment holds a CR, which ends neither it nor the line, and bytes that begin no token.
const PLACED: &[u8] = b"words x:1\n# '\r \0\xff\nshow\r(x' = 012)#";

/// Its tokens.
const PLACES: &[Placed] = &[
    (Kind::Fixed(Terminal::Words), 0, 5, 1),
    (Kind::Name, 6, 7, 1),
    (Kind::Fixed(Terminal::Colon), 7, 8, 1),
    (Kind::Number, 8, 9, 1),
    (Kind::Fixed(Terminal::Show), 18, 22, 3),
    (Kind::Fixed(Terminal::Open), 23, 24, 3),
    (Kind::Primed, 24, 26, 3),
    (Kind::Fixed(Terminal::Compare(Comparison::Equal)), 27, 28, 3),
    (Kind::Number, 29, 32, 3),
    (Kind::Fixed(Terminal::Close), 32, 33, 3),
];

/// Whether these are the tokens of a source.
fn has_tokens(alloc: Global, source: &[u8], expected: &[Placed]) -> Result<bool, Refusal> {
    let tokens = Tokens::read(alloc, source, SourceFile::Moves)?;
    let tokens = tokens.as_slice();
    Ok(
        tokens.len() == expected.len()
            && tokens.iter().zip(expected).all(|(token, one)| (
                token.kind,
                token.start,
                token.end,
                token.line,
            ) == *one),
    )
}

#[test]
fn places_and_lines(rt: HostRuntime) {
    assert!(rt; matches!(has_tokens(rt.alloc(), PLACED, PLACES), Ok(true)));
}

/// Whether these are the kinds of the tokens of a source.
fn has_kinds(alloc: Global, source: &[u8], kinds: &[Kind]) -> Result<bool, Refusal> {
    let tokens = Tokens::read(alloc, source, SourceFile::Text)?;
    let tokens = tokens.as_slice();
    Ok(
        tokens.len() == kinds.len()
            && tokens
                .iter()
                .zip(kinds)
                .all(|(token, kind)| token.kind == *kind),
    )
}

/// The kinds of `!=<=>=:==<>:;+-<=:=`.
const SYMBOLS: &[Kind] = &[
    Kind::Fixed(Terminal::Compare(Comparison::NotEqual)),
    Kind::Fixed(Terminal::Compare(Comparison::LessOrEqual)),
    Kind::Fixed(Terminal::Compare(Comparison::GreaterOrEqual)),
    Kind::Fixed(Terminal::Assign),
    Kind::Fixed(Terminal::Compare(Comparison::Equal)),
    Kind::Fixed(Terminal::Compare(Comparison::Less)),
    Kind::Fixed(Terminal::Compare(Comparison::Greater)),
    Kind::Fixed(Terminal::Colon),
    Kind::Fixed(Terminal::Semicolon),
    Kind::Fixed(Terminal::Operate(Operator::Add)),
    Kind::Fixed(Terminal::Operate(Operator::Subtract)),
    Kind::Fixed(Terminal::Compare(Comparison::LessOrEqual)),
    Kind::Fixed(Terminal::Assign),
];

/// Sources with the kinds of their tokens.
const KINDS: &[(&[u8], &[Kind])] = &[
    (b"!=<=>=:==<>:;+-<=:=", SYMBOLS),
    (b"12abc", &[Kind::Number, Kind::Name]),
    (b"x'y'", &[Kind::Primed, Kind::Primed]),
];

#[test]
fn the_longest_token_is_taken(rt: HostRuntime) {
    for (source, kinds) in KINDS {
        assert!(rt; matches!(has_kinds(rt.alloc(), source, kinds), Ok(true)));
    }
}
