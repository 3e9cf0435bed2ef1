//! The token at the front of some bytes.

ghost use Rattle.std.specs.Prelude.{◌≡◌, ◌<◌, false, [], ◌∷◌, length, take, slice_index, IsTrue, MatchOption, Some, None};
ghost use Rattle.std.specs.List.{prefix_len};
ghost use Rattle.std.specs.Char.{is_ascii_digit};
ghost use Rattle.rg_words.specs.Names.{is_word_start, is_word_byte};
ghost use Rattle.rg_text.specs.Spelling.{symbol_of};
ghost use Rattle.rg_text.specs.Tokenization.{IsLongest, BeginsNoToken};

use crate::keywords::keyword;
use crate::kind::{Kind, Terminal};
use rg_words::names::{is_word_byte, is_word_start};
use rg_words::operators::{Comparison, Operator};

fn word_len(bytes: &[u8]) -> usize
    ensures { result ≡ prefix_len is_word_byte bytes.now }
{
    bytes.iter().take_while(|b| is_word_byte(**b)).count()
}

fn digits_len(bytes: &[u8]) -> usize
    ensures { result ≡ prefix_len is_ascii_digit bytes.now }
{
    bytes.iter().take_while(|b| b.is_ascii_digit()).count()
}

/// The symbol of one byte.
#[tactic(auto, unfolding(crate::specs::Spelling::symbol_of))]
fn short_symbol(byte: u8) -> Option<Terminal>
    ensures { result ≡ symbol_of (byte ∷ []) }
{
    match byte {
        b'(' => Some(Terminal::Open),
        b')' => Some(Terminal::Close),
        b':' => Some(Terminal::Colon),
        b';' => Some(Terminal::Semicolon),
        b'=' => Some(Terminal::Compare(Comparison::Equal)),
        b'<' => Some(Terminal::Compare(Comparison::Less)),
        b'>' => Some(Terminal::Compare(Comparison::Greater)),
        b'+' => Some(Terminal::Operate(Operator::Add)),
        b'-' => Some(Terminal::Operate(Operator::Subtract)),
        _ => None,
    }
}

/// The symbol of two bytes, of which `=` is the second.
#[tactic(auto, unfolding(crate::specs::Spelling::symbol_of))]
fn long_symbol(first: u8) -> Option<Terminal>
    ensures { result ≡ symbol_of (first ∷ 61 ∷ []) }
{
    match first {
        b':' => Some(Terminal::Assign),
        b'!' => Some(Terminal::Compare(Comparison::NotEqual)),
        b'<' => Some(Terminal::Compare(Comparison::LessOrEqual)),
        b'>' => Some(Terminal::Compare(Comparison::GreaterOrEqual)),
        _ => None,
    }
}

/// The symbol that the first two bytes are.
#[tactic(auto, unfolding(crate::specs::Spelling::symbol_of))]
fn long_symbol_at(bytes: &[u8]) -> Option<Terminal>
    ensures { MatchOption result
        (1 < length bytes.now → symbol_of (take 2 bytes.now) ≡ None)
        (λ symbol. (1 < length bytes.now) × (symbol_of (take 2 bytes.now) ≡ Some symbol)) }
{
    match bytes {
        [first, b'=', ..] => long_symbol(*first),
        _ => None,
    }
}

/// The length and kind of the word at the front.
fn word_at(bytes: &[u8]) -> (usize, Kind)
    requires some { 0 < length bytes.now }
    requires start { IsTrue (is_word_start (slice_index bytes.now 0)) }
    ensures { IsLongest bytes.now result.0 result.1 }
{
    let end = word_len(bytes);
    if let Some(terminal) = keyword(&bytes[..end]) {
        return (end, Kind::Fixed(terminal));
    }
    if end >= bytes.len() {
        return (end, Kind::Name);
    }
    if bytes[end] == b'\'' {
        return (end + 1, Kind::Primed);
    }
    (end, Kind::Name)
}

/// The length and kind of the number at the front.
fn number_at(bytes: &[u8]) -> (usize, Kind)
    requires some { 0 < length bytes.now }
    requires digit { IsTrue (is_ascii_digit (slice_index bytes.now 0)) }
    ensures { IsLongest bytes.now result.0 result.1 }
{
    (digits_len(bytes), Kind::Number)
}

/// The length and kind of the symbol at the front, if one stands there.
fn symbol_at(bytes: &[u8]) -> Option<(usize, Kind)>
    requires some { 0 < length bytes.now }
    requires no_word { is_word_start (slice_index bytes.now 0) ≡ false }
    requires no_number { is_ascii_digit (slice_index bytes.now 0) ≡ false }
    ensures { MatchOption result (BeginsNoToken bytes.now) (λ t. IsLongest bytes.now t.0 t.1) }
{
    if let Some(symbol) = long_symbol_at(bytes) {
        return Some((2, Kind::Fixed(symbol)));
    }
    match short_symbol(bytes[0]) {
        Some(symbol) => Some((1, Kind::Fixed(symbol))),
        None => None,
    }
}

/// The length and kind of the longest token at the front, if one stands there.
pub(crate) fn token_at(bytes: &[u8]) -> Option<(usize, Kind)>
    ensures { MatchOption result (BeginsNoToken bytes.now) (λ t. IsLongest bytes.now t.0 t.1) }
{
    let first = *bytes.first()?;
    if is_word_start(first) {
        Some(word_at(bytes))
    } else if first.is_ascii_digit() {
        Some(number_at(bytes))
    } else {
        symbol_at(bytes)
    }
}
