//! The token at the front of some bytes.

use crate::fault::TokenFault;
use crate::infix::Infix::{Compare, Imply, Join, Operate};
use crate::kind::{Keyword, Kind, Symbol};
use crate::written::{Comparison, Conditional, Junction, Operator};
use rg_words::names::{is_word_byte, is_word_start};

/// The words that are kept, with the keywords that they are.
static KEYWORDS: [(&str, Keyword); 47] = [
    ("words", Keyword::Words),
    ("fixed", Keyword::Fixed),
    ("show", Keyword::Reserved),
    ("pre", Keyword::Pre),
    ("rely", Keyword::Rely),
    ("guar", Keyword::Guar),
    ("post", Keyword::Post),
    ("part", Keyword::Part),
    ("begin", Keyword::Begin),
    ("end", Keyword::End),
    ("skip", Keyword::Skip),
    ("await", Keyword::Await),
    ("do", Keyword::Do),
    ("if", Keyword::If),
    ("then", Keyword::Then),
    ("else", Keyword::Else),
    ("while", Keyword::While),
    ("not", Keyword::Not),
    ("and", Keyword::Infix(Join(Junction::And))),
    ("or", Keyword::Infix(Join(Junction::Or))),
    ("implies", Keyword::Infix(Imply(Conditional::Implies))),
    ("iff", Keyword::Infix(Imply(Conditional::Iff))),
    ("true", Keyword::True),
    ("false", Keyword::False),
    ("inv", Keyword::Inv),
    ("band", Keyword::Infix(Operate(Operator::BitAnd))),
    ("bor", Keyword::Infix(Operate(Operator::BitOr))),
    ("bxor", Keyword::Infix(Operate(Operator::BitXor))),
    ("shl", Keyword::Infix(Operate(Operator::ShiftLeft))),
    ("shr", Keyword::Infix(Operate(Operator::ShiftRight))),
    ("line", Keyword::Reserved),
    ("from", Keyword::Reserved),
    ("basic", Keyword::Reserved),
    ("atomic", Keyword::Atomic),
    ("seq", Keyword::Reserved),
    ("loop", Keyword::Reserved),
    ("conseq", Keyword::Reserved),
    ("at", Keyword::Reserved),
    ("let", Keyword::Let),
    ("invariant", Keyword::Invariant),
    ("owns", Keyword::Owns),
    ("unchanged", Keyword::Unchanged),
    ("keeps", Keyword::Keeps),
    ("all", Keyword::All),
    ("some", Keyword::Some),
    ("sum", Keyword::Sum),
    ("for", Keyword::For),
];

/// The signs; of two that begin alike the longer stands first.
static SYMBOLS: [(&str, Symbol); 20] = [
    ("..", Symbol::Dots),
    (":=", Symbol::Assign),
    ("!=", Symbol::Infix(Compare(Comparison::NotEqual))),
    ("<=", Symbol::Infix(Compare(Comparison::LessOrEqual))),
    (">=", Symbol::Infix(Compare(Comparison::GreaterOrEqual))),
    ("(", Symbol::OpenParenthesis),
    (")", Symbol::CloseParenthesis),
    ("{", Symbol::OpenBrace),
    ("}", Symbol::CloseBrace),
    ("[", Symbol::OpenBracket),
    ("]", Symbol::CloseBracket),
    (":", Symbol::Colon),
    (";", Symbol::Semicolon),
    (",", Symbol::Comma),
    ("'", Symbol::Prime),
    ("+", Symbol::Infix(Operate(Operator::Add))),
    ("-", Symbol::Infix(Operate(Operator::Subtract))),
    ("=", Symbol::Infix(Compare(Comparison::Equal))),
    ("<", Symbol::Infix(Compare(Comparison::Less))),
    (">", Symbol::Infix(Compare(Comparison::Greater))),
];

/// Signs of other languages that begin like those here, with what stands for them; of two that begin alike the longer stands first.
static FOREIGN: [(&str, &str); 14] = [
    ("//", "a comment begins with `#`"),
    ("/*", "a comment begins with `#`"),
    ("&&", "write `and`"),
    ("||", "write `or`"),
    ("==", "write `=`"),
    ("+=", "write `x := x + ..`"),
    ("-=", "write `x := x - ..`"),
    ("++", "write `x := x + 1`"),
    ("--", "write `x := x - 1`"),
    ("<=>", "write `iff`"),
    ("=>", "write `implies`"),
    ("->", "write `implies`"),
    ("<<", "write `shl`"),
    (">>", "write `shr`"),
];

/// Signs of other languages of which no sign here begins with the first byte, but `!=`.
static FOREIGN_BYTES: [(&str, &str); 8] = [
    ("!", "write `not`"),
    ("&", "write `band`"),
    ("|", "write `bor`"),
    ("^", "write `bxor`"),
    ("~", "write `inv`"),
    ("%", "write `band` with a mask, or `mod` between numbers"),
    ("*", "write a sum, or `shl`"),
    ("/", "write `shr`"),
];

/// What stands at the front: its length, and its kind or what is wrong with it.
pub(crate) type Scanned = (usize, Result<Kind, TokenFault>);

/// How many bytes at the front are white space and comments.
pub(crate) fn gap_len(bytes: &[u8]) -> usize {
    let mut in_comment = false;
    for (place, byte) in bytes.iter().enumerate() {
        if in_comment {
            in_comment = *byte != b'\n';
        } else if *byte == b'#' {
            in_comment = true;
        } else if !is_white_space(*byte) {
            return place;
        }
    }
    bytes.len()
}

/// Whether a byte is white space, outside comments.
pub(crate) fn is_white_space(byte: u8) -> bool {
    matches!(byte, b' ' | b'\t' | b'\r' | b'\n')
}

/// The kind of a word: a keyword of the table, or a name.
fn word_kind(table: &[(&str, Keyword)], text: &[u8]) -> Kind {
    for (spelling, keyword) in table {
        if spelling.as_bytes() == text {
            return Kind::Keyword(*keyword);
        }
    }
    Kind::Name
}

fn word_at(bytes: &[u8]) -> Scanned {
    let length = bytes.iter().take_while(|b| is_word_byte(**b)).count();
    let kind = word_kind(&KEYWORDS, bytes.get(..length).unwrap_or(bytes));
    (length, Ok(kind))
}

fn symbol_at(table: &[(&str, Symbol)], bytes: &[u8]) -> Option<Scanned> {
    for (spelling, symbol) in table {
        if bytes.starts_with(spelling.as_bytes()) {
            return Some((spelling.len(), Ok(Kind::Symbol(*symbol))));
        }
    }
    None
}

/// A sign of another language that stands at the front.
fn foreign_at(table: &[(&str, &'static str)], bytes: &[u8]) -> Option<Scanned> {
    for (spelling, instead) in table {
        if bytes.starts_with(spelling.as_bytes()) {
            return Some((spelling.len(), Err(TokenFault::Foreign(*instead))));
        }
    }
    None
}

fn sign_at(bytes: &[u8]) -> Scanned {
    if let Some(foreign) = foreign_at(&FOREIGN, bytes) {
        return foreign;
    }
    if let Some(symbol) = symbol_at(&SYMBOLS, bytes) {
        return symbol;
    }
    match foreign_at(&FOREIGN_BYTES, bytes) {
        Some(foreign) => foreign,
        None => (1, Err(TokenFault::NoToken)),
    }
}

/// The value of a digit in this base, if it is one.
fn digit_of(byte: u8, base: u64) -> Option<u64> {
    let value = match byte {
        b'0'..=b'9' => byte - b'0',
        b'a'..=b'f' => byte - b'a' + 10,
        b'A'..=b'F' => byte - b'A' + 10,
        _ => return None,
    };
    Some(u64::from(value)).filter(|v| *v < base)
}

fn is_of_number(byte: u8, base: u64) -> bool {
    byte == b'_' || digit_of(byte, base).is_some()
}

/// The number that these digits, with `_` between them, are.
fn number_of(digits: &[u8], base: u64) -> Result<Kind, TokenFault> {
    let mut value: u64 = 0;
    let mut last = b'_';
    for byte in digits {
        if *byte == b'_' && last == b'_' {
            return Err(TokenFault::MisplacedUnderscore);
        }
        last = *byte;
        if let Some(digit) = digit_of(*byte, base) {
            let Some(next) = value.checked_mul(base).and_then(|v| v.checked_add(digit)) else {
                return Err(TokenFault::NumberTooLarge);
            };
            value = next;
        }
    }
    if last == b'_' {
        return Err(TokenFault::MisplacedUnderscore);
    }
    Ok(Kind::Number(value))
}

fn number_at(bytes: &[u8]) -> Scanned {
    let (base, before) = match bytes {
        [b'0', b'x', digit, ..] if is_of_number(*digit, 16) => (16, 2),
        [b'0', b'b', digit, ..] if is_of_number(*digit, 2) => (2, 2),
        _ => (10, 0),
    };
    let digits = bytes.get(before..).unwrap_or(&[]);
    let length = digits
        .iter()
        .take_while(|b| is_of_number(**b, base))
        .count();
    let number = number_of(digits.get(..length).unwrap_or(&[]), base);
    (length.saturating_add(before), number)
}

/// The name of a file in quotes, which ends in the line in which it begins.
fn quoted_at(bytes: &[u8]) -> Scanned {
    let inner = bytes.get(1..).unwrap_or(&[]);
    let length = inner
        .iter()
        .take_while(|byte| **byte != b'"' && **byte != b'\n')
        .count();
    match inner.get(length) {
        Some(b'"') => (length.saturating_add(2), Ok(Kind::FileName)),
        _ => (1, Err(TokenFault::QuoteOpen)),
    }
}

/// What stands at the front of these bytes; of no bytes, nothing of length 1.
pub(crate) fn scan(bytes: &[u8]) -> Scanned {
    let first = bytes.first().copied().unwrap_or(0);
    if is_word_start(first) {
        word_at(bytes)
    } else if first.is_ascii_digit() {
        number_at(bytes)
    } else if first == b'"' {
        quoted_at(bytes)
    } else {
        sign_at(bytes)
    }
}
