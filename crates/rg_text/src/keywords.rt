//! The keywords, by their text.

ghost use Rattle.std.specs.Prelude.{◌≡◌, drop};
ghost use Rattle.rg_text.specs.Spelling.{formula_keywords, section_keywords, looked_up, keyword_of};

use crate::kind::{Conditional, Junction, Keyword, Terminal};
use rg_words::operators::{Operator, Shift};

/// The keyword that the text is.
#[tactic(auto, unfolding(crate::specs::Spelling::keyword_of))]
pub(crate) fn keyword(text: &[u8]) -> Option<Terminal>
    ensures { result ≡ keyword_of text.now }
{
    if let Some(terminal) = formula_keyword(text) {
        return Some(terminal);
    }
    match section_keyword(text) {
        Some(keyword) => Some(Terminal::Section(keyword)),
        None => None,
    }
}

fn formula_keyword(text: &[u8]) -> Option<Terminal>
    ensures { result ≡ looked_up formula_keywords text.now }
{
    if text == b"words".as_slice() {
        Some(Terminal::Words)
    } else if text == b"show".as_slice() {
        Some(Terminal::Show)
    } else if text == b"if".as_slice() {
        Some(Terminal::If)
    } else if text == b"then".as_slice() {
        Some(Terminal::Then)
    } else if text == b"else".as_slice() {
        Some(Terminal::Else)
    } else {
        formula_keyword_from_5(text)
    }
}

/// The keywords of formulas, from the sixth on.
fn formula_keyword_from_5(text: &[u8]) -> Option<Terminal>
    ensures { result ≡ looked_up (drop 5 formula_keywords) text.now }
{
    if text == b"not".as_slice() {
        Some(Terminal::Not)
    } else if text == b"and".as_slice() {
        Some(Terminal::Join(Junction::And))
    } else if text == b"or".as_slice() {
        Some(Terminal::Join(Junction::Or))
    } else if text == b"implies".as_slice() {
        Some(Terminal::Imply(Conditional::Implies))
    } else if text == b"iff".as_slice() {
        Some(Terminal::Imply(Conditional::Iff))
    } else {
        formula_keyword_from_10(text)
    }
}

/// The keywords of formulas, from the eleventh on.
fn formula_keyword_from_10(text: &[u8]) -> Option<Terminal>
    ensures { result ≡ looked_up (drop 10 formula_keywords) text.now }
{
    if text == b"true".as_slice() {
        Some(Terminal::Truth(true))
    } else if text == b"false".as_slice() {
        Some(Terminal::Truth(false))
    } else if text == b"inv".as_slice() {
        Some(Terminal::Inv)
    } else if text == b"band".as_slice() {
        Some(Terminal::Operate(Operator::BitAnd))
    } else if text == b"bor".as_slice() {
        Some(Terminal::Operate(Operator::BitOr))
    } else {
        formula_keyword_from_15(text)
    }
}

/// The keywords of formulas, from the sixteenth on.
fn formula_keyword_from_15(text: &[u8]) -> Option<Terminal>
    ensures { result ≡ looked_up (drop 15 formula_keywords) text.now }
{
    if text == b"bxor".as_slice() {
        Some(Terminal::Operate(Operator::BitXor))
    } else if text == b"shl".as_slice() {
        Some(Terminal::ShiftBy(Shift::Left))
    } else if text == b"shr".as_slice() {
        Some(Terminal::ShiftBy(Shift::Right))
    } else {
        None
    }
}

fn section_keyword(text: &[u8]) -> Option<Keyword>
    ensures { result ≡ looked_up section_keywords text.now }
{
    if text == b"fixed".as_slice() {
        Some(Keyword::Fixed)
    } else if text == b"pre".as_slice() {
        Some(Keyword::Pre)
    } else if text == b"rely".as_slice() {
        Some(Keyword::Rely)
    } else if text == b"guar".as_slice() {
        Some(Keyword::Guar)
    } else if text == b"post".as_slice() {
        Some(Keyword::Post)
    } else {
        section_keyword_from_5(text)
    }
}

/// The keywords of sections, from the sixth on.
fn section_keyword_from_5(text: &[u8]) -> Option<Keyword>
    ensures { result ≡ looked_up (drop 5 section_keywords) text.now }
{
    if text == b"part".as_slice() {
        Some(Keyword::Part)
    } else if text == b"begin".as_slice() {
        Some(Keyword::Begin)
    } else if text == b"end".as_slice() {
        Some(Keyword::End)
    } else if text == b"skip".as_slice() {
        Some(Keyword::Skip)
    } else if text == b"await".as_slice() {
        Some(Keyword::Await)
    } else {
        section_keyword_from_10(text)
    }
}

/// The keywords of sections, from the eleventh on.
fn section_keyword_from_10(text: &[u8]) -> Option<Keyword>
    ensures { result ≡ looked_up (drop 10 section_keywords) text.now }
{
    if text == b"do".as_slice() {
        Some(Keyword::Do)
    } else if text == b"while".as_slice() {
        Some(Keyword::While)
    } else if text == b"line".as_slice() {
        Some(Keyword::Line)
    } else if text == b"from".as_slice() {
        Some(Keyword::From)
    } else if text == b"basic".as_slice() {
        Some(Keyword::Basic)
    } else {
        section_keyword_from_15(text)
    }
}

/// The keywords of sections, from the sixteenth on.
fn section_keyword_from_15(text: &[u8]) -> Option<Keyword>
    ensures { result ≡ looked_up (drop 15 section_keywords) text.now }
{
    if text == b"atomic".as_slice() {
        Some(Keyword::Atomic)
    } else if text == b"seq".as_slice() {
        Some(Keyword::Seq)
    } else if text == b"loop".as_slice() {
        Some(Keyword::Loop)
    } else if text == b"conseq".as_slice() {
        Some(Keyword::Conseq)
    } else if text == b"at".as_slice() {
        Some(Keyword::At)
    } else {
        None
    }
}
