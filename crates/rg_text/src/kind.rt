//! The kinds of tokens.

use rg_words::operators::{Comparison, Operator, Shift};

/// What a token is.
#[derive(Clone, Copy, Debug, PartialEq, Eq)]
pub enum Kind {
    Name,
    Primed,
    Number,
    Fixed(Terminal),
}

/// A keyword or a symbol, which has one spelling.
#[derive(Clone, Copy, Debug, PartialEq, Eq)]
pub enum Terminal {
    Open,
    Close,
    Colon,
    Semicolon,
    Assign,
    Compare(Comparison),
    Operate(Operator),
    ShiftBy(Shift),
    Join(Junction),
    Imply(Conditional),
    Truth(bool),
    Not,
    Inv,
    If,
    Then,
    Else,
    Words,
    Show,
    Section(Keyword),
}

/// A connective that may stand between several formulas.
#[derive(Clone, Copy, Debug, PartialEq, Eq)]
pub enum Junction {
    And,
    Or,
}

/// A connective that stands between two formulas.
#[derive(Clone, Copy, Debug, PartialEq, Eq)]
pub enum Conditional {
    Implies,
    Iff,
}

/// The keywords that a formula doesn't have.
#[derive(Clone, Copy, Debug, PartialEq, Eq)]
pub enum Keyword {
    Fixed,
    Pre,
    Rely,
    Guar,
    Post,
    Part,
    Begin,
    End,
    Skip,
    Await,
    Do,
    While,
    Line,
    From,
    Basic,
    Atomic,
    Seq,
    Loop,
    Conseq,
    At,
}
