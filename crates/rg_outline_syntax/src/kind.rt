//! The kinds of tokens.

use crate::infix::Infix;

/// What a token is.
#[derive(Clone, Copy, PartialEq, Eq)]
pub enum Kind {
    /// A name; `in`, `but`, `mod`, `aux`, `use` and `interrupts` are names, too, which the grammar reads as words of its own where no name can stand.
    Name,
    /// A number with its value.
    Number(u64),
    Keyword(Keyword),
    Symbol(Symbol),
    /// The name of a file, in quotes.
    FileName,
    /// The end of a file, after its last token.
    End,
}

/// A word that names nothing.
#[derive(Clone, Copy, PartialEq, Eq)]
pub enum Keyword {
    Words,
    Fixed,
    Pre,
    Rely,
    Guar,
    Post,
    Part,
    Begin,
    End,
    Skip,
    Await,
    Do,
    If,
    Then,
    Else,
    While,
    Not,
    True,
    False,
    Inv,
    /// A word between two expressions.
    Infix(Infix),
    Atomic,
    Let,
    Invariant,
    Owns,
    Unchanged,
    Keeps,
    All,
    Some,
    Sum,
    For,
    /// A keyword of the language below that no outline has.
    Reserved,
}

/// A sign.
#[derive(Clone, Copy, PartialEq, Eq)]
pub enum Symbol {
    OpenParenthesis,
    CloseParenthesis,
    OpenBrace,
    CloseBrace,
    OpenBracket,
    CloseBracket,
    Colon,
    Semicolon,
    Comma,
    Dots,
    Assign,
    Prime,
    /// A sign between two expressions.
    Infix(Infix),
}
