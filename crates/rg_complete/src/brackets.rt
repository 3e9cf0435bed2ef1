//! Which `end` belongs to which keyword.

use rg_outline_syntax::{Keyword, Kind, Span, Symbol, Tokens};
use std::alloc::{AllocError, Global};

/// A keyword after which a block stands, and the `end` of that.
#[derive(Clone, Copy)]
pub(crate) struct Bracket {
    pub(crate) opener: Span,
    pub(crate) end: Span,
}

/// Whether a token opens what an `end` closes. An `if` in parentheses is a value.
fn opens(tokens: &Tokens, index: usize) -> bool {
    let before = index.checked_sub(1).map(|before| tokens.at(before).kind);
    match tokens.at(index).kind {
        Kind::Keyword(Keyword::Begin | Keyword::Do | Keyword::Atomic) => true,
        Kind::Keyword(Keyword::If) => before != Some(Kind::Symbol(Symbol::OpenParenthesis)),
        _ => false,
    }
}

/// The keywords with their `end`, in the order of these.
pub(crate) fn brackets_of(alloc: Global, tokens: &Tokens) -> Result<Vec<Bracket>, AllocError> {
    let mut open = Vec::new(alloc);
    let mut brackets = Vec::new(alloc);
    for index in 0..tokens.len() {
        let token = tokens.at(index);
        if opens(tokens, index) {
            open.push(token.span)?;
        } else if token.kind == Kind::Keyword(Keyword::End)
            && let Some(opener) = open.pop()
        {
            let end = token.span;
            brackets.push(Bracket { opener, end })?;
        }
    }
    Ok(brackets)
}

/// The `end` of the first keyword that stands at this place or after it, and closes there.
pub(crate) fn end_of(brackets: &[Bracket], opener: Span) -> Option<Span> {
    brackets
        .iter()
        .find(|bracket| bracket.opener.start == opener.start)
        .map(|bracket| bracket.end)
}

/// The `begin` and the `end` of the body of a part, by the place of the part.
pub(crate) fn body_of(brackets: &[Bracket], part: Span) -> Option<Bracket> {
    brackets
        .iter()
        .filter(|bracket| part.start <= bracket.opener.start && bracket.end.end <= part.end)
        .last()
        .copied()
}
