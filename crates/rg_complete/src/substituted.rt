//! Pieces of an outline with other texts in the place of names, and without primes.

use rg_outline_syntax::{Keyword, Kind, Span, Symbol, Tokens};
use std::alloc::{AllocError, Global};

/// A name for which a text stands, besides those of the environment before it.
#[derive(Drop)]
struct Binding {
    before: Option<usize>,
    name: Span,
    text: Vec<u8>,
}

/// What names stand for: environments by their numbers.
#[derive(Drop)]
pub(crate) struct Environments<'a> {
    pub(crate) alloc: Global,
    pub(crate) source: &'a [u8],
    pub(crate) tokens: &'a Tokens,
    bindings: Vec<Binding>,
}

/// Whether a token makes a formula of one state one of two.
fn is_of_steps(kind: Kind) -> bool {
    matches!(
        kind,
        Kind::Symbol(Symbol::Prime) | Kind::Keyword(Keyword::Keeps)
    )
}

/// Whether what stands between these needs no parentheses.
fn is_enclosed(before: Kind, after: Kind) -> bool {
    let opens = matches!(
        before,
        Kind::Symbol(Symbol::OpenBracket | Symbol::OpenParenthesis | Symbol::Comma)
    );
    let closes = matches!(
        after,
        Kind::Symbol(Symbol::CloseBracket | Symbol::CloseParenthesis | Symbol::Comma)
    );
    opens && closes
}

impl<'a> Environments<'a> {
    /// None.
    pub(crate) fn new(alloc: Global, source: &'a [u8], tokens: &'a Tokens) -> Environments<'a> {
        Environments {
            alloc,
            source,
            tokens,
            bindings: Vec::new(alloc),
        }
    }

    /// An environment in which a name stands for a text.
    pub(crate) fn with(
        &mut self,
        before: Option<usize>,
        name: Span,
        text: &[u8],
    ) -> Result<Option<usize>, AllocError> {
        let number = self.bindings.len();
        let text = Vec::from_slice(self.alloc, text)?;
        self.bindings.push(Binding { before, name, text })?;
        Ok(Some(number))
    }

    /// What a name stands for in an environment.
    fn found(&self, environment: Option<usize>, name: Span) -> Option<&[u8]> {
        let word = name.of(self.source);
        let mut now = environment;
        for _ in 0..self.bindings.len() {
            let binding = self.bindings.get(now?)?;
            if binding.name.of(self.source) == word {
                return Some(binding.text.as_slice());
            }
            now = binding.before;
        }
        None
    }

    /// Adds what a token stands for.
    fn push_token(
        &self,
        text: &mut Vec<u8>,
        index: usize,
        environment: Option<usize>,
    ) -> Result<(), AllocError> {
        let token = self.tokens.at(index);
        let stands_for = match token.kind {
            Kind::Name => self.found(environment, token.span),
            _ => None,
        };
        let Some(other) = stands_for else {
            return text.extend_from_slice(token.span.of(self.source));
        };
        let before = self.tokens.at(index.saturating_sub(1)).kind;
        let after = self.tokens.at(index.saturating_add(1)).kind;
        if !other.contains(&b' ') || is_enclosed(before, after) {
            return text.extend_from_slice(other);
        }
        text.push(b'(')?;
        text.extend_from_slice(other)?;
        text.push(b')')?;
        Ok(())
    }

    /// A piece of the outline in an environment, in one line, and without primes and `keeps`.
    pub(crate) fn text_of(
        &self,
        span: Span,
        environment: Option<usize>,
    ) -> Result<Vec<u8>, AllocError> {
        let mut text = Vec::new(self.alloc);
        let mut last = span.start;
        for index in 0..self.tokens.len() {
            let token = self.tokens.at(index);
            if token.span.start < span.start || token.span.end > span.end {
                continue;
            }
            if !is_of_steps(token.kind) {
                if token.span.start > last {
                    text.push(b' ')?;
                }
                self.push_token(&mut text, index, environment)?;
            }
            last = token.span.end;
        }
        Ok(text)
    }

    /// Whether a piece speaks of two states by more than primes and `keeps`.
    pub(crate) fn speaks_of_steps(&self, span: Span) -> bool {
        (0..self.tokens.len()).any(|index| {
            let token = self.tokens.at(index);
            span.start <= token.span.start
                && token.span.end <= span.end
                && matches!(token.kind, Kind::Keyword(Keyword::Unchanged))
        })
    }
}
