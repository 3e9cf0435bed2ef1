//! The tokens of an outline.

use crate::fault::{Fault, TokenFault};
use crate::files::{SEPARATOR, line_len};
use crate::kind::{Kind, Symbol};
use crate::scan::{gap_len, scan};
use crate::span::{Span, mark_len};
use rg_words::limits::MOST_TEXT_BYTES;
use std::alloc::Global;

/// A token: what it is, and where it stands in the source.
#[derive(Clone, Copy)]
pub struct Token {
    pub kind: Kind,
    pub span: Span,
}

/// The tokens of a source, in the order of the text, with `End` at the end of each used file. After the last stands `End`, as often as one asks.
#[derive(Drop)]
pub struct Tokens {
    tokens: Vec<Token>,
    /// The index of the first one of the outline's own file.
    own: usize,
    /// The byte after the last one.
    end: usize,
}

impl Tokens {
    /// The tokens of a source.
    ///
    /// # Errors
    ///
    /// - `TokenFault::TooManyBytes` where the source has more than `MOST_TEXT_BYTES` bytes; before all else.
    /// - The first other `TokenFault` of the source, at its place.
    /// - `FaultKind::Memory` where memory is refused.
    pub fn read(alloc: Global, source: &[u8]) -> Result<Tokens, Fault> {
        Tokens::read_with(alloc, source, true)
    }

    /// The tokens of a file that is no outline, and has no head lines.
    ///
    /// # Errors
    ///
    /// As `read`.
    pub fn read_alone(alloc: Global, source: &[u8]) -> Result<Tokens, Fault> {
        Tokens::read_with(alloc, source, false)
    }

    /// The tokens of a source, with head lines or without.
    fn read_with(alloc: Global, source: &[u8], has_heads: bool) -> Result<Tokens, Fault> {
        if source.len() > MOST_TEXT_BYTES {
            return Err(Fault::token(TokenFault::TooManyBytes, Span::NOWHERE));
        }
        let mut tokens = Tokens {
            tokens: Vec::new(alloc),
            own: 0,
            end: mark_len(source),
        };
        tokens.cut(source, has_heads)?;
        Ok(tokens)
    }

    /// The token at an index; past the last one, `End`.
    pub fn at(&self, index: usize) -> Token {
        match self.tokens.get(index) {
            Some(token) => *token,
            None => self.end_token(),
        }
    }

    /// The end after the last token so far.
    fn end_token(&self) -> Token {
        let (start, end) = (self.end, self.end);
        Token {
            kind: Kind::End,
            span: Span { start, end },
        }
    }

    /// The index of the first token of the outline's own file.
    pub(crate) fn own(&self) -> usize {
        self.own
    }

    /// How many there are, without the end.
    pub fn len(&self) -> usize {
        self.tokens.len()
    }

    /// Adds the tokens of a source.
    fn cut(&mut self, source: &[u8], has_heads: bool) -> Result<(), Fault> {
        for _ in 0..source.len() {
            let gap = gap_len(source.get(self.end..).unwrap_or(&[]));
            let start = self.end.saturating_add(gap);
            let rest = source.get(start..).unwrap_or(&[]);
            match rest.first() {
                None => return Ok(()),
                Some(byte) if has_heads && *byte == SEPARATOR => self.begin_file(start, rest)?,
                Some(_) => self.take(start, rest, gap > 0)?,
            }
        }
        Ok(())
    }

    /// Begins a file, whose head line is at the front of the rest; the one before it ends.
    fn begin_file(&mut self, start: usize, rest: &[u8]) -> Result<(), Fault> {
        if start > 0 {
            let end = self.end_token();
            self.tokens.push(end)?;
        }
        self.own = self.tokens.len();
        let head = line_len(rest).saturating_add(1);
        let mark = mark_len(rest.get(head..).unwrap_or(&[]));
        self.end = start.saturating_add(head).saturating_add(mark);
        Ok(())
    }

    /// Adds the token at the front of the rest, which stands after a gap or not.
    fn take(&mut self, start: usize, rest: &[u8], is_apart: bool) -> Result<(), Fault> {
        let (length, scanned) = scan(rest);
        let end = start.saturating_add(length);
        let token = checked(scanned, Span { start, end }, is_apart)?;
        self.tokens.push(token)?;
        self.end = end;
        Ok(())
    }
}

/// The token that was scanned here, after a gap or not.
fn checked(kind: Result<Kind, TokenFault>, span: Span, is_apart: bool) -> Result<Token, Fault> {
    match kind {
        Ok(Kind::Symbol(Symbol::Prime)) if is_apart || span.start == 0 => {
            Err(Fault::token(TokenFault::PrimeApart, span))
        }
        Ok(kind) => Ok(Token { kind, span }),
        Err(fault) => Err(Fault::token(fault, span)),
    }
}
