//! What the parser has read, and the tokens before it. A fault is kept in the parser, and no call gives it back.

use crate::written::{Expression, ExpressionKind, Head, List, Written};
use crate::{Fault, FaultKind, Kind, ShapeFault, Span, Token, Tokens};
use std::alloc::Global;

/// How deep expressions, and blocks, may stand within one another.
pub(crate) const DEEPEST: u32 = 1_000;

/// A parser: the tokens with the place of the next one, and what was read.
#[derive(Drop)]
pub(crate) struct Parser<'a> {
    pub(crate) source: &'a [u8],
    pub(crate) tokens: &'a Tokens,
    pub(crate) place: usize,
    pub(crate) written: Written,
    /// The first fault. From then on the parser stands at the end of the tokens, where nothing more is read.
    pub(crate) fault: Option<Fault>,
    /// The last `if` of the part that stands directly after an `else`.
    pub(crate) after_else: Option<Span>,
    /// The first keyword of the part whose `end` begins a line further to the left than its own.
    pub(crate) outdented: Option<Span>,
    /// The heads of all files that stand before words, and those that follow them.
    pub(crate) before_words: Vec<Head>,
    pub(crate) following_words: Vec<Head>,
    /// The items of the lists that aren't closed yet.
    pending: Vec<usize>,
}

impl<'a> Parser<'a> {
    pub(crate) fn new(alloc: Global, source: &'a [u8], tokens: &'a Tokens) -> Parser<'a> {
        Parser {
            source,
            tokens,
            place: 0,
            written: Written::new(alloc),
            fault: None,
            after_else: None,
            outdented: None,
            before_words: Vec::new(alloc),
            following_words: Vec::new(alloc),
            pending: Vec::new(alloc),
        }
    }

    /// The next token.
    pub(crate) fn token(&self) -> Token {
        self.tokens.at(self.place)
    }

    /// Where the next token stands.
    pub(crate) fn span(&self) -> Span {
        self.token().span
    }

    /// Goes on after the next token.
    pub(crate) fn step(&mut self) {
        self.place = self.place.saturating_add(1);
    }

    /// How far from the beginning of its line a place is, where only white space stands before it there.
    pub(crate) fn indent_of(&self, place: Span) -> Option<usize> {
        let before = self.source.get(..place.start).unwrap_or(&[]);
        let indent = before.iter().rev().take_while(|b| **b != b'\n').count();
        let spaces = before
            .iter()
            .rev()
            .take_while(|b| matches!(**b, b' ' | b'\t'))
            .count();
        if spaces == indent { Some(indent) } else { None }
    }

    /// From the beginning of a span to the end of the last token that was read.
    pub(crate) fn since(&self, start: Span) -> Span {
        start.to(self.tokens.at(self.place.saturating_sub(1)).span)
    }

    /// Whether the next token is of this kind.
    pub(crate) fn is_next(&self, kind: Kind) -> bool {
        self.token().kind == kind
    }

    /// Whether the next token is a name with this text.
    pub(crate) fn is_word(&self, text: &[u8]) -> bool {
        self.is_next(Kind::Name) && self.span().of(self.source) == text
    }

    /// Goes on after the next token where this is so; whether it is.
    fn step_if(&mut self, is_so: bool) -> bool {
        if is_so {
            self.step();
        }
        is_so
    }

    /// Goes on after a token of this kind where it is next; whether it is.
    pub(crate) fn takes(&mut self, kind: Kind) -> bool {
        self.step_if(self.is_next(kind))
    }

    /// Goes on after a name with this text where it is next; whether it is.
    pub(crate) fn takes_word(&mut self, text: &[u8]) -> bool {
        self.step_if(self.is_word(text))
    }

    /// Keeps a fault, where it is the first, and goes to the end of the tokens.
    fn stop(&mut self, fault: Fault) {
        if self.fault.is_none() {
            self.fault = Some(fault);
        }
        self.place = self.tokens.len();
    }

    /// Refuses what stands at a place. Gives an index that stands for what isn't there.
    pub(crate) fn refuse_at(&mut self, fault: ShapeFault, span: Span) -> usize {
        let kind = FaultKind::Shape(fault);
        self.stop(Fault { kind, span });
        0
    }

    /// Refuses the next token. Gives an index that stands for what isn't there.
    pub(crate) fn refuse(&mut self, fault: ShapeFault) -> usize {
        let span = self.span();
        self.refuse_at(fault, span)
    }

    /// Refuses the outline where memory was refused for what had to be stored.
    pub(crate) fn want_stored(&mut self, is_stored: bool) {
        if !is_stored {
            self.stop(Fault::memory());
        }
    }

    /// Goes on after a token of this kind, which has to be next.
    pub(crate) fn want(&mut self, kind: Kind, wanted: &'static str) {
        if !self.takes(kind) {
            self.refuse(ShapeFault::Wanted(wanted));
        }
    }

    /// A name of what is said, which has to be next: where it stands.
    pub(crate) fn name(&mut self, what: &'static str) -> Span {
        let token = self.token();
        match token.kind {
            Kind::Name => self.step(),
            Kind::Keyword(_) => {
                self.refuse(ShapeFault::KeywordIsNoName(what));
            }
            _ => {
                self.refuse(ShapeFault::NameWanted(what));
            }
        }
        token.span
    }

    /// Adds an expression that ends with the last token that was read.
    pub(crate) fn add(&mut self, start: Span, kind: ExpressionKind) -> usize {
        let span = self.since(start);
        let index = self.written.expressions.len();
        let stored = self.written.expressions.push(Expression { kind, span });
        self.want_stored(stored.is_ok());
        index
    }

    /// Where a new list begins among the items that aren't in closed lists.
    pub(crate) fn mark(&self) -> usize {
        self.pending.len()
    }

    /// Adds an item to the list that was opened last.
    pub(crate) fn hold(&mut self, item: usize) {
        let stored = self.pending.push(item);
        self.want_stored(stored.is_ok());
    }

    /// Closes the list that began at the mark.
    pub(crate) fn close(&mut self, mark: usize) -> List {
        let start = self.written.listed.len();
        if let Some(items) = self.pending.get(mark..) {
            let stored = self.written.listed.extend_from_slice(items);
            self.want_stored(stored.is_ok());
        }
        self.pending.truncate(mark);
        List::new(start, self.written.listed.len())
    }
}
