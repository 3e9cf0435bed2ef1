//! Formulas and values, by precedence.

use crate::infix::{COMPARISON, IMPLICATION, Infix, LEAF, UNIT, VALUE, infix_of};
use crate::outlines::INTERRUPTS;
use crate::parser::{DEEPEST, Parser};
use crate::written::{Binder, ExpressionKind, List, Range};
use crate::{Keyword, Kind, ShapeFault, Span, Symbol};

impl Parser<'_> {
    /// A formula or a value; which one it is, is asked later.
    pub(crate) fn formula(&mut self) -> usize {
        self.climb(IMPLICATION, DEEPEST)
    }

    /// The infix operator that is next, where it binds at least as tightly as the one level and at most as the other.
    fn infix_within(&self, least: u8, most: u8) -> Option<Infix> {
        let is_modulus = self.is_word(b"mod");
        infix_of(self.token().kind, is_modulus).filter(|infix| least <= infix.level()
            && infix.level() <= most)
    }

    /// An expression whose operators outside parentheses bind at least as tightly as this level.
    #[cycle(expressions)]
    pub(crate) fn climb(&mut self, least: u8, depth: u32) -> usize {
        let start = self.span();
        if depth == 0 {
            return self.refuse(ShapeFault::TooDeep);
        }
        let is_unit = least <= UNIT && self.begins_unit();
        let mut level = if is_unit { UNIT } else { LEAF };
        let mut left = if is_unit {
            self.unit(depth - 1)
        } else {
            self.leaf(depth - 1)
        };
        let mut last = (start, None);
        for _ in 0..self.tokens.len() {
            let Some(infix) = self.infix_within(least, level) else {
                break;
            };
            if infix.level() == level && !infix.may_follow(last.1) {
                self.refuse(infix.misplaced(last.0));
                break;
            }
            last = (self.span(), Some(infix));
            self.step();
            level = infix.level();
            let right = self.climb(level.saturating_add(1), depth - 1);
            left = self.add(start, infix.joined(left, right));
        }
        left
    }

    /// Whether a form comes next that stands looser than a comparison.
    fn begins_unit(&self) -> bool {
        matches!(
            self.token().kind,
            Kind::Keyword(
                Keyword::Not | Keyword::Keeps | Keyword::Unchanged | Keyword::All | Keyword::Some
            )
        )
    }

    /// `not`, `keeps`, `unchanged` or a quantifier.
    #[cycle(expressions)]
    fn unit(&mut self, depth: u32) -> usize {
        let start = self.span();
        let kind = self.token().kind;
        self.step();
        match kind {
            Kind::Keyword(Keyword::Not) => {
                let formula = self.climb(UNIT, depth);
                self.add(start, ExpressionKind::Not(formula))
            }
            Kind::Keyword(Keyword::Keeps) => {
                let formula = self.climb(UNIT, depth);
                self.add(start, ExpressionKind::Keeps(formula))
            }
            Kind::Keyword(Keyword::Unchanged) => {
                let is_all = self.takes(Kind::Keyword(Keyword::All));
                let mut words = List::EMPTY;
                if !is_all || self.takes_word(b"but") {
                    words = self.words(depth);
                }
                let kind = if is_all {
                    ExpressionKind::UnchangedBut(words)
                } else {
                    ExpressionKind::Unchanged(words)
                };
                self.add(start, kind)
            }
            Kind::Keyword(Keyword::All) => self.bound(start, Binder::All, depth),
            _ => self.bound(start, Binder::Some, depth),
        }
    }

    /// A quantifier or a sum, after its keyword.
    #[cycle(expressions)]
    fn bound(&mut self, start: Span, binder: Binder, depth: u32) -> usize {
        let index = self.index_name();
        let range = self.range(true, depth);
        self.want(Kind::Symbol(Symbol::Colon), "`:` is wanted here, or `but`");
        let is_sum = binder == Binder::Sum;
        let body = self.climb(if is_sum { VALUE } else { IMPLICATION }, depth);
        if is_sum {
            self.want_closed();
        }
        let kind = ExpressionKind::Bound {
            binder,
            index,
            range,
            body,
        };
        self.add(start, kind)
    }

    /// A number, a truth, a name, or what stands in parentheses.
    #[cycle(expressions)]
    fn leaf(&mut self, depth: u32) -> usize {
        let start = self.span();
        let kind = self.token().kind;
        match kind {
            Kind::Name => self.named(depth),
            Kind::Number(number) => {
                self.step();
                self.add(start, ExpressionKind::Number(number))
            }
            Kind::Keyword(Keyword::True | Keyword::False) => {
                self.step();
                let is_true = kind == Kind::Keyword(Keyword::True);
                self.add(start, ExpressionKind::Truth(is_true))
            }
            Kind::Keyword(Keyword::Inv) => {
                self.step();
                let value = self.climb(LEAF, depth);
                self.add(start, ExpressionKind::Inverse(value))
            }
            Kind::Symbol(Symbol::OpenParenthesis) => self.closed(depth),
            Kind::Keyword(Keyword::Sum) => self.refuse(ShapeFault::ValueIsBare("`sum ..`")),
            Kind::Keyword(Keyword::If) => self.refuse(ShapeFault::ValueIsBare("`if ..`")),
            _ => self.refuse(ShapeFault::NameWanted("a formula or a value")),
        }
    }

    /// What stands in parentheses, with them.
    #[cycle(expressions)]
    fn closed(&mut self, depth: u32) -> usize {
        let start = self.span();
        self.step();
        if self.takes(Kind::Keyword(Keyword::Sum)) {
            return self.bound(start, Binder::Sum, depth);
        }
        if self.takes(Kind::Keyword(Keyword::If)) {
            let test = self.climb(IMPLICATION, depth);
            self.want(Kind::Keyword(Keyword::Then), "`then` is wanted here");
            let yes = self.chosen(depth);
            self.want(Kind::Keyword(Keyword::Else), "`else` is wanted here");
            let no = self.chosen(depth);
            self.want_closed();
            return self.add(start, ExpressionKind::Choice { test, yes, no });
        }
        let inner = self.climb(IMPLICATION, depth);
        self.want_closed();
        if self.is_next(Kind::Symbol(Symbol::Prime)) {
            self.refuse(ShapeFault::GroupPrimed);
        }
        self.add(start, ExpressionKind::Group(inner))
    }

    /// A value that an `if` gives.
    #[cycle(expressions)]
    fn chosen(&mut self, depth: u32) -> usize {
        if self.begins_unit() {
            return self.refuse(ShapeFault::ChoiceOfFormulas);
        }
        let value = self.climb(VALUE, depth);
        if self.infix_within(IMPLICATION, COMPARISON).is_some() {
            self.refuse(ShapeFault::ChoiceOfFormulas);
        }
        value
    }

    /// Goes on after a `)`, which has to be next.
    pub(crate) fn want_closed(&mut self) {
        self.want(Kind::Symbol(Symbol::CloseParenthesis), "`)` is wanted here");
    }

    /// A name with its arguments or indices, primed or not.
    #[cycle(expressions)]
    fn named(&mut self, depth: u32) -> usize {
        let name = self.span();
        self.step();
        let has_arguments = self.takes(Kind::Symbol(Symbol::OpenParenthesis));
        let listed = if has_arguments {
            self.separated(IMPLICATION, depth)
        } else {
            self.brackets(false, depth)
        };
        if has_arguments {
            self.want_closed();
        }
        let is_primed = self.takes(Kind::Symbol(Symbol::Prime));
        let kind = ExpressionKind::Name {
            name,
            listed,
            has_arguments,
            is_primed,
        };
        self.add(name, kind)
    }

    /// Expressions with commas between them.
    #[cycle(expressions)]
    fn separated(&mut self, least: u8, depth: u32) -> List {
        let mark = self.mark();
        for _ in 0..self.tokens.len() {
            let item = self.climb(least, depth);
            self.hold(item);
            if !self.takes(Kind::Symbol(Symbol::Comma)) {
                break;
            }
        }
        self.close(mark)
    }

    /// Indices or ranges, each in brackets.
    #[cycle(expressions)]
    pub(crate) fn brackets(&mut self, are_ranges: bool, depth: u32) -> List {
        let mark = self.mark();
        for _ in 0..self.tokens.len() {
            if !self.takes(Kind::Symbol(Symbol::OpenBracket)) {
                break;
            }
            let item = if are_ranges {
                self.range(false, depth)
            } else {
                self.climb(VALUE, depth)
            };
            self.hold(item);
            self.want(Kind::Symbol(Symbol::CloseBracket), "`]` is wanted here");
        }
        self.close(mark)
    }

    /// A word with its indices.
    #[cycle(expressions)]
    pub(crate) fn word(&mut self, depth: u32) -> usize {
        let name = self.name("the name of a word");
        let kind = ExpressionKind::Name {
            name,
            listed: self.brackets(false, depth),
            has_arguments: false,
            is_primed: false,
        };
        self.add(name, kind)
    }

    /// One or more words.
    #[cycle(expressions)]
    pub(crate) fn words(&mut self, depth: u32) -> List {
        let mark = self.mark();
        for _ in 0..self.tokens.len() {
            let word = self.word(depth);
            self.hold(word);
            if !self.is_next(Kind::Name) || self.ends_words() {
                break;
            }
        }
        self.close(mark)
    }

    /// Whether the next name ends a list of words, as it begins a head: it is `interrupts` before a name, and no word is named so.
    fn ends_words(&self) -> bool {
        let mut declared = self.written.declarations.iter();
        self.is_word(INTERRUPTS)
            && self.kind_after() == Kind::Name
            && !declared.any(|word| word.name.of(self.source) == INTERRUPTS)
    }

    /// The name of an index, up to its range.
    pub(crate) fn index_name(&mut self) -> Span {
        let index = self.name("an index name");
        if !self.takes_word(b"in") {
            self.refuse(ShapeFault::Wanted("`in` is wanted here"));
        }
        index
    }

    /// A range, which may leave out numbers or not.
    #[cycle(expressions)]
    pub(crate) fn range(&mut self, may_leave_out: bool, depth: u32) -> usize {
        let start = self.span();
        let first = self.climb(VALUE, depth);
        self.want(Kind::Symbol(Symbol::Dots), "`..` is wanted here");
        let last = self.climb(VALUE, depth);
        let mut without = List::EMPTY;
        if may_leave_out && self.takes_word(b"but") {
            without = self.separated(VALUE, depth);
        }
        let range = Range {
            first,
            last,
            without,
            span: self.since(start),
        };
        let index = self.written.ranges.len();
        let stored = self.written.ranges.push(range);
        self.want_stored(stored.is_ok());
        index
    }
}
