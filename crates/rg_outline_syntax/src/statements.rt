//! Statements, assertions and blocks.

use crate::infix::{LEAF, VALUE};
use crate::parser::{DEEPEST, Parser};
use crate::written::{Assignment, Item, ItemKind, List};
use crate::{Keyword, Kind, ShapeFault, Span, Symbol};

impl Parser<'_> {
    /// The statements and assertions up to what ends a block.
    #[cycle(statements)]
    pub(crate) fn block(&mut self, depth: u32) -> List {
        if depth == 0 {
            self.refuse(ShapeFault::TooDeep);
            return List::EMPTY;
        }
        let mark = self.mark();
        self.assertions();
        for _ in 0..self.tokens.len() {
            let item = self.statement(depth - 1);
            self.hold(item);
            let semicolon = self.span();
            if !self.takes(Kind::Symbol(Symbol::Semicolon)) {
                self.end_of_block();
                break;
            }
            self.assertions();
            self.refuse_last_semicolon(semicolon);
        }
        self.close(mark)
    }

    /// Refuses a `;` after which no statement follows.
    fn refuse_last_semicolon(&mut self, semicolon: Span) {
        match self.token().kind {
            Kind::Keyword(Keyword::End) => {
                self.refuse_at(ShapeFault::SemicolonBeforeEnd("`end`"), semicolon);
            }
            Kind::Keyword(Keyword::Else) => {
                self.refuse_at(ShapeFault::SemicolonBeforeEnd("`else`"), semicolon);
            }
            _ => {}
        }
    }

    /// The assertions after the last statement of a block.
    fn end_of_block(&mut self) {
        if !self.is_next(Kind::Symbol(Symbol::OpenBrace)) {
            return;
        }
        self.assertions();
        match self.token().kind {
            Kind::End | Kind::Keyword(Keyword::End | Keyword::Else | Keyword::Part) => {}
            Kind::Symbol(Symbol::Semicolon) => {
                self.refuse(ShapeFault::SemicolonAfterAssertion);
            }
            _ => {
                self.refuse(ShapeFault::SemicolonMissing);
            }
        }
    }

    /// Assertions, as many as there are.
    fn assertions(&mut self) {
        for _ in 0..self.tokens.len() {
            let start = self.span();
            if !self.takes(Kind::Symbol(Symbol::OpenBrace)) {
                break;
            }
            let formula = self.formula();
            if self.is_next(Kind::Symbol(Symbol::Assign)) {
                let openers = "`begin`, `then`, `else` or `do`";
                self.refuse(ShapeFault::BlockInBraces(openers));
            }
            self.want(Kind::Symbol(Symbol::CloseBrace), "`}` is wanted here");
            let item = self.add_item(self.since(start), ItemKind::Assertion(formula));
            self.hold(item);
        }
    }

    fn add_item(&mut self, span: Span, kind: ItemKind) -> usize {
        let index = self.written.items.len();
        let stored = self.written.items.push(Item { kind, span });
        self.want_stored(stored.is_ok());
        index
    }

    /// A statement.
    #[cycle(statements)]
    fn statement(&mut self, depth: u32) -> usize {
        let start = self.span();
        let kind = match self.token().kind {
            Kind::Keyword(Keyword::If) => return self.conditional(depth),
            Kind::Keyword(Keyword::While) => return self.while_loop(depth),
            Kind::Keyword(Keyword::For) => return self.for_each(depth),
            Kind::Keyword(Keyword::Await) => self.await_kind(),
            Kind::Keyword(Keyword::Skip) => {
                self.step();
                ItemKind::Skip
            }
            Kind::Keyword(Keyword::Atomic) => {
                self.step();
                ItemKind::Atomic(self.assignments(start))
            }
            Kind::Name if self.begins_use() => ItemKind::Use(self.climb(LEAF, DEEPEST)),
            Kind::Name => ItemKind::Assign(self.assignment()),
            _ => return self.refuse(ShapeFault::NameWanted("a statement")),
        };
        self.add_item(self.since(start), kind)
    }

    /// Whether the name that is next stands for statements: arguments come after it, or nothing of a statement.
    fn begins_use(&self) -> bool {
        matches!(
            self.kind_after(),
            Kind::End
                | Kind::Keyword(Keyword::End | Keyword::Else)
                | Kind::Symbol(Symbol::OpenParenthesis | Symbol::Semicolon | Symbol::OpenBrace)
        )
    }

    fn await_kind(&mut self) -> ItemKind {
        let start = self.span();
        self.step();
        let guard = self.formula();
        let mut assignments = None;
        if self.takes(Kind::Keyword(Keyword::Do)) {
            assignments = Some(self.assignments(start));
        }
        ItemKind::Await(guard, assignments)
    }

    /// Assignments with `;` between them, and the `end` after them. Before them stands this keyword.
    fn assignments(&mut self, opener: Span) -> List {
        let start = self.written.assignments.len();
        for _ in 0..self.tokens.len() {
            self.assignment();
            let semicolon = self.span();
            if !self.takes(Kind::Symbol(Symbol::Semicolon)) {
                break;
            }
            self.refuse_last_semicolon(semicolon);
        }
        self.want_end_of(opener, "`end` is wanted here, or `;` and an assignment");
        List::new(start, self.written.assignments.len())
    }

    fn assignment(&mut self) -> usize {
        let start = self.span();
        let target = self.word(DEEPEST);
        self.want(Kind::Symbol(Symbol::Assign), "`:=` is wanted here");
        let assignment = Assignment {
            target,
            value: self.climb(VALUE, DEEPEST),
            span: self.since(start),
        };
        let index = self.written.assignments.len();
        let stored = self.written.assignments.push(assignment);
        self.want_stored(stored.is_ok());
        index
    }

    /// An `if`, whose place is its test.
    #[cycle(statements)]
    fn conditional(&mut self, depth: u32) -> usize {
        let start = self.span();
        self.step();
        let test = self.formula();
        let span = self.since(start);
        self.want_opener(Keyword::Then, "`then`", "`then` is wanted here");
        let yes = self.block(depth);
        let mut no = None;
        if self.takes(Kind::Keyword(Keyword::Else)) {
            self.note_else_if();
            no = Some(self.block(depth));
            self.want_end(start);
        } else {
            let wanted = "`end` is wanted here, or `else`, or `;` and a statement";
            self.want_end_of(start, wanted);
        }
        self.add_item(span, ItemKind::If { test, yes, no })
    }

    /// Notes the next token where it is an `if`, which stands directly after an `else`.
    fn note_else_if(&mut self) {
        if self.is_next(Kind::Keyword(Keyword::If)) {
            self.after_else = Some(self.span());
        }
    }

    /// Goes on after the keyword between which and `end` a block stands, which has to be next.
    pub(crate) fn want_opener(
        &mut self,
        opener: Keyword,
        shown: &'static str,
        wanted: &'static str,
    ) {
        if self.is_next(Kind::Symbol(Symbol::OpenBrace)) {
            self.refuse(ShapeFault::BlockInBraces(shown));
        }
        self.want(Kind::Keyword(opener), wanted);
    }

    /// Goes on after the `end` of a block, which has to be next. The block, or the statement with it, begins with this keyword.
    pub(crate) fn want_end(&mut self, opener: Span) {
        self.want_end_of(opener, "`end` is wanted here, or `;` and a statement");
    }

    /// Goes on after the `end` that belongs to this keyword, which has to be next. Where the part is over, the `end` is missing.
    fn want_end_of(&mut self, opener: Span, wanted: &'static str) {
        if matches!(self.token().kind, Kind::End | Kind::Keyword(Keyword::Part)) {
            self.refuse_open(opener);
        }
        self.note_outdented(opener);
        self.want(Kind::Keyword(Keyword::End), wanted);
    }

    /// Notes a keyword whose `end` is next, where that begins a line further to the left: then it is perhaps not meant for it.
    fn note_outdented(&mut self, opener: Span) {
        if let (Some(own), Some(last)) = (self.indent_of(opener), self.indent_of(self.span()))
            && last < own
            && self.outdented.is_none()
        {
            self.outdented = Some(opener);
        }
    }

    /// Refuses a keyword that has no `end`: the one whose `end` stands too far to the left; or an `if` directly after an `else`, as such an `if` is
    /// often given none; else the one that is open.
    fn refuse_open(&mut self, opener: Span) {
        match (self.outdented, self.after_else) {
            (Some(span), _) => self.refuse_at(ShapeFault::EndMissing, span),
            (None, Some(span)) => self.refuse_at(ShapeFault::ElseIfOpen, span),
            (None, None) => self.refuse_at(ShapeFault::EndMissing, opener),
        };
    }

    /// A `while`, whose place is its test.
    #[cycle(statements)]
    fn while_loop(&mut self, depth: u32) -> usize {
        let start = self.span();
        self.step();
        let test = self.formula();
        let span = self.since(start);
        let mut invariant = None;
        if self.takes(Kind::Keyword(Keyword::Invariant)) {
            invariant = Some(self.formula());
        }
        self.want_opener(Keyword::Do, "`do`", "`do` is wanted here");
        let body = self.block(depth);
        self.want_end(start);
        let kind = ItemKind::While {
            test,
            invariant,
            body,
        };
        self.add_item(span, kind)
    }

    #[cycle(statements)]
    fn for_each(&mut self, depth: u32) -> usize {
        let start = self.span();
        self.step();
        let index = self.index_name();
        let range = self.range(true, DEEPEST);
        self.want_opener(Keyword::Do, "`do`", "`do` is wanted here");
        let body = self.block(depth);
        self.want_end(start);
        self.add_item(self.since(start), ItemKind::For { index, range, body })
    }
}
