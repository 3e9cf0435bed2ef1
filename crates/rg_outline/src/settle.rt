//! What holds where no assertion is written.

use crate::expansion::{
    Action, Assertion, Block, BlockRow, DEEPEST, Expansion, Origin, OutlinePart, Statement, add,
    add_all,
};
use rg_outline_syntax::{Junction, MeaningFault, Span, Standing};
use rg_outline_terms::{Root, bit_of};

/// What is wanted at the end of a block or after a statement, and the words that nobody else changes, as bits.
#[derive(Clone, Copy)]
struct Aim {
    goal: Option<Assertion>,
    stable: u64,
}

impl Expansion<'_> {
    /// The assertion that a block begins with.
    pub(crate) fn leading(&self, block: usize) -> Option<Assertion> {
        match self.rows_of(self.block(block).rows).first() {
            Some(BlockRow::Assertion(assertion)) => Some(*assertion),
            _ => None,
        }
    }

    /// The assertion that a block ends with.
    fn trailing(&self, block: usize) -> Option<Assertion> {
        match self.rows_of(self.block(block).rows).last() {
            Some(BlockRow::Assertion(assertion)) => Some(*assertion),
            _ => None,
        }
    }

    /// What is written at the ends of both branches of an `if`, where that is the same.
    fn agreed(&self, statement: Statement) -> Option<Assertion> {
        let (yes, no) = statement.blocks;
        let first = self.trailing(yes)?;
        let second = self.trailing(no)?;
        if self.scope.forest.is_equal(first.full, second.full) {
            Some(carried_on(first))
        } else {
            None
        }
    }

    /// Finds what holds in the body of a part, whose `pre` is known. Faults are `MeaningFault::TooDeep` and `MeaningFault::TooLarge`, and
    /// `FaultKind::Memory`.
    pub(crate) fn settle_body(&mut self, part: OutlinePart) {
        let goal = part.last;
        let mut stable = part.owned_bits;
        for (word, known) in self.scope.words.iter().enumerate() {
            if known.standing == Standing::Fixed {
                stable |= bit_of(word);
            }
        }
        self.settle(part.body, part.pre, Aim { goal, stable }, DEEPEST);
    }

    /// Notes what the rule around a block asks for.
    pub(crate) fn aim(&mut self, block: usize, around: Assertion, needed: usize, goal: Assertion) {
        if let Some(block) = self.blocks.get_mut(block) {
            block.around = around;
            block.needed = needed;
            block.goal = goal;
        }
    }

    /// Finds what holds in a block.
    #[cycle(settling)]
    fn settle(&mut self, index: usize, entry: Assertion, aim: Aim, depth: u32) {
        let block = self.block(index);
        if depth == 0 {
            self.scope.refuse(MeaningFault::TooDeep, block.span);
            return;
        }
        let mut now = entry;
        for place in block.rows.start..block.rows.end {
            now = match self.row(place) {
                BlockRow::Assertion(assertion) => assertion,
                BlockRow::Statement(statement) => {
                    let goal = self.wanted_after(place, block, aim.goal);
                    self.settle_statement(statement, now, Aim { goal, ..aim }, depth - 1)
                }
            };
        }
        let first = self.leading(index).unwrap_or(entry);
        if let Some(block) = self.blocks.get_mut(index) {
            block.first = first;
            block.last = now;
        }
    }

    /// The assertion that is written after the statement at a place of a block, or the one that is wanted at the block's end.
    fn wanted_after(
        &self,
        place: usize,
        block: Block,
        end: Option<Assertion>,
    ) -> Option<Assertion> {
        let next = place.saturating_add(1);
        match self.row(next) {
            _ if next >= block.rows.end => end,
            BlockRow::Assertion(assertion) => Some(assertion),
            BlockRow::Statement(_) => None,
        }
    }

    /// Finds what holds before, in and after a statement; what holds after it.
    #[cycle(settling)]
    fn settle_statement(
        &mut self,
        index: usize,
        now: Assertion,
        aim: Aim,
        depth: u32,
    ) -> Assertion {
        let mut statement = self.statement(index);
        statement.before = now;
        statement.at_test = statement.invariant.unwrap_or(now);
        statement.after = match (aim.goal, statement.action) {
            (Some(wanted), _) => wanted,
            (None, Action::While) => self.known_after_test(statement, false, aim.stable),
            (None, Action::If) => self.agreed(statement).unwrap_or(carried_on(now)),
            (None, _) => carried_on(now),
        };
        if let Some(slot) = self.statements.get_mut(index) {
            *slot = statement;
        }
        match statement.action {
            Action::While => self.settle_branch(statement, true, aim.stable, depth),
            Action::If => {
                self.settle_branch(statement, true, aim.stable, depth);
                self.settle_branch(statement, false, aim.stable, depth);
            }
            _ => {}
        }
        statement.after
    }

    /// Finds what holds in the block of a statement where its test holds, or in the one where it fails.
    #[cycle(settling)]
    fn settle_branch(&mut self, statement: Statement, holds: bool, stable: u64, depth: u32) {
        let (yes, no) = statement.blocks;
        let block = if holds { yes } else { no };
        let end = match statement.action {
            Action::While => statement.at_test,
            _ => statement.after,
        };
        let goal = Some(end);
        let entry = self.known_after_test(statement, holds, stable);
        self.settle(block, entry, Aim { goal, stable }, depth);
        let Statement {
            at_test,
            test,
            span,
            ..
        } = statement;
        let outcome = self.outcome(test, holds, span);
        let needed = self.both(at_test.full, outcome, span);
        self.aim(block, at_test, needed, end);
    }

    /// Two formulas together.
    fn both(&mut self, first: usize, second: usize, span: Span) -> usize {
        let root = Root::Join(Junction::And);
        let made = self.scope.forest.binary(root, first, second, span);
        self.scope.made(made)
    }

    /// The formula where it holds, or its denial.
    fn outcome(&mut self, formula: usize, holds: bool, span: Span) -> usize {
        if holds {
            return formula;
        }
        let made = self.scope.forest.unary(Root::Not, formula, span);
        self.scope.made(made)
    }

    /// What holds where a statement's test holds, or fails: what held before it, and what it says of words that nobody else changes.
    fn known_after_test(&mut self, statement: Statement, holds: bool, stable: u64) -> Assertion {
        let facts = self.facts_of(statement.test, holds, stable);
        let span = statement.span;
        let mut known = carried_on(statement.at_test);
        for fact in &facts {
            if !holds && self.scope.forest.is_truth(*fact, true) {
                let made = self.scope.forest.falsity(span);
                let falsity = self.scope.made(made);
                return self.asserted(falsity, span, Origin::Carried);
            }
            known = self.with_fact(Assertion { span, ..known }, *fact, holds);
        }
        known
    }

    /// What a test that holds, or fails, says of these words alone: the whole test, or its operands that say something by themselves, in order.
    fn facts_of(&mut self, test: usize, holds: bool, words: u64) -> Vec<usize> {
        let mut facts = Vec::new(self.scope.alloc);
        let mut open = Vec::new(self.scope.alloc);
        if self.speaks_of(test, words) {
            add(&mut self.scope, &mut facts, test);
        } else {
            add(&mut self.scope, &mut open, test);
        }
        let junction = if holds { Junction::And } else { Junction::Or };
        for _ in 0..usize::MAX {
            let Some(tree) = open.pop() else {
                break;
            };
            if self.scope.forest.root(tree) == Root::Join(junction) {
                let [first, second, _] = self.scope.forest.tree(tree).operands;
                add_all(&mut self.scope, &mut open, &[second, first]);
            } else if self.speaks_of(tree, words) {
                add(&mut self.scope, &mut facts, tree);
            }
        }
        facts
    }

    /// Whether a tree speaks of these words alone.
    fn speaks_of(&self, tree: usize, words: u64) -> bool {
        self.scope.forest.reads(tree).plain & !words == 0
    }

    /// What holds where a formula holds, or fails, besides.
    fn with_fact(&mut self, base: Assertion, fact: usize, holds: bool) -> Assertion {
        let span = self.scope.forest.span(fact);
        let outcome = self.outcome(fact, holds, span);
        let full = self.both(base.full, outcome, span);
        let own = self.conjoined(&[base.own, outcome], span);
        Assertion { own, full, ..base }
    }
}

/// An assertion that holds on where none is written.
fn carried_on(assertion: Assertion) -> Assertion {
    Assertion {
        origin: Origin::Carried,
        ..assertion
    }
}
