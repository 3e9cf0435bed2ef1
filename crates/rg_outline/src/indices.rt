//! Whether indices over words are numbers of their families' ranges.

use crate::expansion::{Action, Expansion, Statement, add};
use rg_outline_syntax::{Comparison, List, Operator, Span};
use rg_outline_terms::{Chosen, Root, bit_of};

/// An index in a statement.
#[derive(Clone, Copy)]
pub(crate) struct Indexed {
    /// Its place in the scope's list.
    chosen: usize,
    /// Of an index in an assignment, the updates of the step before it; none where it stands in a test or a guard.
    earlier: Option<List>,
}

/// What is asked of an index of a part: whether it is in its range, where it is read.
#[derive(Clone, Copy)]
pub struct IndexAsked {
    pub chosen: Chosen,
    pub part: usize,
    /// That it is, given what holds there. It is asked whether this is true in all states.
    pub formula: usize,
}

impl Expansion<'_> {
    /// Notes the indices that were worked out after the first so many: those of a test, or those of an assignment after these updates of its step.
    pub(crate) fn note_indices(&mut self, known: usize, earlier: Option<List>) {
        for chosen in known..self.scope.chosen.len() {
            let indexed = Indexed { chosen, earlier };
            add(&mut self.scope, &mut self.indices, indexed);
        }
    }

    /// The indices that were noted after the first so many.
    pub(crate) fn indices_since(&self, start: usize) -> List {
        let end = self.indices.len();
        List { start, end }
    }

    /// Adds what is asked of the indices of a statement.
    pub(crate) fn ask_indices(&mut self, index: usize, part: usize) {
        let statement = self.statement(index);
        for place in statement.indices.start..statement.indices.end {
            if let Some(indexed) = self.indices.get(place).copied()
                && let Some(chosen) = self.scope.chosen.get(indexed.chosen).copied()
                && !self.is_inside(chosen)
            {
                let formula = self.inside_of(statement, indexed, chosen);
                let asked = IndexAsked {
                    chosen,
                    part,
                    formula,
                };
                add(&mut self.scope, &mut self.asked, asked);
            }
        }
    }

    /// Whether the form of an index tells that it is in its range.
    fn is_inside(&self, chosen: Chosen) -> bool {
        if chosen.lowest > 0 {
            return false;
        }
        let forest = &self.scope.forest;
        let mut greatest = greatest_of(chosen.width);
        if forest.root(chosen.index) == Root::Operate(Operator::BitAnd) {
            for place in 0..2 {
                if let Some(number) = forest.number(forest.operand(chosen.index, place)) {
                    greatest = greatest.min(number);
                }
            }
        }
        greatest <= chosen.highest
    }

    /// That an index of a statement is in its range, given what holds there.
    fn inside_of(&mut self, statement: Statement, indexed: Indexed, chosen: Chosen) -> usize {
        let span = chosen.span;
        let mut known = Vec::new(self.scope.alloc);
        add(&mut self.scope, &mut known, statement.at_test.full);
        if indexed.earlier.is_some() && statement.action == Action::Await {
            add(&mut self.scope, &mut known, statement.test);
        }
        let given = self.conjoined(&known, span);
        let inside = self.bounds_of(chosen);
        let mut goal = self.implication(chosen.under, inside, span);
        if let Some(earlier) = indexed.earlier {
            for place in (earlier.start..earlier.end).rev() {
                goal = self.before_update(goal, place);
            }
        }
        self.implication(given, goal, span)
    }

    /// That an index is neither below its range nor above it, as far as its width allows these.
    fn bounds_of(&mut self, chosen: Chosen) -> usize {
        let Chosen {
            lowest,
            highest,
            span,
            ..
        } = chosen;
        let mut bounds = Vec::new(self.scope.alloc);
        if lowest > 0 {
            let bound = self.bound(chosen, Comparison::GreaterOrEqual, lowest);
            add(&mut self.scope, &mut bounds, bound);
        }
        if highest < greatest_of(chosen.width) {
            let bound = self.bound(chosen, Comparison::LessOrEqual, highest);
            add(&mut self.scope, &mut bounds, bound);
        }
        self.conjoined(&bounds, span)
    }

    /// That an index compares so with a number.
    fn bound(&mut self, chosen: Chosen, comparison: Comparison, number: i128) -> usize {
        let made = self.scope.forest.leaf(Root::Number(number), chosen.span);
        let number = self.scope.made(made);
        let root = Root::Compare(comparison);
        let made = self
            .scope
            .forest
            .binary(root, chosen.index, number, chosen.span);
        self.scope.made(made)
    }

    /// That a formula gives another one.
    fn implication(&mut self, given: usize, goal: usize, span: Span) -> usize {
        if self.scope.forest.is_truth(given, true) {
            return goal;
        }
        let made = self.scope.forest.keeping(given, goal, span);
        self.scope.made(made)
    }

    /// What has to hold before an update, so that a formula holds after it.
    fn before_update(&mut self, formula: usize, place: usize) -> usize {
        let Some(update) = self.updates.get(place).copied() else {
            return formula;
        };
        if self.scope.forest.reads(formula).plain & bit_of(update.word) == 0 {
            return formula;
        }
        let alloc = self.scope.alloc;
        let made = self
            .scope
            .forest
            .replaced(alloc, formula, update.word, update.value);
        self.scope.made(made)
    }
}

/// The greatest value of so many bits.
fn greatest_of(width: u32) -> i128 {
    let count = 1i128.checked_shl(width).unwrap_or(0);
    count.saturating_sub(1)
}
