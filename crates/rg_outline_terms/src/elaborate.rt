//! From what is written to trees over words.

use crate::fold::compares;
use crate::forest::{NewTree, Root};
use crate::scope::Scope;
use crate::uses::Use;
use rg_outline_syntax::{Comparison, Expression, ExpressionKind, Junction, MeaningFault, Span};

/// How deep what is worked out may stand within one another.
pub(crate) const DEEPEST: u32 = 1_000;

/// What a tree has to be.
#[derive(Clone, Copy, PartialEq, Eq)]
pub(crate) enum Sort {
    Formula,
    Value,
}

impl Scope<'_> {
    /// What an expression of two states stands for, which has to be a formula. Faults are the first `MeaningFault` in the order of reading, and
    /// `FaultKind::Memory`.
    pub fn step_formula(&mut self, index: usize) -> usize {
        self.sorted(index, Sort::Formula, DEEPEST)
    }

    /// What an expression of one state stands for, which has to be a formula. Faults are those of `step_formula`, and `MeaningFault::PrimeHere` at the
    /// first primed word.
    pub fn state_formula(&mut self, index: usize) -> usize {
        self.of_one_state(index, Sort::Formula)
    }

    /// What an expression of one state stands for, which has to be a value. Faults are those of `state_formula`.
    pub fn state_value(&mut self, index: usize) -> usize {
        self.of_one_state(index, Sort::Value)
    }

    fn of_one_state(&mut self, index: usize, sort: Sort) -> usize {
        let tree = self.sorted(index, sort, DEEPEST);
        if let Some(span) = self.forest.first_primed(tree) {
            self.refuse(MeaningFault::PrimeHere, span);
        }
        tree
    }

    /// The expression of an index; past the last one, `false`.
    pub(crate) fn expression(&self, index: usize) -> Expression {
        self.written.expression(index).unwrap_or(Expression {
            kind: ExpressionKind::Truth(false),
            span: Span::NOWHERE,
        })
    }

    /// What an expression stands for.
    #[cycle(elaborate)]
    pub(crate) fn elaborate(&mut self, index: usize, depth: u32) -> usize {
        let Expression { kind, span } = self.expression(index);
        if depth == 0 {
            self.refuse(MeaningFault::TooDeep, span);
            return 0;
        }
        if !self.spends(span) {
            return 0;
        }
        let tree = match kind {
            ExpressionKind::Group(inner) => self.elaborate(inner, depth - 1),
            ExpressionKind::Name {
                name,
                listed,
                has_arguments,
                is_primed,
            } => {
                let used = Use {
                    name,
                    listed,
                    has_arguments,
                    is_primed,
                    span,
                };
                self.named(used, depth - 1)
            }
            ExpressionKind::Bound { .. } => self.quantified(kind, span, depth - 1),
            ExpressionKind::Join(..) => self.chained(index, depth - 1),
            ExpressionKind::Unchanged(words) => self.unchanged(words, false, span, depth - 1),
            ExpressionKind::UnchangedBut(words) => self.unchanged(words, true, span, depth - 1),
            _ => {
                let made = self.composed(kind, span, depth - 1);
                self.made(made)
            }
        };
        self.formed(index, tree)
    }

    /// The tree of a chain of `and` and `or`, whose first operand stands innermost. The chain itself is no deeper than its operands are.
    #[cycle(elaborate)]
    fn chained(&mut self, index: usize, depth: u32) -> usize {
        let mut joins = Vec::new(self.alloc);
        let first = self.first_of_chain(index, &mut joins);
        let mut tree = self.sorted(first, Sort::Formula, depth);
        for _ in 0..usize::MAX {
            let Some(join) = joins.pop() else {
                break;
            };
            let Expression { kind, span } = self.expression(join);
            if let ExpressionKind::Join(junction, _, right) = kind
                && self.spends(span)
            {
                let guard = self.guard_of(junction, tree, span);
                let second = self.under(guard, right, Sort::Formula, depth);
                let made = self.forest.joined(junction, [tree, second], span);
                tree = self.made(made);
                if !joins.is_empty() {
                    tree = self.formed(join, tree);
                }
            }
        }
        tree
    }

    /// The first operand of a chain; its joins, the outermost first, are added.
    fn first_of_chain(&mut self, index: usize, joins: &mut Vec<usize>) -> usize {
        let mut first = index;
        for _ in 0..usize::MAX {
            let ExpressionKind::Join(_, left, _) = self.expression(first).kind else {
                break;
            };
            let stored = joins.push(first);
            self.want_stored(stored.is_ok());
            first = left;
        }
        first
    }

    /// The tree of a number, a truth, or a form with operands.
    #[cycle(elaborate)]
    fn composed(&mut self, kind: ExpressionKind, span: Span, depth: u32) -> NewTree {
        match kind {
            ExpressionKind::Number(number) => self.forest.numeral(Some(i128::from(number)), span),
            ExpressionKind::Truth(truth) => self.forest.leaf(Root::Truth(truth), span),
            ExpressionKind::Not(inner) => {
                let formula = self.sorted(inner, Sort::Formula, depth);
                self.forest.negated(formula, span)
            }
            ExpressionKind::Keeps(inner) => {
                let formula = self.sorted(inner, Sort::Formula, depth);
                self.keeps(formula, span)
            }
            ExpressionKind::Inverse(inner) => {
                let value = self.sorted(inner, Sort::Value, depth);
                self.forest.unary(Root::Inverse, value, span)
            }
            ExpressionKind::Choice { test, yes, no } => {
                let test = self.sorted(test, Sort::Formula, depth);
                let first = self.under(test, yes, Sort::Value, depth);
                let made = self.forest.negated(test, span);
                let fails = self.made(made);
                let second = self.under(fails, no, Sort::Value, depth);
                self.forest.chosen(test, first, second, span)
            }
            ExpressionKind::Imply(conditional, left, right) => {
                let pair = self.both(left, right, Sort::Formula, depth);
                self.forest.implied(conditional, pair, span)
            }
            ExpressionKind::Operate(operator, left, right) => {
                let pair = self.both(left, right, Sort::Value, depth);
                self.forest.operated(operator, pair, span)
            }
            ExpressionKind::Compare(comparison, left, right) => {
                let [first, second] = self.both(left, right, Sort::Value, depth);
                self.compared(comparison, first, second, span)
            }
            _ => self.forest.falsity(span),
        }
    }

    /// What holds where the right side of `and` or `or` matters, by the left one.
    fn guard_of(&mut self, junction: Junction, left: usize, span: Span) -> usize {
        if junction == Junction::And {
            return left;
        }
        let made = self.forest.negated(left, span);
        self.made(made)
    }

    /// What an expression stands for, which has to be a formula or a value, where this holds besides.
    #[cycle(elaborate)]
    fn under(&mut self, guard: usize, index: usize, sort: Sort, depth: u32) -> usize {
        let count = self.guards.len();
        let stored = self.guards.push(guard);
        self.want_stored(stored.is_ok());
        let tree = self.sorted(index, sort, depth);
        self.guards.truncate(count);
        tree
    }

    /// What two expressions stand for, which both have to be formulas or values.
    #[cycle(elaborate)]
    fn both(&mut self, left: usize, right: usize, sort: Sort, depth: u32) -> [usize; 2] {
        let first = self.sorted(left, sort, depth);
        [first, self.sorted(right, sort, depth)]
    }

    /// What an expression stands for, which has to be a formula or a value.
    #[cycle(elaborate)]
    pub(crate) fn sorted(&mut self, index: usize, sort: Sort, depth: u32) -> usize {
        let tree = self.elaborate(index, depth);
        let is_formula = self.forest.root(tree).is_formula();
        let span = self.expression(index).span;
        match sort {
            Sort::Formula if !is_formula => self.refuse(MeaningFault::FormulaWanted, span),
            Sort::Value if is_formula => self.refuse(MeaningFault::ValueWanted, span),
            _ => {}
        }
        tree
    }

    /// A comparison of two values, whose words and numbers have one width.
    fn compared(
        &mut self,
        comparison: Comparison,
        first: usize,
        second: usize,
        span: Span,
    ) -> NewTree {
        if let Some(left) = self.forest.number(first)
            && let Some(right) = self.forest.number(second)
        {
            let truth = compares(comparison, left, right);
            return self.forest.leaf(Root::Truth(truth), span);
        }
        self.refuse_widths(first, second, span);
        self.forest
            .binary(Root::Compare(comparison), first, second, span)
    }

    /// `keeps` before a formula.
    fn keeps(&mut self, formula: usize, span: Span) -> NewTree {
        if matches!(self.forest.root(formula), Root::Truth(_)) {
            return self.forest.leaf(Root::Truth(true), span);
        }
        let next = self.in_next_state(formula);
        self.forest.keeping(formula, next, span)
    }
}
