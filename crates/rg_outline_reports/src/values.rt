//! What formulas and values are in two states.

use rg_outline::Expansion;
use rg_outline_syntax::{Comparison, Conditional, Junction, List, Operator};
use rg_outline_terms::{Forest, Root, Term};
use rg_words::State;
use std::alloc::{AllocError, Global};

/// Two states: a value for each word before and after.
#[derive(Clone, Copy)]
pub(crate) struct Moment<'s> {
    pub(crate) before: &'s [u64],
    pub(crate) after: &'s [u64],
}

impl<'s> Moment<'s> {
    /// The state before and the state after.
    pub(crate) fn between(before: &'s [u64], after: &'s [u64]) -> Moment<'s> {
        Moment { before, after }
    }

    /// One state, before and after.
    pub(crate) fn at(state: &'s [u64]) -> Moment<'s> {
        Moment::between(state, state)
    }

    /// What a word is before and after; past the last one, 0.
    pub(crate) fn of(self, word: usize) -> (u64, u64) {
        let first = self.before.get(word).copied().unwrap_or(0);
        let second = self.after.get(word).copied().unwrap_or(0);
        (first, second)
    }
}

/// The values of the words of a state, in their order.
/// An error comes only where memory is refused.
pub fn values_of(alloc: Global, state: &State) -> Result<Vec<u64>, AllocError> {
    let mut values = Vec::new(alloc);
    for word in 0..state.len() {
        values.push(state.get(word))?;
    }
    Ok(values)
}

/// The state in which all words are 0.
pub(crate) fn zeros(expansion: &Expansion<'_>) -> Result<Vec<u64>, AllocError> {
    let mut values = Vec::new(expansion.scope.alloc);
    for _ in &expansion.scope.words {
        values.push(0)?;
    }
    Ok(values)
}

/// Whether a formula is true in two states.
pub(crate) fn is_true(
    expansion: &Expansion<'_>,
    formula: usize,
    moment: Moment<'_>,
) -> Result<bool, AllocError> {
    let values = Values::of(expansion, formula, moment)?;
    Ok(values.holds(&expansion.scope.forest, formula))
}

/// The first of these clauses that is false.
pub(crate) fn first_false(
    expansion: &Expansion<'_>,
    clauses: List,
    moment: Moment<'_>,
) -> Result<Option<usize>, AllocError> {
    let listed = expansion
        .clauses
        .get(clauses.start..clauses.end)
        .unwrap_or(&[]);
    for clause in listed {
        if !is_true(expansion, *clause, moment)? {
            return Ok(Some(*clause));
        }
    }
    Ok(None)
}

/// What a form is: a value of so many bits, or a truth as 0 or 1. A number alone has no width, which is 0.
#[derive(Clone, Copy)]
struct Evaluated {
    value: u64,
    width: u32,
}

/// What the forms are, each by its index.
#[derive(Drop)]
pub(crate) struct Values {
    evaluated: Vec<Evaluated>,
}

/// All bits of a width; without a width all that there are.
fn mask(width: u32) -> u64 {
    if width == 0 || width >= 64 {
        return u64::MAX;
    }
    (1u64 << width).wrapping_sub(1)
}

fn truth(is_true: bool) -> Evaluated {
    Evaluated {
        value: u64::from(is_true),
        width: 0,
    }
}

fn compared(comparison: Comparison, first: u64, second: u64) -> bool {
    match comparison {
        Comparison::Equal => first == second,
        Comparison::NotEqual => first != second,
        Comparison::Less => first < second,
        Comparison::LessOrEqual => first <= second,
        Comparison::Greater => first > second,
        Comparison::GreaterOrEqual => first >= second,
    }
}

fn operated(operator: Operator, first: u64, second: u64) -> u64 {
    match operator {
        Operator::Add => first.wrapping_add(second),
        Operator::Subtract => first.wrapping_sub(second),
        Operator::BitAnd => first & second,
        Operator::BitOr => first | second,
        Operator::BitXor => first ^ second,
        Operator::ShiftLeft => first
            .checked_shl(u32::try_from(second).unwrap_or(64))
            .unwrap_or(0),
        Operator::ShiftRight => first
            .checked_shr(u32::try_from(second).unwrap_or(64))
            .unwrap_or(0),
        Operator::Modulus => first.checked_rem(second).unwrap_or(0),
    }
}

impl Values {
    /// What a tree is, and what all trees are that it is made of.
    pub(crate) fn of(
        expansion: &Expansion<'_>,
        tree: usize,
        moment: Moment<'_>,
    ) -> Result<Values, AllocError> {
        let forest = &expansion.scope.forest;
        let mut values = Values {
            evaluated: Vec::new(expansion.scope.alloc),
        };
        let count = forest.tree(tree).term.saturating_add(1);
        for form in 0..count.min(forest.trees.len()) {
            let evaluated = values.term(expansion, forest.term(form), moment);
            values.evaluated.push(evaluated)?;
        }
        Ok(values)
    }

    /// What the form of an index is.
    fn at(&self, form: usize) -> Evaluated {
        match self.evaluated.get(form) {
            Some(evaluated) => *evaluated,
            None => truth(false),
        }
    }

    /// The value of a tree.
    pub(crate) fn value(&self, forest: &Forest, tree: usize) -> u64 {
        self.at(forest.tree(tree).term).value
    }

    /// Whether a formula is true.
    pub(crate) fn holds(&self, forest: &Forest, tree: usize) -> bool {
        self.value(forest, tree) != 0
    }

    /// What a form is, by its operands.
    fn term(&self, expansion: &Expansion<'_>, form: Term, moment: Moment<'_>) -> Evaluated {
        let [first, second, third] = form.operands;
        let (first, second, third) = (self.at(first), self.at(second), self.at(third));
        match form.root {
            Root::Number(number) => Evaluated {
                value: u64::try_from(number).unwrap_or(0),
                width: 0,
            },
            Root::Word { word, is_primed } => {
                let state = if is_primed {
                    moment.after
                } else {
                    moment.before
                };
                Evaluated {
                    value: state.get(word).copied().unwrap_or(0),
                    width: expansion.scope.word(word).width,
                }
            }
            Root::Truth(is_true) => truth(is_true),
            Root::Choice if first.value != 0 => second,
            Root::Choice => third,
            root if root.is_formula() => truth(joined(root, first, second)),
            root => combined(root, first, second),
        }
    }
}

/// Whether a formula is true whose operands are these.
fn joined(root: Root, first: Evaluated, second: Evaluated) -> bool {
    let is_first = first.value != 0;
    let is_second = second.value != 0;
    match root {
        Root::Compare(comparison) => {
            let bits = mask(first.width.max(second.width));
            compared(comparison, first.value & bits, second.value & bits)
        }
        Root::Not => !is_first,
        Root::Join(Junction::And) => is_first && is_second,
        Root::Join(Junction::Or) => is_first || is_second,
        Root::Imply(Conditional::Implies) => !is_first || is_second,
        _ => is_first == is_second,
    }
}

/// The value whose operands are these.
fn combined(root: Root, first: Evaluated, second: Evaluated) -> Evaluated {
    let (value, width) = match root {
        Root::Operate(operator) => (
            operated(operator, first.value, second.value),
            first.width.max(second.width),
        ),
        Root::Shift(operator, count) => (
            operated(operator, first.value, u64::from(count)),
            first.width,
        ),
        _ => (!first.value, first.width),
    };
    Evaluated {
        value: value & mask(width),
        width,
    }
}
