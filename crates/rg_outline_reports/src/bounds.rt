//! Upper bounds of the values of terms, as far as their form tells.

use rg_outline::Expansion;
use rg_outline_syntax::Operator;
use rg_outline_terms::{Forest, Root, Term};
use std::alloc::AllocError;

/// What is known of a value: the most that it can be where sums aren't cut to a width, and the width of the words that are read for it, but in the
/// test of a choice. Where none is, the width is 0.
#[derive(Clone, Copy)]
pub(crate) struct Bound {
    pub(crate) maximum: u128,
    pub(crate) width: u32,
}

/// What is known of each term, by its index.
#[derive(Drop)]
pub(crate) struct Bounds {
    bounds: Vec<Bound>,
}

/// The maximum value of so many bits; without bits, that of the widest word.
pub(crate) fn maximum_of(width: u32) -> u128 {
    match 1u128.checked_shl(width) {
        Some(count) if width > 0 && width < 64 => count.saturating_sub(1),
        _ => u128::from(u64::MAX),
    }
}

impl Bounds {
    /// What is known of all terms of an outline.
    pub(crate) fn of(expansion: &Expansion<'_>) -> Result<Bounds, AllocError> {
        let forest = &expansion.scope.forest;
        let mut bounds = Bounds {
            bounds: Vec::new(expansion.scope.alloc),
        };
        for index in 0..forest.trees.len() {
            let bound = bounds.term(expansion, forest.term(index));
            bounds.bounds.push(bound)?;
        }
        Ok(bounds)
    }

    /// What is known of the term of an index.
    fn at(&self, term: usize) -> Bound {
        self.bounds.get(term).copied().unwrap_or(Bound {
            maximum: 0,
            width: 0,
        })
    }

    /// What is known of a tree.
    pub(crate) fn tree(&self, forest: &Forest, tree: usize) -> Bound {
        self.at(forest.tree(tree).term)
    }

    /// What is known of a term, by what is known of its operands.
    fn term(&self, expansion: &Expansion<'_>, term: Term) -> Bound {
        let [first, second, third] = term.operands;
        let (first, second, third) = (self.at(first), self.at(second), self.at(third));
        match term.root {
            Root::Number(number) => Bound {
                maximum: u128::try_from(number).unwrap_or(0),
                width: 0,
            },
            Root::Word { word, .. } => {
                let width = expansion.scope.word(word).width;
                Bound {
                    maximum: maximum_of(width),
                    width,
                }
            }
            Root::Choice => Bound {
                maximum: second.maximum.max(third.maximum),
                width: second.width.max(third.width),
            },
            Root::Inverse | Root::Shift(..) => Bound {
                maximum: maximum_of(first.width),
                width: first.width,
            },
            Root::Operate(operator) => operated(operator, first, second),
            _ => Bound {
                maximum: 1,
                width: 0,
            },
        }
    }
}

/// What is known of an operation on two values.
fn operated(operator: Operator, first: Bound, second: Bound) -> Bound {
    let width = first.width.max(second.width);
    let maximum = match operator {
        Operator::Add => first.maximum.saturating_add(second.maximum),
        Operator::BitAnd => first.maximum.min(second.maximum),
        _ => maximum_of(width),
    };
    Bound { maximum, width }
}
