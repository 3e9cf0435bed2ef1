//! How deeply formulas and values are nested as the texts below spell them, which take so many openers within one another and no more.

use crate::expansion::Expansion;
use rg_outline_syntax::{Fault, Junction, MeaningFault, Span};
use rg_outline_terms::{Forest, Root};
use rg_words::limits::{MOST_OPENERS, MOST_OPERANDS};

/// How many openers a term's spelling has open at once, of those that are counted; 0 of any other.
fn openers_of(counted: &[usize], term: usize) -> usize {
    counted.get(term).copied().unwrap_or(0)
}

/// As `openers_of`, of a term whose operands are counted.
fn count_of(forest: &Forest, counted: &[usize], index: usize) -> usize {
    let term = forest.term(index);
    let [first, second, third] = term.operands;
    let most = match term.root {
        Root::Number(_) | Root::Word { .. } | Root::Truth(_) => return 0,
        Root::Not | Root::Inverse | Root::Shift(..) => openers_of(counted, first),
        Root::Choice => {
            let sides = openers_of(counted, second).max(openers_of(counted, third));
            sides.max(openers_of(counted, first)).saturating_add(1)
        }
        Root::Join(_) => most_of_chain(forest, counted, index, MOST_OPERANDS),
        _ => most_of_chain(forest, counted, index, 2),
    };
    most.saturating_add(1)
}

/// The most of the operands of a chain: its last ones, and before them what is left of it.
fn most_of_chain(forest: &Forest, counted: &[usize], index: usize, operands: usize) -> usize {
    let root = forest.term(index).root;
    let mut current = index;
    let mut most = 0;
    for _ in 1..operands {
        let term = forest.term(current);
        if term.root != root {
            break;
        }
        let [first, second, _] = term.operands;
        most = openers_of(counted, second).max(most);
        current = first;
    }
    openers_of(counted, current).max(most)
}

impl Expansion<'_> {
    /// Counts the openers of all terms.
    pub(crate) fn count_openers(&mut self) {
        for index in 0..self.scope.forest.term_count() {
            let count = count_of(&self.scope.forest, &self.openers, index);
            let stored = self.openers.push(count);
            self.scope.want_stored(stored.is_ok());
        }
    }

    /// How many openers a tree's spelling has open at once.
    fn openers_in(&self, tree: usize) -> usize {
        openers_of(&self.openers, self.scope.forest.tree(tree).term)
    }

    /// Refuses a tree which, where so many openers are open around it, has more open at once than a text may have.
    ///
    /// # Errors
    ///
    /// `MeaningFault::TooDeep`, at the conjunct that is nested deepest.
    pub(crate) fn want_shallow(&self, tree: usize, around: usize) -> Result<(), Fault> {
        if self.openers_in(tree).saturating_add(around) > MOST_OPENERS {
            return Err(Fault::meaning(MeaningFault::TooDeep, self.deepest_in(tree)));
        }
        Ok(())
    }

    /// The place of the conjunct of a formula that is nested deepest.
    fn deepest_in(&self, tree: usize) -> Span {
        let mut current = tree;
        for _ in 0..usize::MAX {
            if self.scope.forest.root(current) != Root::Join(Junction::And) {
                break;
            }
            let first = self.scope.forest.operand(current, 0);
            let second = self.scope.forest.operand(current, 1);
            let is_second = self.openers_in(second) > self.openers_in(first);
            current = if is_second { second } else { first };
        }
        self.scope.forest.span(current)
    }
}
