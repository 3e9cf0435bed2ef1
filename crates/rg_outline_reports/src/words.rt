//! The words whose values a report gives.

use crate::reports::Valued;
use crate::show::is_member;
use crate::values::{Moment, Values};
use rg_outline::Expansion;
use rg_outline_terms::{Root, bit_of};
use std::alloc::{AllocError, Global};

/// Words in the order in which they were added, each once.
#[derive(Drop)]
pub(crate) struct Words {
    alloc: Global,
    pub(crate) listed: Vec<usize>,
    /// These words as bits.
    bits: u64,
    /// The choices among members of families by indices over words: of these words only some are shown.
    choices: Vec<usize>,
}

/// Which trees of an outline were looked at.
#[derive(Drop)]
pub(crate) struct Seen {
    trees: Vec<bool>,
}

impl Seen {
    /// None was.
    pub(crate) fn of(expansion: &Expansion<'_>) -> Result<Seen, AllocError> {
        let mut trees = Vec::new(expansion.scope.alloc);
        for _ in 0..expansion.scope.forest.trees.len() {
            trees.push(false)?;
        }
        Ok(Seen { trees })
    }

    /// Whether a tree is looked at for the first time.
    pub(crate) fn is_first(&mut self, tree: usize) -> bool {
        match self.trees.get_mut(tree) {
            Some(slot) => !std::mem::replace(slot, true),
            None => false,
        }
    }
}

impl Words {
    /// No words.
    pub(crate) fn new(expansion: &Expansion<'_>) -> Words {
        Words {
            alloc: expansion.scope.alloc,
            listed: Vec::new(expansion.scope.alloc),
            bits: 0,
            choices: Vec::new(expansion.scope.alloc),
        }
    }

    /// Whether there is none.
    pub(crate) fn is_empty(&self) -> bool {
        self.listed.is_empty() && self.choices.is_empty()
    }

    /// Adds a word.
    pub(crate) fn add(&mut self, word: usize) -> Result<(), AllocError> {
        let bit = bit_of(word);
        if self.bits & bit == 0 {
            self.bits |= bit;
            self.listed.push(word)?;
        }
        Ok(())
    }

    /// Adds a choice among members, where it isn't there.
    fn add_choice(&mut self, expansion: &Expansion<'_>, choice: usize) -> Result<(), AllocError> {
        for known in &self.choices {
            if expansion.scope.forest.is_equal(*known, choice) {
                return Ok(());
            }
        }
        self.choices.push(choice)?;
        Ok(())
    }

    /// Adds the word that a choice among members reads in these states, and the members that change.
    fn add_members(
        &mut self,
        expansion: &Expansion<'_>,
        choice: usize,
        moment: Moment<'_>,
    ) -> Result<(), AllocError> {
        let forest = &expansion.scope.forest;
        let values = Values::of(expansion, choice, moment)?;
        let mut tree = choice;
        let mut is_found = false;
        for _ in 0..forest.trees.len() {
            let is_choice = forest.root(tree) == Root::Choice;
            let read = if is_choice {
                forest.operand(tree, 1)
            } else {
                tree
            };
            let Root::Word { word, .. } = forest.root(read) else {
                break;
            };
            let is_read = !is_found
                && (!is_choice || values.holds(forest, forest.operand(tree, 0)));
            let (before, after) = moment.of(word);
            if is_read || before != after {
                self.add(word)?;
            }
            if !is_choice {
                break;
            }
            is_found = is_found || is_read;
            tree = forest.operand(tree, 2);
        }
        Ok(())
    }

    /// Adds the words of a tree, in the order in which they stand.
    pub(crate) fn add_tree(
        &mut self,
        expansion: &Expansion<'_>,
        tree: usize,
    ) -> Result<(), AllocError> {
        let forest = &expansion.scope.forest;
        let mut seen = Seen::of(expansion)?;
        let mut open = Vec::new(expansion.scope.alloc);
        open.push(tree)?;
        for _ in 0..usize::MAX {
            let Some(tree) = open.pop() else {
                break;
            };
            if !seen.is_first(tree) {
                continue;
            }
            let root = forest.root(tree);
            let reads = forest.reads(tree);
            if let Root::Word { word, .. } = root {
                self.add(word)?;
            } else if root == Root::Choice && is_member(expansion, tree) {
                self.add_choice(expansion, tree)?;
                open.push(forest.operand(forest.operand(tree, 0), 0))?;
            } else if (reads.plain | reads.primed) & !self.bits != 0 {
                for place in (0..root.arity()).rev() {
                    open.push(forest.operand(tree, place))?;
                }
            }
        }
        Ok(())
    }

    /// The words with their values; of members from which an index chooses that which it chooses, and those that change.
    pub(crate) fn values(
        &self,
        expansion: &Expansion<'_>,
        moment: Moment<'_>,
    ) -> Result<Vec<Valued>, AllocError> {
        let mut shown = Words::new(expansion);
        for word in &self.listed {
            shown.add(*word)?;
        }
        for choice in &self.choices {
            shown.add_members(expansion, *choice, moment)?;
        }
        let mut values = Vec::new(self.alloc);
        for word in &shown.listed {
            let (before, after) = moment.of(*word);
            values.push(Valued {
                word: *word,
                before,
                after,
            })?;
        }
        Ok(values)
    }
}
