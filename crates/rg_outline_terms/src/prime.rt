//! Trees in the next state.

use crate::forest::{Forest, NewTree, Root, bit_of};
use rg_outline_syntax::{Fault, MeaningFault, Span};
use std::alloc::Global;

impl Forest {
    /// The tree above one in which all words are primed, where it was made.
    fn primed_of(&self, tree: usize) -> Option<usize> {
        let above = self.primed.get(tree).copied();
        above.and_then(|index| index.checked_sub(1))
    }

    /// The tree below one that was made by priming all its words.
    pub fn unprimed(&self, tree: usize) -> Option<usize> {
        let above = tree.saturating_add(1);
        self.primed.iter().position(|primed| *primed == above)
    }

    /// The first operand of a tree that wasn't primed yet.
    fn unprimed_operand(&self, tree: usize) -> Option<usize> {
        let mut operands = self.operands(tree).iter().copied();
        operands.find(|operand| self.primed_of(*operand).is_none())
    }

    /// The first operand of a tree that reads a primed word.
    fn primed_operand(&self, tree: usize) -> Option<usize> {
        let mut operands = self.operands(tree).iter().copied();
        operands.find(|operand| self.reads(*operand).primed != 0)
    }

    /// A tree with its root primed, whose operands were primed.
    fn primed_root(&mut self, tree: usize) -> NewTree {
        let whole = self.tree(tree);
        let root = match self.root(tree) {
            Root::Word {
                is_primed: true,
                ..
            } => {
                return Err(Fault::meaning(MeaningFault::PrimedAlready, whole.span));
            }
            Root::Word { word, .. } => Root::Word {
                word,
                is_primed: true,
            },
            root => root,
        };
        let mut operands = [0; 3];
        for (slot, operand) in operands.iter_mut().zip(&whole.operands) {
            *slot = self.primed_of(*operand).unwrap_or(*operand);
        }
        let plain = self.add(root, operands, whole.span)?;
        self.named(plain, whole.name, whole.arguments)
    }

    /// Primes a tree whose operands were primed. One that reads no word is its own next state.
    fn prime_root(&mut self, tree: usize) -> Result<(), Fault> {
        let reads = self.reads(tree);
        let mut index = tree;
        if reads.plain | reads.primed != 0 {
            index = self.primed_root(tree)?;
        }
        if let Some(slot) = self.primed.get_mut(tree) {
            *slot = index.saturating_add(1);
        }
        Ok(())
    }

    /// The tree with all its words primed; `MeaningFault::PrimedAlready` at the first word that is primed already. Of no tree, as after a fault, it is none.
    pub(crate) fn in_next_state(&mut self, alloc: Global, tree: usize) -> NewTree {
        if tree >= self.primed.len() {
            return Ok(tree);
        }
        let mut open = Vec::new(alloc);
        open.push(tree)?;
        for _ in 0..usize::MAX {
            let Some(next) = open.last().copied() else {
                break;
            };
            if self.primed_of(next).is_some() {
                open.pop();
            } else if let Some(operand) = self.unprimed_operand(next) {
                open.push(operand)?;
            } else {
                self.prime_root(next)?;
            }
        }
        Ok(self.primed_of(tree).unwrap_or(tree))
    }

    /// For each tree up to this one, whether it stands in this one.
    fn inner_trees(&self, alloc: Global, tree: usize) -> Result<Vec<bool>, Fault> {
        let mut is_inner = Vec::new(alloc);
        for _ in 0..tree {
            is_inner.push(false)?;
        }
        is_inner.push(true)?;
        for index in (0..is_inner.len()).rev() {
            if is_inner.get(index).copied().unwrap_or(false) {
                for operand in self.operands(index) {
                    if let Some(slot) = is_inner.get_mut(*operand) {
                        *slot = true;
                    }
                }
            }
        }
        Ok(is_inner)
    }

    /// The tree with a word's places replaced, for each tree within it the one that stands for it.
    fn replaced_root(
        &mut self,
        tree: usize,
        word: usize,
        value: usize,
        replaced: &[usize],
    ) -> NewTree {
        let root = self.root(tree);
        if root
            == (Root::Word {
                word,
                is_primed: false,
            })
        {
            return Ok(value);
        }
        if self.reads(tree).plain & bit_of(word) == 0 {
            return Ok(tree);
        }
        let tree = self.tree(tree);
        let mut operands = [0; 3];
        for (slot, operand) in operands.iter_mut().zip(&tree.operands) {
            *slot = replaced.get(*operand).copied().unwrap_or(*operand);
        }
        self.add(root, operands, tree.span)
    }

    /// The tree with a value in place of a word of the first state.
    pub fn replaced(&mut self, alloc: Global, tree: usize, word: usize, value: usize) -> NewTree {
        let is_inner = self.inner_trees(alloc, tree)?;
        let mut replaced = Vec::new(alloc);
        for index in 0..is_inner.len() {
            let mut made = index;
            if is_inner.get(index).copied().unwrap_or(false) {
                made = self.replaced_root(index, word, value, &replaced)?;
            }
            replaced.push(made)?;
        }
        Ok(replaced.get(tree).copied().unwrap_or(tree))
    }

    /// The first primed word of a tree.
    pub(crate) fn first_primed(&self, tree: usize) -> Option<Span> {
        if self.reads(tree).primed == 0 {
            return None;
        }
        let mut first = tree;
        for _ in 0..self.trees.len() {
            let Some(operand) = self.primed_operand(first) else {
                break;
            };
            first = operand;
        }
        Some(self.span(first))
    }
}
