//! The words that are loaded for a value.

use rg_outline::Expansion;
use rg_outline_terms::{Root, Term, bit_of};
use std::alloc::AllocError;

/// For each term, by its index, which of some words are loaded for it, as bits: of a choice those of its test and of one branch, which has the most.
#[derive(Drop)]
pub(crate) struct Loads {
    bits: Vec<u64>,
}

impl Loads {
    /// Which of these words are loaded for the terms of an outline.
    pub(crate) fn of(expansion: &Expansion<'_>, words: u64) -> Result<Loads, AllocError> {
        let forest = &expansion.scope.forest;
        let mut loads = Loads {
            bits: Vec::new(expansion.scope.alloc),
        };
        for index in 0..forest.trees.len() {
            let bits = loads.term(forest.term(index), words);
            loads.bits.push(bits)?;
        }
        Ok(loads)
    }

    /// The words that are loaded for the term of an index.
    fn at(&self, term: usize) -> u64 {
        self.bits.get(term).copied().unwrap_or(0)
    }

    /// The words that are loaded for a tree.
    pub(crate) fn tree(&self, expansion: &Expansion<'_>, tree: usize) -> u64 {
        self.at(expansion.scope.forest.tree(tree).term)
    }

    /// Which of these words are loaded for a term, by what is loaded for its operands.
    fn term(&self, term: Term, words: u64) -> u64 {
        let [first, second, third] = term.operands;
        match term.root {
            Root::Word {
                word,
                is_primed: false,
            } => bit_of(word) & words,
            Root::Choice => {
                let yes = self.at(first) | self.at(second);
                let no = self.at(first) | self.at(third);
                if no.count_ones() > yes.count_ones() {
                    no
                } else {
                    yes
                }
            }
            root => match root.arity() {
                0 => 0,
                1 => self.at(first),
                _ => self.at(first) | self.at(second),
            },
        }
    }
}
