//! Lists of numbers by literal.

use rg_solver::code::Code;
use rg_solver::table::{at, fill, put};
use std::alloc::Global;

/// No number.
pub const NOBODY: usize = usize::MAX;

/// By literal the number that was entered last, and by number the one that was entered before it.
#[derive(Drop)]
pub struct Links {
    lasts: Vec<usize>,
    earlier: Vec<usize>,
}

impl Links {
    /// For no literals.
    pub fn new(alloc: Global) -> Self {
        Links {
            lasts: Vec::new(alloc),
            earlier: Vec::new(alloc),
        }
    }

    /// Takes all out, with room for so many literals.
    pub fn clear(&mut self, literals: usize, lacks_memory: &mut bool) {
        self.lasts.clear();
        self.earlier.clear();
        fill(&mut self.lasts, NOBODY, literals, lacks_memory);
    }

    /// Enters a number, which is entered once.
    pub fn enter(&mut self, literal: Code, number: usize, lacks_memory: &mut bool) {
        let missing = number.saturating_add(1).saturating_sub(self.earlier.len());
        fill(&mut self.earlier, NOBODY, missing, lacks_memory);
        let before = self.last(literal);
        put(&mut self.earlier, number, before);
        put(&mut self.lasts, literal as usize, number);
    }

    /// The number that was entered last, or `NOBODY`.
    pub fn last(&self, literal: Code) -> usize {
        at(&self.lasts, literal as usize, NOBODY)
    }

    /// The number that was entered before this one, or `NOBODY`.
    pub fn before(&self, number: usize) -> usize {
        at(&self.earlier, number, NOBODY)
    }
}
