//! The log of learned clauses with their hints, in lists of lists.

use crate::code::{Code, signed_of};
use crate::table::{add, at, extend};
use std::alloc::Global;

/// The most literals and hints of a log: a search whose log has more ends.
const MOST_LOGGED: usize = 8_000_000;

/// The literals and hints of a log that is long. Each case logs what is equal under it, a clause or two for each gate.
const LONG_LOGGED: usize = 250_000;

/// A list of lists: all items in one list, and the place in it where each inner list ends.
#[derive(Drop)]
pub struct Lists<T> {
    items: Vec<T>,
    ends: Vec<usize>,
}

impl<T: Copy + Drop> Lists<T> {
    /// No lists.
    pub fn new(alloc: Global) -> Self {
        Lists {
            items: Vec::new(alloc),
            ends: Vec::new(alloc),
        }
    }

    /// The count of lists.
    pub fn len(&self) -> usize {
        self.ends.len()
    }

    /// The count of all items.
    pub fn count(&self) -> usize {
        self.items.len()
    }

    /// The list at an index; past the last one it is empty.
    pub fn list(&self, index: usize) -> &[T] {
        let start = match index.checked_sub(1) {
            Some(before) => at(&self.ends, before, 0),
            None => 0,
        };
        let end = at(&self.ends, index, 0);
        self.items.get(start..end).unwrap_or(&[])
    }

    /// Adds an item to the list that isn't ended yet.
    pub fn push(&mut self, item: T, lacks_memory: &mut bool) {
        add(&mut self.items, item, lacks_memory);
    }

    /// Adds items to the list that isn't ended yet, and ends it.
    pub fn end_with(&mut self, items: &[T], lacks_memory: &mut bool) {
        extend(&mut self.items, items, lacks_memory);
        let count = self.items.len();
        add(&mut self.ends, count, lacks_memory);
    }
}

/// Learned clauses of signed literals, each with its hints. They are numbered from one above the given ones on, with no gaps, and a hint
/// is the number of a given or of an earlier clause.
#[derive(Drop)]
pub struct Log {
    /// The count of given clauses.
    pub given: u32,
    literals: Lists<i32>,
    pub hints: Lists<u32>,
    /// Whether the empty clause is logged, after which nothing is.
    pub is_refuted: bool,
}

impl Log {
    /// No clauses, after so many given ones.
    pub fn new(alloc: Global, given: u32) -> Self {
        Log {
            given,
            literals: Lists::new(alloc),
            hints: Lists::new(alloc),
            is_refuted: false,
        }
    }

    /// The count of clauses.
    pub fn len(&self) -> usize {
        self.literals.len()
    }

    /// The literals of a clause.
    pub fn literals(&self, index: usize) -> &[i32] {
        self.literals.list(index)
    }

    /// The hints of a clause.
    pub fn hints(&self, index: usize) -> &[u32] {
        self.hints.list(index)
    }

    /// The place of a learned clause's number; none for the number of a given one.
    pub fn index_of(&self, number: u32) -> Option<usize> {
        let above = number.checked_sub(self.given)?;
        Some(above.checked_sub(1)? as usize)
    }

    /// The count of literals and hints.
    fn count(&self) -> usize {
        self.literals.count().saturating_add(self.hints.count())
    }

    /// Whether no more may be logged.
    pub fn is_full(&self) -> bool {
        self.count() > MOST_LOGGED
    }

    /// Whether so much is logged that no further cases should be looked at.
    pub fn is_long(&self) -> bool {
        self.count() > LONG_LOGGED
    }

    /// Logs a clause, and answers its number, or 0 where the empty clause is logged already.
    pub fn add(&mut self, literals: &[Code], hints: &[u32], lacks_memory: &mut bool) -> u32 {
        if self.is_refuted {
            return 0;
        }
        for code in literals {
            self.literals.push(signed_of(*code), lacks_memory);
        }
        self.end_with(&[], hints, lacks_memory)
    }

    /// Logs a clause of signed literals, after those that were pushed, and answers its number.
    pub fn end_with(&mut self, literals: &[i32], hints: &[u32], lacks_memory: &mut bool) -> u32 {
        self.literals.end_with(literals, lacks_memory);
        self.hints.end_with(hints, lacks_memory);
        let index = self.len().saturating_sub(1);
        self.is_refuted = self.literals.list(index).is_empty();
        let count = u32::try_from(index).unwrap_or(u32::MAX);
        self.given.saturating_add(count).saturating_add(1)
    }
}
