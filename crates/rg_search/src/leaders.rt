//! The first variable of each hash.

use rg_solver::table::{at, fill, put};
use std::alloc::Global;

const NOBODY: u32 = u32::MAX;

const MULTIPLIER: u64 = 0x9e37_79b9_7f4a_7c15;

#[derive(Clone, Copy)]
struct Entry {
    hash: u64,
    variable: u32,
}

const NO_ENTRY: Entry = Entry {
    hash: 0,
    variable: NOBODY,
};

/// A table with open addresses, at most half full.
#[derive(Drop)]
pub struct Leaders {
    entries: Vec<Entry>,
}

impl Leaders {
    /// A table for no variables.
    pub fn new(alloc: Global) -> Self {
        Leaders {
            entries: Vec::new(alloc),
        }
    }

    /// Room for so many variables.
    pub fn make_room(&mut self, variables: usize, lacks_memory: &mut bool) {
        let size = variables.saturating_add(1).saturating_mul(2);
        fill(&mut self.entries, NO_ENTRY, size, lacks_memory);
    }

    /// Takes all out.
    pub fn clear(&mut self) {
        for entry in self.entries.iter_mut() {
            *entry = NO_ENTRY;
        }
    }

    /// The place where this hash stands, or where it would, and its leader, if any.
    fn find(&self, hash: u64) -> (usize, Option<usize>) {
        let size = self.entries.len().max(1);
        let mixed = hash.wrapping_mul(MULTIPLIER);
        let mut place = ((mixed ^ (mixed >> 32)) % size as u64) as usize;
        for _ in 0..size {
            let entry = at(&self.entries, place, NO_ENTRY);
            if entry.variable == NOBODY {
                break;
            }
            if entry.hash == hash {
                return (place, Some(entry.variable as usize));
            }
            place = place.saturating_add(1);
            if place >= size {
                place = 0;
            }
        }
        (place, None)
    }

    /// The leader of this hash, if any.
    pub fn leader(&self, hash: u64) -> Option<usize> {
        self.find(hash).1
    }

    /// The leader of this hash; where there is none yet, this variable becomes it.
    pub fn leader_or(&mut self, hash: u64, variable: usize) -> Option<usize> {
        let (place, found) = self.find(hash);
        if found.is_none() {
            let variable = u32::try_from(variable).unwrap_or(NOBODY);
            put(&mut self.entries, place, Entry { hash, variable });
        }
        found
    }
}
