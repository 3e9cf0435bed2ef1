//! The dropping of learned clauses that are seldom of use. It is done at level 0, where no clause is a reason that is still asked
//! for.

use crate::analysis::{GLUE, USE};
use crate::solver::{HEAD, NO_WATCH, SHORT, Solver, Watch};
use crate::table::{add, at, extend, put};
use std::mem;

/// What stands for the note of a dropped clause.
const DROPPED: u32 = u32::MAX;

impl Solver {
    /// Drops clauses where it is due.
    pub fn reduce_if_due(&mut self) {
        if self.conflicts < self.next_reduction {
            return;
        }
        self.reductions = self.reductions.saturating_add(1);
        if self.root.saturating_mul(self.root) < self.reductions {
            self.root = self.root.saturating_add(1);
        }
        let pause = self.root.saturating_mul(250);
        self.next_reduction = self.conflicts.saturating_add(pause);
        self.drop_weak();
        self.compact();
    }

    /// Marks the worse half of the clauses that may be dropped: those of higher rank, and of the same rank the later ones.
    fn drop_weak(&mut self) {
        let mut weak = Vec::new(self.alloc);
        for place in 0..self.kept.len() {
            let clause = at(&self.kept, place, 0);
            if let Some(rank) = self.weaken(clause) {
                add(&mut weak, (rank, clause), &mut self.lacks_memory);
            }
        }
        if weak.sort().is_err() {
            self.lacks_memory = true;
        }
        for place in weak.len() / 2..weak.len() {
            let (_rank, clause) = at(&weak, place, (0, 0));
            self.set_note(clause, DROPPED);
        }
    }

    /// Lets a clause grow older. Its rank where it may be dropped: by the glue, and by the count of literals where that is the same.
    fn weaken(&mut self, clause: u32) -> Option<u32> {
        let note = self.note(clause);
        let literals = at(&self.arena, clause as usize, 0);
        let glue = note & GLUE;
        let uses = note / USE;
        if glue <= 2 || literals == 2 {
            return None;
        }
        self.set_note(clause, uses.saturating_sub(1).wrapping_mul(USE) | glue);
        if uses == 0 || uses == 1 && glue > 6 {
            Some(glue.min(63) << 6 | literals.min(63))
        } else {
            None
        }
    }

    /// Moves the clauses together. In the old arena the new place of each stands in that of its number.
    fn compact(&mut self) {
        let empty = Vec::new(self.alloc);
        let mut old = mem::replace(&mut self.arena, empty);
        self.move_clauses(&mut old);
        for literal in 0..self.watches.len() {
            if let Some(list) = self.watches.get_mut(literal) {
                move_watches(list, &old);
            }
        }
    }

    fn move_clauses(&mut self, old: &mut [u32]) {
        self.kept.clear();
        let mut place = 0usize;
        for _ in 0..old.len() {
            let count = at(old, place, 0) as usize;
            let note = at(old, place.saturating_add(2), DROPPED);
            let end = place.saturating_add(HEAD).saturating_add(count);
            if note != DROPPED {
                let moved = u32::try_from(self.arena.len()).unwrap_or(0);
                let words = old.get(place..end).unwrap_or(&[]);
                extend(&mut self.arena, words, &mut self.lacks_memory);
                put(old, place.saturating_add(1), moved);
                if note > 0 && count > 1 {
                    add(&mut self.kept, moved, &mut self.lacks_memory);
                }
            }
            if end >= old.len() {
                return;
            }
            place = end;
        }
    }
}

/// Gives the watches of a literal the new places of their clauses, and drops those of dropped clauses.
fn move_watches(list: &mut Vec<Watch>, old: &[u32]) {
    let mut kept = 0usize;
    for index in 0..list.len() {
        let watch = at(list, index, NO_WATCH);
        let place = (watch.clause & !SHORT) as usize;
        if at(old, place.saturating_add(2), DROPPED) != DROPPED {
            let clause = at(old, place.saturating_add(1), 0) | watch.clause & SHORT;
            put(list, kept, Watch { clause, ..watch });
            kept = kept.saturating_add(1);
        }
    }
    list.truncate(kept);
}
