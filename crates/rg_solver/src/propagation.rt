//! Unit propagation by two watched literals.

use crate::code::{Code, negated};
use crate::solver::{FALSE, NO_WATCH, SHORT, Solver, Span, TRUE, Watch};
use crate::table::{at, put};
use std::mem;

/// What became of a watch.
enum Rewatch {
    /// Another literal is watched.
    Moved,
    /// The watch stays, with this other literal.
    Kept(Code),
    /// All literals are false.
    Conflict,
}

impl Solver {
    /// Follows all unit clauses; a clause whose literals are all false.
    pub fn propagate(&mut self) -> Option<u32> {
        for _ in 0..u64::MAX {
            let Some(literal) = self.trail.get(self.head).copied() else {
                break;
            };
            self.head = self.head.saturating_add(1);
            self.effort = self.effort.saturating_add(1);
            let conflict = self.visit(negated(literal));
            if conflict.is_some() {
                return conflict;
            }
        }
        None
    }

    /// Looks at the clauses that watch a literal which became false, and leaves those in its list that watch it still.
    fn visit(&mut self, literal: Code) -> Option<u32> {
        let empty = Vec::new(self.alloc);
        let mut list = match self.watches.get_mut(literal as usize) {
            Some(slot) => mem::replace(slot, empty),
            None => return None,
        };
        let mut kept = 0usize;
        let mut conflict = None;
        for index in 0..list.len() {
            let watch = at(&list, index, NO_WATCH);
            let blocker = match self.look(watch, literal, conflict.is_some()) {
                Rewatch::Moved => continue,
                Rewatch::Kept(blocker) => blocker,
                Rewatch::Conflict => {
                    conflict = Some(watch.clause & !SHORT);
                    watch.blocker
                }
            };
            put(&mut list, kept, Watch { blocker, ..watch });
            kept = kept.saturating_add(1);
        }
        list.truncate(kept);
        if let Some(slot) = self.watches.get_mut(literal as usize) {
            *slot = list;
        }
        conflict
    }

    /// Looks at a clause that watches the literal, unless a conflict was met.
    #[inline]
    fn look(&mut self, watch: Watch, literal: Code, is_done: bool) -> Rewatch {
        if is_done || self.value(watch.blocker) == TRUE {
            return Rewatch::Kept(watch.blocker);
        }
        if watch.clause & SHORT == 0 {
            return self.rewatch(watch.clause, literal);
        }
        if self.value(watch.blocker) == FALSE {
            return Rewatch::Conflict;
        }
        self.enqueue(watch.blocker, watch.clause & !SHORT);
        Rewatch::Kept(watch.blocker)
    }

    /// Finds another literal to watch, or follows the clause.
    fn rewatch(&mut self, clause: u32, literal: Code) -> Rewatch {
        let Span { start, end } = self.span(clause);
        let second = start.saturating_add(1);
        let other = at(&self.arena, start, 0) ^ at(&self.arena, second, 0) ^ literal;
        if self.value(other) == TRUE {
            return Rewatch::Kept(other);
        }
        for place in start.saturating_add(2)..end {
            let candidate = at(&self.arena, place, 0);
            if self.value(candidate) != FALSE {
                put(&mut self.arena, start, other);
                put(&mut self.arena, second, candidate);
                put(&mut self.arena, place, literal);
                self.watch(candidate, clause, other);
                return Rewatch::Moved;
            }
        }
        if self.value(other) == FALSE {
            return Rewatch::Conflict;
        }
        self.enqueue(other, clause);
        Rewatch::Kept(other)
    }
}
