//! The clause that a conflict teaches.

use crate::code::{Code, negated, variable_of};
use crate::solver::{NO_CLAUSE, Solver, Span};
use crate::table::{add, at, put};

/// The bits of a note that hold the glue.
pub const GLUE: u32 = 0xffff;

/// What a use counts in a note, above the glue.
pub const USE: u32 = 0x1_0000;

/// The note of a clause of glue 0 that was used lately.
pub const LATELY: u32 = 0x2_0000;

/// The count of levels above 0 in a clause, of which each is marked: at least 1.
fn glue_of(literals: &[Code], levels: &[u32], marks: &mut [u64], stamp: u64) -> u32 {
    let mut glue = 0u32;
    for literal in literals {
        let level = at(levels, variable_of(*literal), 0) as usize;
        if level > 0 && at(marks, level, 0) != stamp {
            put(marks, level, stamp);
            glue = glue.saturating_add(1);
        }
    }
    glue.max(1).min(GLUE)
}

impl Solver {
    /// Notes the variable of a literal as seen.
    fn touch(&mut self, literal: Code) {
        put(&mut self.seen, variable_of(literal), true);
        add(&mut self.touched, literal >> 1, &mut self.lacks_memory);
    }

    fn forget_marks(&mut self, from: usize) {
        for place in from..self.touched.len() {
            let variable = at(&self.touched, place, 0);
            put(&mut self.seen, variable as usize, false);
        }
        self.touched.truncate(from);
    }

    /// The clause that gave a literal's variable its value, or `NO_CLAUSE`.
    pub fn reason_of(&self, literal: Code) -> u32 {
        at(&self.reasons, variable_of(literal), NO_CLAUSE)
    }

    /// Notes that a learned clause is used, and its glue, which may be less by now.
    fn renew(&mut self, clause: u32) {
        let mut glue = self.note(clause) & GLUE;
        if glue > 2 {
            let Span { start, end } = self.span(clause);
            let literals = self.arena.get(start..end).unwrap_or(&[]);
            self.stamp = self.stamp.wrapping_add(1);
            let marks = &mut self.level_marks;
            glue = glue.min(glue_of(literals, &self.levels, marks, self.stamp));
        }
        self.set_note(clause, LATELY | glue);
    }

    /// Notes the literals of a clause that is resolved upon.
    fn mark(&mut self, clause: u32) {
        if self.note(clause) > 0 {
            self.renew(clause);
        }
        let Span { start, end } = self.span(clause);
        for place in start..end {
            let literal = at(&self.arena, place, 0);
            let level = self.level_of(literal);
            if level == 0 || at(&self.seen, variable_of(literal), true) {
                continue;
            }
            self.touch(literal);
            self.near.bump(literal >> 1);
            self.order.bump(literal >> 1);
            if level == self.level() {
                self.open = self.open.saturating_add(1);
            } else {
                add(&mut self.learned, literal, &mut self.lacks_memory);
            }
        }
    }

    /// Resolves back along the trail to the one literal of this level on which the conflict rests.
    fn resolve(&mut self, conflict: u32) -> Code {
        self.open = 0;
        self.mark(conflict);
        for place in (0..self.trail.len()).rev() {
            let literal = at(&self.trail, place, 0);
            if !at(&self.seen, variable_of(literal), false) {
                continue;
            }
            if self.open <= 1 {
                return literal;
            }
            self.open = self.open.saturating_sub(1);
            let reason = self.reason_of(literal);
            self.mark(reason);
        }
        0
    }

    /// Puts the other literals of a reason on the stack; whether each of them may follow from the marked ones.
    fn expand(&mut self, reason: u32) -> bool {
        let Span { start, end } = self.span(reason);
        for place in start..end {
            let other = at(&self.arena, place, 0);
            let level = self.level_of(other);
            if level == 0 || at(&self.seen, variable_of(other), false) {
                continue;
            }
            let is_marked = at(&self.level_marks, level, 0) == self.stamp;
            if !is_marked || self.reason_of(other) == NO_CLAUSE {
                return false;
            }
            self.touch(other);
            add(&mut self.stack, other, &mut self.lacks_memory);
        }
        true
    }

    /// Whether a literal of the clause follows from the others.
    fn is_redundant(&mut self, literal: Code) -> bool {
        if self.reason_of(literal) == NO_CLAUSE {
            return false;
        }
        let before = self.touched.len();
        self.stack.clear();
        add(&mut self.stack, literal, &mut self.lacks_memory);
        for _ in 0..u64::MAX {
            let Some(next) = self.stack.pop() else {
                break;
            };
            let reason = self.reason_of(next);
            if !self.expand(reason) {
                self.forget_marks(before);
                return false;
            }
        }
        true
    }

    /// Leaves out the literals that follow from the others.
    fn minimize(&mut self) {
        let mut kept = 1usize;
        for place in 1..self.learned.len() {
            let literal = at(&self.learned, place, 0);
            if !self.is_redundant(literal) {
                put(&mut self.learned, kept, literal);
                kept = kept.saturating_add(1);
            }
        }
        self.learned.truncate(kept);
        self.forget_marks(0);
    }

    /// Notes a clause on which the learned one rests, and marks its literals; the unit clause of a fixed one is a hint at once.
    fn need(&mut self, clause: u32) {
        let number = self.number(clause);
        add(&mut self.used, number, &mut self.lacks_memory);
        let Span { start, end } = self.span(clause);
        for place in start..end {
            let literal = at(&self.arena, place, 0);
            if at(&self.seen, variable_of(literal), true) {
                continue;
            }
            self.touch(literal);
            if self.level_of(literal) == 0 {
                let unit = at(&self.units, variable_of(literal), 0);
                add(&mut self.hints, unit, &mut self.lacks_memory);
            } else {
                self.open = self.open.saturating_add(1);
            }
        }
    }

    /// Collects the clauses that lead from the negation of the learned clause to the conflict, the last first: from each literal of the
    /// trail that is marked to the clause that gave it, unless it is in the learned clause or has none.
    fn collect(&mut self, conflict: u32) {
        self.used.clear();
        self.open = 0;
        self.need(conflict);
        for place in (0..self.trail.len()).rev() {
            if self.open == 0 {
                break;
            }
            let literal = at(&self.trail, place, 0);
            let variable = variable_of(literal);
            if !at(&self.seen, variable, false) || self.level_of(literal) == 0 {
                continue;
            }
            self.open = self.open.saturating_sub(1);
            if at(&self.in_learned, variable, false) {
                continue;
            }
            match self.reason_of(literal) {
                NO_CLAUSE => add(&mut self.learned, negated(literal), &mut self.lacks_memory),
                reason => self.need(reason),
            }
        }
        self.forget_marks(0);
    }

    fn mark_learned(&mut self, is_in: bool) {
        for literal in &self.learned {
            put(&mut self.in_learned, variable_of(*literal), is_in);
        }
    }

    /// Logs the learned clause with its hints, in the order in which they become unit. Literals without a reason, on which the
    /// conflict rests, come to it.
    pub fn log_learned(&mut self, conflict: u32) -> u32 {
        self.hints.clear();
        self.mark_learned(true);
        self.collect(conflict);
        self.mark_learned(false);
        for place in (0..self.used.len()).rev() {
            let number = at(&self.used, place, 0);
            add(&mut self.hints, number, &mut self.lacks_memory);
        }
        self.log
            .add(&self.learned, &self.hints, &mut self.lacks_memory)
    }

    /// Brings a literal of the greatest level below to the second place, and answers that level.
    fn second_level(&mut self) -> usize {
        let mut best = 0;
        let mut best_place = 1;
        for place in 1..self.learned.len() {
            let level = self.level_of(at(&self.learned, place, 0));
            if level > best {
                best = level;
                best_place = place;
            }
        }
        swap(&mut self.learned, 1, best_place);
        best
    }

    /// Learns a clause from the conflict, goes back, and follows the clause.
    pub fn learn(&mut self, conflict: u32) {
        self.learned.clear();
        add(&mut self.learned, 0, &mut self.lacks_memory);
        let last = self.resolve(conflict);
        put(&mut self.learned, 0, negated(last));
        self.stamp = self.stamp.wrapping_add(1);
        let marks = &mut self.level_marks;
        let glue = glue_of(&self.learned, &self.levels, marks, self.stamp);
        self.minimize();
        let number = self.log_learned(conflict);
        let level = self.second_level();
        self.backtrack(level);
        self.count_conflict(glue);
        let clause = self.add_clause(number, LATELY | glue);
        let literal = at(&self.learned, 0, 0);
        self.enqueue(literal, clause);
    }
}

/// Swaps two literals.
pub fn swap(literals: &mut [Code], first: usize, second: usize) {
    let a = at(literals, first, 0);
    let b = at(literals, second, 0);
    put(literals, first, b);
    put(literals, second, a);
}
