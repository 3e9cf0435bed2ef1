//! What is learned of the literals that were made true without a reason, and of cases and probes: what unit clauses alone refute.

use crate::analysis::{LATELY, swap};
use crate::code::{Code, negated};
use crate::solver::{FALSE, NO_CLAUSE, OPEN, Solver};
use crate::table::{add, at};

/// The note of a learned clause that stays.
const STAYS: u32 = LATELY | 1;

impl Solver {
    /// Learns that the literals without a reason, on which the conflict rests, exclude each other, and goes back to level 0.
    pub fn conclude(&mut self, conflict: u32) {
        self.learned.clear();
        let number = self.log_learned(conflict);
        self.keep_conclusion(number);
    }

    /// Learns that the literals without a reason, on which it rests that this literal is false, exclude it. It goes back to level 0.
    pub fn contradict(&mut self, literal: Code) {
        let reason = self.reason_of(literal);
        if self.level_of(literal) == 0 || reason == NO_CLAUSE {
            self.backtrack(0);
            return;
        }
        self.learned.clear();
        add(&mut self.learned, negated(literal), &mut self.lacks_memory);
        let number = self.log_learned(reason);
        self.keep_conclusion(number);
    }

    /// Goes back to level 0, and keeps the learned clause.
    fn keep_conclusion(&mut self, number: u32) {
        self.backtrack(0);
        if self.learned.is_empty() {
            return;
        }
        let clause = self.add_clause(number, STAYS);
        if self.learned.len() == 1 {
            let literal = at(&self.learned, 0, 0);
            self.enqueue(literal, clause);
        }
        self.settle();
    }

    /// Whether unit clauses refute two literals together, under the case literal where it isn't 0. The clause is kept. Both are
    /// assumed on one level, so that a conflict is met before all that follows from the first.
    pub fn excludes(&mut self, case: Code, first: Code, second: Code) -> bool {
        if self.value(first) == FALSE || self.value(second) == FALSE {
            return true;
        }
        let base = self.level();
        self.decide(first);
        self.assume(second);
        let Some(conflict) = self.propagate() else {
            self.backtrack(base);
            return false;
        };
        if base == 0 {
            self.conclude(conflict);
        } else {
            self.conclude_under(conflict);
            self.begin_case(case);
        }
        true
    }

    /// Assumes a literal at level 1 unless it is, and follows it; where unit clauses refute it, its negation is kept.
    pub fn begin_case(&mut self, case: Code) {
        if self.is_over() || self.value(case) != OPEN {
            return;
        }
        self.decide(case);
        self.follow_case();
    }

    fn follow_case(&mut self) {
        if let Some(conflict) = self.propagate() {
            self.conclude(conflict);
        }
    }

    /// Learns from the conflict of a probe under a case. The case stays, unless it is refuted or what is learned holds without it.
    fn conclude_under(&mut self, conflict: u32) {
        self.learned.clear();
        let number = self.log_learned(conflict);
        self.backtrack(1);
        let open = self.bring_open_first();
        if open == 0 || self.learned.len() == 1 {
            self.keep_conclusion(number);
            return;
        }
        let clause = self.add_clause(number, STAYS);
        if open == 1 {
            let literal = at(&self.learned, 0, 0);
            self.enqueue(literal, clause);
            self.follow_case();
        }
    }

    /// Brings the open literals of the learned clause to its front, and counts them.
    fn bring_open_first(&mut self) -> usize {
        let mut open = 0usize;
        for place in 0..self.learned.len() {
            if self.value(at(&self.learned, place, 0)) == OPEN {
                swap(&mut self.learned, open, place);
                open = open.saturating_add(1);
            }
        }
        open
    }
}
