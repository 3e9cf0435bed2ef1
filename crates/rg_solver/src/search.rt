//! The search: propagation, learning, decisions and restarts, under assumptions or under none.
//!
//! It begins anew by the glue of what it learned lately (G. Audemard and L. Simon, "Predicting learnt clauses quality in modern SAT
//! solvers", 2009).

use crate::code::{Code, variable_of};
use crate::solver::{FALSE, OPEN, Solver};
use crate::table::{add, at, put};
use rg_watch::Watcher;

/// The most conflicts that the long mean of the glue is taken of.
const LONG_MEAN: u64 = 8192;

/// The conflicts that the short mean is taken of.
const SHORT_MEAN: u64 = 32;

/// How a search ends.
#[derive(Clone, Copy, PartialEq, Eq)]
pub enum Outcome {
    /// The assumptions exclude each other, or the clauses are refuted.
    Excluded,
    /// The values that the solver has now keep all clauses, or those of the assumptions' cone; the assumptions are true.
    Assigned,
    /// The decisions or the conflicts were used up.
    GaveUp,
}

/// What a search looks for, and how much is left of it.
#[derive(Clone, Copy)]
pub struct Goal<'a> {
    /// Literals to be shown not to be true together. With none there is no assumption.
    assumed: &'a [Code],
    /// The conflicts that are left.
    pub conflicts: u64,
    /// The decisions on inputs that are left.
    pub decisions: u64,
    /// Whether the cone of the assumptions is known.
    has_cone: bool,
}

/// The mean of about so many numbers, with another one.
fn mean(before: u64, number: u64, count: u64) -> u64 {
    let many = count.max(1);
    before
        .saturating_sub(before / many)
        .saturating_add(number / many)
}

impl<'a> Goal<'a> {
    /// That some literals aren't true together; with none, values for all variables, or a refutation.
    pub fn new(assumed: &'a [Code], conflicts: u64, decisions: u64) -> Self {
        Goal {
            assumed,
            conflicts,
            decisions,
            has_cone: false,
        }
    }
}

impl Solver {
    /// Searches for a proof that these literals aren't true together, with at most so many conflicts.
    pub fn exclude<W: Watcher>(
        &mut self,
        assumed: &[Code],
        limit: u64,
        watcher: &mut W,
    ) -> Outcome {
        let mut goal = Goal::new(assumed, limit, u64::MAX);
        self.search(&mut goal, watcher)
    }

    /// As `exclude`, with decisions on the variables of these literals alone.
    pub fn exclude_within<W: Watcher>(
        &mut self,
        assumed: &[Code],
        window: &[Code],
        limit: u64,
        watcher: &mut W,
    ) -> Outcome {
        let mut goal = Goal::new(assumed, limit, u64::MAX);
        goal.has_cone = true;
        self.begin_cone();
        for literal in window {
            self.enter(*literal);
        }
        self.search(&mut goal, watcher)
    }

    /// Searches until the goal is decided or its effort is used up. What was learned stays.
    pub fn search<W: Watcher>(&mut self, goal: &mut Goal<'_>, watcher: &mut W) -> Outcome {
        self.backtrack(0);
        self.since_restart = 0;
        for _ in 0..u64::MAX {
            if self.log.is_refuted {
                return Outcome::Excluded;
            }
            if self.is_over() {
                break;
            }
            if let Some(outcome) = self.advance(goal) {
                return outcome;
            }
            if !watcher.searched(self.conflicts, self.kept.len()) {
                self.is_ended = true;
            }
        }
        Outcome::GaveUp
    }

    /// Follows unit clauses, and then learns from a conflict; begins anew, where what was learned lately has more glue than usual; makes
    /// the next assumption, which is excluded where it is false already; or decides.
    fn advance(&mut self, goal: &mut Goal<'_>) -> Option<Outcome> {
        let base = goal.assumed.len();
        if let Some(conflict) = self.propagate() {
            return self.take_conflict(conflict, goal);
        }
        let is_stuck = self.fast_glue.saturating_mul(10) > self.slow_glue.saturating_mul(11);
        if self.level() > base && self.since_restart >= 2 && is_stuck {
            self.since_restart = 0;
            self.fast_glue = self.slow_glue;
            self.backtrack(0);
            self.reduce_if_due();
            return None;
        }
        if self.level() < base {
            let literal = at(goal.assumed, self.level(), 0);
            if self.value(literal) == FALSE {
                self.contradict(literal);
                return Some(Outcome::Excluded);
            }
            self.decide(literal);
            return None;
        }
        if base > 0 && !goal.has_cone {
            goal.has_cone = true;
            self.enter_cone(goal.assumed);
        }
        self.decide_next(goal)
    }

    /// Counts a conflict that taught a clause of this glue.
    pub fn count_conflict(&mut self, glue: u32) {
        let measure = u64::from(glue) << 20;
        let long = self.conflicts.min(LONG_MEAN);
        self.slow_glue = mean(self.slow_glue, measure, long);
        self.fast_glue = mean(self.fast_glue, measure, SHORT_MEAN);
        self.conflicts = self.conflicts.saturating_add(1);
        self.since_restart = self.since_restart.saturating_add(1);
        self.order.decay();
        self.near.decay();
    }

    /// Learns from a conflict. Where it rests on the assumptions alone, or on nothing, the search ends.
    fn take_conflict(&mut self, conflict: u32, goal: &mut Goal<'_>) -> Option<Outcome> {
        if self.level() <= goal.assumed.len() {
            self.conclude(conflict);
            return Some(Outcome::Excluded);
        }
        if goal.conflicts == 0 {
            return Some(Outcome::GaveUp);
        }
        goal.conflicts = goal.conflicts.saturating_sub(1);
        self.learn(conflict);
        None
    }

    /// Decides an open variable, of the cone where there are assumptions. Without any, decisions on inputs are counted, and once those
    /// and the conflicts are used up, no more is done than to follow unit clauses.
    fn decide_next(&mut self, goal: &mut Goal<'_>) -> Option<Outcome> {
        let is_lemma = !goal.assumed.is_empty();
        let Some(decision) = self.next_open(is_lemma) else {
            return Some(Outcome::Assigned);
        };
        if !is_lemma {
            let is_input = variable_of(decision) <= self.circuit.inputs;
            if goal.decisions == 0 && (is_input || goal.conflicts == 0) {
                self.order.insert(decision >> 1);
                return Some(Outcome::GaveUp);
            }
            let counted = u64::from(is_input);
            goal.decisions = goal.decisions.saturating_sub(counted);
        }
        self.decide(decision);
        None
    }

    /// An open variable, or one of the cone, the most active first, with its last value.
    fn next_open(&mut self, is_near: bool) -> Option<Code> {
        for _ in 0..u64::MAX {
            let next = if is_near {
                self.near.pop()
            } else {
                self.order.pop()
            };
            let variable = next?;
            let code = variable.wrapping_mul(2);
            if self.value(code) == OPEN {
                let phase = at(&self.phases, variable as usize, false);
                return Some(if phase { code } else { code | 1 });
            }
        }
        None
    }

    fn begin_cone(&mut self) {
        self.cone_stamp = self.cone_stamp.wrapping_add(1);
        self.cone.clear();
        self.near.clear();
    }

    /// Collects the variables on which literals rest, the nearest first.
    fn enter_cone(&mut self, literals: &[Code]) {
        self.begin_cone();
        for literal in literals {
            self.enter(*literal);
        }
        for place in 0..usize::MAX {
            let Some(variable) = self.cone.get(place).copied() else {
                break;
            };
            if let Some(gate) = self.circuit.operands(variable) {
                self.enter(gate.first);
                self.enter(gate.second);
            }
        }
        self.effort = self.effort.saturating_add(self.cone.len() as u64);
    }

    /// Enters the variable of a literal into the cone.
    fn enter(&mut self, literal: Code) {
        let variable = variable_of(literal);
        if variable == 0 || at(&self.cone_marks, variable, u32::MAX) == self.cone_stamp {
            return;
        }
        put(&mut self.cone_marks, variable, self.cone_stamp);
        add(&mut self.cone, variable, &mut self.lacks_memory);
        self.near.insert(literal >> 1);
    }
}
