//! Congruence under a literal: what is equal where it is true. The literals are those by which gates pick, and the leaves: literals of
//! which one has to be true.

use crate::answer::Search;
use rg_solver::circuit::{Circuit, Operands};
use rg_solver::code::{Code, code_for, negated, variable_of};
use rg_solver::solver::{FALSE, OPEN, Solver};
use rg_solver::table::{add, at, fill, increment, put};
use rg_watch::Watcher;

/// The most variables that are cases, each with both signs.
const MOST_CASES: usize = 64;

/// The most literals of gates that are opened to what they stand for.
const MOST_OPENED: usize = 1_000;

/// The most conflicts to refute a leaf.
const LEAF_CONFLICTS: u64 = 30;

/// Counts by variable how often gates pick by it: `c and a`, and `not c and b`. Such a gate is the conjunction of two negated gates, one
/// with the literal and one with its negation.
fn count_picks(circuit: &Circuit, uses: &mut [u32]) {
    for variable in 0..uses.len() {
        match circuit.halves(variable) {
            Some((a, b)) if circuit.is_active(variable) => {
                count_shared(a, b.first, b.second, uses);
                count_shared(a, b.second, b.first, uses);
            }
            _ => {}
        }
    }
}

/// Counts the operand of a gate that is opposite to that of another one, where the others aren't opposite too.
fn count_shared(a: Operands, first: Code, second: Code, uses: &mut [u32]) {
    let is_first = a.first == negated(first);
    let is_second = a.second == negated(second);
    if is_first != is_second {
        increment(uses, variable_of(if is_first { a.first } else { a.second }));
    }
}

/// The open variable with the most uses, of two at least; its uses are forgotten.
fn take_most_used(solver: &Solver, uses: &mut [u32]) -> Option<Code> {
    let mut most = 1;
    let mut found = None;
    for variable in 0..uses.len() {
        let own = at(uses, variable, 0);
        if own > most && solver.value(code_for(variable)) == OPEN {
            most = own;
            found = Some(variable);
        }
    }
    let variable = found?;
    put(uses, variable, 0);
    Some(code_for(variable))
}

impl Search {
    /// Closes the classes under a literal, until the solver has done so much, or logged much.
    fn close_under(&mut self, case: Code, effort: u64) {
        let solver = &mut self.solver;
        let is_done = solver.is_over() || solver.log.is_long() || solver.effort > effort;
        if is_done || solver.value(case) != OPEN {
            return;
        }
        solver.begin_case(case);
        if !solver.is_over() && solver.level() > 0 {
            self.classes.begin(case, &mut self.solver.lacks_memory);
            self.close(effort);
            self.classes.end();
        }
        self.solver.backtrack(0);
    }

    /// Closes the classes under the literals by which gates pick most often, until the solver has done so much.
    pub fn close_cases(&mut self, effort: u64) {
        let mut uses = Vec::new(self.solver.alloc);
        let size = self.solver.circuit.variables().saturating_add(1);
        fill(&mut uses, 0u32, size, &mut self.solver.lacks_memory);
        count_picks(&self.solver.circuit, &mut uses);
        for _ in 0..MOST_CASES {
            let Some(case) = take_most_used(&self.solver, &mut uses) else {
                break;
            };
            self.close_under(case, effort);
            self.close_under(negated(case), effort);
        }
    }

    /// Adds the operands of a gate, negated: where it is false, one of these is true.
    fn add_sides(&mut self, variable: usize, list: &mut Vec<Code>) {
        if let Some(gate) = self.solver.circuit.operands(variable) {
            add(list, negated(gate.first), &mut self.solver.lacks_memory);
            add(list, negated(gate.second), &mut self.solver.lacks_memory);
        }
    }

    /// The literals of which one is true for each false gate, and in place of a negated gate among them what it stands for.
    pub fn leaf_literals(&mut self) -> Vec<Code> {
        let mut list = Vec::new(self.solver.alloc);
        for variable in 1..self.solver.circuit.variables().saturating_add(1) {
            let is_false = self.solver.value(code_for(variable)) == FALSE;
            if is_false && self.solver.circuit.is_active(variable) {
                self.add_sides(variable, &mut list);
            }
        }
        for place in 0..MOST_OPENED {
            let literal = at(&list, place, 0);
            if literal & 1 == 1 && self.solver.value(literal) == OPEN {
                self.add_sides(variable_of(literal), &mut list);
            }
        }
        list
    }

    /// Whether a literal is a gate that stands positive, and is open.
    fn is_leaf(&self, literal: Code) -> bool {
        let variable = variable_of(literal);
        literal & 1 == 0
            && self.solver.value(literal) == OPEN
            && self.solver.circuit.operands(variable).is_some()
    }

    /// Closes the classes under each leaf of these literals, until the solver has done so much.
    pub fn close_each(&mut self, literals: &[Code], effort: u64) {
        for literal in literals {
            if self.is_leaf(*literal) {
                self.close_under(*literal, effort);
            }
        }
    }

    /// Tries to refute each leaf of these literals by itself with few conflicts, until the solver has done so much.
    pub fn refute_each<W: Watcher>(&mut self, literals: &[Code], effort: u64, watcher: &mut W) {
        let conflicts = self.steps.min(LEAF_CONFLICTS);
        for literal in literals {
            if self.solver.is_over() || self.solver.effort > effort {
                return;
            }
            if self.is_leaf(*literal) {
                let _outcome = self.solver.exclude(&[*literal], conflicts, watcher);
                self.solver.backtrack(0);
            }
        }
    }
}
