//! What is equal by the gates' operands, shown by unit clauses alone.

use crate::answer::Search;
use crate::leaders::Leaders;
use rg_solver::code::{Code, code_for, negated, variable_of};
use rg_solver::solver::{FALSE, OPEN, TRUE};
use rg_solver::table::{add, at, extend, put};
use std::alloc::Global;
use std::mem;

/// The code that stands for true, and its negation for false.
const TRUTH: Code = 0;

const FALSITY: Code = 1;

/// The most rounds over all gates.
const MOST_ROUNDS: usize = 20;

/// What sets the keys of false gates apart from those of open gates.
const FALSE_GATE: u64 = 1 << 63;

/// Classes of equal literals.
#[derive(Drop)]
pub struct Classes {
    /// The literal under which they are equal, or 0.
    case: Code,
    /// By variable a literal of a lower one that is equal, or its own.
    parents: Vec<Code>,
    /// The parents without the case.
    kept: Vec<Code>,
    gates: Leaders,
}

impl Classes {
    /// No literals.
    pub fn new(alloc: Global) -> Self {
        Classes {
            case: 0,
            parents: Vec::new(alloc),
            kept: Vec::new(alloc),
            gates: Leaders::new(alloc),
        }
    }

    /// Room for so many variables, each of which is equal to itself alone.
    pub fn make_room(&mut self, variables: usize, lacks_memory: &mut bool) {
        let size = variables.saturating_add(1);
        self.gates.make_room(size, lacks_memory);
        for variable in 0..size {
            add(&mut self.parents, code_for(variable), lacks_memory);
        }
    }

    #[inline]
    fn parent(&self, literal: Code) -> Code {
        at(&self.parents, variable_of(literal), 0) ^ (literal & 1)
    }

    /// The lowest literal that is equal. On the way there the steps are halved.
    pub fn root(&mut self, literal: Code) -> Code {
        let mut lower = literal;
        for _ in 0..self.parents.len() {
            let parent = self.parent(lower);
            if parent == lower {
                break;
            }
            let above = self.parent(parent);
            put(&mut self.parents, variable_of(lower), above ^ (lower & 1));
            lower = above;
        }
        lower
    }

    /// Makes two literals equal.
    pub fn join(&mut self, first: Code, second: Code) {
        let a = self.root(first);
        let b = self.root(second);
        if variable_of(a) == variable_of(b) {
            return;
        }
        let low = a.min(b);
        let high = a.max(b);
        put(&mut self.parents, variable_of(high), low ^ (high & 1));
    }

    /// Begins a case; the classes are as they were before it when it ends.
    pub fn begin(&mut self, case: Code, lacks_memory: &mut bool) {
        self.case = case;
        self.kept.clear();
        extend(&mut self.kept, &self.parents, lacks_memory);
    }

    /// Ends the case.
    pub fn end(&mut self) {
        self.case = 0;
        mem::swap(&mut self.parents, &mut self.kept);
    }
}

impl Search {
    /// The lowest literal that is equal, or a constant.
    pub fn reduced(&mut self, literal: Code) -> Code {
        let root = self.classes.root(literal);
        match self.solver.value(root) {
            OPEN => root,
            TRUE => TRUTH,
            _ => FALSITY,
        }
    }

    /// Looks at the gates, round by round, until nothing is found, the case is refuted, or the solver has done so much.
    pub fn close(&mut self, effort: u64) {
        for _ in 0..MOST_ROUNDS {
            if !self.goes_round(effort) {
                return;
            }
        }
    }

    /// Whether a look at all gates found anything, and it makes sense to look again.
    fn goes_round(&mut self, effort: u64) -> bool {
        let mut has_found = false;
        self.classes.gates.clear();
        for variable in 1..self.solver.circuit.variables().saturating_add(1) {
            if self.looks_at(variable) {
                has_found = true;
                if self.is_ended() || self.solver.effort > effort {
                    return false;
                }
            }
        }
        let work = self.solver.circuit.gates.len() as u64 / 16;
        self.solver.effort = self.solver.effort.saturating_add(work);
        has_found
    }

    /// Whether there is nothing more to find: all is refuted, or the case is.
    fn is_ended(&self) -> bool {
        let case = self.classes.case;
        self.solver.is_over() || case > 0 && self.solver.value(case) == FALSE
    }

    /// Whether a gate shows anything.
    fn looks_at(&mut self, variable: usize) -> bool {
        let gate = code_for(variable);
        let value = self.solver.value(gate);
        if value == TRUE || !self.solver.circuit.is_active(variable) {
            return false;
        }
        let Some(operands) = self.solver.circuit.operands(variable) else {
            return false;
        };
        let a = self.reduced(operands.first);
        let b = self.reduced(operands.second);
        if value == OPEN {
            self.looks_at_open(gate, a.min(b), a.max(b))
        } else {
            self.looks_at_false(a.min(b), a.max(b))
        }
    }

    /// Looks at an open gate with these reduced operands, the lower one first.
    fn looks_at_open(&mut self, gate: Code, first: Code, second: Code) -> bool {
        if first == FALSITY || second == FALSITY || first == negated(second) {
            return self.solver.excludes(self.classes.case, gate, gate);
        }
        if first == TRUTH || first == second {
            return self.merge(gate, second);
        }
        let key = key_of(first, second);
        match self.classes.gates.leader_or(key, variable_of(gate)) {
            Some(other) => self.merge(gate, code_for(other)),
            None => false,
        }
    }

    /// Not both operands: with the same of their negations they are opposite.
    fn looks_at_false(&mut self, first: Code, second: Code) -> bool {
        if first < 2 {
            return false;
        }
        if first == second {
            return self.solver.excludes(self.classes.case, first, first);
        }
        let key = key_of(first, second) ^ FALSE_GATE;
        let _earlier = self.classes.gates.leader_or(key, 0);
        let opposite = key_of(negated(first), negated(second)) ^ FALSE_GATE;
        self.classes.gates.leader(opposite).is_some() && self.merge(first, negated(second))
    }

    /// Shows that two literals are equal, by a clause in each direction. Whether it did, or there is nothing more to find.
    fn merge(&mut self, first: Code, second: Code) -> bool {
        let a = self.reduced(first);
        let b = self.reduced(second);
        if a == b || a < 2 || b < 2 {
            return false;
        }
        let case = self.classes.case;
        let solver = &mut self.solver;
        let is_shown = solver.excludes(case, first, negated(second))
            && !solver.is_over()
            && solver.excludes(case, negated(first), second);
        if is_shown && !solver.is_over() {
            self.classes.join(first, second);
        }
        is_shown || self.is_ended()
    }
}

/// A key that no two pairs share.
fn key_of(first: Code, second: Code) -> u64 {
    u64::from(first) << 32 | u64::from(second)
}
