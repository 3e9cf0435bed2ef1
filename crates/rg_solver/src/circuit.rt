//! The gates of a circuit, read back from its clauses.

use crate::code::{Code, code_of, negated, variable_of};
use crate::given::Given;
use crate::table::{add, at, fill, put};
use std::alloc::Global;

/// The operands of an AND gate.
#[derive(Clone, Copy)]
pub struct Operands {
    pub first: Code,
    pub second: Code,
}

/// Gates in order; their variables follow the inputs.
#[derive(Drop)]
pub struct Circuit {
    pub inputs: usize,
    pub gates: Vec<Operands>,
    /// By variable: whether the assertion rests on it.
    pub active: Vec<bool>,
    /// The literal that the one clause after those of the gates asserts, or 0.
    pub assertion: Code,
}

/// The code of a literal of a given clause.
fn code_at(given: Given<'_>, index: usize, place: usize) -> Code {
    code_of(at(given.clause(index), place, 0))
}

/// The operands of the gate with this variable, where the three clauses from this place on are a gate's.
fn operands_at(given: Given<'_>, start: usize, variable: usize) -> Option<Operands> {
    let second_place = start.saturating_add(1);
    let third_place = start.saturating_add(2);
    let first = code_at(given, start, 1);
    let second = code_at(given, second_place, 1);
    let gate = code_at(given, third_place, 0);
    let is_gate = variable_of(gate) == variable
        && gate & 1 == 0
        && code_at(given, start, 0) == negated(gate)
        && code_at(given, second_place, 0) == negated(gate)
        && code_at(given, third_place, 1) == negated(first)
        && code_at(given, third_place, 2) == negated(second);
    let is_earlier = 2 <= first.min(second) && variable_of(first.max(second)) < variable;
    if is_gate && is_earlier {
        Some(Operands { first, second })
    } else {
        None
    }
}

impl Circuit {
    /// No gates.
    pub fn new(alloc: Global) -> Self {
        Circuit {
            inputs: 0,
            gates: Vec::new(alloc),
            active: Vec::new(alloc),
            assertion: 0,
        }
    }

    /// Reads the circuit that the clauses begin with, three clauses for each gate. One clause of one literal after those of the gates
    /// is the assertion.
    pub fn read(&mut self, given: Given<'_>, lacks_memory: &mut bool) {
        let size = (given.variables as usize).saturating_add(1);
        fill(&mut self.active, false, size, lacks_memory);
        self.inputs = given.inputs as usize;
        for index in 0..given.len() / 3 {
            let variable = self.variables().saturating_add(1);
            let Some(gate) = operands_at(given, index.saturating_mul(3), variable) else {
                break;
            };
            add(&mut self.gates, gate, lacks_memory);
        }
        let rest = self.gates.len().saturating_mul(3);
        let last = given.clause(rest);
        if given.len() == rest.saturating_add(1) && last.len() == 1 {
            self.assertion = code_of(at(last, 0, 0));
        }
        self.mark_active(given, rest);
    }

    /// Marks what the clauses after those of the gates rest on.
    fn mark_active(&mut self, given: Given<'_>, rest: usize) {
        for index in rest..given.len() {
            for literal in given.clause(index) {
                put(&mut self.active, variable_of(code_of(*literal)), true);
            }
        }
        for place in (0..self.gates.len()).rev() {
            let variable = self.inputs.saturating_add(place).saturating_add(1);
            match self.operands(variable) {
                Some(gate) if self.is_active(variable) => {
                    put(&mut self.active, variable_of(gate.first), true);
                    put(&mut self.active, variable_of(gate.second), true);
                }
                _ => {}
            }
        }
    }

    /// Whether the assertion rests on a variable.
    #[inline]
    pub fn is_active(&self, variable: usize) -> bool {
        at(&self.active, variable, false)
    }

    /// Whether a clause is needed: not where it is of a gate on which the assertion doesn't rest.
    pub fn needs(&self, clause: usize) -> bool {
        let gate = clause / 3;
        gate >= self.gates.len()
            || self.is_active(self.inputs.saturating_add(gate).saturating_add(1))
    }

    /// The count of inputs and gates.
    pub fn variables(&self) -> usize {
        self.inputs.saturating_add(self.gates.len())
    }

    /// The operands of a variable, where it is a gate.
    #[inline]
    pub fn operands(&self, variable: usize) -> Option<Operands> {
        let place = variable.checked_sub(self.inputs)?.checked_sub(1)?;
        self.gates.get(place).copied()
    }

    /// The operands of both operands of a gate of two negated gates.
    pub fn halves(&self, variable: usize) -> Option<(Operands, Operands)> {
        let gate = self.operands(variable)?;
        if gate.first & gate.second & 1 == 0 {
            return None;
        }
        let a = self.operands(variable_of(gate.first))?;
        let b = self.operands(variable_of(gate.second))?;
        Some((a, b))
    }

    /// The operands of an exclusive or, or of its negation: a gate of two negated gates, whose operands are opposite.
    pub fn exclusive(&self, variable: usize) -> Option<Operands> {
        let (a, b) = self.halves(variable)?;
        if a.first == negated(b.first) && a.second == negated(b.second) {
            return Some(a);
        }
        None
    }

    /// The literal by which a gate picks between two, and both: it is the negation of `c and a` or `not c and b`.
    fn pick(&self, variable: usize) -> Option<(Code, Operands)> {
        let (a, b) = self.halves(variable)?;
        for (test, first) in [(a.first, a.second), (a.second, a.first)] {
            for (other, second) in [(b.first, b.second), (b.second, b.first)] {
                if test == negated(other) {
                    return Some((test, Operands { first, second }));
                }
            }
        }
        None
    }

    /// What a gate picks from.
    pub fn picked(&self, variable: usize) -> Option<Operands> {
        Some(self.pick(variable)?.1)
    }

    /// Whether of two gates one picks what the other doesn't.
    pub fn picks_others(&self, variable: usize, other: usize) -> bool {
        let (Some((test, a)), Some((same, b))) = (self.pick(variable), self.pick(other)) else {
            return false;
        };
        test == same && a.first == b.second && a.second == b.first
            || test == negated(same) && a.first == b.first && a.second == b.second
    }
}
