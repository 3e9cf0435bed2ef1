//! The adders of a circuit, full and half ones, found by the gates that sums and differences of words are built of.

use crate::answer::Search;
use crate::leaders::Leaders;
use crate::lemmas::{Carry, NO_CARRY, carry_of};
use rg_solver::circuit::{Circuit, Operands};
use rg_solver::code::{Code, code_for, negated, variable_of};
use rg_solver::table::{add, at, fill, put};

/// The codes that stand for true and for false.
pub const TRUTH: Code = 0;

pub const FALSITY: Code = 1;

/// The carry out where no gate has it.
pub const NO_OUT: Code = Code::MAX;

/// Adds two bits and a carry in: `total` is the lower bit of their sum, and `out`, the higher one, is the carry in of the next place.
#[derive(Clone, Copy)]
pub struct Adder {
    pub total: Code,
    pub first: Code,
    pub second: Code,
    pub carry: Carry,
    pub out: Code,
}

pub const NO_ADDER: Adder = Adder {
    total: FALSITY,
    first: FALSITY,
    second: FALSITY,
    carry: NO_CARRY,
    out: NO_OUT,
};

/// What an adder adds, where the carry in is a literal.
#[derive(Clone, Copy)]
struct Added {
    first: Code,
    second: Code,
    carry: Code,
}

fn with_carry(first: Code, second: Code, carry: Code) -> Added {
    Added {
        first,
        second,
        carry,
    }
}

/// All adders, as they are found.
#[derive(Drop)]
pub struct Adders {
    pub list: Vec<Adder>,
    /// The exclusive ors by their operands' variables, and by whether their signs differ.
    exclusives: Leaders,
    /// By variable: whether it is an operand of an exclusive or, the literal of it that is a carry out, and whether it is a total.
    is_mixed: Vec<bool>,
    outs: Vec<Code>,
    is_total: Vec<bool>,
    /// Whether words are subtracted.
    has_differences: bool,
    lacks_memory: bool,
}

/// A key for two literals, whatever their order, and with the signs of both turned too.
fn key_of(first: Code, second: Code) -> u64 {
    let low = u64::from(first.min(second) >> 1);
    let high = u64::from(first.max(second) >> 1);
    low << 33 | high << 1 | u64::from((first ^ second) & 1)
}

/// Whether a literal is the exclusive or of two others.
fn is_exclusive(circuit: &Circuit, literal: Code, first: Code, second: Code) -> bool {
    match circuit.exclusive(variable_of(literal)) {
        Some(own) => key_of(own.first, own.second) == key_of(first, second ^ (literal & 1)),
        None => false,
    }
}

/// The operands in the other order.
fn turned(pair: Operands) -> Operands {
    Operands {
        first: pair.second,
        second: pair.first,
    }
}

impl Adders {
    /// The adders of the gates on which the assertion rests.
    pub fn new(search: &mut Search) -> Self {
        let alloc = search.solver.alloc;
        let circuit = &search.solver.circuit;
        let mut adders = Adders {
            list: Vec::new(alloc),
            exclusives: Leaders::new(alloc),
            is_mixed: Vec::new(alloc),
            outs: Vec::new(alloc),
            is_total: Vec::new(alloc),
            has_differences: false,
            lacks_memory: false,
        };
        adders.make_room(circuit.variables().saturating_add(1));
        adders.note_exclusives(circuit);
        adders.look_at_all(circuit);
        adders.look_at_ends(circuit);
        if adders.has_differences {
            adders.turn_all();
        }
        search.solver.lacks_memory = search.solver.lacks_memory || adders.lacks_memory;
        adders
    }

    fn make_room(&mut self, size: usize) {
        let lacks_memory = &mut self.lacks_memory;
        self.exclusives.make_room(size, lacks_memory);
        fill(&mut self.is_mixed, false, size, lacks_memory);
        fill(&mut self.outs, NO_OUT, size, lacks_memory);
        fill(&mut self.is_total, false, size, lacks_memory);
    }

    fn note_exclusives(&mut self, circuit: &Circuit) {
        for variable in 1..circuit.variables().saturating_add(1) {
            match circuit.exclusive(variable) {
                Some(operands) if circuit.is_active(variable) => {
                    let key = key_of(operands.first, operands.second);
                    let _earlier = self.exclusives.leader_or(key, variable);
                    put(&mut self.is_mixed, variable_of(operands.first), true);
                    put(&mut self.is_mixed, variable_of(operands.second), true);
                }
                _ => {}
            }
        }
    }

    /// Looks whether gates are carries out.
    fn look_at_all(&mut self, circuit: &Circuit) {
        for variable in 1..circuit.variables().saturating_add(1) {
            if !circuit.is_active(variable) {
                continue;
            }
            if let Some((a, b)) = circuit.halves(variable) {
                let out = negated(code_for(variable));
                self.look_at_halves(circuit, a, b, out);
                self.look_at_halves(circuit, b, a, out);
            }
            if let Some(gate) = circuit.operands(variable) {
                self.look_at_one(circuit, gate, variable);
                self.look_at_one(circuit, turned(gate), variable);
                self.look_at_half(gate, variable);
            }
        }
    }

    /// Looks whether exclusive ors are the last bits of sums.
    fn look_at_ends(&mut self, circuit: &Circuit) {
        for variable in 1..circuit.variables().saturating_add(1) {
            if !circuit.is_active(variable) || at(&self.is_total, variable, false) {
                continue;
            }
            if let Some(own) = circuit.exclusive(variable) {
                self.look_at_end(circuit, own, variable);
                self.look_at_end(circuit, turned(own), variable);
            }
        }
    }

    /// The literal that is the exclusive or of two others, where there is a gate for it. As it is built, the gate is the negation.
    fn exclusive_of(&self, first: Code, second: Code) -> Option<Code> {
        let opposite = key_of(first, negated(second));
        if let Some(variable) = self.exclusives.leader(opposite) {
            return Some(negated(code_for(variable)));
        }
        let variable = self.exclusives.leader(key_of(first, second))?;
        Some(code_for(variable))
    }

    /// Adds an adder.
    fn add(&mut self, total: Code, added: Added, out: Code) {
        let adder = Adder {
            total,
            first: added.first,
            second: added.second,
            carry: carry_of(added.carry),
            out,
        };
        add(&mut self.list, adder, &mut self.lacks_memory);
    }

    /// Adds an adder of gates, and notes what they are.
    fn enter(&mut self, total: Code, added: Added, out: Code) {
        self.add(total, added, out);
        put(&mut self.is_total, variable_of(total), true);
        if out != NO_OUT {
            put(&mut self.outs, variable_of(out), out);
        }
    }

    /// Whether a literal is the carry out of an adder of gates.
    fn is_out(&self, literal: Code) -> bool {
        at(&self.outs, variable_of(literal), NO_OUT) == literal
    }

    /// Looks whether a literal is the carry out of a full adder: `a and b`, or the carry in and `a xor b`.
    fn look_at_halves(&mut self, circuit: &Circuit, both: Operands, one: Operands, out: Code) {
        for pair in &[one, turned(one)] {
            let Operands {
                first: mixed,
                second: carry,
            } = *pair;
            if is_exclusive(circuit, mixed, both.first, both.second) {
                if let Some(total) = self.exclusive_of(mixed, carry) {
                    let Operands { first, second } = both;
                    self.enter(total, with_carry(first, second, carry), out);
                }
            }
        }
    }

    /// Looks whether a gate is the negated carry out of an adder with a constant: of one that adds 1 to a bit and the carry in, which is
    /// built as `not b and not (not b and carry)`, or of one that adds two bits to the carry 1.
    fn look_at_one(&mut self, circuit: &Circuit, gate: Operands, variable: usize) {
        let out = negated(code_for(variable));
        let Operands { first: bit, second } = gate;
        let inside = match circuit.operands(variable_of(second)) {
            Some(inside) if second & 1 == 1 => inside,
            _ => return,
        };
        if is_exclusive(circuit, negated(bit), inside.first, inside.second) {
            self.has_differences = true;
            let Operands { first, second } = inside;
            let carry = TRUTH;
            self.enter(bit, with_carry(first, second, carry), out);
        } else if inside.first == bit {
            self.look_at_increment(bit, inside.second, out);
        } else if inside.second == bit {
            self.look_at_increment(bit, inside.first, out);
        }
    }

    /// Enters the adder of 1 to a bit, whose negation this is, and a carry in. Where that is no carry out, it is the lowest bit of a word.
    fn look_at_increment(&mut self, bit: Code, carry: Code, out: Code) {
        let Some(total) = self.exclusive_of(bit, carry) else {
            return;
        };
        if !self.is_out(carry) {
            self.has_differences = true;
            self.add_lowest(carry, FALSITY, TRUTH);
            self.add_lowest(carry, TRUTH, FALSITY);
        }
        let first = negated(bit);
        let second = TRUTH;
        self.enter(total, with_carry(first, second, carry), out);
    }

    /// Adds the adder of one constant and another one, of which one is 1, to a bit: it is the carry out, and its negation the total.
    fn add_lowest(&mut self, first: Code, second: Code, carry: Code) {
        self.add(negated(first), with_carry(first, second, carry), first);
    }

    /// Looks whether a gate is the carry out of a half adder: of two bits, or of one and a carry in.
    fn look_at_half(&mut self, gate: Operands, variable: usize) {
        let Operands { first, second } = gate;
        let total = match self.exclusive_of(first, second) {
            Some(total) if at(&self.is_mixed, variable, false) => total,
            _ => return,
        };
        let out = code_for(variable);
        let is_either = self.is_out(first) == self.is_out(second);
        if is_either {
            let carry = FALSITY;
            self.enter(total, with_carry(first, second, carry), out);
        }
        for pair in &[gate, turned(gate)] {
            let carry = pair.second;
            let added = with_carry(pair.first, FALSITY, carry);
            if is_either || self.is_out(carry) {
                self.enter(total, added, out);
            }
            if is_either && !self.is_out(carry) {
                self.add_lowest(carry, TRUTH, FALSITY);
            }
        }
    }

    /// Looks whether an exclusive or with these operands is the last bit of a sum, of which the first one is the carry in.
    fn look_at_end(&mut self, circuit: &Circuit, own: Operands, variable: usize) {
        let carry = at(&self.outs, variable_of(own.first), NO_OUT);
        if carry == NO_OUT {
            return;
        }
        let total = code_for(variable);
        let first = own.second ^ ((own.first ^ carry) & 1);
        let second = FALSITY;
        self.enter(total, with_carry(first, second, carry), NO_OUT);
        if let Some(inside) = circuit.exclusive(variable_of(first)) {
            let second = inside.second;
            let first = inside.first ^ (first & 1);
            self.enter(total, with_carry(first, second, carry), NO_OUT);
        }
    }

    /// Adds each adder as the difference of its total and of either bit too.
    fn turn_all(&mut self) {
        for index in 0..self.list.len() {
            let adder = at(&self.list, index, NO_ADDER);
            let out = if adder.out == NO_OUT {
                NO_OUT
            } else {
                negated(adder.out)
            };
            let carry = negated(adder.carry.first);
            let first = adder.total;
            let second = negated(adder.second);
            self.add(adder.first, with_carry(first, second, carry), out);
            let second = negated(adder.first);
            self.add(adder.second, with_carry(first, second, carry), out);
        }
    }
}
