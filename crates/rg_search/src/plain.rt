//! Plain values: of those that satisfy, some in which the inputs that may be false are, then those that may be in both states together,
//! and then the words that may have the same value in both states do.

use crate::simulation::{Simulation, all_if};
use rg_solver::circuit::Circuit;
use rg_solver::code::code_for;
use rg_solver::solver::{OPEN, Solver, TRUE};
use rg_solver::table::{add, at};

/// The most gates that are looked at, for single inputs that may be false, and then for those of both states.
const MOST_LOOKS: usize = 50_000_000;

/// How many inputs are tried at once.
const AT_ONCE: usize = 63;

/// A word that has a value in each of two states: the first input of either, and how many there are.
#[derive(Clone, Copy)]
pub struct Twin {
    pub first: u32,
    pub second: u32,
    pub width: u32,
}

/// Two inputs that are to be false together, if they may, or twice the same one.
#[derive(Clone, Copy)]
struct Change {
    input: usize,
    partner: usize,
}

impl Twin {
    /// The inputs of a bit in the first and the second state.
    fn inputs(self, bit: u32) -> Change {
        Change {
            input: self.first.saturating_add(bit) as usize,
            partner: self.second.saturating_add(bit) as usize,
        }
    }
}

/// To make the bits of a word false that are true in both states, the last first.
fn add_pairs(
    changes: &mut Vec<Change>,
    simulation: &Simulation,
    twin: Twin,
    lacks_memory: &mut bool,
) {
    for bit in (0..twin.width).rev() {
        let change = twin.inputs(bit);
        if simulation.is_true(change.input) && simulation.is_true(change.partner) {
            add(changes, change, lacks_memory);
        }
    }
}

/// Sets a change's inputs in 64 tries: false in those of these bits.
fn set(simulation: &mut Simulation, change: Change, made: u64) {
    simulation.set(change.input, !made);
    simulation.set(change.partner, !made);
}

/// Gives a word's second value that of the first in the tries of these bits, and in the others that of the trial of bit 0.
fn set_second(simulation: &mut Simulation, twin: Twin, made: u64) {
    for bit in 0..twin.width {
        let Change { input, partner } = twin.inputs(bit);
        let wanted = all_if(simulation.is_true(input)) & made;
        let kept = all_if(simulation.is_true(partner)) & !made;
        simulation.set(partner, wanted | kept);
    }
}

/// Gives words the same value in both states where the assertion stays true.
fn agree(simulation: &mut Simulation, circuit: &Circuit, twins: &[Twin]) {
    for twin in twins {
        if circuit.assertion < 2 {
            return;
        }
        set_second(simulation, *twin, 2);
        simulation.run(circuit);
        let may = simulation.word_of(circuit.assertion) & 2 == 2;
        set_second(simulation, *twin, all_if(may));
    }
}

/// Makes changes, one after the other, where the assertion stays true, from a place on: how many of them may be, up to the first that
/// may not. Under the bit k of the words, the first k are made.
fn turned(
    simulation: &mut Simulation,
    circuit: &Circuit,
    changes: &[Change],
    from: usize,
) -> usize {
    let end = from.saturating_add(AT_ONCE).min(changes.len());
    let mut undone = 1u64;
    for change in changes.get(from..end).unwrap_or(&[]) {
        set(simulation, *change, !undone);
        undone = undone << 1 | 1;
    }
    simulation.run(circuit);
    let kept = simulation.word_of(circuit.assertion);
    let count = (kept.trailing_ones() as usize).saturating_sub(1);
    let mut left = count;
    for change in changes.get(from..end).unwrap_or(&[]) {
        set(simulation, *change, all_if(left > 0));
        left = left.saturating_sub(1);
    }
    count
}

/// Makes changes one by one while much isn't looked at.
fn turn_all(simulation: &mut Simulation, circuit: &Circuit, changes: &[Change]) {
    let mut from = 0usize;
    let mut looks = 0usize;
    for _ in 0..changes.len() {
        looks = looks.saturating_add(circuit.gates.len());
        if from >= changes.len() || circuit.assertion < 2 || looks > MOST_LOOKS {
            break;
        }
        let count = turned(simulation, circuit, changes, from);
        from = from.saturating_add(count).saturating_add(1);
    }
}

/// Values of the inputs, of which the bit 0 counts: those of the solver, with what may be false made so, the last input first.
pub fn plain_values(solver: &mut Solver, twins: &[Twin]) -> Simulation {
    let circuit = &solver.circuit;
    let lacks_memory = &mut solver.lacks_memory;
    let mut simulation = Simulation::new(solver.alloc, circuit, lacks_memory);
    let mut changes = Vec::new(solver.alloc);
    for input in (1..circuit.inputs.saturating_add(1)).rev() {
        if at(&solver.values, code_for(input) as usize, OPEN) == TRUE {
            let partner = input;
            simulation.set(input, u64::MAX);
            add(&mut changes, Change { input, partner }, lacks_memory);
        }
    }
    turn_all(&mut simulation, circuit, &changes);
    changes.clear();
    for twin in twins {
        add_pairs(&mut changes, &simulation, *twin, lacks_memory);
    }
    turn_all(&mut simulation, circuit, &changes);
    agree(&mut simulation, circuit, twins);
    simulation
}
