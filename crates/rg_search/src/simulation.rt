//! Values of a circuit's gates under many inputs, 64 at a time, and the hash of what each gate has shown.

use rg_solver::circuit::Circuit;
use rg_solver::code::{Code, code_for, variable_of};
use rg_solver::table::{at, fill, put};
use std::alloc::Global;

const MULTIPLIER: u64 = 0x9e37_79b9_7f4a_7c15;

#[derive(Drop)]
pub struct Simulation {
    /// By variable, of which 0 is false: the values under the last 64 inputs.
    pub words: Vec<u64>,
    /// By variable: the hash of all values so far; gates that were equal, or opposite, have the same one.
    pub hashes: Vec<u64>,
    /// By variable: all bits where its first value was true, so that it stands for its negation.
    flips: Vec<u64>,
    /// By variable: the literal to which it is tied, whose values it has, or `FREE`.
    pub ties: Vec<Code>,
    random: u64,
}

/// The tie of a variable that has none.
const FREE: Code = Code::MAX;

/// All bits where a condition holds, else none.
pub fn all_if(holds: bool) -> u64 {
    0u64.wrapping_sub(u64::from(holds))
}

impl Simulation {
    /// The simulation of a circuit, before any values.
    pub fn new(alloc: Global, circuit: &Circuit, lacks_memory: &mut bool) -> Self {
        let size = circuit.variables().saturating_add(1);
        let mut simulation = Simulation {
            words: Vec::new(alloc),
            hashes: Vec::new(alloc),
            flips: Vec::new(alloc),
            ties: Vec::new(alloc),
            random: MULTIPLIER,
        };
        fill(&mut simulation.words, 0, size, lacks_memory);
        fill(&mut simulation.hashes, 0, size, lacks_memory);
        fill(&mut simulation.flips, 0, size, lacks_memory);
        fill(&mut simulation.ties, FREE, size, lacks_memory);
        simulation
    }

    /// 64 random bits, after G. Marsaglia ("Xorshift RNGs", 2003).
    pub fn draw(&mut self) -> u64 {
        let mut x = self.random;
        x ^= x << 13;
        x ^= x >> 7;
        x ^= x << 17;
        self.random = x;
        x.wrapping_mul(MULTIPLIER)
    }

    /// Draws all inputs: each by itself, or seldom unlike the one before, so that carries go far.
    fn draw_inputs(&mut self, circuit: &Circuit, round: usize) {
        let mut word = 0;
        for variable in 1..circuit.inputs.saturating_add(1) {
            let mut turned = self.draw();
            if round % 4 >= 2 {
                turned &= self.draw() & self.draw();
            }
            if round % 4 == 3 {
                turned &= self.draw() & self.draw();
            }
            word ^= turned;
            self.give(circuit, variable, word);
        }
    }

    /// Gives a variable these values, and it and the literal that it is tied to the same ones: those of a gate to an input, and else
    /// those of the literal to the variable.
    fn give(&mut self, circuit: &Circuit, variable: usize, word: u64) {
        put(&mut self.words, variable, word);
        let tie = at(&self.ties, variable, FREE);
        if tie == FREE {
            return;
        }
        let input = variable_of(tie);
        if variable > circuit.inputs && 0 < input && input <= circuit.inputs {
            put(&mut self.words, input, word ^ all_if(tie & 1 == 1));
        } else {
            let word = self.word_of(tie);
            put(&mut self.words, variable, word);
        }
    }

    /// The values of a literal.
    pub fn word_of(&self, literal: Code) -> u64 {
        let word = at(&self.words, variable_of(literal), 0);
        if literal & 1 == 1 { !word } else { word }
    }

    /// Whether a variable is true in the first sample.
    pub fn is_true(&self, variable: usize) -> bool {
        at(&self.words, variable, 0) & 1 == 1
    }

    /// Sets the values of an input.
    pub fn set(&mut self, variable: usize, word: u64) {
        put(&mut self.words, variable, word);
    }

    /// The values of all gates.
    pub fn run(&mut self, circuit: &Circuit) {
        let mut variable = circuit.inputs;
        for gate in &circuit.gates {
            variable = variable.saturating_add(1);
            let word = self.word_of(gate.first) & self.word_of(gate.second);
            self.give(circuit, variable, word);
        }
    }

    /// Takes the last values into the hashes. After the first ones each variable stands for itself or its negation.
    fn absorb(&mut self, are_first: bool) {
        for variable in 0..self.words.len() {
            let word = at(&self.words, variable, 0);
            if are_first {
                put(&mut self.flips, variable, all_if(word & 1 == 1));
            }
            let turned = word ^ at(&self.flips, variable, 0);
            let mixed = (at(&self.hashes, variable, 0) ^ turned).wrapping_mul(MULTIPLIER);
            put(&mut self.hashes, variable, mixed ^ (mixed >> 29));
        }
    }

    /// Looks at 64 further inputs, in rounds from 0 on.
    pub fn look(&mut self, circuit: &Circuit, round: usize) {
        self.draw_inputs(circuit, round);
        self.run(circuit);
        self.absorb(round == 0);
    }

    /// Looks at one input, a bit for each variable, and at 63 that differ from it in a few bits.
    pub fn look_near(&mut self, circuit: &Circuit, values: &[bool]) {
        for variable in 1..circuit.inputs.saturating_add(1) {
            let same = all_if(at(values, variable, false));
            let turned = self.draw() & self.draw() & self.draw();
            self.give(circuit, variable, same ^ (turned & !1));
        }
        self.run(circuit);
        self.absorb(false);
    }

    /// The literal of a variable that was false under the first inputs.
    pub fn literal(&self, variable: usize) -> Code {
        code_for(variable) | (at(&self.flips, variable, 0) & 1) as u32
    }
}
