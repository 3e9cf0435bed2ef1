//! A table of gates as a plain list, which is searched from its front, to compare the library's table with.

ghost use Rattle.std.specs.Prelude.{◌≡◌, ◌≤◌, [], ℕ, ◌<◌, MatchOption};
ghost use Rattle.rg_gates.specs.Table.{IsMissing, IsFirst};

use rg_gates::{Gate, Gates, Table};
use rg_words::limits::MOST_VARIABLES;
use std::alloc::{AllocError, Global};

/// A list of gates.
#[derive(Drop)]
pub(crate) struct Scan {
    gates: Vec<Gate>,
}

/// The place of the first such gate.
fn position_of(gates: &[Gate], gate: Gate) -> Option<usize>
    ensures { MatchOption result (IsMissing gates.now gate) (IsFirst gates.now gate) }
{
    for index in 0..gates.len() {
        if gates[index] == gate {
            return Some(index);
        }
    }
    None
}

impl Table for Scan {
    ghost gates = { λ s. s.gates.items };

    fn as_slice(&self) -> &[Gate] {
        self.gates.as_slice()
    }

    fn find(&self, gate: Gate) -> Option<usize> {
        position_of(&self.gates, gate)
    }

    fn place(&mut self, gate: Gate) -> Result<usize, AllocError> {
        if let Some(index) = position_of(&self.gates, gate) {
            return Ok(index);
        }
        self.gates.push(gate)?;
        Ok(self.gates.len() - 1)
    }
}

/// So many inputs, and no gate, over the list.
pub(crate) fn scanning(alloc: Global, inputs: u32) -> Gates<Scan>
    requires { inputs ≤ MOST_VARIABLES }
    ensures { result ≡ record { inputs = inputs; gates = [] } }
{
    let table = Scan {
        gates: Vec::new(alloc),
    };
    Gates::over(table, inputs)
}
