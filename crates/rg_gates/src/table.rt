//! What finds a gate by its operands.

ghost use Rattle.std.specs.Prelude.{◌≡◌, List, IfOk, OnErr, MatchOption};
ghost use Rattle.rg_gates.specs.declared.Gate.{Gate};
ghost use Rattle.rg_gates.specs.Table.{IsMissing, IsFirst, IsPlaced};

use crate::Gate;
use indexmap::IndexSet;
use std::alloc::AllocError;

/// Gates in order of building, each pair of operands once.
pub trait Table {
    /// The gates, in their order.
    ghost gates: { Self → List Gate };

    /// The gates, in their order.
    fn as_slice(&self) -> &[Gate]
        ensures { result.now ≡ gates self.now };

    /// The place of the gate with these operands, counted from 0, where there is one.
    fn find(&self, gate: Gate) -> Option<usize>
        ensures { MatchOption result (IsMissing (gates self.now) gate) (IsFirst (gates self.now) gate) };

    /// The place of the gate with these operands, counted from 0. It goes last where there was none.
    fn place(&mut self, gate: Gate) -> Result<usize, AllocError>
        ensures placed { IfOk result (λ k. IsPlaced (gates self.old) gate k (gates self.new)) }
        ensures missing { OnErr result (IsMissing (gates self.old) gate) }
        ensures err { OnErr result (gates self.new ≡ gates self.old) };
}

impl Table for IndexSet<Gate> {
    ghost gates = { λ s. s.keys };

    fn as_slice(&self) -> &[Gate] {
        self.as_slice()
    }

    fn find(&self, gate: Gate) -> Option<usize> {
        self.get_index_of(&gate)
    }

    fn place(&mut self, gate: Gate) -> Result<usize, AllocError> {
        let (index, _) = self.insert_full(gate)?;
        Ok(index)
    }
}
