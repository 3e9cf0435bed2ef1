//! The values of gates under values of the inputs.

ghost use Rattle.std.specs.Prelude.{◌≡◌, ◌&&◌, length, take, IfOk};
ghost use Rattle.rg_gates.specs.Circuit.{AreGateValues, IsLitOf, lit_value};

use crate::{Gate, Gates, Lit, Table};
use std::alloc::{AllocError, Global};

impl<T: Table> Gates<T> {
    /// The value of each variable, in order: first the inputs, then the gates.
    pub fn eval(&self, alloc: Global, inputs: &[bool]) -> Result<Vec<bool>, AllocError>
        requires { length inputs.now ≡ self.now.inputs }
        ensures values { IfOk result (λ values. AreGateValues self.now values.items) }
        ensures inputs { IfOk result (λ values. take self.now.inputs values.items ≡ inputs.now) }
    {
        let mut values = Vec::with_capacity(alloc, self.variables() as usize)?;
        values.extend_from_slice(inputs)?;
        for gate in self.table.as_slice() {
            let value = gate_value(&values, *gate);
            values.push(value)?;
        }
        Ok(values)
    }
}

/// The value of a literal.
fn value_of(values: &[bool], literal: Lit) -> bool
    requires { IsLitOf (length values.now) literal }
    ensures { result ≡ lit_value values.now literal }
{
    match literal {
        Lit::True => true,
        Lit::False => false,
        Lit::Variable { number, negative } => values[number as usize - 1] != negative,
    }
}

/// The value of a gate.
fn gate_value(values: &[bool], gate: Gate) -> bool
    requires first { IsLitOf (length values.now) gate.first }
    requires second { IsLitOf (length values.now) gate.second }
    ensures { result ≡ (lit_value values.now gate.first && lit_value values.now gate.second) }
{
    value_of(values, gate.first) && value_of(values, gate.second)
}
