//! Operations on rows of literals, the low bit first.

ghost use Rattle.rg_gates.specs.Extends.{IsIn};
ghost use Rattle.rg_rows.specs.Build.{Builds};
ghost use Rattle.rg_rows.specs.Within.{AreIn, IsOperationIn, IsRowIn};
ghost use Rattle.rg_rows.specs.Rows.{carry_of, next_of, sum_bit_of, sum_of, bit_of, bits_of, test_bit_of, test_of};

use crate::literals::{and, or, pick, xor};
use rg_gates::{GateError, Gates, Lit, Table};
use std::alloc::Global;

/// An operation bit by bit.
#[derive(Clone, Copy)]
pub enum BitOperation {
    And,
    Or,
    Xor,
    Pick(Lit),
}

/// A test of two rows, made from the low bit up.
#[derive(Clone, Copy)]
pub enum Test {
    Equal,
    AtLeast,
}

/// The carry out of a bit, where `x` is the exclusive or of `a` and `b`.
#[tactic(auto, using(crate::proofs::Steps::steps), unfolding(crate::specs::Rows::carry_of))]
fn carry_out<T: Table>(
    gates: &mut Gates<T>,
    a: Lit,
    b: Lit,
    x: Lit,
    carry: Lit,
) -> Result<Lit, GateError>
    requires first { IsIn gates.old a }
    requires second { IsIn gates.old b }
    requires either { IsIn gates.old x }
    requires carry { IsIn gates.old carry }
    ensures { Builds (carry_of a b x carry) (λ l. l) IsIn gates.old gates.new result }
{
    let both = and(gates, a, b)?;
    let carried = and(gates, carry, x)?;
    or(gates, both, carried)
}

/// The carry into the next bit, where there is one.
#[tactic(auto, using(crate::proofs::Steps::steps), unfolding(crate::specs::Rows::next_of))]
fn next_carry<T: Table>(
    gates: &mut Gates<T>,
    more: bool,
    a: Lit,
    b: Lit,
    x: Lit,
    carry: Lit,
) -> Result<Lit, GateError>
    requires first { IsIn gates.old a }
    requires second { IsIn gates.old b }
    requires either { IsIn gates.old x }
    requires carry { IsIn gates.old carry }
    ensures { Builds (next_of more a b x carry) (λ l. l) IsIn gates.old gates.new result }
{
    if more {
        carry_out(gates, a, b, x, carry)
    } else {
        Ok(carry)
    }
}

/// A bit of a sum, and the carry into the next bit.
#[tactic(auto, using(crate::proofs::Steps::steps), unfolding(crate::specs::Rows::sum_bit_of))]
fn sum_bit<T: Table>(
    gates: &mut Gates<T>,
    a: Lit,
    b: Lit,
    carry: Lit,
    more: bool,
) -> Result<(Lit, Lit), GateError>
    requires first { IsIn gates.old a }
    requires second { IsIn gates.old b }
    requires carry { IsIn gates.old carry }
    ensures { Builds (sum_bit_of a b carry more) (λ r. (r.0, r.1)) AreIn gates.old gates.new result }
{
    let x = xor(gates, a, b)?;
    let sum = xor(gates, x, carry)?;
    let next = next_carry(gates, more, a, b, x, carry)?;
    Ok((sum, next))
}

/// One bit of an operation bit by bit.
#[tactic(auto, using(crate::proofs::Steps::steps), unfolding(crate::specs::Rows::bit_of))]
fn operate_bit<T: Table>(
    gates: &mut Gates<T>,
    operation: BitOperation,
    a: Lit,
    b: Lit,
) -> Result<Lit, GateError>
    requires first { IsIn gates.old a }
    requires second { IsIn gates.old b }
    requires operation { IsOperationIn gates.old operation }
    ensures { Builds (bit_of operation a b) (λ l. l) IsIn gates.old gates.new result }
{
    match operation {
        BitOperation::And => and(gates, a, b),
        BitOperation::Or => or(gates, a, b),
        BitOperation::Xor => xor(gates, a, b),
        BitOperation::Pick(condition) => pick(gates, condition, a, b),
    }
}

/// One bit of a test.
#[tactic(auto, using(crate::proofs::Steps::steps), unfolding(crate::specs::Rows::test_bit_of))]
fn test_bit<T: Table>(
    gates: &mut Gates<T>,
    test: Test,
    a: Lit,
    b: Lit,
    so_far: Lit,
) -> Result<Lit, GateError>
    requires first { IsIn gates.old a }
    requires second { IsIn gates.old b }
    requires so_far { IsIn gates.old so_far }
    ensures { Builds (test_bit_of test a b so_far) (λ l. l) IsIn gates.old gates.new result }
{
    match test {
        Test::Equal => {
            let x = xor(gates, a, b)?;
            and(gates, so_far, x.negated())
        }
        Test::AtLeast => {
            let x = xor(gates, a, b.negated())?;
            carry_out(gates, a, b.negated(), x, so_far)
        }
    }
}

/// The sum of two rows and a carry, of as many bits as both have.
#[tactic(auto, using(crate::proofs::RowSteps::row_steps))]
pub fn sum<T: Table>(
    alloc: Global,
    gates: &mut Gates<T>,
    a: &[Lit],
    b: &[Lit],
    carry: Lit,
) -> Result<Vec<Lit>, GateError>
    requires first { IsRowIn gates.old a.now }
    requires second { IsRowIn gates.old b.now }
    requires carry { IsIn gates.old carry }
    ensures { Builds (sum_of a.now b.now carry) (λ r. r.items) IsRowIn gates.old gates.new result }
{
    let size = a.len().min(b.len());
    let mut row = Vec::new(alloc);
    let mut next = carry;
    for i in 0..size {
        let (bit, carried) = sum_bit(gates, a[i], b[i], next, i + 1 < size)?;
        row.push(bit)?;
        next = carried;
    }
    Ok(row)
}

/// An operation bit by bit, on as many bits as both rows have.
#[tactic(auto, using(crate::proofs::BitSteps::bit_steps))]
pub fn bits<T: Table>(
    alloc: Global,
    gates: &mut Gates<T>,
    operation: BitOperation,
    a: &[Lit],
    b: &[Lit],
) -> Result<Vec<Lit>, GateError>
    requires first { IsRowIn gates.old a.now }
    requires second { IsRowIn gates.old b.now }
    requires operation { IsOperationIn gates.old operation }
    ensures { Builds (bits_of operation a.now b.now) (λ r. r.items) IsRowIn gates.old gates.new result }
{
    let size = a.len().min(b.len());
    let mut row = Vec::new(alloc);
    for i in 0..size {
        let bit = operate_bit(gates, operation, a[i], b[i])?;
        row.push(bit)?;
    }
    Ok(row)
}

/// A test of two rows, over as many bits as both have.
#[tactic(auto, using(crate::proofs::TestSteps::test_steps))]
pub fn test_rows<T: Table>(
    gates: &mut Gates<T>,
    test: Test,
    a: &[Lit],
    b: &[Lit],
    start: Lit,
) -> Result<Lit, GateError>
    requires first { IsRowIn gates.old a.now }
    requires second { IsRowIn gates.old b.now }
    requires start { IsIn gates.old start }
    ensures { Builds (test_of test a.now b.now start) (λ l. l) IsIn gates.old gates.new result }
{
    let size = a.len().min(b.len());
    let mut so_far = start;
    for i in 0..size {
        so_far = test_bit(gates, test, a[i], b[i], so_far)?;
    }
    Ok(so_far)
}
