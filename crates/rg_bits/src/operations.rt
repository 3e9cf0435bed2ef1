//! The operations, comparisons and connectives of formulas.

ghost use Rattle.std.specs.Prelude.{◌≡◌, IfOk, if◌then◌else◌};
ghost use Rattle.rg_rows.specs.Within.{IsRowIn};
ghost use Rattle.rg_gates.specs.declared.Lit.TheVariants.{True, False};
ghost use Rattle.rg_words.specs.declared.operators.Comparison.TheVariants.{NotEqual, GreaterOrEqual};
ghost use Rattle.rg_gates.specs.Extends.{IsIn};
ghost use Rattle.rg_rows.specs.Build.{Builds};
ghost use Rattle.rg_rows.specs.Rows.{inverted, number_row, sum_of};
ghost use Rattle.rg_bits.specs.Formulas.{operated_of, moved_row, less_of, compared_of, connected_of};

use rg_gates::{GateError, Gates, Lit, Table};
use rg_rows::literals::{and, iff, implies, or};
use rg_rows::rows::{BitOperation, Test, bits, sum, test_rows};
use rg_words::operators::{Comparison, Connective, Operator, Shift};
use std::alloc::{AllocError, Global};

/// The negation of each literal.
pub fn invert(alloc: Global, row: &[Lit]) -> Result<Vec<Lit>, AllocError>
    ensures items { IfOk result (λ r. r.items ≡ inverted row.now) }
{
    row.iter().map(|l| l.negated()).collect(alloc)
}

/// A row of constants.
#[tactic(auto, using(rg_rows::proofs::RowsIn::number_row_next))]
pub fn number(alloc: Global, width: u32, value: u64) -> Result<Vec<Lit>, AllocError>
    ensures items { IfOk result (λ r. r.items ≡ number_row width value) }
{
    let mut row = Vec::new(alloc);
    let mut rest = value;
    for _ in 0..width {
        row.push(constant(rest % 2 == 1))?;
        rest /= 2;
    }
    Ok(row)
}

/// A constant literal.
pub fn constant(b: bool) -> Lit
    ensures { result ≡ (if b then True else False) }
{
    if b { Lit::True } else { Lit::False }
}

/// The row moved by a count of places, with false moved in.
#[tactic(auto, using(crate::proofs::Moved::shifted_left_is))]
pub fn move_row(
    alloc: Global,
    shift: Shift,
    count: u32,
    row: &[Lit],
) -> Result<Vec<Lit>, AllocError>
    ensures items { IfOk result (λ r. r.items ≡ moved_row shift count row.now) }
{
    let count = (count as usize).min(row.len());
    let mut zeros = vec![in alloc; Lit::False; count]?;
    match shift {
        Shift::Left => {
            zeros.extend_from_slice(&row[..row.len() - count])?;
            Ok(zeros)
        }
        Shift::Right => {
            let mut moved = Vec::from_slice(alloc, &row[count..])?;
            moved.extend_from_slice(&zeros)?;
            Ok(moved)
        }
    }
}

/// The difference of two rows.
#[tactic(auto, using(crate::proofs::FormulaSteps::formula_steps))]
fn difference<T: Table>(
    alloc: Global,
    gates: &mut Gates<T>,
    a: &[Lit],
    b: &[Lit],
) -> Result<Vec<Lit>, GateError>
    requires first { IsRowIn gates.old a.now }
    requires second { IsRowIn gates.old b.now }
    ensures { Builds (sum_of a.now (inverted b.now) True) (λ r. r.items) IsRowIn gates.old gates.new result }
{
    let inverse = invert(alloc, b)?;
    sum(alloc, gates, a, &inverse, Lit::True)
}

/// An operation on two rows.
#[tactic(auto, using(crate::proofs::FormulaSteps::formula_steps), unfolding(crate::specs::Formulas::operated_of))]
pub fn operate<T: Table>(
    alloc: Global,
    gates: &mut Gates<T>,
    operator: Operator,
    a: &[Lit],
    b: &[Lit],
) -> Result<Vec<Lit>, GateError>
    requires first { IsRowIn gates.old a.now }
    requires second { IsRowIn gates.old b.now }
    ensures { Builds (operated_of operator a.now b.now) (λ r. r.items) IsRowIn gates.old gates.new result }
{
    match operator {
        Operator::Add => sum(alloc, gates, a, b, Lit::False),
        Operator::Subtract => difference(alloc, gates, a, b),
        Operator::BitAnd => bits(alloc, gates, BitOperation::And, a, b),
        Operator::BitOr => bits(alloc, gates, BitOperation::Or, a, b),
        Operator::BitXor => bits(alloc, gates, BitOperation::Xor, a, b),
    }
}

/// Whether the first row stands for less.
#[tactic(auto, using(crate::proofs::FormulaSteps::formula_steps), unfolding(crate::specs::Formulas::less_of))]
fn less<T: Table>(gates: &mut Gates<T>, a: &[Lit], b: &[Lit]) -> Result<Lit, GateError>
    requires first { IsRowIn gates.old a.now }
    requires second { IsRowIn gates.old b.now }
    ensures { Builds (less_of a.now b.now) (λ l. l) IsIn gates.old gates.new result }
{
    Ok(test_rows(gates, Test::AtLeast, a, b, Lit::True)?.negated())
}

/// Whether the first row stands for as much or more.
#[tactic(auto, using(crate::proofs::FormulaSteps::formula_steps), unfolding(crate::specs::Formulas::compared_of))]
fn at_least<T: Table>(gates: &mut Gates<T>, a: &[Lit], b: &[Lit]) -> Result<Lit, GateError>
    requires first { IsRowIn gates.old a.now }
    requires second { IsRowIn gates.old b.now }
    ensures { Builds (compared_of GreaterOrEqual a.now b.now) (λ l. l) IsIn gates.old gates.new result }
{
    Ok(less(gates, a, b)?.negated())
}

/// Whether two rows stand for different numbers.
#[tactic(auto, using(crate::proofs::FormulaSteps::formula_steps), unfolding(crate::specs::Formulas::compared_of))]
fn differ<T: Table>(gates: &mut Gates<T>, a: &[Lit], b: &[Lit]) -> Result<Lit, GateError>
    requires first { IsRowIn gates.old a.now }
    requires second { IsRowIn gates.old b.now }
    ensures { Builds (compared_of NotEqual a.now b.now) (λ l. l) IsIn gates.old gates.new result }
{
    Ok(test_rows(gates, Test::Equal, a, b, Lit::True)?.negated())
}

/// A comparison of two rows.
#[tactic(auto, using(crate::proofs::FormulaSteps::formula_steps), unfolding(crate::specs::Formulas::compared_of))]
pub fn compare<T: Table>(
    gates: &mut Gates<T>,
    comparison: Comparison,
    a: &[Lit],
    b: &[Lit],
) -> Result<Lit, GateError>
    requires first { IsRowIn gates.old a.now }
    requires second { IsRowIn gates.old b.now }
    ensures { Builds (compared_of comparison a.now b.now) (λ l. l) IsIn gates.old gates.new result }
{
    match comparison {
        Comparison::Equal => test_rows(gates, Test::Equal, a, b, Lit::True),
        Comparison::NotEqual => differ(gates, a, b),
        Comparison::Less => less(gates, a, b),
        Comparison::LessOrEqual => at_least(gates, b, a),
        Comparison::Greater => less(gates, b, a),
        Comparison::GreaterOrEqual => at_least(gates, a, b),
    }
}

/// Two literals joined by a connective.
#[tactic(auto, using(crate::proofs::FormulaSteps::formula_steps), unfolding(crate::specs::Formulas::connected_of))]
pub fn connect<T: Table>(
    gates: &mut Gates<T>,
    connective: Connective,
    a: Lit,
    b: Lit,
) -> Result<Lit, GateError>
    requires first { IsIn gates.old a }
    requires second { IsIn gates.old b }
    ensures { Builds (connected_of connective a b) (λ l. l) IsIn gates.old gates.new result }
{
    match connective {
        Connective::And => and(gates, a, b),
        Connective::Or => or(gates, a, b),
        Connective::Implies => implies(gates, a, b),
        Connective::Iff => iff(gates, a, b),
    }
}
