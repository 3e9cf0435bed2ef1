//! Gates for expressions and formulas.

ghost use Rattle.std.specs.Prelude.{◌≡◌, length};
ghost use Rattle.std.specs.Cow.{cow_slice_items};
ghost use Rattle.rg_gates.specs.Extends.{IsIn};
ghost use Rattle.rg_tree.specs.Fits.{ExpressionFits, FormulaFits};
ghost use Rattle.rg_tree.specs.View.{expression, formula};
ghost use Rattle.rg_rows.specs.declared.rows.BitOperation.TheVariants.{Pick};
ghost use Rattle.rg_rows.specs.Build.{Builds};
ghost use Rattle.rg_rows.specs.Rows.{bits_of};
ghost use Rattle.rg_bits.specs.Formulas.{operated_of, row_of, literal_of};
ghost use Rattle.rg_rows.specs.Within.{AreRowsIn, rows_of, IsRowIn};

use crate::operations::{compare, connect, constant, invert, move_row, number, operate};
use rg_gates::{GateError, Gates, Lit, Table};
use rg_rows::rows::{BitOperation, bits};
use rg_tree::tree::{Expr, Formula};
use rg_words::operators::Operator;
use std::alloc::Global;
use std::borrow::CowSlice;

/// An operation on two rows.
fn operated<'a, T: Table>(
    alloc: Global,
    gates: &mut Gates<T>,
    operator: Operator,
    a: &[Lit],
    b: &[Lit],
) -> Result<CowSlice<'a, Lit>, GateError>
    requires first { IsRowIn gates.old a.now }
    requires second { IsRowIn gates.old b.now }
    ensures { Builds (operated_of operator a.now b.now) cow_slice_items IsRowIn gates.old gates.new result }
{
    Ok(CowSlice::Owned(operate(alloc, gates, operator, a, b)?))
}

/// The first row where a literal is true, else the second.
fn picked<'a, T: Table>(
    alloc: Global,
    gates: &mut Gates<T>,
    condition: Lit,
    a: &[Lit],
    b: &[Lit],
) -> Result<CowSlice<'a, Lit>, GateError>
    requires condition { IsIn gates.old condition }
    requires first { IsRowIn gates.old a.now }
    requires second { IsRowIn gates.old b.now }
    ensures { Builds (bits_of (Pick condition) a.now b.now) cow_slice_items IsRowIn gates.old gates.new result }
{
    Ok(CowSlice::Owned(bits(alloc, gates, BitOperation::Pick(condition), a, b)?))
}

/// The row of an expression, over a row for each word of the two states.
#[cycle(build)]
#[tactic(auto, using(crate::proofs::TreeSteps::tree_steps), unfolding(crate::specs::Formulas::row_of, crate::specs::Formulas::literal_of))]
pub fn build_row<'a, T: Table>(
    alloc: Global,
    gates: &mut Gates<T>,
    e: &Expr,
    first: &'a [Vec<Lit>],
    second: &'a [Vec<Lit>],
) -> Result<CowSlice<'a, Lit>, GateError>
    requires words { ExpressionFits (expression e.now) (length first.now) }
    requires same { length second.now ≡ length first.now }
    requires first { AreRowsIn gates.old (rows_of first.now) }
    requires second { AreRowsIn gates.old (rows_of second.now) }
    ensures { Builds (row_of (expression e.now) (rows_of first.now) (rows_of second.now)) cow_slice_items IsRowIn gates.old gates.new result }
{
    match e {
        Expr::Number(width, n) => Ok(CowSlice::Owned(number(alloc, *width, *n)?)),
        Expr::Word(k) => Ok(CowSlice::Borrowed(&first[*k])),
        Expr::NextWord(k) => Ok(CowSlice::Borrowed(&second[*k])),
        Expr::Inverse(_, a) => {
            let row = build_row(alloc, gates, a, first, second)?;
            Ok(CowSlice::Owned(invert(alloc, &row)?))
        }
        Expr::Binary(operator, _, a, b) => {
            let left = build_row(alloc, gates, a, first, second)?;
            let right = build_row(alloc, gates, b, first, second)?;
            operated(alloc, gates, *operator, &left, &right)
        }
        Expr::Shifted(shift, _, a, count) => {
            let row = build_row(alloc, gates, a, first, second)?;
            Ok(CowSlice::Owned(move_row(alloc, *shift, *count, &row)?))
        }
        Expr::If(f, a, b) => {
            let condition = build_literal(alloc, gates, f, first, second)?;
            let left = build_row(alloc, gates, a, first, second)?;
            let right = build_row(alloc, gates, b, first, second)?;
            picked(alloc, gates, condition, &left, &right)
        }
    }
}

/// The literal of a formula, over a row for each word of the two states.
#[cycle(build)]
#[tactic(auto, using(crate::proofs::TreeSteps::tree_steps), unfolding(crate::specs::Formulas::row_of, crate::specs::Formulas::literal_of))]
pub fn build_literal<T: Table>(
    alloc: Global,
    gates: &mut Gates<T>,
    f: &Formula,
    first: &[Vec<Lit>],
    second: &[Vec<Lit>],
) -> Result<Lit, GateError>
    requires words { FormulaFits (formula f.now) (length first.now) }
    requires same { length second.now ≡ length first.now }
    requires first { AreRowsIn gates.old (rows_of first.now) }
    requires second { AreRowsIn gates.old (rows_of second.now) }
    ensures { Builds (literal_of (formula f.now) (rows_of first.now) (rows_of second.now)) (λ l. l) IsIn gates.old gates.new result }
{
    match f {
        Formula::Truth(b) => Ok(constant(*b)),
        Formula::Not(f) => Ok(build_literal(alloc, gates, f, first, second)?.negated()),
        Formula::Connect(connective, f, g) => {
            let left = build_literal(alloc, gates, f, first, second)?;
            let right = build_literal(alloc, gates, g, first, second)?;
            connect(gates, *connective, left, right)
        }
        Formula::Compare(comparison, a, b) => {
            let left = build_row(alloc, gates, a, first, second)?;
            let right = build_row(alloc, gates, b, first, second)?;
            compare(gates, *comparison, &left, &right)
        }
    }
}
