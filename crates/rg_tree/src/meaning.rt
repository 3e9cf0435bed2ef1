//! What expressions and formulas mean.

ghost use Rattle.std.specs.Prelude.{◌≡◌, ◌-◌, ◌^◌, ◌≤◌, ◌↔◌, length, IsTrue};
ghost use Rattle.rg_words.specs.declared.limits.TheConstants.{MOST_WIDTH, MOST_SHIFT};
ghost use Rattle.rg_tree.specs.Fits.{ExpressionFits, FormulaFits};
ghost use Rattle.rg_tree.specs.Inside.{IsInside, is_inside};
ghost use Rattle.rg_tree.specs.Meaning.{operated, moved, is_so, joined, value_of, holds};
ghost use Rattle.rg_tree.specs.View.{expression, formula};

use crate::tree::{Expr, Formula};
use rg_words::State;
use rg_words::operators::{Comparison, Connective, Operator, Shift};

/// The value of an expression, plain words read in the first state and primed ones in the second.
#[cycle(meaning)]
pub fn value(e: &Expr, first: &State, second: &State) -> u64
    requires fits { ExpressionFits (expression e.now) (length first.now.widths) }
    requires same { second.now.widths ≡ first.now.widths }
    ensures { result ≡ value_of (expression e.now) first.now.values second.now.values }
{
    match e {
        Expr::Number(_, n) => *n,
        Expr::Word(k) => {
            prove!(*k < first.len());
            first.get(*k)
        }
        Expr::NextWord(k) => {
            prove!(*k < second.len());
            second.get(*k)
        }
        Expr::Inverse(width, a) => invert(*width, value(a, first, second)),
        Expr::Binary(operator, width, a, b) => {
            let left = value(a, first, second);
            operate(*operator, *width, left, value(b, first, second))
        }
        Expr::Shifted(shift, width, a, count) => move_bits(
            *shift,
            *width,
            value(a, first, second),
            *count,
        ),
        Expr::If(f, a, b) => {
            if holds(f, first, second) {
                value(a, first, second)
            } else {
                value(b, first, second)
            }
        }
    }
}

/// Whether a formula is true, plain words read in the first state and primed ones in the second.
#[cycle(meaning)]
pub fn holds(f: &Formula, first: &State, second: &State) -> bool
    requires fits { FormulaFits (formula f.now) (length first.now.widths) }
    requires same { second.now.widths ≡ first.now.widths }
    ensures { result ≡ holds (formula f.now) first.now.values second.now.values }
{
    match f {
        Formula::Truth(b) => *b,
        Formula::Not(f) => !holds(f, first, second),
        Formula::Connect(connective, f, g) => {
            let left = holds(f, first, second);
            join(*connective, left, holds(g, first, second))
        }
        Formula::Compare(comparison, a, b) => {
            let left = value(a, first, second);
            compare(*comparison, left, value(b, first, second))
        }
    }
}

/// Whether the step from the first state to the second is inside the formula: that holds of both, or they are equal.
pub fn inside(f: &Formula, first: &State, second: &State) -> bool
    requires fits { FormulaFits (formula f.now) (length first.now.widths) }
    requires same { second.now.widths ≡ first.now.widths }
    ensures test { result ≡ is_inside (formula f.now) first.now.values second.now.values }
    ensures inside { IsTrue result ↔ IsInside (formula f.now) first.now.values second.now.values }
{
    holds(f, first, second) || first.same(second)
}

/// The value of an operation on two values of this width.
pub fn operate(operator: Operator, width: u32, a: u64, b: u64) -> u64
    requires { width ≤ MOST_WIDTH }
    ensures { result ≡ operated operator width a b }
{
    let size = 1u128 << width;
    match operator {
        Operator::Add => ((u128::from(a) + u128::from(b)) % size) as u64,
        Operator::Subtract => ((u128::from(a) + size.saturating_sub(u128::from(b))) % size) as u64,
        Operator::BitAnd => a & b,
        Operator::BitOr => a | b,
        Operator::BitXor => a ^ b,
    }
}

/// Whether a comparison of two values is so, as unsigned numbers.
pub fn compare(comparison: Comparison, a: u64, b: u64) -> bool
    ensures { result ≡ is_so comparison a b }
{
    match comparison {
        Comparison::Equal => a == b,
        Comparison::NotEqual => a != b,
        Comparison::Less => a < b,
        Comparison::LessOrEqual => a <= b,
        Comparison::Greater => a > b,
        Comparison::GreaterOrEqual => a >= b,
    }
}

/// The truth of two formulas joined.
pub fn join(connective: Connective, a: bool, b: bool) -> bool
    ensures { result ≡ joined connective a b }
{
    match connective {
        Connective::And => a && b,
        Connective::Or => a || b,
        Connective::Implies => !a || b,
        Connective::Iff => a == b,
    }
}

/// A value of this width with all bits turned.
pub fn invert(width: u32, a: u64) -> u64
    requires { width ≤ MOST_WIDTH }
    ensures { result ≡ 2 ^ width - 1 - a }
{
    ((1u128 << width) - 1).saturating_sub(u128::from(a)) as u64
}

/// A value of this width moved by so many bits.
pub fn move_bits(shift: Shift, width: u32, a: u64, count: u32) -> u64
    requires width { width ≤ MOST_WIDTH }
    requires count { count ≤ MOST_SHIFT }
    ensures { result ≡ moved shift width a count }
{
    match shift {
        Shift::Left => ((u128::from(a) << count) % (1u128 << width)) as u64,
        Shift::Right => a >> count,
    }
}
