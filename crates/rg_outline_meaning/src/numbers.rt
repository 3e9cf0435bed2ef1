//! Whole numbers.

ghost use Rattle.std.specs.Prelude.{◌≡◌, pos, ltb, true, Some, IfSome};
ghost use Rattle.rg_outline_meaning.specs.Meanings.{compares, within, computed};

use rg_outline_syntax::{Comparison, Operator};

/// Numbers lie between this and its negative.
const BOUND: i128 = 18_446_744_073_709_551_616;

/// Whether two numbers compare so.
pub(crate) fn compares(comparison: Comparison, first: i128, second: i128) -> bool
    ensures { result ≡ compares comparison first second }
{
    match comparison {
        Comparison::Equal => first == second,
        Comparison::NotEqual => first != second,
        Comparison::Less => first < second,
        Comparison::LessOrEqual => first <= second,
        Comparison::Greater => first > second,
        Comparison::GreaterOrEqual => first >= second,
    }
}

/// A shift count, which is a number from 0 to 63.
pub(crate) fn count_of(number: i128) -> Option<u32>
    ensures count { IfSome result (λ k. number ≡ pos k) }
    ensures few { IfSome result (λ k. ltb k 64 ≡ true) }
{
    match u32::try_from(number) {
        Ok(count) if count < 64 => Some(count),
        _ => None,
    }
}

/// The number, where an outline may have it.
fn bounded(number: i128) -> Option<i128>
    ensures { result ≡ within number }
{
    if -BOUND < number && number < BOUND {
        Some(number)
    } else {
        None
    }
}

/// What an operation on two numbers gives; none where the rules give it no number.
pub(crate) fn computed(operator: Operator, first: i128, second: i128) -> Option<i128>
    ensures { IfSome result (λ z. computed operator first second ≡ Some z) }
{
    match operator {
        Operator::Add => bounded(first.checked_add(second)?),
        Operator::Subtract => bounded(first.checked_sub(second)?),
        Operator::BitAnd => bounded(first & second),
        Operator::BitOr => bounded(first | second),
        Operator::BitXor => bounded(first ^ second),
        Operator::ShiftLeft => {
            let factor = 1i128.checked_shl(count_of(second)?)?;
            bounded(first.checked_mul(factor)?)
        }
        Operator::ShiftRight => bounded(first.checked_shr(count_of(second)?)?),
        Operator::Modulus => {
            if second <= 0 {
                return None;
            }
            bounded(first.checked_rem_euclid(second)?)
        }
    }
}
