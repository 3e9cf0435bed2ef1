//! Trees that are made of trees: truths and numbers are worked out at once, and nothing else is simplified.

use crate::forest::{Forest, NewTree, Root};
use rg_outline_syntax::{Comparison, Conditional, Fault, Junction, MeaningFault, Operator, Span};

/// The numbers that may be worked out lie between this and its negative.
const BOUND: i128 = 18_446_744_073_709_551_616;

/// Whether two numbers compare so.
pub(crate) fn compares(comparison: Comparison, first: i128, second: i128) -> bool {
    match comparison {
        Comparison::Equal => first == second,
        Comparison::NotEqual => first != second,
        Comparison::Less => first < second,
        Comparison::LessOrEqual => first <= second,
        Comparison::Greater => first > second,
        Comparison::GreaterOrEqual => first >= second,
    }
}

/// A shift count that is a number from 0 to 63.
fn count_of(count: i128, span: Span) -> Result<u8, Fault> {
    match u8::try_from(count) {
        Ok(count) if count < 64 => Ok(count),
        _ => Err(Fault::meaning(MeaningFault::ShiftCount(count), span)),
    }
}

/// What an operation on two numbers gives; none where it is far out of bounds.
fn worked_out(
    operator: Operator,
    first: i128,
    second: i128,
    span: Span,
) -> Result<Option<i128>, Fault> {
    match operator {
        Operator::Add => Ok(first.checked_add(second)),
        Operator::Subtract => Ok(first.checked_sub(second)),
        Operator::BitAnd => Ok(Some(first & second)),
        Operator::BitOr => Ok(Some(first | second)),
        Operator::BitXor => Ok(Some(first ^ second)),
        Operator::ShiftLeft => {
            let factor = 1i128.checked_shl(u32::from(count_of(second, span)?));
            Ok(factor.and_then(|factor| first.checked_mul(factor)))
        }
        Operator::ShiftRight => Ok(first.checked_shr(u32::from(count_of(second, span)?))),
        Operator::Modulus if second <= 0 => {
            Err(Fault::meaning(MeaningFault::Modulus(second), span))
        }
        Operator::Modulus => Ok(first.checked_rem_euclid(second)),
    }
}

impl Forest {
    /// A number; `MeaningFault::OutOfBounds` where there is none or it is beyond all words.
    pub(crate) fn numeral(&mut self, number: Option<i128>, span: Span) -> NewTree {
        match number {
            Some(number) if -BOUND < number && number < BOUND => {
                self.leaf(Root::Number(number), span)
            }
            _ => Err(Fault::meaning(MeaningFault::OutOfBounds, span)),
        }
    }

    /// An operation on two values: `MeaningFault::Modulus`, `ShiftCount` and `OutOfBounds` where both are numbers, and
    /// `MeaningFault::ModulusOfWords`, `ShiftByWords` and `ShiftCount` where one isn't.
    pub(crate) fn operated(&mut self, operator: Operator, pair: [usize; 2], span: Span) -> NewTree {
        let [first, second] = pair;
        let count = self.number(second);
        if let (Some(left), Some(right)) = (self.number(first), count) {
            let number = worked_out(operator, left, right, span)?;
            return self.numeral(number, span);
        }
        match operator {
            Operator::Modulus => Err(Fault::meaning(MeaningFault::ModulusOfWords, span)),
            Operator::ShiftLeft | Operator::ShiftRight => {
                let Some(count) = count else {
                    return Err(Fault::meaning(MeaningFault::ShiftByWords, span));
                };
                let count = count_of(count, span)?;
                self.unary(Root::Shift(operator, count), first, span)
            }
            _ => self.binary(Root::Operate(operator), first, second, span),
        }
    }

    /// `not` before a formula, where truths are worked out.
    pub(crate) fn negated(&mut self, formula: usize, span: Span) -> NewTree {
        match self.root(formula) {
            Root::Truth(truth) => self.leaf(Root::Truth(!truth), span),
            _ => self.unary(Root::Not, formula, span),
        }
    }

    /// Two formulas with `and` or `or` between them.
    pub(crate) fn joined(&mut self, junction: Junction, pair: [usize; 2], span: Span) -> NewTree {
        let [first, second] = pair;
        let unit = junction == Junction::And;
        if self.is_truth(first, unit) {
            return Ok(second);
        }
        if self.is_truth(second, unit) {
            return Ok(first);
        }
        if self.is_truth(first, !unit) || self.is_truth(second, !unit) {
            return self.leaf(Root::Truth(!unit), span);
        }
        self.binary(Root::Join(junction), first, second, span)
    }

    /// Two formulas with `implies` or `iff` between them.
    pub(crate) fn implied(&mut self, kind: Conditional, pair: [usize; 2], span: Span) -> NewTree {
        let [first, second] = pair;
        if self.is_truth(first, true) {
            return Ok(second);
        }
        if self.is_truth(second, true) {
            return Ok(match kind {
                Conditional::Implies => second,
                Conditional::Iff => first,
            });
        }
        if kind == Conditional::Implies && self.is_truth(first, false) {
            return self.leaf(Root::Truth(true), span);
        }
        self.binary(Root::Imply(kind), first, second, span)
    }

    /// That a formula is kept: it implies itself in the next state.
    pub fn keeping(&mut self, formula: usize, next: usize, span: Span) -> NewTree {
        self.binary(Root::Imply(Conditional::Implies), formula, next, span)
    }

    /// A choice between two values, where a known test decides at once.
    pub(crate) fn chosen(&mut self, test: usize, yes: usize, no: usize, span: Span) -> NewTree {
        match self.root(test) {
            Root::Truth(true) => Ok(yes),
            Root::Truth(false) => Ok(no),
            _ => self.add(Root::Choice, [test, yes, no], span),
        }
    }

    /// `false`.
    pub fn falsity(&mut self, span: Span) -> NewTree {
        self.leaf(Root::Truth(false), span)
    }

    /// The conjunction of formulas, nested to the left: without those that are `true` or equal to an earlier one.
    pub fn conjoined(&mut self, formulas: &[usize], span: Span) -> NewTree {
        let mut made = None;
        for (place, formula) in formulas.iter().enumerate() {
            let earlier = formulas.get(..place).unwrap_or(&[]);
            if !self.is_truth(*formula, true) && !self.has_equal(earlier, *formula) {
                made = Some(match made {
                    None => *formula,
                    Some(before) => {
                        self.binary(Root::Join(Junction::And), before, *formula, span)?
                    }
                });
            }
        }
        match made {
            Some(formula) => Ok(formula),
            None => self.leaf(Root::Truth(true), span),
        }
    }

    /// Whether one of the formulas equals this one.
    fn has_equal(&self, formulas: &[usize], formula: usize) -> bool {
        formulas.iter().any(|other| self.is_equal(*other, formula))
    }
}
