//! Warnings of quantifiers and sums in promises whose range has no number.

use crate::reports::{Reports, Warning};
use crate::warnings::warn;
use crate::written::expressions_in;
use rg_outline::Expansion;
use rg_outline_syntax::{Binder, Expression, ExpressionKind, Span};
use std::alloc::AllocError;

/// What is made of no instance, and the place of the range: of a quantifier or a sum whose range never has a number.
fn empty_range(expansion: &Expansion<'_>, expression: Expression) -> Option<(Binder, Span)> {
    let ExpressionKind::Bound { binder, range, .. } = expression.kind else {
        return None;
    };
    if !expansion.scope.is_always_empty(range) {
        return None;
    }
    let place = expansion.scope.written.ranges.get(range)?.span;
    Some((binder, place))
}

/// What is said of a quantifier or a sum over no number.
fn sentence_of(binder: Binder) -> &'static str {
    match binder {
        Binder::All => {
            "no number is in this range, so this `all` is true and says nothing: a range counts up, without what stands after `but`"
        }
        Binder::Some => {
            "no number is in this range, so this `some` is false: a range counts up, without what stands after `but`"
        }
        Binder::Sum => {
            "no number is in this range, so this sum is 0: a range counts up, without what stands after `but`"
        }
    }
}

/// Reports each quantifier and each sum in a formula, which a part or the program promises, whose range never has a number; whether there is one.
pub(crate) fn report_empty_ranges(
    reports: &mut Reports<'_>,
    formula: usize,
    part: Option<usize>,
) -> Result<bool, AllocError> {
    let expansion = reports.expansion;
    let mut is_any = false;
    for expression in expressions_in(expansion.scope.written, formula) {
        if let Some((binder, range)) = empty_range(expansion, *expression) {
            let template = sentence_of(binder);
            warn(reports, Warning::EmptyRange, range, part, template, &[])?;
            is_any = true;
        }
    }
    Ok(is_any)
}
