//! Warnings of sums that can wrap.

use crate::bounds::{Bound, Bounds, maximum_of};
use crate::reports::{Reports, Warning};
use crate::template::Gap::{Counted, Number};
use crate::warnings::warn;
use crate::words::Seen;
use crate::written::is_same_place;
use rg_outline::{Assertion, Expansion, Origin};
use rg_outline_syntax::{Binder, Comparison, ExpressionKind, Operator, Span};
use rg_outline_terms::Root;
use std::alloc::AllocError;

/// What is known where sums are looked at.
#[derive(Clone, Copy)]
struct Looking<'e> {
    bounds: &'e Bounds,
    /// Where the sums stand.
    sums: &'e [Span],
}

/// Reports a sum that can be greater than the width allows in which it is worked out.
fn report_sum(
    reports: &mut Reports<'_>,
    place: Span,
    maximum: u128,
    width: u32,
) -> Result<(), AllocError> {
    let maximum = Number(i128::try_from(maximum).unwrap_or(i128::MAX));
    let bits = Counted(u64::from(width), "bit", "bits");
    let template =
        "this sum can come to $0, but it has $1 and wraps: declare wider words, or sum `(if .. then 1 else 0)` and compare with a wider word";
    let gaps = [maximum, bits];
    warn(reports, Warning::SumWraps, place, None, template, &gaps)
}

/// Reports the outermost sums of a value that can be greater than a width allows. Each tree is looked at once.
fn report_value(
    looking: Looking<'_>,
    reports: &mut Reports<'_>,
    seen: &mut Seen,
    value: usize,
    width: u32,
) -> Result<(), AllocError> {
    let expansion = reports.expansion;
    let forest = &expansion.scope.forest;
    let mut open = Vec::new(expansion.scope.alloc);
    open.push(value)?;
    for _ in 0..usize::MAX {
        let Some(tree) = open.pop() else {
            break;
        };
        if !seen.is_first(tree) {
            continue;
        }
        let root = forest.root(tree);
        let Bound { maximum, .. } = looking.bounds.tree(forest, tree);
        let place = forest.span(tree);
        if root == Root::Operate(Operator::Add)
            && maximum > maximum_of(width)
            && looking.sums.iter().any(|sum| is_same_place(*sum, place))
        {
            report_sum(reports, place, maximum, width)?;
        } else {
            let first = if root == Root::Choice { 1 } else { 0 };
            for operand in first..root.arity() {
                open.push(forest.operand(tree, operand))?;
            }
        }
    }
    Ok(())
}

/// Reports the sums of a comparison that can wrap, where that matters: in an order, or beside a value that reads no word. An equation of sums with
/// other words is one modulo the width, on both sides.
fn report_comparison(
    looking: Looking<'_>,
    reports: &mut Reports<'_>,
    seen: &mut Seen,
    comparison: Comparison,
    sides: [usize; 2],
) -> Result<(), AllocError> {
    let expansion = reports.expansion;
    let forest = &expansion.scope.forest;
    let [first, second] = sides;
    let left = looking.bounds.tree(forest, first).width;
    let right = looking.bounds.tree(forest, second).width;
    let is_equation = matches!(comparison, Comparison::Equal | Comparison::NotEqual);
    if is_equation && left > 0 && right > 0 {
        return Ok(());
    }
    let width = left.max(right);
    report_value(looking, reports, seen, first, width)?;
    report_value(looking, reports, seen, second, width)
}

/// Adds an assertion, where it is written.
fn push_written(formulas: &mut Vec<usize>, assertion: Assertion) -> Result<(), AllocError> {
    if assertion.origin == Origin::Written {
        formulas.push(assertion.own)?;
    }
    Ok(())
}

/// Adds the formulas that are asked or promised: the invariant, the program's and the parts' own relies and guars, the post, and all assertions.
fn push_formulas(expansion: &Expansion<'_>, formulas: &mut Vec<usize>) -> Result<(), AllocError> {
    let program = expansion.specification;
    formulas.extend_from_slice(&[program.invariant, program.rely, program.post])?;
    formulas.extend_from_slice(&expansion.clauses)?;
    for part in &expansion.parts {
        push_written(formulas, part.pre)?;
        push_written(formulas, part.post)?;
    }
    for line in &expansion.lines {
        push_written(formulas, line.before)?;
        push_written(formulas, line.after)?;
    }
    Ok(())
}

/// Reports the sums in formulas that can wrap. Each tree is looked at once.
fn report_formulas(
    looking: Looking<'_>,
    reports: &mut Reports<'_>,
    open: &mut Vec<usize>,
) -> Result<(), AllocError> {
    let expansion = reports.expansion;
    let forest = &expansion.scope.forest;
    let mut formulas_seen = Seen::of(expansion)?;
    let mut values_seen = Seen::of(expansion)?;
    for _ in 0..usize::MAX {
        let Some(tree) = open.pop() else {
            break;
        };
        if formulas_seen.is_first(tree) {
            let root = forest.root(tree);
            for operand in 0..root.arity() {
                open.push(forest.operand(tree, operand))?;
            }
            if let Root::Compare(comparison) = root {
                let sides = [forest.operand(tree, 0), forest.operand(tree, 1)];
                report_comparison(looking, reports, &mut values_seen, comparison, sides)?;
            }
        }
    }
    Ok(())
}

/// Reports each sum in a formula that is asked or promised whose members together can be greater than the width allows in which it is worked out.
pub(crate) fn report_sums(reports: &mut Reports<'_>) -> Result<(), AllocError> {
    let expansion = reports.expansion;
    let mut sums = Vec::new(expansion.scope.alloc);
    for expression in &expansion.scope.written.expressions {
        if let ExpressionKind::Bound {
            binder: Binder::Sum,
            ..
        } = expression.kind
        {
            sums.push(expression.span)?;
        }
    }
    if sums.is_empty() {
        return Ok(());
    }
    let bounds = Bounds::of(expansion)?;
    let looking = Looking {
        bounds: &bounds,
        sums: &sums,
    };
    let mut open = Vec::new(expansion.scope.alloc);
    push_formulas(expansion, &mut open)?;
    report_formulas(looking, reports, &mut open)
}
