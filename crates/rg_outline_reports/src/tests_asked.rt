//! Warnings of tests that ask nothing.

use crate::reports::{Reports, Warning};
use crate::warnings::warn;
use crate::written::{expression_span, expressions_in, is_same_place, is_written_true, ungrouped};
use rg_outline::{Action, Expansion};
use rg_outline_syntax::{
    Comparison, Expression, ExpressionKind, Item, ItemKind, Span, push_phrase,
};
use rg_outline_terms::Root;
use std::alloc::AllocError;

/// The test of an `if` or a `while`, or the guard of an `await`; but not where it is written as `true` and that is meant.
fn test_of(expansion: &Expansion<'_>, item: Item) -> Option<(Action, usize)> {
    let (action, test) = match item.kind {
        ItemKind::If { test, .. } => return Some((Action::If, test)),
        ItemKind::While { test, .. } => (Action::While, test),
        ItemKind::Await(guard, _) => (Action::Await, guard),
        _ => return None,
    };
    if is_written_true(expansion.scope.written, test) {
        return None;
    }
    Some((action, test))
}

/// The truth that the test of a statement is, in all rounds of a `for` and all members of a family.
fn truth_of(expansion: &Expansion<'_>, action: Action, place: Span) -> Option<bool> {
    let mut known = None;
    for statement in &expansion.statements {
        if statement.action == action && is_same_place(statement.span, place) {
            let Root::Truth(truth) = expansion.scope.forest.root(statement.test) else {
                return None;
            };
            if known == Some(!truth) {
                return None;
            }
            known = Some(truth);
        }
    }
    known
}

/// What is said of a test that is always this truth.
fn sentence_of(action: Action, truth: bool) -> &'static str {
    match (action, truth) {
        (Action::While, true) => {
            "this test is always true: write `while true` where that is meant"
        }
        (Action::While, false) => "this test is always false, so the body is never done",
        (Action::Await, true) => {
            "this guard is always true, so nothing is waited for: write `atomic`, or `await true`, where that is meant"
        }
        (Action::Await, false) => "this guard is always false, so this part waits for ever",
        (_, true) => "this test is always true, so it asks nothing: leave the `if` out",
        (_, false) => "this test is always false, so what stands after `then` is never done",
    }
}

/// Whether an expression compares two sides that are written alike, and then whether that is so.
fn compares_itself(
    expansion: &Expansion<'_>,
    expression: Expression,
) -> Result<Option<bool>, AllocError> {
    let scope = &expansion.scope;
    let ExpressionKind::Compare(comparison, left, right) = expression.kind else {
        return Ok(None);
    };
    let first = ungrouped(scope.written, left);
    let second = ungrouped(scope.written, right);
    if matches!(first.kind, ExpressionKind::Number(_)) {
        return Ok(None);
    }
    let mut one = Vec::new(scope.alloc);
    push_phrase(&mut one, first.span.of(scope.source))?;
    let mut other = Vec::new(scope.alloc);
    push_phrase(&mut other, second.span.of(scope.source))?;
    if one.as_slice() != other.as_slice() {
        return Ok(None);
    }
    Ok(Some(matches!(
        comparison,
        Comparison::Equal | Comparison::LessOrEqual | Comparison::GreaterOrEqual
    )))
}

/// Reports each comparison in a test of which both sides are the same.
fn report_same_sides(reports: &mut Reports<'_>, test: usize) -> Result<(), AllocError> {
    let expansion = reports.expansion;
    for expression in expressions_in(expansion.scope.written, test) {
        if let Some(truth) = compares_itself(expansion, *expression)? {
            let template = if truth {
                "both sides of this comparison are the same, so it is always true: compare with another word or a number"
            } else {
                "both sides of this comparison are the same, so it is always false: compare with another word or a number"
            };
            let place = expression.span;
            warn(reports, Warning::AsksNothing, place, None, template, &[])?;
        }
    }
    Ok(())
}

/// Reports each test and each guard that is always true or always false, and each that compares a word with itself. `while true` and `await true`
/// are meant.
pub(crate) fn report_tests(reports: &mut Reports<'_>) -> Result<(), AllocError> {
    let expansion = reports.expansion;
    let written = expansion.scope.written;
    for item in &written.items {
        if let Some((action, test)) = test_of(expansion, *item) {
            let place = expression_span(written, test);
            if let Some(truth) = truth_of(expansion, action, item.span) {
                let template = sentence_of(action, truth);
                warn(reports, Warning::AsksNothing, place, None, template, &[])?;
            }
            report_same_sides(reports, test)?;
        }
    }
    Ok(())
}
