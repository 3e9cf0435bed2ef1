//! What is written in an outline.

use rg_outline_syntax::{Expression, ExpressionKind, Span, Written};

/// The most parentheses round one another.
const DEEPEST: u32 = 1_000;

/// An expression without the parentheses round it.
pub(crate) fn ungrouped(written: &Written, index: usize) -> Expression {
    let mut expression = written.expression(index);
    for _ in 0..DEEPEST {
        match expression {
            Some(
                Expression {
                    kind: ExpressionKind::Group(inner),
                    ..
                },
            ) => expression = written.expression(inner),
            _ => break,
        }
    }
    expression.unwrap_or(Expression {
        kind: ExpressionKind::Truth(false),
        span: Span::NOWHERE,
    })
}

/// Whether `true` stands there, and nothing else.
pub(crate) fn is_written_true(written: &Written, index: usize) -> bool {
    matches!(ungrouped(written, index).kind, ExpressionKind::Truth(true))
}

/// Whether two places are the same.
pub(crate) fn is_same_place(first: Span, second: Span) -> bool {
    first.start == second.start && first.end == second.end
}

/// Where an expression stands.
pub(crate) fn expression_span(written: &Written, index: usize) -> Span {
    written
        .expression(index)
        .map_or(Span::NOWHERE, |expression| expression.span)
}

/// An expression with those in it: they stand before it, without a gap.
pub(crate) fn expressions_in(written: &Written, index: usize) -> &[Expression] {
    let end = index.saturating_add(1);
    let known = written.expressions.get(..end).unwrap_or(&[]);
    known.get(written.first_within(index)..).unwrap_or(&[])
}
