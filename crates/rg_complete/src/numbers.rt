//! Numbers that are known without working out the outline.

use rg_outline_syntax::{ExpressionKind, HeadKind, Operator, Span, Written};

/// A number that stands alone, or has a name.
fn leaf(written: &Written, source: &[u8], expression: usize) -> Option<i64> {
    match written.expression(expression)?.kind {
        ExpressionKind::Number(number) => i64::try_from(number).ok(),
        ExpressionKind::Name { name, .. } => named(written, source, name),
        _ => None,
    }
}

/// The number of a name.
fn named(written: &Written, source: &[u8], name: Span) -> Option<i64> {
    let word = name.of(source);
    for head in &written.heads {
        if let HeadKind::Let(one) = head.kind
            && one.name.of(source) == word
            && let ExpressionKind::Number(number) = written.expression(one.body)?.kind
        {
            return i64::try_from(number).ok();
        }
    }
    None
}

/// The number that an expression stands for, where that is simple.
pub(crate) fn number_of(written: &Written, source: &[u8], expression: usize) -> Option<i64> {
    if let ExpressionKind::Operate(operator, first, second) = written.expression(expression)?.kind {
        let first = leaf(written, source, first)?;
        let second = leaf(written, source, second)?;
        return match operator {
            Operator::Add => first.checked_add(second),
            Operator::Subtract => first.checked_sub(second),
            _ => None,
        };
    }
    leaf(written, source, expression)
}

/// The first and the last number of a range.
pub(crate) fn bounds_of(written: &Written, source: &[u8], range: usize) -> Option<(i64, i64)> {
    let range = written.ranges.get(range)?;
    let first = number_of(written, source, range.first)?;
    let last = number_of(written, source, range.last)?;
    Some((first, last))
}

/// How many numbers a range has, which leaves out none.
pub(crate) fn size_of(bounds: (i64, i64)) -> i64 {
    bounds.1.saturating_sub(bounds.0).saturating_add(1)
}
