//! Warnings of names that nothing uses.

use crate::reports::{Reports, Warning};
use crate::template::Gap::Text;
use crate::warnings::warn;
use rg_outline::Expansion;
use rg_outline_syntax::{Expression, ExpressionKind, HeadKind, Span, file_of};
use std::alloc::AllocError;

/// Whether an expression uses a name, but for saying whose it is.
fn uses(expansion: &Expansion<'_>, expression: Expression, name: Span) -> bool {
    let source = expansion.scope.source;
    let ExpressionKind::Name { name: used, .. } = expression.kind else {
        return false;
    };
    let mut heads = expansion.scope.written.heads.iter();
    used.start != name.start
        && used.of(source) == name.of(source)
        && !heads.any(|head| {
            matches!(head.kind, HeadKind::Owns(_))
                && head.span.start <= expression.span.start
                && expression.span.end <= head.span.end
        })
}

/// Reports a name, where nothing uses it and it doesn't stand in a used file, of which another outline may use more.
fn report(reports: &mut Reports<'_>, template: &str, name: Span) -> Result<(), AllocError> {
    let expansion = reports.expansion;
    if !file_of(expansion.scope.source, name).is_empty() {
        return Ok(());
    }
    for expression in &expansion.scope.written.expressions {
        if uses(expansion, *expression, name) {
            return Ok(());
        }
    }
    let gaps = [Text(name.of(expansion.scope.source))];
    warn(reports, Warning::Unused, name, None, template, &gaps)
}

/// Reports each name of a formula or a value, and each word, that nothing uses, but for those of used files.
pub(crate) fn report_unused(reports: &mut Reports<'_>) -> Result<(), AllocError> {
    let expansion = reports.expansion;
    let written = expansion.scope.written;
    for declaration in &written.declarations {
        report(reports, "nothing uses the word `$0`", declaration.name)?;
    }
    for head in &written.heads {
        let name = match head.kind {
            HeadKind::Let(named) => named.name,
            HeadKind::Procedure(named) => named.name,
            _ => continue,
        };
        report(reports, "nothing uses the name `$0`", name)?;
    }
    Ok(())
}
