//! The statements of a part, by their places in its code, and their lines.

use rg_outline::{Action, BlockRow, Expansion, Statement};
use rg_outline_syntax::file_of;
use std::alloc::AllocError;

/// Adds the statements of a block, the last one first.
pub(crate) fn push_statements(
    expansion: &Expansion<'_>,
    block: usize,
    open: &mut Vec<usize>,
) -> Result<(), AllocError> {
    for row in expansion.rows_of(expansion.block(block).rows).iter().rev() {
        if let BlockRow::Statement(statement) = row {
            open.push(*statement)?;
        }
    }
    Ok(())
}

/// The statement at a place, from 0, of the code of a part, from 1: as the code has them, a statement stands before those in it. The environment, 0, has
/// none.
pub(crate) fn statement_of(
    expansion: &Expansion<'_>,
    who: usize,
    place: usize,
) -> Result<Option<Statement>, AllocError> {
    let part = who
        .checked_sub(1)
        .and_then(|part| expansion.parts.get(part));
    let body = part.map_or(usize::MAX, |part| part.body);
    let mut open = Vec::new(expansion.scope.alloc);
    push_statements(expansion, body, &mut open)?;
    for _ in 0..place {
        let Some(index) = open.pop() else {
            return Ok(None);
        };
        let statement = expansion.statement(index);
        if statement.action == Action::If {
            push_statements(expansion, statement.blocks.1, &mut open)?;
        }
        if matches!(statement.action, Action::If | Action::While) {
            push_statements(expansion, statement.blocks.0, &mut open)?;
        }
    }
    Ok(open.pop().map(|index| expansion.statement(index)))
}

/// The line of a statement in the outline's own file, from 1: of one in a used file, that of the use of named statements of which it is one.
pub(crate) fn own_line(expansion: &Expansion<'_>, statement: Statement) -> u64 {
    let source = expansion.scope.source;
    let place = match statement.used {
        Some(used) if !file_of(source, statement.span).is_empty() => used,
        _ => statement.span,
    };
    place.position(source).line as u64
}

/// Whether nobody wrote a statement: it is the `skip` of an `else` that isn't there, and has the place of its `if`.
pub(crate) fn is_added(expansion: &Expansion<'_>, statement: Statement) -> bool {
    statement.action == Action::Skip
        && !statement
            .span
            .of(expansion.scope.source)
            .starts_with(b"skip")
}
