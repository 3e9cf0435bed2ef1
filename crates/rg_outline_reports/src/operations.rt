//! The uses of named statements in the parts, which C has as functions.

use crate::places::push_statements;
use rg_outline::{Action, Expansion, Statement};
use rg_outline_syntax::{Span, push_count};
use rg_words::names::is_word_byte;
use std::alloc::AllocError;

/// A use of named statements in a part, outside of other named statements. What the rounds of a `for` make of one use, with nothing between, is one.
#[derive(Drop)]
pub struct Operation {
    /// The index of the part.
    pub part: usize,
    /// The part's name, `_` and the name of the statements; and `_` with a number from 2 on, where an earlier one has that name.
    pub name: String,
    /// The numbers of its first and its last statement in the text.
    pub first: usize,
    pub last: usize,
}

/// The name with which a use begins.
fn used_name(used: &[u8]) -> &[u8] {
    let len = used.iter().position(|byte| !is_word_byte(*byte));
    used.get(..len.unwrap_or(used.len())).unwrap_or(used)
}

/// Whether an operation has this name.
fn is_taken(operations: &[Operation], name: &[u8]) -> bool {
    operations.iter().any(|one| one.name.as_bytes() == name)
}

/// A name that no operation has: this one, or the first that is free with a number.
fn free_name(operations: &[Operation], name: Vec<u8>) -> Result<Vec<u8>, AllocError> {
    let mut free = Vec::from_slice(*name.allocator(), &name)?;
    for number in 0..operations.len() {
        if !is_taken(operations, &free) {
            break;
        }
        free.clear();
        free.extend_from_slice(&name)?;
        free.push(b'_')?;
        push_count(&mut free, (number as u64).saturating_add(2))?;
    }
    Ok(free)
}

/// Adds the use of which a statement is the first one.
fn add_operation(
    expansion: &Expansion<'_>,
    operations: &mut Vec<Operation>,
    part: usize,
    statement: Statement,
    used: Span,
) -> Result<(), AllocError> {
    let alloc = expansion.scope.alloc;
    let mut name = Vec::from_slice(alloc, expansion.part_names.at(part))?;
    name.push(b'_')?;
    name.extend_from_slice(used_name(used.of(expansion.scope.source)))?;
    let name = free_name(operations, name)?;
    operations.push(Operation {
        part,
        name: String::from_utf8_lossy(alloc, &name)?,
        first: statement.number,
        last: statement.number,
    })?;
    Ok(())
}

/// Adds the uses in a part, in the order of its code.
fn push_operations(
    expansion: &Expansion<'_>,
    operations: &mut Vec<Operation>,
    part: usize,
    body: usize,
) -> Result<(), AllocError> {
    let mut open = Vec::new(expansion.scope.alloc);
    push_statements(expansion, body, &mut open)?;
    let mut before = None;
    for _ in 0..expansion.statements.len() {
        let Some(index) = open.pop() else {
            return Ok(());
        };
        let statement = expansion.statement(index);
        let used = statement.used.map(|used| used.start);
        match (statement.used, operations.last_mut()) {
            (Some(_), Some(last)) if used == before => last.last = statement.number,
            (Some(place), _) => add_operation(expansion, operations, part, statement, place)?,
            (None, _) => {}
        }
        before = used;
        if statement.action == Action::If {
            push_statements(expansion, statement.blocks.1, &mut open)?;
        }
        if matches!(statement.action, Action::If | Action::While) {
            push_statements(expansion, statement.blocks.0, &mut open)?;
        }
    }
    Ok(())
}

/// The uses of named statements in all parts.
pub(crate) fn operations_of(expansion: &Expansion<'_>) -> Result<Vec<Operation>, AllocError> {
    let mut operations = Vec::new(expansion.scope.alloc);
    for part in 0..expansion.parts.len() {
        push_operations(expansion, &mut operations, part, expansion.parts[part].body)?;
    }
    Ok(operations)
}
