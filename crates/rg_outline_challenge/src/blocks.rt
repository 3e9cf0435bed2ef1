//! The statements of an outline, in the order of the text, with what stands beside them.

use rg_outline_syntax::{HeadKind, Item, ItemKind, Keyword, Kind, List, Span, Tokens, Written};
use std::alloc::{AllocError, Global};

/// A statement, with what stands after it in its block.
#[derive(Clone, Copy)]
pub(crate) struct Placed {
    pub(crate) item: Item,
    /// The next statement.
    pub(crate) next: Option<Item>,
    /// The formula of the assertion between this statement and the next one.
    pub(crate) after: Option<Span>,
    /// The formula of the assertion after the next one.
    pub(crate) following_next: Option<Span>,
}

/// Adds the statements of a block, the last one first.
fn push_block(written: &Written, block: List, open: &mut Vec<Placed>) -> Result<(), AllocError> {
    let mut next = None;
    let mut after = None;
    let mut following_next = None;
    for index in written.listed(block).iter().rev() {
        let Some(item) = written.items.get(*index).copied() else {
            continue;
        };
        if let ItemKind::Assertion(formula) = item.kind {
            after = written.expression(formula).map(|formula| formula.span);
        } else {
            open.push(Placed {
                item,
                next,
                after,
                following_next,
            })?;
            next = Some(item);
            following_next = after;
            after = None;
        }
    }
    Ok(())
}

/// The blocks of a statement, in the order of the text; empty ones for those that it doesn't have.
fn blocks_of(item: Item) -> [List; 2] {
    match item.kind {
        ItemKind::If { yes, no, .. } => [yes, no.unwrap_or(List::EMPTY)],
        ItemKind::While { body, .. } | ItemKind::For { body, .. } => [body, List::EMPTY],
        _ => [List::EMPTY, List::EMPTY],
    }
}

/// All statements, in the order of the text: each before those in it.
pub(crate) fn statements_of(alloc: Global, written: &Written) -> Result<Vec<Placed>, AllocError> {
    let mut open = Vec::new(alloc);
    let mut statements = Vec::new(alloc);
    for part in written.parts.iter().rev() {
        push_block(written, part.body, &mut open)?;
    }
    for head in written.heads.iter().rev() {
        if let HeadKind::Procedure(named) = head.kind {
            push_block(written, named.body, &mut open)?;
        }
    }
    for _ in 0..written.items.len() {
        let Some(next) = open.pop() else {
            break;
        };
        statements.push(next)?;
        let [first, second] = blocks_of(next.item);
        push_block(written, second, &mut open)?;
        push_block(written, first, &mut open)?;
    }
    Ok(statements)
}

/// The last item that stands in a statement, if one does.
fn last_in(written: &Written, item: Item) -> Option<Item> {
    let [first, second] = blocks_of(item);
    let block = if second.is_empty() { first } else { second };
    let index = written.listed(block).last()?;
    written.items.get(*index).copied()
}

/// The `end` of this number after a place, from 1; the place itself for 0.
fn end_after(tokens: &Tokens, place: Span, count: usize) -> Span {
    let mut last = place;
    let mut left = count;
    for index in 0..tokens.len() {
        let token = tokens.at(index);
        if left > 0 && token.span.start >= place.end && token.kind == Kind::Keyword(Keyword::End) {
            last = token.span;
            left = left.saturating_sub(1);
        }
    }
    last
}

/// The whole of a statement, from its first byte to its end.
pub(crate) fn extent(written: &Written, tokens: &Tokens, item: Item) -> Span {
    let mut inner = item;
    let mut depth = 0usize;
    for _ in 0..written.items.len() {
        let Some(next) = last_in(written, inner) else {
            break;
        };
        inner = next;
        depth = depth.saturating_add(1);
    }
    item.span.to(end_after(tokens, inner.span, depth))
}

/// Whether a statement waits: an `await`, or a `while` that does nothing.
pub(crate) fn is_wait(written: &Written, item: Item) -> bool {
    match item.kind {
        ItemKind::Await(..) => true,
        ItemKind::While { body, .. } => written.listed(body).iter().all(|index| {
            let inner = written.items.get(*index).map(|inner| inner.kind);
            matches!(inner, None | Some(ItemKind::Skip | ItemKind::Assertion(_)))
        }),
        _ => false,
    }
}
