//! The places at which an assertion may be written and none is.

use crate::brackets::{Bracket, body_of, brackets_of, end_of};
use rg_outline_syntax::{
    Clause, ExpressionKind, HeadKind, Item, ItemKind, List, PartWritten, Span, Tokens, Written,
};
use std::alloc::{AllocError, Global};

/// What stands at a place at which an assertion may be written.
#[derive(Clone, Copy, PartialEq, Eq)]
pub enum SlotKind {
    /// A statement, before which it stands; before a `while` it is the loop's invariant.
    Before,
    /// The end of a part's body.
    End,
    /// A `do`, before which the invariant of its `while` stands.
    Invariant,
    /// The end of an `if` without `else`: where its test fails.
    Otherwise,
}

/// A place at which an assertion may be written.
#[derive(Clone, Copy)]
pub struct Slot {
    pub kind: SlotKind,
    /// The byte before which it stands.
    pub at: usize,
    /// The byte of the statement that it is about.
    pub near: usize,
    /// The scope of its assertion, by its place among the scopes.
    pub scope: usize,
}

/// Where assertions know the same names: the body of a part, or that of a `for` in it.
#[derive(Clone, Copy)]
pub struct Scope {
    /// The part, by its place among those that are written.
    pub part: usize,
    /// Of a `for`, its place among the items, and the scope around it, which stands before this one.
    pub round: Option<(usize, usize)>,
}

/// The places of an outline, in their order, and their scopes, part by part.
#[derive(Drop)]
pub struct Slots {
    pub slots: Vec<Slot>,
    pub scopes: Vec<Scope>,
}

/// A block that is still to be looked at.
#[derive(Clone, Copy)]
struct Open {
    block: List,
    scope: usize,
    /// Whether what holds at its end has a place of its own: it is a body whose part has no `post`.
    has_end: bool,
    end: Span,
}

/// The places, as they are found.
#[derive(Drop)]
struct Finding<'a> {
    written: &'a Written,
    source: &'a [u8],
    brackets: Vec<Bracket>,
    open: Vec<Open>,
    slots: Vec<Slot>,
    scopes: Vec<Scope>,
}

/// Whether a part says what holds where it ends.
fn has_post(written: &Written, part: PartWritten) -> bool {
    written.heads(part.heads).iter().any(|head| matches!(
        head.kind,
        HeadKind::Clause(Clause::Post, _)
    ))
}

/// Whether it is a loop that never ends.
fn is_endless(written: &Written, item: Item) -> bool {
    match item.kind {
        ItemKind::While { test, .. } => {
            let test = written.expression(test).map(|test| test.kind);
            matches!(test, Some(ExpressionKind::Truth(true)))
        }
        _ => false,
    }
}

/// The beginning of the line of a byte where nothing but white space stands before it there; else the byte.
pub(crate) fn line_start(source: &[u8], at: usize) -> usize {
    let before = source.get(..at).unwrap_or(source);
    let blank = before
        .iter()
        .rev()
        .take_while(|byte| matches!(**byte, b' ' | b'\t'))
        .count();
    let start = before.len().saturating_sub(blank);
    match start.checked_sub(1).and_then(|last| source.get(last)) {
        None | Some(b'\n') => start,
        Some(_) => at,
    }
}

impl Finding<'_> {
    /// Adds a place.
    fn add(
        &mut self,
        kind: SlotKind,
        at: usize,
        near: usize,
        scope: usize,
    ) -> Result<(), AllocError> {
        self.slots.push(Slot {
            kind,
            at,
            near,
            scope,
        })?;
        Ok(())
    }

    /// Adds the places of an `if` without `else`, and its blocks.
    fn take_choice(
        &mut self,
        open: Open,
        span: Span,
        blocks: (List, Option<List>),
    ) -> Result<(), AllocError> {
        let inner = Open {
            has_end: false,
            ..open
        };
        self.open.push(Open {
            block: blocks.0,
            ..inner
        })?;
        match (blocks.1, end_of(&self.brackets, span)) {
            (Some(block), _) => self.open.push(Open { block, ..inner })?,
            (None, Some(end)) => self.add(SlotKind::Otherwise, end.start, span.start, open.scope)?,
            (None, None) => {}
        }
        Ok(())
    }

    /// Adds the scope of a `for`, and opens its body.
    fn take_rounds(&mut self, open: Open, item: usize, body: List) -> Result<(), AllocError> {
        let around = self.scopes.get(open.scope).copied();
        let scope = self.scopes.len();
        self.scopes.push(Scope {
            part: around.map_or(0, |around| around.part),
            round: Some((item, open.scope)),
        })?;
        self.open.push(Open {
            block: body,
            scope,
            has_end: false,
            ..open
        })?;
        Ok(())
    }

    /// Adds the places within a statement, before which an assertion is written or not.
    fn take_statement(
        &mut self,
        open: Open,
        item: Item,
        is_asserted: bool,
    ) -> Result<(), AllocError> {
        let start = item.span.start;
        if !is_asserted {
            self.add(SlotKind::Before, start, start, open.scope)?;
        }
        match item.kind {
            ItemKind::If { yes, no, .. } => self.take_choice(open, item.span, (yes, no)),
            ItemKind::While {
                invariant,
                body,
                ..
            } => {
                if invariant.is_none() && is_asserted {
                    self.add(SlotKind::Invariant, item.span.end, start, open.scope)?;
                }
                self.open.push(Open {
                    block: body,
                    has_end: false,
                    ..open
                })?;
                Ok(())
            }
            _ => Ok(()),
        }
    }

    /// Adds the places of a block.
    fn take_block(&mut self, open: Open) -> Result<(), AllocError> {
        let written = self.written;
        let mut is_asserted = false;
        let mut is_endless_now = false;
        for index in written.listed(open.block) {
            let Some(item) = written.items.get(*index).copied() else {
                continue;
            };
            if matches!(item.kind, ItemKind::Assertion(_)) {
                is_asserted = true;
                continue;
            }
            match item.kind {
                // (what holds before a `for` stands before its first statement, in the first round)
                ItemKind::For { body, .. } => self.take_rounds(open, *index, body)?,
                _ => self.take_statement(open, item, is_asserted)?,
            }
            is_asserted = false;
            is_endless_now = is_endless(written, item);
        }
        if open.has_end && !is_asserted && !is_endless_now {
            let at = line_start(self.source, open.end.start);
            self.add(SlotKind::End, at, open.end.start, open.scope)?;
        }
        Ok(())
    }

    /// Adds the places of a part.
    fn take_part(&mut self, place: usize, part: PartWritten) -> Result<(), AllocError> {
        let Some(body) = body_of(&self.brackets, part.span) else {
            return Ok(());
        };
        let scope = self.scopes.len();
        self.scopes.push(Scope {
            part: place,
            round: None,
        })?;
        self.open.push(Open {
            block: part.body,
            scope,
            has_end: !has_post(self.written, part),
            end: body.end,
        })?;
        for _ in 0..self.written.items.len().saturating_add(1) {
            let Some(open) = self.open.pop() else {
                break;
            };
            self.take_block(open)?;
        }
        Ok(())
    }
}

/// The places of an outline at which an assertion may be written and none is: not those within named statements.
///
/// # Errors
///
/// Only where memory is refused.
pub fn slots_of(
    alloc: Global,
    source: &[u8],
    tokens: &Tokens,
    written: &Written,
) -> Result<Slots, AllocError> {
    let mut finding = Finding {
        written,
        source,
        brackets: brackets_of(alloc, tokens)?,
        open: Vec::new(alloc),
        slots: Vec::new(alloc),
        scopes: Vec::new(alloc),
    };
    for (place, part) in written.parts.iter().enumerate() {
        finding.take_part(place, *part)?;
    }
    let Finding {
        mut slots,
        scopes,
        ..
    } = finding;
    slots.sort_by_key(|slot: &Slot| slot.at)?;
    Ok(Slots { slots, scopes })
}
