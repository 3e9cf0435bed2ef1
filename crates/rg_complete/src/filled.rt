//! An outline with assertions at places where none is written.

use crate::slots::{Slot, SlotKind, line_start};
use rg_outline_syntax::{Span, Texts};
use std::alloc::{AllocError, Global};

/// An outline with formulas that were added.
#[derive(Drop)]
pub struct Filled {
    pub source: Vec<u8>,
    /// Where each formula stands, with the brace before it where it has one; nowhere, where nothing was written.
    pub spans: Vec<Span>,
    /// Where the outline goes on after each assertion, and how many bytes were added before that.
    added: Vec<(usize, usize)>,
}

/// The white space with which the line of a byte begins, where the byte is the first of its line.
pub(crate) fn indent_of(source: &[u8], at: usize) -> Option<&[u8]> {
    let start = line_start(source, at);
    if start == at && start > 0 && source.get(start.saturating_sub(1)).copied() != Some(b'\n') {
        return None;
    }
    source.get(start..at)
}

/// What stands before the formula and after it.
#[derive(Clone, Copy)]
struct Margins<'a> {
    first: &'a [u8],
    second: &'a [u8],
    third: &'a [u8],
    last: &'a [u8],
}

/// What stands around the formula at a place.
fn margins_of<'a>(source: &'a [u8], slot: Slot) -> Margins<'a> {
    let none: &[u8] = b"";
    match (slot.kind, indent_of(source, slot.near)) {
        (SlotKind::Before, Some(indent)) => Margins {
            first: none,
            second: b"{ ",
            third: b" }\n",
            last: indent,
        },
        (SlotKind::End, Some(indent)) => Margins {
            first: indent,
            second: b"  { ",
            third: b" }\n",
            last: none,
        },
        (SlotKind::Before | SlotKind::End, None) => Margins {
            first: none,
            second: b"{ ",
            third: b" } ",
            last: none,
        },
        (SlotKind::Invariant, _) => Margins {
            first: none,
            second: b" invariant ",
            third: none,
            last: none,
        },
        (SlotKind::Otherwise, _) => Margins {
            first: b"else ",
            second: b"{ ",
            third: b" } ",
            last: b"skip ",
        },
    }
}

impl Filled {
    /// Nothing yet.
    pub(crate) fn new(alloc: Global) -> Filled {
        Filled {
            source: Vec::new(alloc),
            spans: Vec::new(alloc),
            added: Vec::new(alloc),
        }
    }

    /// Adds a formula, with the brace that stands before it, if one does.
    pub(crate) fn push_formula(&mut self, formula: &[u8]) -> Result<(), AllocError> {
        let inner = self.source.len();
        let brace = if self.source.ends_with(b"{ ") { 2 } else { 0 };
        let start = inner.saturating_sub(brace);
        self.source.extend_from_slice(formula)?;
        let end = self.source.len();
        self.spans.push(Span { start, end })?;
        Ok(())
    }

    /// The byte of the outline before anything was added that stands at this byte.
    pub fn origin(&self, at: usize) -> usize {
        let mut before = 0usize;
        for (next, added) in &self.added {
            if *next <= at {
                before = *added;
            }
        }
        at.saturating_sub(before)
    }

    /// Adds a formula with what stands around it.
    fn push(&mut self, margins: Margins<'_>, formula: &[u8]) -> Result<(), AllocError> {
        self.source.extend_from_slice(margins.first)?;
        self.source.extend_from_slice(margins.second)?;
        self.push_formula(formula)?;
        self.source.extend_from_slice(margins.third)?;
        self.source.extend_from_slice(margins.last)?;
        Ok(())
    }
}

/// The outline with a formula at each of these places, which stand in their order; where a formula is empty, nothing is written.
///
/// # Errors
///
/// Only where memory is refused.
pub fn fill(
    alloc: Global,
    source: &[u8],
    slots: &[Slot],
    formulas: &Texts,
) -> Result<Filled, AllocError> {
    let mut filled = Filled::new(alloc);
    let mut done = 0usize;
    for (index, slot) in slots.iter().enumerate() {
        let formula = formulas.at(index);
        if formula.is_empty() {
            filled.spans.push(Span::NOWHERE)?;
            continue;
        }
        filled
            .source
            .extend_from_slice(source.get(done..slot.at).unwrap_or(&[]))?;
        done = slot.at;
        filled.push(margins_of(source, *slot), formula)?;
        let next = filled.source.len();
        filled.added.push((next, next.saturating_sub(done)))?;
    }
    filled
        .source
        .extend_from_slice(source.get(done..).unwrap_or(&[]))?;
    Ok(filled)
}
