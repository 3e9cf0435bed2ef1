//! Conjuncts that are added to the invariant of an outline.

use crate::equations::has_word;
use crate::filled::{Filled, indent_of};
use rg_outline_syntax::{HeadKind, Span, Texts, Written, own_start};
use std::alloc::{AllocError, Global};

/// Whether a formula of a part has a name that stands in this part alone.
pub fn has_own_name(source: &[u8], written: &Written, part: usize, formula: &[u8]) -> bool {
    let heads = written.parts.get(part).map(|part| part.heads);
    heads.is_some_and(|heads| {
        written.heads(heads).iter().any(|head| match head.kind {
            HeadKind::Let(named) => has_word(formula, named.name.of(source)),
            _ => false,
        })
    })
}

/// A formula of a part, said of each member of its family where it speaks of the index.
///
/// # Errors
///
/// Only where memory is refused.
pub fn said_of_all(
    alloc: Global,
    source: &[u8],
    written: &Written,
    part: usize,
    formula: &[u8],
) -> Result<Vec<u8>, AllocError> {
    let mut text = Vec::new(alloc);
    let index = written.parts.get(part).and_then(|part| part.index);
    if let Some((index, range)) = index
        && has_word(formula, index.of(source))
    {
        let range = written
            .ranges
            .get(range)
            .map_or(Span::NOWHERE, |range| range.span);
        text.extend_from_slice(b"all ")?;
        text.extend_from_slice(index.of(source))?;
        text.extend_from_slice(b" in ")?;
        text.extend_from_slice(range.of(source))?;
        text.extend_from_slice(b": ")?;
    }
    text.extend_from_slice(formula)?;
    Ok(text)
}

/// The byte before which conjuncts are added in the outline's own file: the first clause after all names, or the end of these.
fn place_of(source: &[u8], written: &Written) -> Option<usize> {
    let own = own_start(source);
    let mut clause = None;
    let mut end = None;
    for head in written.heads(written.following_words) {
        if head.span.start < own {
            continue;
        }
        end = Some(head.span.end);
        match head.kind {
            HeadKind::Clause(..) => clause = clause.or(Some(head.span.start)),
            _ => clause = None,
        }
    }
    clause.or(end)
}

/// The outline with these conjuncts added to its invariant.
///
/// # Errors
///
/// Only where memory is refused.
pub fn with_conjuncts(
    alloc: Global,
    source: &[u8],
    written: &Written,
    conjuncts: &Texts,
) -> Result<Filled, AllocError> {
    let place = place_of(source, written).unwrap_or(0);
    let mut made = Filled::new(alloc);
    made.source
        .extend_from_slice(source.get(..place).unwrap_or(&[]))?;
    let indent = indent_of(source, place);
    for index in 0..conjuncts.len() {
        let before: &[u8] = if indent.is_some() { b"" } else { b" " };
        let after: &[u8] = if indent.is_some() { b"\n" } else { b" " };
        made.source.extend_from_slice(before)?;
        made.source.extend_from_slice(b"invariant ")?;
        made.push_formula(conjuncts.at(index))?;
        made.source.extend_from_slice(after)?;
        made.source.extend_from_slice(indent.unwrap_or(&[]))?;
    }
    made.source
        .extend_from_slice(source.get(place..).unwrap_or(&[]))?;
    Ok(made)
}
