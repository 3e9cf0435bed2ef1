//! An outline with a change.

use crate::change::{Between, Change, Edit, Replacement, gap};
use rg_outline_syntax::{Span, push_count};
use std::alloc::{AllocError, Global};

/// Adds what stands in the place of a piece.
pub(crate) fn push_replacement(
    text: &mut Vec<u8>,
    piece: &[u8],
    replacement: Replacement,
) -> Result<(), AllocError> {
    match replacement {
        Replacement::Text(said) => push_around(text, b"", said.as_bytes(), b""),
        Replacement::Number(number) => push_count(text, number),
        Replacement::Negated => push_around(text, b"not (", piece, b")"),
        Replacement::More => push_around(text, b"(", piece, b" + 1)"),
        Replacement::Less => push_around(text, b"(", piece, b" - 1)"),
    }
}

/// Adds a piece between two texts.
fn push_around(
    text: &mut Vec<u8>,
    before: &[u8],
    piece: &[u8],
    after: &[u8],
) -> Result<(), AllocError> {
    text.extend_from_slice(before)?;
    text.extend_from_slice(piece)?;
    text.extend_from_slice(after)?;
    Ok(())
}

/// Adds what stands between two statements: the gap as it is written, or `;` with another assertion and as many line ends as the gap has, so that
/// what follows keeps its line.
fn push_between(
    text: &mut Vec<u8>,
    gap: &[u8],
    after: Option<&[u8]>,
    between: Between,
) -> Result<(), AllocError> {
    if between == Between::Written {
        return push_around(text, b"", gap, b"");
    }
    text.push(b';')?;
    match (between, after) {
        (Between::Following, Some(formula)) => push_around(text, b" { ", formula, b" }")?,
        (Between::Invariant, _) => text.extend_from_slice(b" { true }")?,
        _ => {}
    }
    for byte in gap {
        if *byte == b'\n' {
            text.push(b'\n')?;
        }
    }
    text.push(b' ')?;
    Ok(())
}

/// The piece of an outline in whose place an edit puts another.
fn place_of(edit: Edit) -> Span {
    match edit {
        Edit::Replaced(place, _) | Edit::Cut(place) => place,
        Edit::Exchanged(first, second) | Edit::StatementsExchanged(first, second) => {
            first.to(second)
        }
    }
}

/// Adds what an edit puts in the place of its piece.
fn push_edited(
    text: &mut Vec<u8>,
    source: &[u8],
    change: &Change,
    between: Between,
) -> Result<(), AllocError> {
    let after = change.after.map(|formula| formula.of(source));
    match change.edit {
        Edit::Replaced(place, replacement) => {
            push_replacement(text, place.of(source), replacement)
        }
        Edit::Exchanged(first, second) => {
            let gap = gap(first, second).of(source);
            push_around(text, second.of(source), gap, first.of(source))
        }
        Edit::StatementsExchanged(first, second) => {
            text.extend_from_slice(second.of(source))?;
            push_between(text, gap(first, second).of(source), after, between)?;
            text.extend_from_slice(first.of(source))?;
            Ok(())
        }
        Edit::Cut(gap) => {
            text.extend_from_slice(b" end")?;
            push_between(text, gap.of(source), after, between)?;
            text.extend_from_slice(b"atomic ")?;
            Ok(())
        }
    }
}

/// The outline with a change, and with this assertion at the place that the change makes. `source` is what the change was made for.
///
/// # Errors
///
/// `AllocError` where memory is refused.
pub fn changed_outline(
    alloc: Global,
    source: &[u8],
    change: &Change,
    between: Between,
) -> Result<Vec<u8>, AllocError> {
    let place = place_of(change.edit);
    let mut text = Vec::new(alloc);
    text.extend_from_slice(source.get(..place.start).unwrap_or(&[]))?;
    push_edited(&mut text, source, change, between)?;
    text.extend_from_slice(source.get(place.end..).unwrap_or(&[]))?;
    Ok(text)
}
