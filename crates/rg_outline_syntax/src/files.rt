//! An outline of several files as one text: each file that is used stands before the one that uses it, below a head line with its name; the outline's
//! own file is the last one, and its head line has no name. An outline of one file has no head line.

use crate::kind::Kind;
use crate::scan::{gap_len, scan};
use crate::span::{Span, mark_len};
use std::alloc::{AllocError, Global};

/// The byte with which a head line begins: the file separator of ASCII. It stands in no file.
pub const SEPARATOR: u8 = 0x1C;

/// The most files of one outline.
pub const MOST_FILES: usize = 64;

/// The word before the name of a file that is used.
pub(crate) const USE: &[u8] = b"use";

/// How many bytes of the line at the front stand before its end.
pub(crate) fn line_len(bytes: &[u8]) -> usize {
    bytes.iter().take_while(|byte| **byte != b'\n').count()
}

/// Whether it is the text of an outline of several files.
fn is_several(source: &[u8]) -> bool {
    source.first().copied() == Some(SEPARATOR)
}

/// The name in the last head line before a place, where there is one.
fn head_before(source: &[u8], place: usize) -> Option<Span> {
    if !is_several(source) {
        return None;
    }
    let before = source.get(..place).unwrap_or(source);
    let back = before.iter().rev().take_while(|b| **b != SEPARATOR).count();
    let start = before.len().saturating_sub(back);
    if start == 0 {
        return None;
    }
    let length = line_len(source.get(start..).unwrap_or(&[]));
    Some(Span {
        start,
        end: start.saturating_add(length),
    })
}

/// Where the file of a place begins, after its head line.
pub(crate) fn file_start(source: &[u8], place: usize) -> usize {
    head_before(source, place).map_or(0, |head| head.end.saturating_add(1))
}

/// The byte at which the outline's own file begins.
pub fn own_start(source: &[u8]) -> usize {
    file_start(source, source.len())
}

/// The name of the used file in which a place stands; empty in the outline's own file.
pub fn file_of(source: &[u8], place: Span) -> &[u8] {
    match head_before(source, place.start) {
        Some(head) => head.of(source),
        None => &[],
    }
}

/// Adds a file to the text of an outline of several: a used one by its name, and at last the outline's own with an empty name.
///
/// # Errors
///
/// `AllocError` where memory is refused; the text is then of no use.
pub fn push_file(text: &mut Vec<u8>, name: &[u8], bytes: &[u8]) -> Result<(), AllocError> {
    if !text.is_empty() && !text.ends_with(b"\n") {
        text.push(b'\n')?;
    }
    text.push(SEPARATOR)?;
    text.extend_from_slice(name)?;
    text.push(b'\n')?;
    text.extend_from_slice(bytes)
}

/// The token after a place in a file, and where it ends; nothing where none is there.
fn token_after(file: &[u8], place: usize) -> Option<(Kind, Span)> {
    let rest = file.get(place..)?;
    let start = place.saturating_add(gap_len(rest));
    let (length, scanned) = scan(file.get(start..)?);
    let end = start.saturating_add(length);
    Some((scanned.ok()?, Span { start, end }))
}

/// The names of the files that a file uses, with their quotes: those at its beginning, up to the first that isn't written as it has to be.
///
/// # Errors
///
/// `AllocError` where memory is refused.
pub fn uses_of(alloc: Global, file: &[u8]) -> Result<Vec<Span>, AllocError> {
    let mut uses = Vec::new(alloc);
    let mut place = mark_len(file);
    for _ in 0..file.len() {
        let Some((Kind::Name, word)) = token_after(file, place) else {
            break;
        };
        let Some((Kind::FileName, name)) = token_after(file, word.end) else {
            break;
        };
        if word.of(file) != USE {
            break;
        }
        uses.push(name)?;
        place = name.end;
    }
    Ok(uses)
}

/// A name without the quotes around it.
pub fn without_quotes(name: &[u8]) -> &[u8] {
    let inner = name.strip_prefix(b"\"").unwrap_or(name);
    inner.strip_suffix(b"\"").unwrap_or(inner)
}
