//! What takes the most bytes of a derivation or of proofs that the named files can't hold.

use crate::faults::report;
use crate::pieces::{SECTION, begins_line};
use rg_outline_syntax::push_count;
use std::alloc::{AllocError, Global};

/// How many lines or sections are reported.
const MOST_REPORTED: usize = 3;

/// Which of the two is too long.
#[derive(Clone, Copy)]
pub enum Kind {
    /// A derivation, of lines with their numbers.
    Derivation,
    /// Proofs, of sections with the numbers of their conditions.
    Proofs,
}

impl Kind {
    /// What stands before the number of a line or of a section.
    fn head(self) -> &'static [u8] {
        match self {
            Kind::Derivation => b"line ",
            Kind::Proofs => SECTION,
        }
    }

    /// What stands before its number in the row that names it.
    fn before_number(self) -> &'static [u8] {
        match self {
            Kind::Derivation => b"line ",
            Kind::Proofs => b"",
        }
    }

    /// What stands between its size and the row that names it.
    fn after_bytes(self) -> &'static [u8] {
        match self {
            Kind::Derivation => b" bytes: ",
            Kind::Proofs => b" bytes: condition ",
        }
    }

    /// What stands before all rows.
    fn title(self) -> &'static [u8] {
        match self {
            Kind::Derivation => b"the largest lines of the derivation:\n",
            Kind::Proofs => b"the largest sections of the proofs:\n",
        }
    }
}

/// Puts a portion among the largest ones, of which the largest stands first.
fn put_among<'a>(largest: &mut [&'a [u8]; MOST_REPORTED], portion: &'a [u8]) {
    let mut next = portion;
    for slot in largest.iter_mut() {
        let known = *slot;
        if known.len() < next.len() {
            *slot = next;
            next = known;
        }
    }
}

/// Puts the lines or the sections of a piece among the largest ones.
fn put_all_among<'a>(largest: &mut [&'a [u8]; MOST_REPORTED], kind: Kind, piece: &'a [u8]) {
    let mut start = 0;
    for place in 0..piece.len() {
        if begins_line(piece, place, kind.head()) {
            put_among(largest, piece.get(start..place).unwrap_or(&[]));
            start = place;
        }
    }
    put_among(largest, piece.get(start..).unwrap_or(&[]));
}

/// The digits at the front.
fn number_at_front(bytes: &[u8]) -> &[u8] {
    let count = bytes
        .iter()
        .take_while(|byte| byte.is_ascii_digit())
        .count();
    bytes.get(..count).unwrap_or(&[])
}

/// The first row that begins so, without its end; none where there is none.
fn row_beginning<'a>(rows: &'a [u8], beginning: &[u8]) -> Option<&'a [u8]> {
    for place in 0..rows.len() {
        if begins_line(rows, place, beginning) {
            let rest = rows.get(place..).unwrap_or(&[]);
            let length = rest.iter().take_while(|byte| **byte != b'\n').count();
            return rest.get(..length);
        }
    }
    None
}

/// Adds the row that names a line or a section with this number; its number where there is none.
fn push_row(
    text: &mut Vec<u8>,
    alloc: Global,
    kind: Kind,
    number: &[u8],
    rows: &[u8],
) -> Result<(), AllocError> {
    let mut beginning = Vec::from_slice(alloc, kind.before_number())?;
    beginning.extend_from_slice(number)?;
    let known = beginning.len();
    beginning.push(b' ')?;
    match row_beginning(rows, &beginning) {
        Some(row) => text.extend_from_slice(row),
        None => text.extend_from_slice(beginning.get(..known).unwrap_or(number)),
    }
}

/// Adds a row for each of the largest lines or sections: its bytes, and the row that names it.
fn push_largest(
    text: &mut Vec<u8>,
    alloc: Global,
    kind: Kind,
    largest: &[&[u8]],
    rows: &[u8],
) -> Result<(), AllocError> {
    for portion in largest {
        if let Some(rest) = portion.strip_prefix(kind.head()) {
            text.extend_from_slice(b"  ")?;
            push_count(text, portion.len() as u64)?;
            text.extend_from_slice(kind.after_bytes())?;
            push_row(text, alloc, kind, number_at_front(rest), rows)?;
            text.push(b'\n')?;
        }
    }
    Ok(())
}

/// Reports the largest lines of a derivation, or sections of proofs: of each its bytes, and the row that names it. Each piece has whole ones. The rows are
/// those of the map of an outline, or of sections the names of the conditions.
///
/// # Errors
///
/// `AllocError` where memory is refused.
pub fn report_largest(
    rt: &HostRuntime,
    kind: Kind,
    pieces: &[&[u8]],
    rows: &[u8],
) -> Result<(), AllocError> {
    let none: &[u8] = &[];
    let mut largest = [none; MOST_REPORTED];
    for piece in pieces {
        put_all_among(&mut largest, kind, piece);
    }
    let mut text = Vec::from_slice(rt.alloc(), kind.title())?;
    push_largest(&mut text, rt.alloc(), kind, &largest, rows)?;
    report(rt, &text);
    Ok(())
}
