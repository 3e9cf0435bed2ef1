//! Places in a source.

use crate::files::{file_start, line_len, own_start};

/// A piece of a source: the index of its first byte, from 0, and the index after its last byte.
#[derive(Clone, Copy)]
pub struct Span {
    pub start: usize,
    pub end: usize,
}

/// A place as a reader names it.
#[derive(Clone, Copy)]
pub struct Position {
    /// The line, from 1. Only LF ends a line.
    pub line: usize,
    /// The byte in its line, from 1.
    pub column: usize,
}

/// The byte order mark, which may stand before an outline.
static MARK: [u8; 3] = [0xEF, 0xBB, 0xBF];

/// How many bytes of a source are a byte order mark before it.
pub(crate) fn mark_len(source: &[u8]) -> usize {
    if source.starts_with(&MARK) { 3 } else { 0 }
}

impl Span {
    /// No bytes, of no place.
    pub const NOWHERE: Span = Span { start: 0, end: 0 };

    /// From the beginning of this span to the end of the other.
    pub fn to(self, last: Span) -> Span {
        Span {
            start: self.start,
            end: last.end,
        }
    }

    /// The bytes of the source that it names; none where the source is shorter.
    pub fn of(self, source: &[u8]) -> &[u8] {
        source.get(self.start..self.end).unwrap_or(&[])
    }

    /// The byte at which it begins; of no place, where the outline's own file begins.
    fn beginning(self, source: &[u8]) -> usize {
        if self.start == 0 {
            return own_start(source);
        }
        self.start
    }

    /// Where it begins in its file.
    pub fn position(self, source: &[u8]) -> Position {
        let place = self.beginning(source);
        let file = source.get(file_start(source, place)..).unwrap_or(&[]);
        let passed = source.len().saturating_sub(file.len());
        let before = file.get(..place.saturating_sub(passed)).unwrap_or(file);
        let before = before.get(mark_len(before)..).unwrap_or(before);
        let column = before.iter().rev().take_while(|b| **b != b'\n').count();
        Position {
            line: before
                .iter()
                .filter(|b| **b == b'\n')
                .count()
                .saturating_add(1),
            column: column.saturating_add(1),
        }
    }

    /// The byte at which the line begins in which it begins.
    pub fn row_start(self, source: &[u8]) -> usize {
        let column = self.position(source).column;
        let place = self.beginning(source);
        place.saturating_sub(column.saturating_sub(1))
    }

    /// The line in which it begins, without its end.
    pub fn row(self, source: &[u8]) -> &[u8] {
        let rest = source.get(self.row_start(source)..).unwrap_or(&[]);
        let row = rest.get(..line_len(rest)).unwrap_or(rest);
        row.strip_suffix(b"\r").unwrap_or(row)
    }
}
