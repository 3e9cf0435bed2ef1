//! The colours of reports, row by row.

use crate::screen::cleaned;
use std::alloc::{AllocError, Global};

const BOLD: &[u8] = b"\x1b[1m";

const RED: &[u8] = b"\x1b[31m";

const PLAIN: &[u8] = b"\x1b[0m";

/// What stands before the carets of a row.
const BEFORE_CARETS: &[u8] = b"       | ";

/// How many digits stand at the beginning.
fn digits_in(bytes: &[u8]) -> usize {
    bytes
        .iter()
        .take_while(|byte| byte.is_ascii_digit())
        .count()
}

/// What stands after a colon and a number, at the beginning; none where none do.
fn following_number(bytes: &[u8]) -> Option<&[u8]> {
    let rest = bytes.strip_prefix(b":")?;
    match digits_in(rest) {
        0 => None,
        count => rest.get(count..),
    }
}

/// What stands after `:LINE:COLUMN`, at the beginning and before a colon; none where that doesn't stand there.
fn after_position(bytes: &[u8]) -> Option<&[u8]> {
    let rest = following_number(following_number(bytes)?)?;
    if rest.starts_with(b": ") {
        Some(rest)
    } else {
        None
    }
}

/// How many bytes of a row are its place, `FILE:LINE:COLUMN`; none where it doesn't begin with one.
fn place_len(row: &[u8]) -> usize {
    if row.starts_with(b" ") {
        return 0;
    }
    for start in 0..row.len() {
        if let Some(rest) = after_position(row.get(start..).unwrap_or(&[])) {
            return row.len().saturating_sub(rest.len());
        }
    }
    0
}

/// Whether a row has carets alone.
fn is_of_carets(row: &[u8]) -> bool {
    match row.strip_prefix(BEFORE_CARETS) {
        Some(rest) => rest.ends_with(b"^") && rest.iter().all(|byte| b" \t^".contains(byte)),
        None => false,
    }
}

/// Adds bytes in a colour.
fn push_in(text: &mut Vec<u8>, colour: &[u8], bytes: &[u8]) -> Result<(), AllocError> {
    text.extend_from_slice(colour)?;
    text.extend_from_slice(bytes)?;
    text.extend_from_slice(PLAIN)?;
    Ok(())
}

/// Adds a row, without its end.
fn push_row(text: &mut Vec<u8>, row: &[u8]) -> Result<(), AllocError> {
    let place = place_len(row);
    if is_of_carets(row) {
        text.extend_from_slice(BEFORE_CARETS)?;
        return push_in(text, RED, row.strip_prefix(BEFORE_CARETS).unwrap_or(row));
    }
    if place == 0 {
        text.extend_from_slice(row)?;
        return Ok(());
    }
    push_in(text, BOLD, row.get(..place).unwrap_or(row))?;
    text.extend_from_slice(row.get(place..).unwrap_or(&[]))?;
    Ok(())
}

/// Reports in colour: in each row that begins with a place it is bold, and rows of carets are red. The rest stays as it is, but for the bytes that a terminal
/// would obey.
///
/// # Errors
///
/// `AllocError` where memory is refused.
pub fn painted(alloc: Global, lines: &[u8]) -> Result<Vec<u8>, AllocError> {
    let mut text = Vec::new(alloc);
    let mut row = Vec::new(alloc);
    for byte in &cleaned(alloc, lines)? {
        if *byte == b'\n' {
            push_row(&mut text, &row)?;
            text.push(b'\n')?;
            row.clear();
        } else {
            row.push(*byte)?;
        }
    }
    push_row(&mut text, &row)?;
    Ok(text)
}
