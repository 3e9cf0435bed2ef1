//! How a derivation, or proofs, that are too long for one file are cut into pieces, each for a file of its own.

use itoa::Buffer;
use std::alloc::{AllocError, Global};

/// How the head of a section of proofs begins.
pub const SECTION: &[u8] = b"section ";

/// Whether a line begins at this place, and with these bytes.
pub fn begins_line(bytes: &[u8], place: usize, head: &[u8]) -> bool {
    let (before, rest) = bytes.split_at(place.min(bytes.len()));
    rest.starts_with(head) && (before.is_empty() || before.ends_with(b"\n"))
}

/// Whether there are as many files as pieces or more; else it is reported how many are needed.
pub fn can_hold(rt: &HostRuntime, names: &[&str], pieces: &[&[u8]], option: &str) -> bool {
    let count = pieces.len();
    if count > names.len() {
        let mut digits = Buffer::new();
        let count = digits.format(count);
        let _ = eprintln!(rt; "error: one file can't hold this: give --{option} {count} times");
        return false;
    }
    true
}

/// The bytes of pieces of proofs.
pub fn slices_of(alloc: Global, pieces: &[String]) -> Result<Vec<&[u8]>, AllocError> {
    let mut slices = Vec::new(alloc);
    for piece in pieces {
        slices.push(piece.as_bytes())?;
    }
    Ok(slices)
}
