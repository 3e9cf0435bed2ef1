//! What is reported of a file that can't be read.

use crate::faults::printable;
use crate::files::Format;
use crate::json::JsonObject;
use std::alloc::{AllocError, Global};

/// The line that says that the file of this name can't be read, and why: `rgc: NAME: REASON`, or a JSON value.
/// An error comes only where memory is refused.
pub fn unread_line(
    alloc: Global,
    format: Format,
    name: &str,
    reason: &str,
) -> Result<Vec<u8>, AllocError> {
    let mut line = Vec::new(alloc);
    if format == Format::Json {
        let mut object = JsonObject::of_kind(alloc, b"unread");
        object.put_text("file", name.as_bytes());
        object.put_text("reason", reason.as_bytes());
        object.push_to(&mut line)?;
        return Ok(line);
    }
    for piece in ["rgc: ", name, ": ", reason, "\n"] {
        line.extend_from_slice(piece.as_bytes())?;
    }
    printable(alloc, &line)
}
