//! A fault as it is reported: its place, its sentence, the line and a row of carets.

use crate::fault::Fault;
use crate::files::file_of;
use crate::scan::is_white_space;
use crate::sentences::{Insert, inserts};
use crate::span::Span;
use crate::texts::Texts;
use itoa::Buffer;
use std::alloc::AllocError;

/// The number that an index stands for.
#[derive(Clone, Copy)]
pub struct Binding {
    pub name: Span,
    pub number: i128,
}

/// What a sentence may name besides the outline's own bytes.
#[derive(Clone, Copy)]
pub struct Names<'a> {
    pub source: &'a [u8],
    /// The words, as the outline writes them.
    pub words: &'a Texts,
    /// The words, as the text writes them.
    pub members: &'a Texts,
    pub parts: &'a Texts,
    /// The numbers that indices stand for at the fault.
    pub bindings: &'a [Binding],
    /// The uses of names of trees within which the fault is, the outermost first.
    pub uses: &'a [Span],
}

/// Adds a number in decimal, with its sign.
pub fn push_number(text: &mut Vec<u8>, number: i128) -> Result<(), AllocError> {
    if number < 0 {
        text.push(b'-')?;
    }
    push_count(
        text,
        u64::try_from(number.unsigned_abs()).unwrap_or(u64::MAX),
    )
}

/// Adds a count in decimal.
pub fn push_count(text: &mut Vec<u8>, count: u64) -> Result<(), AllocError> {
    let mut digits = Buffer::new();
    text.extend_from_slice(digits.format(count).as_bytes())
}

/// Adds what stands at a place, in one line: without comments, and with one space for each gap.
pub fn push_phrase(text: &mut Vec<u8>, bytes: &[u8]) -> Result<(), AllocError> {
    let mut in_comment = false;
    let mut is_apart = false;
    let start = text.len();
    for byte in bytes {
        in_comment = *byte == b'#' || (in_comment && *byte != b'\n');
        if in_comment || is_white_space(*byte) {
            is_apart = text.len() > start;
        } else {
            if is_apart {
                text.push(b' ')?;
            }
            text.push(*byte)?;
            is_apart = false;
        }
    }
    Ok(())
}

/// Adds the file, the line and the column of a place, with colons between. `own` is the name of the outline's own file.
pub fn push_position(
    text: &mut Vec<u8>,
    own: &[u8],
    source: &[u8],
    place: Span,
) -> Result<(), AllocError> {
    if file_of(source, place).is_empty() {
        text.extend_from_slice(own)?;
        text.push(b':')?;
    }
    push_place(text, source, place)
}

/// Adds the line and the column of a place, and before them the file where that is a used one.
pub fn push_place(text: &mut Vec<u8>, source: &[u8], place: Span) -> Result<(), AllocError> {
    let used = file_of(source, place);
    if !used.is_empty() {
        text.extend_from_slice(used)?;
        text.push(b':')?;
    }
    let position = place.position(source);
    push_count(text, position.line as u64)?;
    text.push(b':')?;
    push_count(text, position.column as u64)
}

/// Adds the line of a place, and in a used file `of` and the name of that.
pub fn push_line_of(text: &mut Vec<u8>, source: &[u8], place: Span) -> Result<(), AllocError> {
    push_count(text, place.position(source).line as u64)?;
    let used = file_of(source, place);
    if !used.is_empty() {
        text.extend_from_slice(b" of ")?;
        text.extend_from_slice(used)?;
    }
    Ok(())
}

/// Adds bytes between backticks.
fn push_quoted(text: &mut Vec<u8>, bytes: &[u8]) -> Result<(), AllocError> {
    text.push(b'`')?;
    push_phrase(text, bytes)?;
    text.push(b'`')?;
    Ok(())
}

/// Adds a byte: as it is between backticks, or by its number.
fn push_byte(text: &mut Vec<u8>, bytes: &[u8]) -> Result<(), AllocError> {
    match bytes {
        [byte @ b'!'..=b'~', ..] => push_quoted(text, &[*byte]),
        [byte, ..] => {
            text.extend_from_slice(b"the byte ")?;
            push_count(text, u64::from(*byte))
        }
        [] => Ok(()),
    }
}

/// Adds the numbers that indices stand for.
fn push_bindings(text: &mut Vec<u8>, names: Names<'_>) -> Result<(), AllocError> {
    let mut before: &[u8] = b" (with ";
    for binding in names.bindings {
        text.extend_from_slice(before)?;
        text.extend_from_slice(binding.name.of(names.source))?;
        text.extend_from_slice(b" = ")?;
        push_number(text, binding.number)?;
        before = b", ";
    }
    if !names.bindings.is_empty() {
        text.push(b')')?;
    }
    Ok(())
}

/// Adds what is inserted at a gap of a template.
fn push_insert(text: &mut Vec<u8>, insert: Insert, names: Names<'_>) -> Result<(), AllocError> {
    match insert {
        Insert::Text(said) => text.extend_from_slice(said.as_bytes()),
        Insert::Number(number) => push_number(text, number),
        Insert::Line(span) => push_line_of(text, names.source, span),
        Insert::Quoted(span) if span.start == span.end => {
            text.extend_from_slice(b"the end of the file")
        }
        Insert::Quoted(span) => push_quoted(text, span.of(names.source)),
        Insert::Byte(span) => push_byte(text, span.of(names.source)),
        Insert::Word(word) => push_quoted(text, names.words.at(word)),
        Insert::Member(word) => push_quoted(text, names.members.at(word)),
        Insert::Part(part) => text.extend_from_slice(names.parts.at(part)),
        Insert::Bindings => push_bindings(text, names),
    }
}

/// Adds the sentence that reports a fault.
///
/// # Errors
///
/// `AllocError` where memory is refused; the text is then of no use.
pub fn push_sentence(text: &mut Vec<u8>, fault: Fault, names: Names<'_>) -> Result<(), AllocError> {
    let given = inserts(fault);
    let mut place: usize = 0;
    for byte in fault.kind.template().as_bytes() {
        if *byte == b'{' {
            let insert = given.get(place).copied().unwrap_or(Insert::Text(""));
            push_insert(text, insert, names)?;
            place = place.saturating_add(1);
        } else if *byte != b'}' {
            text.push(*byte)?;
        }
    }
    Ok(())
}

/// Adds a number, after so many spaces that it ends in the sixth column at the least.
fn push_line_number(text: &mut Vec<u8>, line: u64) -> Result<(), AllocError> {
    let mut digits = Buffer::new();
    let shown = digits.format(line).as_bytes();
    text.extend_from_slice(b"  ")?;
    for _ in shown.len()..4 {
        text.push(b' ')?;
    }
    text.extend_from_slice(shown)
}

/// Adds the line of a place, and a row with carets under the place.
pub fn push_carets(text: &mut Vec<u8>, source: &[u8], span: Span) -> Result<(), AllocError> {
    let position = span.position(source);
    let row = span.row(source);
    push_line_number(text, position.line as u64)?;
    text.extend_from_slice(b" | ")?;
    text.extend_from_slice(row)?;
    text.extend_from_slice(b"\n       | ")?;
    let before = position.column.saturating_sub(1);
    for byte in row.get(..before).unwrap_or(row) {
        text.push(if *byte == b'\t' { b'\t' } else { b' ' })?;
    }
    let room = row.len().saturating_sub(before);
    let width = span.end.saturating_sub(span.start).min(room).max(1);
    for _ in 0..width {
        text.push(b'^')?;
    }
    text.push(b'\n')?;
    Ok(())
}

/// Adds the names of trees within which a fault is, the innermost first.
fn push_uses(text: &mut Vec<u8>, names: Names<'_>) -> Result<(), AllocError> {
    for span in names.uses.iter().rev() {
        text.extend_from_slice(b"  in ")?;
        push_quoted(text, span.of(names.source))?;
        text.extend_from_slice(b" at line ")?;
        push_line_of(text, names.source, *span)?;
        text.push(b'\n')?;
    }
    Ok(())
}

/// Adds a fault as it is reported: `FILE:LINE:COLUMN: sentence`, the line, a row with carets under the place, and a line for each name of
/// a tree within which it is.
///
/// # Errors
///
/// `AllocError` where memory is refused; the text is then of no use.
pub fn tell(
    text: &mut Vec<u8>,
    file: &[u8],
    fault: Fault,
    names: Names<'_>,
) -> Result<(), AllocError> {
    push_position(text, file, names.source, fault.span)?;
    text.extend_from_slice(b": ")?;
    push_sentence(text, fault, names)?;
    text.push(b'\n')?;
    push_carets(text, names.source, fault.span)?;
    push_uses(text, names)
}
