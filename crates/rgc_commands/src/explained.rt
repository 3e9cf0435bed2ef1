//! What is printed below a refusal, where that is asked: the line that it names, and what explains it.

use crate::Files;
use crate::entries::{entry_of, explanation};
use itoa::Buffer;
use rg_words::{Place, Refusal, SourceFile};
use std::alloc::{AllocError, Global};

/// The most bytes of a line that are shown.
const MOST_SHOWN: usize = 160;

/// What is said of an outline that is read as a program's text.
const OUTLINE_AS_TEXT: &str =
    "This looks like an outline: `rgc verify` proves it, and `rgc outline` prints the text and the derivation that it stands for.\n";

/// The bytes of a file that is one piece; none of several, since a line is one of its own piece.
fn only_piece<'a>(file: Option<&'a [&'a [u8]]>) -> Option<&'a [u8]> {
    match file {
        Some([only]) => Some(*only),
        _ => None,
    }
}

/// The bytes of a file of the command.
fn source_of<'a>(files: &Files<'a>, file: SourceFile) -> Option<&'a [u8]> {
    match file {
        SourceFile::Text => files.text,
        SourceFile::Derivation => only_piece(files.derivation),
        SourceFile::Proofs => only_piece(files.proofs),
        SourceFile::Start => files.start,
        SourceFile::Moves => files.moves,
    }
}

/// The line of a number, from 1, without its end; none where there are fewer lines.
fn line_of(source: &[u8], number: u64) -> Option<&[u8]> {
    if number == 0 {
        return None;
    }
    source
        .split(|byte| *byte == b'\n')
        .nth((number - 1) as usize)
}

/// A byte as it is shown: a blank for a control byte.
fn shown(byte: u8) -> u8 {
    if byte < b' ' || byte == 127 {
        b' '
    } else {
        byte
    }
}

/// Adds the line of a number in a file, after its number; nothing where there are fewer lines.
fn push_line(
    alloc: Global,
    text: &mut Vec<u8>,
    source: &[u8],
    number: u64,
) -> Result<(), AllocError> {
    if let Some(line) = line_of(source, number) {
        let mut digits = Buffer::new();
        text.extend_from_slice(digits.format(number).as_bytes())?;
        text.extend_from_slice(b" | ")?;
        for byte in &line[..line.len().min(MOST_SHOWN)] {
            text.push(shown(*byte))?;
        }
        text.push(b'\n')?;
    }
    Ok(())
}

/// Adds the line that a refusal names; nothing where it names none.
fn push_named(
    alloc: Global,
    text: &mut Vec<u8>,
    files: &Files<'_>,
    refusal: &Refusal,
) -> Result<(), AllocError> {
    let source = refusal.file.and_then(|file| source_of(files, file));
    match (source, refusal.place) {
        (Some(source), Some(Place::Line(number))) => push_line(alloc, text, source, number),
        _ => Ok(()),
    }
}

/// Adds what explains a refusal.
fn push_entry(alloc: Global, text: &mut Vec<u8>, refusal: &Refusal) -> Result<(), AllocError> {
    let number = u64::from(refusal.number.code());
    if let Some(entry) = entry_of(number) {
        let sentences = explanation(alloc, number, entry)?;
        text.extend_from_slice(sentences.as_bytes())?;
    }
    Ok(())
}

/// Whether a line begins, after its spaces, with what no line of a text begins with: an assertion, or a word of outlines.
fn begins_outline(line: &[u8]) -> bool {
    let start = line.iter().position(|byte| *byte != b' ').unwrap_or(0);
    let words = line.get(start..).unwrap_or(line);
    words.starts_with(b"{")
        || words.starts_with(b"let ")
        || words.starts_with(b"invariant ")
        || words.starts_with(b"owns ")
}

/// Whether the refusal names a line of a text that is an outline.
fn is_of_outline(files: &Files<'_>, refusal: &Refusal) -> bool {
    match (refusal.file, refusal.place, files.text) {
        (Some(SourceFile::Text), Some(Place::Line(_)), Some(text)) => text
            .split(|byte| *byte == b'\n')
            .any(|line| begins_outline(line)),
        _ => false,
    }
}

/// What stands below a refusal: the line that it names, and what explains it, or that a text is an outline.
pub(crate) fn explained(
    alloc: Global,
    files: &Files<'_>,
    refusal: &Refusal,
) -> Result<Vec<u8>, AllocError> {
    let mut text = Vec::new(alloc);
    push_named(alloc, &mut text, files, refusal)?;
    if is_of_outline(files, refusal) {
        text.extend_from_slice(OUTLINE_AS_TEXT.as_bytes())?;
    } else {
        push_entry(alloc, &mut text, refusal)?;
    }
    Ok(text)
}
