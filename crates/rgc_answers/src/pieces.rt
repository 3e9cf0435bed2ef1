//! Pieces of the text of a picture.

use itoa::Buffer;
use std::alloc::AllocError;

/// The most characters of a name that are shown.
pub(crate) const MOST_CHARACTERS: usize = 32;

/// Adds a number in decimal.
pub(crate) fn push_number(text: &mut Vec<u8>, number: u64) -> Result<(), AllocError> {
    let mut digits = Buffer::new();
    text.extend_from_slice(digits.format(number).as_bytes())?;
    Ok(())
}

/// The count of a number's digits.
pub(crate) fn digits_of(number: u64) -> u64 {
    let mut digits = Buffer::new();
    digits.format(number).len() as u64
}

/// Adds a number between two texts.
pub(crate) fn push_around(
    text: &mut Vec<u8>,
    before: &[u8],
    number: u64,
    after: &[u8],
) -> Result<(), AllocError> {
    text.extend_from_slice(before)?;
    push_number(text, number)?;
    text.extend_from_slice(after)?;
    Ok(())
}

/// Adds the number of a character, as XML names it.
fn push_reference(text: &mut Vec<u8>, character: char) -> Result<(), AllocError> {
    push_around(text, b"&#", u64::from(u32::from(character)), b";")
}

/// Whether XML allows the character only by its number, and a picture shows something for it.
fn is_shown_by_number(character: char) -> bool {
    let number = u32::from(character);
    number >= 0xa0 && number != 0xfffe && number != 0xffff
}

/// Adds a character: as it is, or by its number, or as `?` where XML has none.
fn push_character(text: &mut Vec<u8>, character: char) -> Result<(), AllocError> {
    match character {
        '<' | '>' | '&' | '"' | '\'' => push_reference(text, character),
        ' '..='~' => {
            text.push(u32::from(character) as u8)?;
            Ok(())
        }
        _ if is_shown_by_number(character) => push_reference(text, character),
        _ => {
            text.push(b'?')?;
            Ok(())
        }
    }
}

/// Adds a name, of which only the first characters are shown.
pub(crate) fn push_name(text: &mut Vec<u8>, name: &str) -> Result<(), AllocError> {
    let mut shown = 0;
    for character in name.chars() {
        if shown < MOST_CHARACTERS {
            push_character(text, character)?;
            shown += 1;
        }
    }
    if name.len() > MOST_CHARACTERS {
        text.extend_from_slice(b"..")?;
    }
    Ok(())
}

/// Adds a name of ASCII letters, of which only the first are shown.
pub(crate) fn push_bytes(text: &mut Vec<u8>, name: &[u8]) -> Result<(), AllocError> {
    for byte in name.get(..MOST_CHARACTERS).unwrap_or(name) {
        push_character(text, char::from(*byte))?;
    }
    if name.len() > MOST_CHARACTERS {
        text.extend_from_slice(b"..")?;
    }
    Ok(())
}

/// How many characters `push_bytes` shows, at the most.
pub(crate) fn bytes_length(name: &[u8]) -> u64 {
    (name.len() as u64).min(MOST_CHARACTERS as u64 + 2)
}

/// How many characters `push_name` shows, at the most.
pub(crate) fn name_length(name: &str) -> u64 {
    (name.len() as u64).min(MOST_CHARACTERS as u64 + 2)
}
