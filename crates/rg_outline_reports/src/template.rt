//! Sentences as templates, and what stands at their gaps.

use crate::reports::Valued;
use crate::show::push_shown;
use crate::template::Gap::{
    AssertionAt, Clipped, Code, Count, Counted, Formula, LineOf, Number, Part, Parts, Phrase, Text,
    WithValues, WordsIn,
};
use rg_outline::{Expansion, push_clipped};
use rg_outline_syntax::{Span, push_count, push_line_of, push_number, push_phrase};
use rg_outline_terms::bit_of;
use std::alloc::AllocError;

/// The most bytes of a statement that is shown.
const MOST_CODE: usize = 60;

/// What stands at a gap of a template.
#[derive(Clone, Copy)]
pub(crate) enum Gap<'g> {
    Text(&'g [u8]),
    /// Bytes of an outline, in one line.
    Phrase(&'g [u8]),
    /// The same, or its beginning, where it is long.
    Clipped(&'g [u8]),
    Count(u64),
    Number(i128),
    /// A count, and what is counted: one, or several.
    Counted(u64, &'static str, &'static str),
    /// The name of a part.
    Part(usize),
    /// The names of parts, with commas between.
    Parts(&'g [usize]),
    /// The words of these bits, with commas between.
    WordsIn(u64),
    /// Words with their values, and with those after where they differ.
    WithValues(&'g [Valued]),
    /// The line of a place, and in a used file also the name of that.
    LineOf(Span),
    /// A statement in backticks and in one line; its beginning, where it is long.
    Code(Span),
    /// An assertion in backticks, as it is written, with its line.
    AssertionAt(Span),
    /// A formula or a value; one with a name by that.
    Formula(usize),
}

/// Adds a sentence: a template, where `$0` is the first of these gaps.
pub(crate) fn fill(
    expansion: &Expansion<'_>,
    text: &mut Vec<u8>,
    template: &str,
    gaps: &[Gap<'_>],
) -> Result<(), AllocError> {
    let mut is_gap = false;
    for byte in template.as_bytes() {
        if is_gap {
            let place = usize::from(byte.saturating_sub(b'0'));
            push_gap(
                expansion,
                text,
                gaps.get(place).copied().unwrap_or(Text(&[])),
            )?;
        } else if *byte != b'$' {
            text.push(*byte)?;
        }
        is_gap = *byte == b'$';
    }
    Ok(())
}

/// A sentence, as `fill` adds it.
pub(crate) fn filled(
    expansion: &Expansion<'_>,
    template: &str,
    gaps: &[Gap<'_>],
) -> Result<Vec<u8>, AllocError> {
    let mut text = Vec::new(expansion.scope.alloc);
    fill(expansion, &mut text, template, gaps)?;
    Ok(text)
}

/// Adds what stands at a gap.
fn push_gap(expansion: &Expansion<'_>, text: &mut Vec<u8>, gap: Gap<'_>) -> Result<(), AllocError> {
    let source = expansion.scope.source;
    match gap {
        Text(bytes) => text.extend_from_slice(bytes),
        Phrase(bytes) => push_phrase(text, bytes),
        Clipped(bytes) => push_clipped(text, bytes),
        Count(count) => push_count(text, count),
        Number(number) => push_number(text, number),
        Counted(count, one, several) => {
            push_count(text, count)?;
            text.push(b' ')?;
            let counted = if count == 1 { one } else { several };
            text.extend_from_slice(counted.as_bytes())
        }
        Part(part) => text.extend_from_slice(expansion.part_names.at(part)),
        Parts(parts) => push_parts(expansion, text, parts),
        WordsIn(bits) => push_words(expansion, text, bits),
        WithValues(values) => push_values(expansion, text, values),
        LineOf(place) => push_line_of(text, source, place),
        Code(place) => push_code(text, place.of(source)),
        AssertionAt(place) => {
            text.push(b'`')?;
            push_clipped(text, place.of(source))?;
            text.extend_from_slice(b"` (line ")?;
            push_line_of(text, source, place)?;
            text.push(b')')?;
            Ok(())
        }
        Formula(tree) => push_shown(expansion, text, tree, 0, true),
    }
}

/// Adds a statement in backticks.
fn push_code(text: &mut Vec<u8>, bytes: &[u8]) -> Result<(), AllocError> {
    text.push(b'`')?;
    let start = text.len();
    push_phrase(text, bytes)?;
    if text.len().saturating_sub(start) > MOST_CODE {
        text.truncate(start.saturating_add(MOST_CODE - 3));
        text.extend_from_slice(b"...")?;
    }
    text.push(b'`')?;
    Ok(())
}

/// Adds the names of parts.
fn push_parts(
    expansion: &Expansion<'_>,
    text: &mut Vec<u8>,
    parts: &[usize],
) -> Result<(), AllocError> {
    let mut between: &[u8] = b"";
    for part in parts {
        text.extend_from_slice(between)?;
        text.extend_from_slice(expansion.part_names.at(*part))?;
        between = b", ";
    }
    Ok(())
}

/// Adds the words of these bits, as the outline writes them.
fn push_words(expansion: &Expansion<'_>, text: &mut Vec<u8>, bits: u64) -> Result<(), AllocError> {
    let mut between: &[u8] = b"";
    for word in 0..expansion.scope.words.len() {
        if bits & bit_of(word) != 0 {
            text.extend_from_slice(between)?;
            text.extend_from_slice(expansion.scope.shown.at(word))?;
            between = b", ";
        }
    }
    Ok(())
}

/// Adds words with their values.
fn push_values(
    expansion: &Expansion<'_>,
    text: &mut Vec<u8>,
    values: &[Valued],
) -> Result<(), AllocError> {
    let mut between: &[u8] = b"";
    for valued in values {
        text.extend_from_slice(between)?;
        text.extend_from_slice(expansion.scope.shown.at(valued.word))?;
        text.extend_from_slice(b" = ")?;
        push_count(text, valued.before)?;
        if valued.after != valued.before {
            text.extend_from_slice(b" -> ")?;
            push_count(text, valued.after)?;
        }
        between = b", ";
    }
    Ok(())
}
