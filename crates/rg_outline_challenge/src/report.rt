//! The lines that report changes.

use crate::change::{Change, ChangeGroup, Edit, Replacement};
use crate::edits::push_replacement;
use rg_outline_syntax::{Span, push_count, push_phrase, push_position};
use std::alloc::{AllocError, Global};

/// The most bytes of a piece that is shown.
const MOST_SHOWN: usize = 80;

/// How many changes there are of each kind.
#[derive(Clone, Copy)]
pub struct Counts {
    /// The changed program was verified.
    pub surviving: usize,
    /// A run of it breaks the specification.
    pub breaking: usize,
    /// It is neither proved, nor was a run found that breaks the specification.
    pub undecided: usize,
}

/// Adds a text.
fn push_text(text: &mut Vec<u8>, said: &str) -> Result<(), AllocError> {
    text.extend_from_slice(said.as_bytes())?;
    Ok(())
}

/// Adds bytes in one line between backticks, after what stands before them; their beginning, where they are many.
fn push_quoted(text: &mut Vec<u8>, before: &str, bytes: &[u8]) -> Result<(), AllocError> {
    push_text(text, before)?;
    text.push(b'`')?;
    let most = text.len().saturating_add(MOST_SHOWN);
    push_phrase(text, bytes)?;
    if text.len() > most {
        text.truncate(most.saturating_sub(3));
        push_text(text, "...")?;
    }
    text.push(b'`')?;
    Ok(())
}

/// Adds that a piece is replaced.
fn push_replaced(
    alloc: Global,
    text: &mut Vec<u8>,
    piece: &[u8],
    replacement: Replacement,
) -> Result<(), AllocError> {
    push_quoted(text, "", piece)?;
    if let Replacement::Text("" | "skip") = replacement {
        return push_text(text, " left out");
    }
    let mut new = Vec::new(alloc);
    push_replacement(&mut new, piece, replacement)?;
    push_quoted(text, " becomes ", &new)
}

/// Adds a change, `FILE:LINE:COLUMN: what is changed`, without a line's end. `source` is the outline before the change, and `name` that of its own file.
///
/// # Errors
///
/// `AllocError` where memory is refused; the text is then of no use. So it is with all that add lines here.
pub fn push_change(
    alloc: Global,
    text: &mut Vec<u8>,
    name: &str,
    source: &[u8],
    change: &Change,
) -> Result<(), AllocError> {
    push_position(text, name.as_bytes(), source, change.place)?;
    push_text(text, ": ")?;
    push_change_alone(alloc, text, source, change)
}

/// Adds what is changed, without the place.
///
/// # Errors
///
/// As `push_change`.
pub fn push_change_alone(
    alloc: Global,
    text: &mut Vec<u8>,
    source: &[u8],
    change: &Change,
) -> Result<(), AllocError> {
    let piece = change.place.of(source);
    match change.edit {
        Edit::Replaced(_, replacement) => push_replaced(alloc, text, piece, replacement),
        Edit::Exchanged(first, second) => {
            push_quoted(text, "", first.of(source))?;
            push_quoted(text, " exchanged with ", second.of(source))
        }
        Edit::StatementsExchanged(_, second) => {
            let before = "exchanged with the next statement, ";
            push_quoted(text, before, second.of(source))
        }
        Edit::Cut(_) => push_quoted(text, "cut in two steps before ", piece),
    }
}

/// What the heading of a group's changes says of them.
fn described(group: ChangeGroup) -> &'static str {
    match group {
        ChangeGroup::Specification => "touching words of the program's rely, guar or post",
        ChangeGroup::Others => "other words",
        ChangeGroup::Waits => "as nothing here says that a wait ends, or how long it takes",
        ChangeGroup::Proof => "of words on which no test and no word of rely, guar or post depends",
    }
}

/// Adds the changes of one group, each in a line, after a line for its statement where that isn't the one of the change before.
fn push_group(
    alloc: Global,
    text: &mut Vec<u8>,
    name: &str,
    source: &[u8],
    survivors: &[Change],
    group: ChangeGroup,
) -> Result<(), AllocError> {
    let mut last = None;
    for change in survivors {
        if change.group != group {
            continue;
        }
        if last.is_none() {
            push_text(text, "\nproved all the same, ")?;
            push_text(text, described(group))?;
            push_text(text, ":\n\n")?;
        }
        let start = Some(change.statement.start);
        if last != start {
            push_quoted(text, "  ", change.statement.of(source))?;
            text.push(b'\n')?;
        }
        last = start;
        push_text(text, "    ")?;
        push_change(alloc, text, name, source, change)?;
        text.push(b'\n')?;
    }
    Ok(())
}

/// Adds the changes that survive, with their lines: first those that touch words of the specification.
///
/// # Errors
///
/// As `push_change`.
pub fn push_survivors(
    alloc: Global,
    text: &mut Vec<u8>,
    name: &str,
    source: &[u8],
    survivors: &[Change],
) -> Result<(), AllocError> {
    for group in [
        ChangeGroup::Specification,
        ChangeGroup::Others,
        ChangeGroup::Waits,
        ChangeGroup::Proof,
    ] {
        push_group(alloc, text, name, source, survivors, group)?;
    }
    Ok(())
}

/// Adds a count with the verb for one, or for several.
fn push_counted(
    text: &mut Vec<u8>,
    count: usize,
    one: &str,
    several: &str,
) -> Result<(), AllocError> {
    push_count(text, count as u64)?;
    push_text(text, if count == 1 { one } else { several })
}

/// Adds a line with how many changes there are of each kind.
///
/// # Errors
///
/// As `push_change`.
pub fn push_counts(text: &mut Vec<u8>, counts: Counts) -> Result<(), AllocError> {
    push_text(text, "of the changed programs ")?;
    push_counted(text, counts.breaking, " breaks", " break")?;
    push_text(text, " the specification, ")?;
    push_counted(text, counts.undecided, " is", " are")?;
    push_text(text, " undecided, and ")?;
    push_counted(text, counts.surviving, " is", " are")?;
    push_text(text, " proved all the same\n")
}

/// Adds a line with the words of which nothing is said; nothing where there are none.
///
/// # Errors
///
/// As `push_change`.
pub fn push_unspoken(
    text: &mut Vec<u8>,
    source: &[u8],
    unspoken: &[Span],
) -> Result<(), AllocError> {
    let mut before = "nothing is proved of ";
    for name in unspoken {
        push_text(text, before)?;
        text.extend_from_slice(name.of(source))?;
        before = ", ";
    }
    if unspoken.is_empty() {
        return Ok(());
    }
    push_text(
        text,
        ": no test, assertion or specification depends on these words\n",
    )
}
