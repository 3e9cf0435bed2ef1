//! The label of a step: who made it, its line, what changed, and whose guarantee covered it.

ghost use Rattle.std.specs.Prelude.{◌≤◌, length};

use crate::pieces::{bytes_length, digits_of, name_length, push_around, push_bytes, push_name};
use rg_monitor::record::Record;
use rg_tree::part::Part;
use rg_tree::program::Program;
use rg_words::{Layout, State};
use std::alloc::AllocError;

/// The most changed words that a label shows.
const MOST_CHANGES: u64 = 12;

/// How a picture names what it shows of a program's run.
#[derive(Clone, Copy)]
pub struct Shown<'a> {
    pub program: &'a Program,
    /// The names of the words, in the order of their declaration; where there are none, the program's.
    pub words: &'a [Vec<u8>],
    /// The line that is shown for each line of the text, of which the first is number 1; where there are none, the text's.
    pub lines: &'a [u64],
}

impl Shown<'_> {
    /// The line that is shown for a step.
    pub(crate) fn line_of(self, step: &Record) -> u64 {
        if self.lines.is_empty() {
            return u64::from(step.line());
        }
        self.lines.get(step.line() as usize).copied().unwrap_or(0)
    }
}

/// The name of the part of this number, from 1, and `env` for the environment, which is 0.
pub(crate) fn name_of(parts: &[Part], who: usize) -> &str {
    match who.checked_sub(1) {
        None => "env",
        Some(place) => match parts.get(place) {
            Some(part) => &part.name,
            None => "?",
        },
    }
}

/// How many words both states and the layout have.
fn words_of(layout: &Layout, before: &State, after: &State) -> usize
    ensures layout { result ≤ length layout.now }
    ensures before { result ≤ length before.now.values }
    ensures after { result ≤ length after.now.values }
{
    layout.len().min(before.len()).min(after.len())
}

/// Adds a word with its values before and after; it has the name that is given for it, else its own.
fn push_change(
    text: &mut Vec<u8>,
    name: &str,
    given: Option<&Vec<u8>>,
    before: u64,
    after: u64,
) -> Result<(), AllocError> {
    text.extend_from_slice(b"  ")?;
    match given {
        Some(given) => push_bytes(text, given)?,
        None => push_name(text, name)?,
    }
    push_around(text, b"=", before, b"&gt;")?;
    push_around(text, b"", after, b"")
}

/// Adds the changed words, and how many more there are than a label shows.
fn push_changes(
    text: &mut Vec<u8>,
    layout: &Layout,
    names: &[Vec<u8>],
    step: &Record,
) -> Result<(), AllocError> {
    let (before, after) = (step.before(), step.after());
    let mut changed: u64 = 0;
    for word in 0..words_of(layout, before, after) {
        let (first, second) = (before.get(word), after.get(word));
        if first != second {
            changed = changed.saturating_add(1);
            if changed <= MOST_CHANGES {
                push_change(text, layout.name(word), names.get(word), first, second)?;
            }
        }
    }
    push_rest(text, changed)
}

/// Adds what is to be said of so many changed words besides the words.
fn push_rest(text: &mut Vec<u8>, changed: u64) -> Result<(), AllocError> {
    if changed == 0 {
        text.extend_from_slice(b"  same")?;
    }
    if changed > MOST_CHANGES {
        push_around(
            text,
            b"  and ",
            changed.saturating_sub(MOST_CHANGES),
            b" more words",
        )?;
    }
    Ok(())
}

/// Adds who made the step, with the line of the statement, and what changed.
pub(crate) fn push_step(
    text: &mut Vec<u8>,
    shown: Shown<'_>,
    step: &Record,
) -> Result<(), AllocError> {
    text.extend_from_slice(b"<tspan class=\"s\">")?;
    push_name(text, name_of(&shown.program.parts, step.who()))?;
    text.extend_from_slice(b"</tspan>")?;
    if step.line() > 0 {
        push_around(text, b" line ", shown.line_of(step), b":")?;
    }
    push_changes(text, &shown.program.layout, shown.words, step)
}

/// Adds the names of the parts whose guarantee covers the step.
pub(crate) fn push_cover(
    text: &mut Vec<u8>,
    parts: &[Part],
    cover: &[usize],
) -> Result<(), AllocError> {
    if cover.is_empty() {
        text.extend_from_slice(b"in no part's guarantee")?;
        return Ok(());
    }
    text.extend_from_slice(b"in the guarantee of")?;
    for who in cover {
        text.extend_from_slice(b" ")?;
        push_name(text, name_of(parts, *who))?;
    }
    Ok(())
}

/// The characters of a word with its values; it has the name that is given for it, else its own.
fn change_length(name: &str, given: Option<&Vec<u8>>, before: u64, after: u64) -> u64 {
    given
        .map_or(name_length(name), |given| bytes_length(given))
        .saturating_add(digits_of(before))
        .saturating_add(digits_of(after))
        .saturating_add(4)
}

/// The characters of the changed words that are shown, at the most.
fn changes_length(layout: &Layout, names: &[Vec<u8>], step: &Record) -> u64 {
    let (before, after) = (step.before(), step.after());
    let mut changed: u64 = 0;
    let mut length: u64 = 0;
    for word in 0..words_of(layout, before, after) {
        let (first, second) = (before.get(word), after.get(word));
        if first != second && changed < MOST_CHANGES {
            changed = changed.saturating_add(1);
            let own = change_length(layout.name(word), names.get(word), first, second);
            length = length.saturating_add(own);
        }
    }
    length
}

/// The characters of the names of these parts, at the most.
fn cover_length(parts: &[Part], cover: &[usize]) -> u64 {
    let mut length: u64 = 22;
    for who in cover {
        length = length
            .saturating_add(name_length(name_of(parts, *who)))
            .saturating_add(1);
    }
    length
}

/// The characters of a step's label in its longer line, at the most.
pub(crate) fn label_length(shown: Shown<'_>, step: &Record) -> u64 {
    let parts = &shown.program.parts;
    let named = name_length(name_of(parts, step.who())).saturating_add(36);
    changes_length(&shown.program.layout, shown.words, step)
        .saturating_add(named)
        .max(cover_length(parts, step.cover()))
}
