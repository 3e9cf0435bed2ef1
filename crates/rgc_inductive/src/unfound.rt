//! What is said where no assertions are found.

use crate::search::Failure;
use crate::subject::Subject;
use rg_complete::Slot;
use rg_outline_reports::{Demand, Format, Outlined};
use rg_outline_syntax::{ItemKind, Span, file_of, push_count, push_line_of, push_position};
use serde_json::json;
use std::alloc::{AllocError, Global};

/// What a condition asks, in words.
fn said(demand: Demand) -> &'static str {
    match demand {
        Demand::Leads => "what has to hold after the next step or test",
        Demand::Stable => "that steps of others keep it",
        Demand::Guaranteed => "that the next step is inside what the part promises",
        Demand::Entered => "what has to hold where the part begins",
        Demand::Ended => "the program's post at the end",
        Demand::Other => "this",
    }
}

/// The values of a state that aren't 0, with the words as the outline has them.
fn push_state(text: &mut Vec<u8>, words: &[Vec<u8>], state: &[u64]) -> Result<(), AllocError> {
    let mut before: &[u8] = b"";
    for (word, value) in words.iter().zip(state) {
        if *value != 0 {
            text.extend_from_slice(before)?;
            text.extend_from_slice(word)?;
            text.extend_from_slice(b" = ")?;
            push_count(text, *value)?;
            before = b", ";
        }
    }
    if text.is_empty() {
        text.extend_from_slice(b"all words are 0")?;
    }
    Ok(())
}

/// What is reported.
#[derive(Drop)]
struct Unfound<'s> {
    source: &'s [u8],
    place: Span,
    part: Vec<u8>,
    /// Whether an assertion is written there.
    is_written: bool,
    says: &'static str,
    /// Where the assertion that isn't given stands, if it is written.
    due: Option<Span>,
    state: Vec<u8>,
    tried: u64,
    /// A use of named statements in the part.
    used: Option<Span>,
}

/// The place at which a condition fails.
fn place_of(subject: &Subject, failure: &Failure) -> Option<usize> {
    let first = subject.base.ends.first().copied();
    let stand = failure.duty.given.or(failure.duty.due).or(first)?;
    Some(stand.place)
}

/// The first use of named statements within a part.
fn used_in(outlined: &Outlined<'_>, part: Span) -> Option<Span> {
    for item in &outlined.read.written.items {
        let used = item.span;
        let is_within = part.start <= used.start && used.end <= part.end;
        if is_within && matches!(item.kind, ItemKind::Use(_)) {
            return Some(used);
        }
    }
    None
}

/// How many formulas are tried at a place.
fn tried_at(subject: &Subject, slot: Option<Slot>) -> usize {
    let family = slot.and_then(|slot| subject.tried.families.get(slot.scope));
    family.map_or(0, |family| family.atoms.count())
}

/// Where what a step or a test is to lead to stands, where that is written.
fn due_of(subject: &Subject, failure: &Failure) -> Option<Span> {
    if failure.duty.demand != Demand::Leads {
        return None;
    }
    let place = failure.duty.due?.place;
    let start = subject.base.nears.get(place).copied()?;
    if place < subject.base.slots.len() {
        return None;
    }
    Some(Span { start, end: start })
}

/// What is reported of a condition that no candidate makes hold.
fn unfound_of<'s>(
    alloc: Global,
    subject: &Subject,
    outlined: &Outlined<'s>,
    failure: &Failure,
) -> Result<Unfound<'s>, AllocError> {
    let source = outlined.outline.source;
    let place = place_of(subject, failure);
    let slot = place.and_then(|place| subject.base.slots.get(place).copied());
    let near = place.and_then(|place| subject.base.nears.get(place).copied());
    let member = subject.base.members.get(failure.duty.part);
    let part = member.and_then(|member| outlined.read.written.parts.get(member.family));
    let name = part.map_or(Span::NOWHERE, |part| part.name);
    let whole = part.map_or(Span::NOWHERE, |part| part.span);
    let start = near.unwrap_or(name.start);
    let places = outlined.places()?;
    let mut state = Vec::new(alloc);
    push_state(&mut state, &places.words, &failure.state)?;
    Ok(Unfound {
        source,
        place: Span { start, end: start },
        part: Vec::from_slice(alloc, name.of(source))?,
        is_written: slot.is_none(),
        says: said(failure.duty.demand),
        due: due_of(subject, failure),
        state,
        tried: tried_at(subject, slot) as u64,
        used: used_in(outlined, whole),
    })
}

/// Adds what isn't given, in words.
fn push_missing(text: &mut Vec<u8>, unfound: &Unfound<'_>) -> Result<(), AllocError> {
    if unfound.is_written {
        text.extend_from_slice(b"what is written here doesn't give ")?;
    } else {
        text.extend_from_slice(b"no assertion is found here that gives ")?;
    }
    text.extend_from_slice(unfound.says.as_bytes())?;
    if let Some(due) = unfound.due {
        text.extend_from_slice(b", as line ")?;
        push_line_of(text, unfound.source, due)?;
        text.extend_from_slice(b" has it")?;
    }
    Ok(())
}

/// The name of the file in which it stands: `own` in the outline's own file.
fn named_file(alloc: Global, own: &str, unfound: &Unfound<'_>) -> Result<Vec<u8>, AllocError> {
    let used = file_of(unfound.source, unfound.place);
    if used.is_empty() {
        return Vec::from_slice(alloc, own.as_bytes());
    }
    Vec::from_slice(alloc, used)
}

/// It as a JSON value in a line of its own.
fn json_line(alloc: Global, own: &str, unfound: &Unfound<'_>) -> Result<Vec<u8>, AllocError> {
    let part = str::from_utf8(&unfound.part).unwrap_or("");
    let state = str::from_utf8(&unfound.state).unwrap_or("");
    let mut missing = Vec::new(alloc);
    push_missing(&mut missing, unfound)?;
    let says = str::from_utf8(&missing).unwrap_or("");
    let named = named_file(alloc, own, unfound)?;
    let file = str::from_utf8(&named).unwrap_or("");
    let position = unfound.place.position(unfound.source);
    let (line, column) = (position.line as u64, position.column as u64);
    let tried = unfound.tried;
    let value =
        json!(in alloc; {"column": column, "file": file, "kind": "unfound", "line": line, "part": part, "says": says, "state": state, "tried": tried})?;
    let mut text = value.to_string(alloc)?;
    text.push_str("\n")?;
    Vec::from_slice(alloc, text.as_bytes())
}

/// What is said of a condition that no candidate makes hold.
pub fn unfound_report(
    alloc: Global,
    subject: &Subject,
    outlined: &Outlined<'_>,
    failure: &Failure,
) -> Result<Vec<u8>, AllocError> {
    let unfound = unfound_of(alloc, subject, outlined, failure)?;
    let name = outlined.outline.name;
    if outlined.outline.format == Format::Json {
        return json_line(alloc, name, &unfound);
    }
    let mut text = Vec::new(alloc);
    push_position(&mut text, name.as_bytes(), unfound.source, unfound.place)?;
    text.extend_from_slice(b": ")?;
    text.extend_from_slice(&unfound.part)?;
    text.extend_from_slice(b": ")?;
    push_missing(&mut text, &unfound)?;
    text.extend_from_slice(b"\n    state: ")?;
    text.extend_from_slice(&unfound.state)?;
    if !unfound.is_written {
        text.extend_from_slice(b"\n    tried: ")?;
        push_count(&mut text, unfound.tried)?;
        text.extend_from_slice(b" formulas, alone and after a premise")?;
    }
    text.push(b'\n')?;
    if let Some(used) = unfound.used {
        text.extend_from_slice(b"    within named statements, as those of line ")?;
        push_line_of(&mut text, unfound.source, used)?;
        text.extend_from_slice(b", none is looked for: what is needed there has to be written\n")?;
    }
    Ok(text)
}
