//! Proofs of conditions, and conditions without a proof, a line each.

ghost use Rattle.std.specs.Prelude.{◌≡◌, map, string_bytes, IfOk, OnOk};
ghost use Rattle.rg_words.specs.Layout.{names_of};
ghost use Rattle.rg_accept.specs.Stages.{derived_program, derived_lines};
ghost use Rattle.serde_json.specs.Data.{put, number};
ghost use Rattle.serde_json.specs.View.{view, members_view};
ghost use Rattle.rgc_answers.specs.States.{with_values, state_data};
ghost use Rattle.rgc_answers.specs.Lines.{json_line};
ghost use Rattle.rgc_answers.specs.Proofs.{proofs_data, piece_text, proofs_text, why_text, with_pair, with_states, unproved_members, unproved_data, unproved_lines, unproved_text};

use crate::json_line::line_of;
use rg_find::Judged;
use rg_words::{Layout, State};
use rgc::{Derived, Unproved, failures_text, name_at};
use rgc_line::Format;
use serde_json::{Map, Value, json, put};
use std::alloc::{AllocError, Global};

/// Which conditions of a derivation some proofs are of.
#[derive(Clone, Copy)]
pub enum Range {
    /// All, which are so many.
    All(usize),
    /// Those from the first of these numbers to the last.
    Part(u64, u64),
}

/// Proofs of these conditions, as a JSON value.
fn proofs_value(alloc: Global, range: Range, text: &str) -> Result<Value, AllocError>
    ensures { IfOk result (λ v. view v ≡ proofs_data range text.now) }
{
    match range {
        Range::All(count) => {
            json!(in alloc; {"conditions": count, "kind": "proofs", "text": text})
        }
        Range::Part(first, last) => {
            json!(in alloc; {"first": first, "kind": "proofs", "last": last, "text": text})
        }
    }
}

/// A piece of the proofs of these conditions.
fn piece_text(
    alloc: Global,
    range: Range,
    piece: &str,
    format: Format,
) -> Result<String, AllocError>
    ensures { IfOk result (λ text. string_bytes text ≡ piece_text format range piece.now) }
{
    match format {
        Format::Plain => String::from_str(alloc, piece),
        Format::Json => {
            let value = proofs_value(alloc, range, piece)?;
            line_of(alloc, &value)
        }
    }
}

/// Pieces of the proofs of these conditions, one after another; as JSON a value of kind `proofs` each.
pub fn proofs_text(
    alloc: Global,
    range: Range,
    pieces: &[String],
    format: Format,
) -> Result<String, AllocError>
    ensures { IfOk result (λ text. string_bytes text ≡ proofs_text format range (map string_bytes pieces.now)) }
{
    let mut text = String::new(alloc);
    for piece in pieces {
        let one = piece_text(alloc, range, piece, format)?;
        text.push_str(&one)?;
    }
    Ok(text)
}

/// Adds each word's value.
fn put_values(
    map: &mut Map<String, Value>,
    alloc: Global,
    words: &Layout,
    state: &State,
) -> Result<(), AllocError>
    ensures { OnOk result (members_view map.new.entries ≡ with_values (names_of words.now) state.now.values (members_view map.old.entries)) }
{
    for word in 0..words.len().min(state.len()) {
        put(map, alloc, words.name(word), Value::from(state.get(word)))?;
    }
    Ok(())
}

/// A state as an object with each word's value.
fn state_value(alloc: Global, words: &Layout, state: &State) -> Result<Value, AllocError>
    ensures { IfOk result (λ v. view v ≡ state_data words.now state.now) }
{
    let mut map = Map::new(alloc);
    put_values(&mut map, alloc, words, state)?;
    Ok(Value::Object(map))
}

/// Why there is no proof.
fn why_text(judged: &Judged) -> &'static str
    ensures { result.now ≡ why_text judged.now }
{
    match judged {
        Judged::Fails(_, _) => "fails",
        Judged::GaveUp => "gave up",
        _ => "too large",
    }
}

/// Adds the state before, and the state after where there is one.
fn put_pair(
    map: &mut Map<String, Value>,
    alloc: Global,
    words: &Layout,
    first: &State,
    second: &Option<State>,
) -> Result<(), AllocError>
    ensures { OnOk result (members_view map.new.entries ≡ with_pair words.now first.now second.now (members_view map.old.entries)) }
{
    let before = state_value(alloc, words, first)?;
    put(map, alloc, "before", before)?;
    match second {
        Some(state) => {
            let after = state_value(alloc, words, state)?;
            put(map, alloc, "after", after)
        }
        None => Ok(()),
    }
}

/// Adds the states at which a condition fails, where it does.
fn put_states(
    map: &mut Map<String, Value>,
    alloc: Global,
    words: &Layout,
    judged: &Judged,
) -> Result<(), AllocError>
    ensures { OnOk result (members_view map.new.entries ≡ with_states words.now judged.now (members_view map.old.entries)) }
{
    match judged {
        Judged::Fails(first, second) => put_pair(map, alloc, words, first, second),
        _ => Ok(()),
    }
}

/// Adds a condition of this name without a proof, and why there is none.
fn put_unproved(
    map: &mut Map<String, Value>,
    alloc: Global,
    name: &str,
    unproved: &Unproved,
) -> Result<(), AllocError>
    ensures { OnOk result (members_view map.new.entries ≡ unproved_members name.now unproved.now (members_view map.old.entries)) }
{
    let kind = Value::try_from_str(alloc, "unproved")?;
    put(map, alloc, "kind", kind)?;
    let name = Value::try_from_str(alloc, name)?;
    put(map, alloc, "name", name)?;
    put(map, alloc, "number", Value::from(unproved.number))?;
    let why = Value::try_from_str(alloc, why_text(&unproved.judged))?;
    put(map, alloc, "why", why)
}

/// A condition of this name over these words without a proof.
fn unproved_value(
    alloc: Global,
    words: &Layout,
    name: &str,
    unproved: &Unproved,
) -> Result<Value, AllocError>
    ensures { IfOk result (λ v. view v ≡ unproved_data words.now name.now unproved.now) }
{
    let mut map = Map::new(alloc);
    put_unproved(&mut map, alloc, name, unproved)?;
    put_states(&mut map, alloc, words, &unproved.judged)?;
    Ok(Value::Object(map))
}

/// The line of a condition of this name without a proof.
fn unproved_line(
    alloc: Global,
    words: &Layout,
    name: &str,
    unproved: &Unproved,
) -> Result<String, AllocError>
    ensures { IfOk result (λ line. string_bytes line ≡ json_line (unproved_data words.now name.now unproved.now)) }
{
    let value = unproved_value(alloc, words, name, unproved)?;
    line_of(alloc, &value)
}

/// The lines of conditions without a proof, of those with these names.
fn unproved_lines(
    alloc: Global,
    words: &Layout,
    names: &[String],
    unproved: &[Unproved],
) -> Result<String, AllocError>
    ensures { IfOk result (λ text. string_bytes text ≡ unproved_lines words.now (map string_bytes names.now) unproved.now) }
{
    let mut text = String::new(alloc);
    for one in unproved {
        let line = unproved_line(alloc, words, name_at(names, one.number), one)?;
        text.push_str(&line)?;
    }
    Ok(text)
}

/// Which conditions of a derivation have no proof, and why; as JSON a value of kind `unproved` each.
pub fn unproved_text(
    alloc: Global,
    derived: &Derived,
    unproved: &[Unproved],
    format: Format,
) -> Result<String, AllocError>
    ensures { IfOk result (λ text. string_bytes text ≡ unproved_text format (derived_program derived.now) (derived_lines derived.now) unproved.now) }
{
    match format {
        Format::Plain => failures_text(alloc, derived, unproved),
        Format::Json => {
            let names = derived.names(alloc)?;
            let words = &derived.program().layout;
            unproved_lines(alloc, words, names.as_slice(), unproved)
        }
    }
}
