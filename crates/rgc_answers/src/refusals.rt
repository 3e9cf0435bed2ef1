//! Refusals as JSON.

ghost use Rattle.std.specs.Prelude.{◌≡◌, string_bytes, IfOk, OnOk};
ghost use Rattle.rg_words.specs.Refusals.{file_name};
ghost use Rattle.serde_json.specs.View.{view, members_view};
ghost use Rattle.serde_json.specs.Written.{compact_text};
ghost use Rattle.rgc_answers.specs.Refusals.{with_file, with_place, refused_members, refusal_data};

use rg_words::{Place, Refusal, RefusalNumber, SourceFile};
use serde_json::{Map, Value, put};
use std::alloc::{AllocError, Global};

/// The name of a file.
fn file_name(file: SourceFile) -> &'static str
    ensures { result.now ≡ file_name file }
{
    match file {
        SourceFile::Text => "text",
        SourceFile::Derivation => "derivation",
        SourceFile::Proofs => "proofs",
        SourceFile::Start => "start",
        SourceFile::Moves => "moves",
    }
}

/// Adds the file, where there is one.
fn put_file(
    map: &mut Map<String, Value>,
    alloc: Global,
    file: Option<SourceFile>,
) -> Result<(), AllocError>
    ensures { OnOk result (members_view map.new.entries ≡ with_file file (members_view map.old.entries)) }
{
    match file {
        Some(file) => {
            let name = Value::try_from_str(alloc, file_name(file))?;
            put(map, alloc, "file", name)
        }
        None => Ok(()),
    }
}

/// Adds the place, where there is one.
fn put_place(
    map: &mut Map<String, Value>,
    alloc: Global,
    place: Option<Place>,
) -> Result<(), AllocError>
    ensures { OnOk result (members_view map.new.entries ≡ with_place place (members_view map.old.entries)) }
{
    match place {
        Some(Place::Line(number)) => put(map, alloc, "line", Value::from(number)),
        Some(Place::Condition(number)) => put(map, alloc, "condition", Value::from(number)),
        Some(Place::Move(number)) => put(map, alloc, "move", Value::from(number)),
        None => Ok(()),
    }
}

/// Adds that there is a refusal, and its number.
fn put_number(
    map: &mut Map<String, Value>,
    alloc: Global,
    number: RefusalNumber,
) -> Result<(), AllocError>
    ensures { OnOk result (members_view map.new.entries ≡ refused_members number (members_view map.old.entries)) }
{
    let kind = Value::try_from_str(alloc, "refused")?;
    put(map, alloc, "kind", kind)?;
    put(map, alloc, "number", Value::from(number.code()))
}

/// A refusal: its number, and its file and place where there are any.
///
/// # Errors
///
/// Only where memory is refused.
pub fn refusal_value(alloc: Global, refusal: &Refusal) -> Result<Value, AllocError>
    ensures { IfOk result (λ v. view v ≡ refusal_data refusal.now) }
{
    let mut map = Map::new(alloc);
    put_number(&mut map, alloc, refusal.number)?;
    put_file(&mut map, alloc, refusal.file)?;
    put_place(&mut map, alloc, refusal.place)?;
    Ok(Value::Object(map))
}

/// A refusal as the text of a JSON value, without a line end: its number, and its file and place where there are any.
///
/// # Errors
///
/// Only where memory is refused.
pub fn refusal_json(alloc: Global, refusal: &Refusal) -> Result<String, AllocError>
    ensures { IfOk result (λ text. string_bytes text ≡ compact_text (refusal_data refusal.now)) }
{
    let value = refusal_value(alloc, refusal)?;
    value.to_string(alloc)
}
