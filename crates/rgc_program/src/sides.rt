//! What goes to files beside the output of a command, and how large proofs and derivations are spread over several files.

use crate::call::Call;
use crate::outline::unless_refused;
use rg_outline_reports::{OutlineSource, Outlined, ReadOutline, cut, read_outline};
use rg_words::limits::MOST_TEXT_BYTES;
use rgc_commands::Sides;
use rgc_line::Command;
use rgc_system::{
    Kind, Output, add_output, add_pieces, can_hold, report_largest, slices_of, write_outputs,
};
use std::alloc::{AllocError, Global};

/// Where the derivation of an outline is cut into pieces that files can hold; nowhere where a file can hold it.
fn cuts_of(sides: &Sides) -> &[usize] {
    if sides.derivation.len() > MOST_TEXT_BYTES {
        sides.cuts.as_slice()
    } else {
        &[]
    }
}

/// The map of an outline; nothing where it stands for no files.
fn map_of(alloc: Global, outline: OutlineSource<'_>) -> Result<Vec<u8>, AllocError> {
    match unless_refused(read_outline(alloc, outline))? {
        Some(read) => map_as_read(alloc, outline, &read),
        None => Ok(Vec::new(alloc)),
    }
}

/// As `map_of`, of an outline in which this is written.
fn map_as_read(
    alloc: Global,
    outline: OutlineSource<'_>,
    read: &ReadOutline,
) -> Result<Vec<u8>, AllocError> {
    match unless_refused(Outlined::of(alloc, outline, read))? {
        Some(outlined) => outlined.map(),
        None => Ok(Vec::new(alloc)),
    }
}

/// The files that an outline stands for, which are written: the names of those for its text and its map, and its derivation and its proofs in pieces.
#[derive(Clone, Copy)]
struct Files<'a> {
    text: Option<&'a str>,
    derivation: &'a [&'a [u8]],
    proofs: &'a [&'a [u8]],
    map: Option<&'a str>,
}

/// Whether the files that are named for a derivation and for proofs can hold these pieces. Where they can't, it is reported what takes the most
/// bytes.
fn can_hold_all<R>(
    call: &Call<'_, '_, '_, R>,
    outline: OutlineSource<'_>,
    files: Files<'_>,
) -> Result<bool, AllocError> {
    let rt = call.rt;
    let holds_derivation = call.derivation.is_empty()
        || can_hold(rt, call.derivation, files.derivation, "derivation");
    let holds_proofs = call.proofs.is_empty() || can_hold(rt, call.proofs, files.proofs, "proofs");
    if holds_derivation && holds_proofs {
        return Ok(true);
    }
    let map = map_of(rt.alloc(), outline)?;
    if !holds_derivation {
        report_largest(rt, Kind::Derivation, files.derivation, &map)?;
    }
    if !holds_proofs {
        report_largest(rt, Kind::Proofs, files.proofs, &map)?;
    }
    Ok(false)
}

/// Adds the files that an outline stands for, as far as they are named.
fn add_files<'a, R>(
    outputs: &mut Vec<Output<'a>>,
    call: &Call<'_, '_, 'a, R>,
    sides: &'a Sides,
    files: Files<'a>,
) -> Result<(), AllocError> {
    add_output(outputs, files.text, &sides.text, "text")?;
    add_pieces(outputs, call.derivation, files.derivation, "derivation")?;
    add_pieces(outputs, call.proofs, files.proofs, "proofs")?;
    add_output(outputs, files.map, &sides.map, "map")
}

/// Writes the files that an outline stands for, where those that are named can hold them; the status.
fn write_files<R>(
    call: &Call<'_, '_, '_, R>,
    outline: OutlineSource<'_>,
    sides: &Sides,
    files: Files<'_>,
) -> Result<u8, AllocError> {
    if !can_hold_all(call, outline, files)? {
        return Ok(1);
    }
    let mut outputs = Vec::new(call.rt.alloc());
    add_files(&mut outputs, call, sides, files)?;
    write_outputs(call.rt, &outputs)
}

/// Writes the derivation and the proofs that an outline stands for, its text and its map to the files that are named for them, where these can hold
/// them; the status.
fn write_outline<R>(
    call: &Call<'_, '_, '_, R>,
    outline: OutlineSource<'_>,
    sides: &Sides,
    text: Option<&str>,
    map: Option<&str>,
) -> Result<u8, AllocError> {
    let alloc = call.rt.alloc();
    let derivation = cut(alloc, &sides.derivation, cuts_of(sides))?;
    let proofs = slices_of(alloc, &sides.proofs)?;
    let files = Files {
        text,
        derivation: &derivation,
        proofs: &proofs,
        map,
    };
    write_files(call, outline, sides, files)
}

/// Writes a file that may not be named; the status.
fn write_side(
    rt: &HostRuntime,
    name: Option<&str>,
    bytes: &[u8],
    what: &'static str,
) -> Result<u8, AllocError> {
    match name {
        Some(name) => write_outputs(rt, &[Output { name, bytes, what }]),
        None => Ok(0),
    }
}

/// Writes the files that the command names beside its output; the status.
pub fn write_sides<R>(
    call: &Call<'_, '_, '_, R>,
    command: &Command<'_>,
    outline: Option<OutlineSource<'_>>,
    sides: &Sides,
) -> Result<u8, AllocError> {
    match (*command, outline) {
        (Command::Outline { text, map, .. }, Some(outline)) => {
            write_outline(call, outline, sides, text, map)
        }
        (Command::Run { draw, .. } | Command::RunOutline { draw, .. }, _) => {
            write_side(call.rt, draw, &sides.picture, "draw")
        }
        (Command::Verify { text, .. }, _) => write_side(call.rt, text, &sides.text, "text"),
        _ => Ok(0),
    }
}
