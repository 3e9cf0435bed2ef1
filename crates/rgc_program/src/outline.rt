//! Commands over an outline, with the files that it uses.

use crate::call::{Call, NO_WARNINGS, done_and_drawn, performed};
use crate::completed::{completes, done_completed, verifying};
use crate::sides::write_sides;
use rg_outline_reports::{
    Format as OutlineFormat, Input, Inputs, NoFiles, OutlineSource, Outlined, ReadOutline,
    read_outline,
};
use rgc_commands::{Given, Sides};
use rgc_line::{Command, Format, Line};
use rgc_system::{Joined, Memory, Screen, report};
use std::alloc::AllocError;
use std::sync::Wait;
use std::thread::Threads;

/// The file of the outline that a command is over.
pub(crate) fn outline_of<'a>(line: &Line<'a>) -> Option<&'a str> {
    match line.command {
        Command::Verify { outlines, .. } => Some(outlines.outline),
        Command::Outline { outline, .. }
        | Command::EmitOutline { outline }
        | Command::AccessesOutline { outline }
        | Command::RunOutline { outline, .. }
        | Command::Complete { outline, .. }
        | Command::Challenge { outline, .. } => Some(outline),
        _ => None,
    }
}

/// The format, as reports on outlines have it.
pub(crate) fn outline_format(format: Format) -> OutlineFormat {
    match format {
        Format::Plain => OutlineFormat::Plain,
        Format::Json => OutlineFormat::Json,
    }
}

/// The format in which an outline is reported of: JSON where its verification, or its challenge, asks for that.
fn format_of(line: &Line<'_>) -> OutlineFormat {
    match line.command {
        Command::Verify { .. } | Command::Complete { .. } | Command::Challenge { .. } => {
            outline_format(line.settings.format)
        }
        _ => OutlineFormat::Plain,
    }
}

/// What was made of an outline; nothing where it is refused, which `perform` reports.
pub(crate) fn unless_refused<T>(made: Result<T, NoFiles>) -> Result<Option<T>, AllocError> {
    match made {
        Ok(made) => Ok(Some(made)),
        Err(NoFiles::Reported(_)) => Ok(None),
        Err(NoFiles::Memory) => Err(AllocError),
    }
}

/// Does the command over the outline of this name, with the files that it uses, where it can be read; the status.
pub(crate) fn done_over<'a, R: Threads + Wait + Sync>(
    call: &Call<'_, '_, '_, R>,
    line: &Line<'_>,
    files: Given<'a>,
    name: &'a str,
    joined: &'a Option<Joined>,
) -> Result<u8, AllocError> {
    // (what can't be read, or stands for nothing, is reported as by `verify`)
    let asked = verifying(line);
    let Some(joined) = joined else {
        return done_and_drawn(call, &asked, &files);
    };
    let outline = OutlineSource {
        name,
        source: &joined.text,
        fault: joined.fault,
        format: format_of(line),
        has_warnings: line.settings.warnings != Some(NO_WARNINGS),
    };
    let files = Given {
        outline: Some(outline),
        ..files
    };
    match done_otherwise(call, line, files, outline)? {
        Some(status) => Ok(status),
        None => done_and_drawn(call, &asked, &files),
    }
}

/// Does a run, whose start and moves are in the outline's words, or completes the outline; the status. Nothing for others, or where the outline is refused.
fn done_otherwise<R: Threads + Wait + Sync>(
    call: &Call<'_, '_, '_, R>,
    line: &Line<'_>,
    files: Given<'_>,
    outline: OutlineSource<'_>,
) -> Result<Option<u8>, AllocError> {
    if !is_run(line) && !completes(line) {
        return Ok(None);
    }
    match unless_refused(read_outline(call.rt.alloc(), outline))? {
        Some(read) => done_as_read(call, line, files, outline, &read),
        None => Ok(None),
    }
}

/// Whether the line runs the program of an outline.
fn is_run(line: &Line<'_>) -> bool {
    matches!(line.command, Command::RunOutline { .. })
}

/// As `done_otherwise`, with an outline in which this is written.
fn done_as_read<R: Threads + Wait + Sync>(
    call: &Call<'_, '_, '_, R>,
    line: &Line<'_>,
    files: Given<'_>,
    outline: OutlineSource<'_>,
    read: &ReadOutline,
) -> Result<Option<u8>, AllocError> {
    match unless_refused(Outlined::of(call.rt.alloc(), outline, read))? {
        Some(outlined) => done_as_expanded(call, line, files, &outlined),
        None => Ok(None),
    }
}

/// As `done_otherwise`, with an outline that was worked out.
fn done_as_expanded<R: Threads + Wait + Sync>(
    call: &Call<'_, '_, '_, R>,
    line: &Line<'_>,
    files: Given<'_>,
    outlined: &Outlined<'_>,
) -> Result<Option<u8>, AllocError> {
    if is_run(line) {
        return Ok(Some(run_over(call, line, &files, outlined)?));
    }
    done_completed(call, line, files, outlined)
}

/// A file of a run, where it is named and can be read.
fn input_of<'a>(name: Option<&'a str>, source: Option<&'a [u8]>) -> Option<Input<'a>> {
    match (name, source) {
        (Some(name), Some(source)) => Some(Input { name, source }),
        _ => None,
    }
}

/// Runs the program of an outline, from a start and with moves that name words as the outline does; the status.
fn run_over<R: Threads + Wait + Sync>(
    call: &Call<'_, '_, '_, R>,
    line: &Line<'_>,
    files: &Given<'_>,
    outlined: &Outlined<'_>,
) -> Result<u8, AllocError> {
    let named = line.command.named();
    let start = input_of(named.start, files.start);
    match outlined.inputs(start, input_of(named.moves, files.moves)) {
        Ok(inputs) => run_from(call, line, files, outlined, &inputs),
        Err(NoFiles::Reported(lines)) => {
            report(call.rt, &lines);
            Ok(1)
        }
        Err(NoFiles::Memory) => Err(AllocError),
    }
}

/// What is reported of a run whose start isn't in the pre begins so.
const OUTSIDE_PRE: &[u8] = b"refused 61 ";

/// Runs the program of an outline, from this start and with these moves; the status. Of a start outside the pre it is reported what of that is false.
fn run_from<R: Threads + Wait + Sync>(
    call: &Call<'_, '_, '_, R>,
    line: &Line<'_>,
    files: &Given<'_>,
    outlined: &Outlined<'_>,
    inputs: &Inputs,
) -> Result<u8, AllocError> {
    let rt = call.rt;
    let files = Given {
        start: inputs.start.as_ref().map(|bytes| bytes.as_slice()),
        moves: inputs.moves.as_ref().map(|bytes| bytes.as_slice()),
        ..*files
    };
    let mut sides = Sides::new(rt.alloc());
    let mut out = Screen::new(rt.stdout());
    // (nothing is written to the faults before the run is over)
    let mut faults = Memory::new(rt.alloc());
    let status = performed(call, line, &files, &mut out, &mut faults, &mut sides);
    if faults.is_refused() {
        return Err(AllocError);
    }
    report(rt, faults.bytes());
    if status == 0 {
        return write_sides(call, &line.command, files.outline, &sides);
    }
    report_outside(rt, outlined, inputs, faults.bytes())?;
    Ok(status)
}

/// Reports what of the pre is false of a start, where these faults say that the start is outside it.
fn report_outside(
    rt: &HostRuntime,
    outlined: &Outlined<'_>,
    inputs: &Inputs,
    faults: &[u8],
) -> Result<(), AllocError> {
    if faults.starts_with(OUTSIDE_PRE) {
        let lines = outlined.outside_pre(&inputs.values)?;
        report(rt, &lines);
    }
    Ok(())
}
