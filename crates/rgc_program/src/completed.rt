//! Outlines with the assertions that they lack: these are searched for, and what the search gives is verified as any outline is.

use crate::call::{Call, done_and_drawn, performed, report_faults, shown};
use rg_outline_reports::{OutlineSource, Outlined};
use rg_outline_syntax::own_start;
use rg_words::{Refusal, RefusalNumber};
use rgc_commands::{Context, Given, Sides};
use rgc_complete::{
    Completed, Completion, complete, complete_with_invariant, complete_with_relies,
};
use rgc_line::{Command, Format, Line, Outlines};
use rgc_system::{Memory, Output, Terminal, report, report_failure, write_outputs};
use std::alloc::AllocError;
use std::fs;
use std::sync::Wait;
use std::thread::Threads;

/// The most decisions of each search, where a command doesn't name them.
const MOST_STEPS: u64 = 1_000_000;

/// Whether assertions that an outline lacks are searched for.
pub fn completes(line: &Line<'_>) -> bool {
    match line.command {
        Command::Complete { .. } => true,
        Command::Verify { is_runs_only, .. } => line.settings.is_completed && !is_runs_only,
        _ => false,
    }
}

/// Whether an outline is to be rewritten that no regular file holds, as what comes through a fifo or from a device: nothing of it is left once it is read.
pub fn rewrites_no_file(rt: &HostRuntime, line: &Line<'_>) -> bool {
    match line.command {
        Command::Complete {
            outline,
            is_in_place: true,
            ..
        } => match fs::metadata(rt, outline) {
            Ok(found) => !found.is_file() && !found.is_dir(),
            Err(_) => false,
        },
        _ => false,
    }
}

/// The most decisions of each search.
fn steps_of(line: &Line<'_>) -> u64 {
    match line.command {
        Command::Complete { steps, .. } | Command::Verify { steps, .. } => {
            steps.unwrap_or(MOST_STEPS)
        }
        _ => MOST_STEPS,
    }
}

/// The line that verifies an outline.
pub fn verifying<'a>(line: &Line<'a>) -> Line<'a> {
    let command = match line.command {
        Command::Complete { outline, steps, .. } => Command::Verify {
            outlines: Outlines {
                outline,
                place: 0,
                count: 1,
            },
            steps,
            is_runs_only: false,
            text: None,
        },
        command => command,
    };
    Line {
        command,
        settings: line.settings,
    }
}

/// The outline's own file, without those that it uses.
fn own_file(source: &[u8]) -> &[u8] {
    source.get(own_start(source)..).unwrap_or(&[])
}

/// What is said of the assertions, and of the conjuncts of the invariant, that were found.
fn said_of(rt: &HostRuntime, line: &Line<'_>, found: &Completion) -> Result<Vec<u8>, AllocError> {
    match line.settings.format {
        Format::Plain => found.lines(rt.alloc()),
        Format::Json => found.json_line(rt.alloc()),
    }
}

/// Prints an outline that was verified, or puts it into its file, with what is said of it; the status.
fn delivered<R: Threads + Wait + Sync>(
    call: &Call<'_, '_, '_, R>,
    line: &Line<'_>,
    found: &Completion,
    verdict: &[u8],
    said: &[u8],
) -> Result<u8, AllocError> {
    let (rt, format) = (call.rt, line.settings.format);
    match line.command {
        Command::Complete {
            outline,
            is_in_place: true,
            ..
        } => {
            let status = shown_both(rt, format, verdict, said)?;
            if status != 0 {
                return Ok(status);
            }
            let output = Output {
                name: outline,
                bytes: own_file(&found.source),
                what: "outline",
            };
            write_outputs(rt, &[output])
        }
        _ => {
            let status = shown(rt, format, own_file(&found.source), 0);
            report(rt, verdict);
            report(rt, said);
            Ok(status)
        }
    }
}

/// Writes two texts to standard output at once; the status.
fn shown_both(
    rt: &HostRuntime,
    format: Format,
    first: &[u8],
    second: &[u8],
) -> Result<u8, AllocError> {
    let mut text = Vec::from_slice(rt.alloc(), first)?;
    text.extend_from_slice(second)?;
    Ok(shown(rt, format, &text, 0))
}

/// Verifies an outline that was found, and prints it where it is verified; the status.
fn printed<R: Threads + Wait + Sync>(
    call: &Call<'_, '_, '_, R>,
    line: &Line<'_>,
    files: &Given<'_>,
    found: &Completion,
) -> Result<u8, AllocError> {
    let rt = call.rt;
    let mut out = Memory::new(rt.alloc());
    let mut faults = Memory::new(rt.alloc());
    let mut sides = Sides::new(rt.alloc());
    let asked = verifying(line);
    let status = performed(call, &asked, files, &mut out, &mut faults, &mut sides);
    print_verdict(call, line, found, status, &out, &faults)
}

/// Prints an outline where it is verified with this status, and else why it isn't; the status.
fn print_verdict<R: Threads + Wait + Sync>(
    call: &Call<'_, '_, '_, R>,
    line: &Line<'_>,
    found: &Completion,
    status: u8,
    out: &Memory,
    faults: &Memory,
) -> Result<u8, AllocError> {
    if out.is_refused() || faults.is_refused() {
        return Err(AllocError);
    }
    if status != 0 {
        report(call.rt, out.bytes());
        report(call.rt, faults.bytes());
        return Ok(status);
    }
    let said = said_of(call.rt, line, found)?;
    let status = delivered(call, line, found, out.bytes(), &said)?;
    Ok(report_faults(call.rt, line, status, faults.bytes()))
}

/// Does the command over an outline that was found; the status.
fn done_again<R: Threads + Wait + Sync>(
    call: &Call<'_, '_, '_, R>,
    line: &Line<'_>,
    files: Given<'_>,
    outline: OutlineSource<'_>,
    found: &Completion,
) -> Result<u8, AllocError> {
    let outline = OutlineSource {
        source: &found.source,
        ..outline
    };
    let files = Given {
        text: Some(own_file(&found.source)),
        outline: Some(outline),
        ..files
    };
    if let Command::Complete { .. } = line.command {
        return printed(call, line, &files, found);
    }
    let status = done_and_drawn(call, line, &files)?;
    if status == 0 {
        let said = said_of(call.rt, line, found)?;
        return Ok(shown(call.rt, line.settings.format, &said, status));
    }
    Ok(status)
}

/// Reports a refusal; the status.
fn refused(rt: &HostRuntime, refusal: Refusal) -> Result<u8, AllocError> {
    if refusal.number == RefusalNumber::Memory {
        return Err(AllocError);
    }
    let line = format!(in rt.alloc(); "{refusal}")?;
    report_failure(rt, &line);
    Ok(1)
}

/// Searches for what an outline lacks.
fn searched<R: Threads + Wait + Sync>(
    call: &Call<'_, '_, '_, R>,
    line: &Line<'_>,
    outlined: &Outlined<'_>,
) -> Result<Completed, Refusal> {
    let watcher = Terminal::new(call.rt, call.time, false);
    let context = Context {
        rt: call.threads,
        alloc: call.rt.alloc(),
        threads: call.most,
        watcher: &watcher,
    };
    if line.settings.finds_relies
        && let Completed::Found(found) = complete_with_relies(&context, outlined, steps_of(line))?
    {
        return Ok(Completed::Found(found));
    }
    match line.command {
        Command::Complete {
            finds_invariant: true,
            ..
        } => complete_with_invariant(&context, outlined, steps_of(line)),
        _ => complete(&context, outlined, steps_of(line)),
    }
}

/// Searches for the assertions that an outline lacks, and does the command over the outline with them; the status. Nothing where the outline is to be
/// verified as it stands, since no assertions would help.
pub fn done_completed<R: Threads + Wait + Sync>(
    call: &Call<'_, '_, '_, R>,
    line: &Line<'_>,
    files: Given<'_>,
    outlined: &Outlined<'_>,
) -> Result<Option<u8>, AllocError> {
    match searched(call, line, outlined) {
        Ok(Completed::Found(found)) => {
            let status = done_again(call, line, files, outlined.outline, &found)?;
            Ok(Some(status))
        }
        Ok(Completed::Unfound(lines)) if lines.is_empty() => Ok(None),
        Ok(Completed::Unfound(lines)) => {
            report(call.rt, &lines);
            Ok(Some(1))
        }
        Ok(Completed::GaveUp) => Ok(Some(1)),
        Err(refusal) => Ok(Some(refused(call.rt, refusal)?)),
    }
}
