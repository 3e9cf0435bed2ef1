//! How a command is done with what a call of the program has, and where its output goes.

ghost use Rattle.std.specs.Prelude.{◌≡◌};
ghost use Rattle.rg_words.specs.Written.{CanCount};

use crate::sides::write_sides;
use rg_words::{Buffered, Out, write_all};
use rgc_commands::{Context, Given, Sides, perform};
use rgc_line::{Command, Format, Line, PLAIN};
use rgc_system::{
    Kind, Memory, Output, Screen, Terminal, Time, can_hold, is_coloured, print_painted, report,
    report_failure, report_largest, slices_of, write_outputs, write_pieces,
};
use std::alloc::AllocError;
use std::io::IsTerminal;
use std::sync::Wait;
use std::thread::Threads;

/// Reports that the output can't be written; the status.
fn report_cut_off(rt: &HostRuntime, format: Format) -> u8 {
    match format {
        Format::Plain => report_failure(rt, "refused 63"),
        Format::Json => report_failure(rt, "{\"kind\":\"refused\",\"number\":63}"),
    }
}

/// A call of the program: what a command is done with.
#[derive(Drop)]
pub(crate) struct Call<'m, 't, 'n, R> {
    pub(crate) rt: &'m HostRuntime,
    pub(crate) threads: &'t R,
    /// The most threads for one command.
    pub(crate) most: usize,
    /// The time of the call.
    pub(crate) time: &'t Time,
    /// Whether what is found is printed before a walk.
    pub(crate) shows: bool,
    /// The files that its output goes to, where it is proofs.
    pub(crate) outputs: &'n [&'n str],
    /// The files that the derivation and the proofs of an outline go to.
    pub(crate) derivation: &'n [&'n str],
    pub(crate) proofs: &'n [&'n str],
}

/// Where the output of a command goes.
#[derive(Clone, Copy)]
enum Way {
    /// To standard output at once: a person waits for it.
    AtOnce,
    /// To standard output through a buffer of its own.
    Buffered,
    /// To memory first: to a file as a whole, to standard output and to standard error, or in colour.
    Whole,
}

/// The word by which a warning makes the status that of an outline that isn't verified.
pub(crate) const STRICT: &str = "error";

/// The word by which no warnings are given.
pub(crate) const NO_WARNINGS: &str = "off";

/// Whether a warning makes the status that of an outline that isn't verified.
fn is_strict(line: &Line<'_>) -> bool {
    line.settings.warnings == Some(STRICT)
}

/// Where the output of the command goes.
fn way_of(rt: &HostRuntime, line: &Line<'_>) -> Way {
    if line.settings.output.is_some() {
        return Way::Whole;
    }
    match line.command {
        Command::Prove { .. } if !rt.stdout().is_terminal() => Way::Whole,
        Command::Verify { .. } if is_coloured(rt) || is_strict(line) => Way::Whole,
        Command::Find { .. }
        | Command::EmitOutline { .. }
        | Command::AccessesOutline { .. }
        | Command::Prove { .. }
        | Command::Run { .. }
        | Command::RunOutline { .. }
        | Command::Outline { .. }
        | Command::Challenge { .. }
        | Command::Verify { .. } => Way::AtOnce,
        _ => Way::Buffered,
    }
}

/// Does the command with these writers for its output and its faults; the status.
pub(crate) fn performed<R: Threads + Wait + Sync, W: Out, F: Out>(
    call: &Call<'_, '_, '_, R>,
    line: &Line<'_>,
    files: &Given<'_>,
    out: &mut W,
    faults: &mut F,
    sides: &mut Sides,
) -> u8
    requires out { CanCount (W.failures out.old) }
    requires faults { CanCount (F.failures faults.old) }
    ensures { result ≡ 0 → W.failures out.new ≡ W.failures out.old }
{
    let rt = call.rt;
    let watcher = Terminal::new(rt, call.time, call.shows);
    let context = Context {
        rt: call.threads,
        alloc: rt.alloc(),
        threads: call.most,
        watcher: &watcher,
    };
    perform(&context, line, files, out, faults, sides)
}

/// Does the command through a buffer; the status.
fn buffered<R: Threads + Wait + Sync>(
    call: &Call<'_, '_, '_, R>,
    line: &Line<'_>,
    files: &Given<'_>,
    sides: &mut Sides,
) -> Result<u8, AllocError> {
    let rt = call.rt;
    let mut out = Buffered::new(rt.alloc(), Screen::new(rt.stdout()))?;
    let mut faults = Screen::new(rt.stderr());
    let status = performed(call, line, files, &mut out, &mut faults, sides);
    if status == 0 && out.flush().is_err() {
        return Ok(report_cut_off(rt, line.settings.format));
    }
    Ok(status)
}

/// Writes bytes to standard output; the status where they went out.
pub(crate) fn shown(rt: &HostRuntime, format: Format, bytes: &[u8], status: u8) -> u8 {
    let mut out = Screen::new(rt.stdout());
    match write_all(&mut out, bytes) {
        Ok(()) => status,
        Err(_) => report_cut_off(rt, format),
    }
}

/// Writes what a command has printed; the status. What `prove` reports of conditions goes to standard error too, or there alone where there is a file.
fn written<R: Threads + Wait + Sync>(
    call: &Call<'_, '_, '_, R>,
    line: &Line<'_>,
    files: &Given<'_>,
    sides: &Sides,
    bytes: &[u8],
    status: u8,
) -> Result<u8, AllocError> {
    let rt = call.rt;
    let format = line.settings.format;
    match (line.settings.output, line.command) {
        (Some(_), Command::Prove { .. }) if status == 0 => match format {
            Format::Plain => write_proofs(call, line, files, &sides.proofs),
            Format::Json => write_pieces(rt, call.outputs, &[bytes], "output"),
        },
        (Some(name), _) if status == 0 => write_outputs(
            rt,
            &[Output {
                name,
                bytes,
                what: "output",
            }],
        ),
        (Some(_), Command::Find { .. }) => Ok(shown(rt, format, bytes, status)),
        (Some(_), _) => {
            report(rt, bytes);
            Ok(status)
        }
        (None, Command::Verify { .. }) if is_coloured(rt) => {
            if print_painted(rt, bytes)? {
                Ok(status)
            } else {
                Ok(report_cut_off(rt, format))
            }
        }
        (None, Command::Verify { .. }) => Ok(shown(rt, format, bytes, status)),
        (None, _) => {
            if status == 1 {
                report(rt, bytes);
            }
            Ok(shown(rt, format, bytes, status))
        }
    }
}

/// The names of the conditions of a program's derivation, a row each as `conditions` prints them; nothing where they can't be had.
fn condition_names<R: Threads + Wait + Sync>(
    call: &Call<'_, '_, '_, R>,
    line: &Line<'_>,
    files: &Given<'_>,
) -> Result<Vec<u8>, AllocError> {
    let alloc = call.rt.alloc();
    let mut names = Memory::new(alloc);
    let mut faults = Memory::new(alloc);
    if let Command::Prove {
        text,
        derivation,
        ..
    } = line.command
    {
        let asked = Line {
            command: Command::Conditions {
                text,
                derivation,
                has_formulas: false,
            },
            settings: PLAIN,
        };
        let mut sides = Sides::new(alloc);
        let _ = performed(call, &asked, files, &mut names, &mut faults, &mut sides);
        if names.is_refused() {
            return Err(AllocError);
        }
    }
    Vec::from_slice(alloc, names.bytes())
}

/// Writes proofs, of which these are the pieces, to the files that the output goes to, where these can hold them; the status.
fn write_proofs<R: Threads + Wait + Sync>(
    call: &Call<'_, '_, '_, R>,
    line: &Line<'_>,
    files: &Given<'_>,
    proofs: &[String],
) -> Result<u8, AllocError> {
    let rt = call.rt;
    let pieces = slices_of(rt.alloc(), proofs)?;
    if can_hold(rt, call.outputs, &pieces, "output") {
        return write_pieces(rt, call.outputs, &pieces, "output");
    }
    let names = condition_names(call, line, files)?;
    report_largest(rt, Kind::Proofs, &pieces, &names)?;
    Ok(1)
}

/// Reports the faults of a command whose output is written; its status. Of an outline that is verified the faults are its warnings.
pub(crate) fn report_faults(rt: &HostRuntime, line: &Line<'_>, status: u8, faults: &[u8]) -> u8 {
    report(rt, faults);
    if status == 0 && is_strict(line) && !faults.is_empty() {
        return 1;
    }
    status
}

/// Does the command with its output and its faults in memory, and writes these; the status.
fn whole<R: Threads + Wait + Sync>(
    call: &Call<'_, '_, '_, R>,
    line: &Line<'_>,
    files: &Given<'_>,
    sides: &mut Sides,
) -> Result<u8, AllocError> {
    let rt = call.rt;
    let mut out = Memory::new(rt.alloc());
    let mut faults = Memory::new(rt.alloc());
    let status = performed(call, line, files, &mut out, &mut faults, sides);
    if out.is_refused() || faults.is_refused() {
        return Err(AllocError);
    }
    let status = written(call, line, files, sides, out.bytes(), status)?;
    Ok(report_faults(rt, line, status, faults.bytes()))
}

/// Does the command over its files, and writes what it printed; the status. What it writes beside that is put into `sides`.
fn done<R: Threads + Wait + Sync>(
    call: &Call<'_, '_, '_, R>,
    line: &Line<'_>,
    files: &Given<'_>,
    sides: &mut Sides,
) -> Result<u8, AllocError> {
    match way_of(call.rt, line) {
        Way::AtOnce => {
            let mut out = Screen::new(call.rt.stdout());
            let mut faults = Screen::new(call.rt.stderr());
            Ok(performed(call, line, files, &mut out, &mut faults, sides))
        }
        Way::Buffered => buffered(call, line, files, sides),
        Way::Whole => whole(call, line, files, sides),
    }
}

/// Does the command over its files, and writes all that it made; the status.
pub(crate) fn done_and_drawn<R: Threads + Wait + Sync>(
    call: &Call<'_, '_, '_, R>,
    line: &Line<'_>,
    files: &Given<'_>,
) -> Result<u8, AllocError> {
    let mut sides = Sides::new(call.rt.alloc());
    drawn(call, line, files, &mut sides)
}

/// As `done_and_drawn`. What is written beside the output is put into `sides`.
fn drawn<R: Threads + Wait + Sync>(
    call: &Call<'_, '_, '_, R>,
    line: &Line<'_>,
    files: &Given<'_>,
    sides: &mut Sides,
) -> Result<u8, AllocError> {
    let status = done(call, line, files, sides)?;
    if status != 0 {
        return Ok(status);
    }
    write_sides(call, &line.command, files.outline, sides)
}
