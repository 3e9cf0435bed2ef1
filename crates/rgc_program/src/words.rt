//! The words of the command line, the files that they name, and what they ask for.

use crate::call::{Call, NO_WARNINGS, STRICT, done_and_drawn, shown};
use crate::completed::rewrites_no_file;
use crate::contents::{Contents, lent, reads_input_twice};
use crate::mentions::{clash_of, clash_with, report_clash};
use crate::names::PieceNames;
use crate::outline::{done_over, outline_of};
use crate::threads::most_threads;
use clap::error::ErrorKind;
use rgc_commands::Given;
use rgc_line::{Command, Format, Line, LineFault};
use rgc_system::{Joined, Time, joined_of, proved_at, report, report_failure, report_over};
use std::alloc::AllocError;
use std::sync::Wait;
use std::thread::Threads;
use std::{env, io};

/// Prints what is wrong with the words, or the help that they ask for; the status.
fn usage(rt: &HostRuntime, fault: &LineFault) -> u8 {
    match fault {
        LineFault::Usage(error) if error.kind() == ErrorKind::OutOfMemory => report_failure(
            rt,
            "refused 99",
        ),
        LineFault::Usage(error) if error.kind() == ErrorKind::DisplayVersion => print_version(
            rt, error,
        ),
        LineFault::Usage(error) if error.use_stderr() => match format!(in rt.alloc(); "{error}") {
            Ok(text) => {
                report(rt, text.as_bytes());
                2
            }
            Err(_) => report_failure(rt, "refused 99"),
        },
        LineFault::Usage(error) => match error.print(rt) {
            Ok(()) => 0,
            Err(_) => report_failure(rt, "refused 63"),
        },
        LineFault::Fields(fault) => {
            let _ = eprintln!(rt; "error: {fault}");
            2
        }
    }
}

/// Prints the version, and after it at which commit the program was proved, where a file says so; the status.
fn print_version(rt: &HostRuntime, error: &clap::Error) -> u8 {
    match error.print(rt) {
        Ok(()) => shown(rt, Format::Plain, &proved_at(rt), 0),
        Err(_) => report_failure(rt, "refused 63"),
    }
}

/// Whether the line asks to keep the auxiliary words of what is no outline.
fn keeps_aux_of_text(line: &Line<'_>) -> bool {
    match line.command {
        Command::EmitOutline { .. } | Command::AccessesOutline { .. } => false,
        _ => line.settings.keeps_aux,
    }
}

/// What in the words of a line doesn't fit, before any file is read; nothing where all does.
fn misfit_of(line: &Line<'_>, names: &PieceNames<'_>) -> Option<&'static str> {
    if keeps_aux_of_text(line) {
        return Some("--keep-aux goes with --outline");
    }
    if let (Command::RunOutline { .. }, Format::Json) = (line.command, line.settings.format) {
        return Some("--outline and --format json don't go together");
    }
    if let Command::RunOutline { .. }
    | Command::EmitOutline { .. }
    | Command::AccessesOutline { .. } = line.command
    {
        if !names.derivation.is_empty() {
            return Some("--outline and --derivation don't go together");
        }
    }
    if let Command::Complete {
        outline: "-",
        is_in_place: true,
        ..
    } = line.command
    {
        return Some("--in-place takes a file");
    }
    match line.settings.warnings {
        Some(word) if word != STRICT && word != NO_WARNINGS => {
            Some("--warnings takes error or off")
        }
        _ => None,
    }
}

/// Whether of what is verified the conditions without a proof are printed before runs are followed, which may take long.
fn shows_early(line: &Line<'_>) -> bool {
    match line.command {
        Command::Verify { .. } => line.settings.format == Format::Plain,
        _ => false,
    }
}

/// How a command over a file has ended.
#[derive(Clone, Copy)]
struct Ended {
    status: u8,
    /// Whether it isn't done over further files: the words don't fit, the output can't be written, or memory is refused.
    is_last: bool,
}

impl Ended {
    /// The words don't fit.
    const MISFIT: Ended = Ended {
        status: 2,
        is_last: true,
    };
}

/// Reads the files that the command names, and does it.
fn run<R: Threads + Wait + Sync>(
    rt: &HostRuntime,
    threads: &R,
    time: &Time,
    line: &Line<'_>,
    names: &PieceNames<'_>,
) -> Result<Ended, AllocError> {
    let named = line.command.named();
    if reads_input_twice(&named, names) {
        let _ = eprintln!(rt; "error: `-` names standard input, which is read once");
        return Ok(Ended::MISFIT);
    }
    if let Some(words) = misfit_of(line, names) {
        let _ = eprintln!(rt; "error: {words}");
        return Ok(Ended::MISFIT);
    }
    if rewrites_no_file(rt, line) {
        let _ = eprintln!(rt; "error: --in-place takes a regular file");
        return Ok(Ended::MISFIT);
    }
    if let Some(clash) = clash_of(rt, line, names)? {
        report_clash(rt, clash)?;
        return Ok(Ended::MISFIT);
    }
    let mut contents = Contents::empty();
    contents.read(rt, &named, names, line.settings.format)?;
    run_on(rt, threads, time, line, names, &contents)
}

/// Does the command over the files with these contents.
fn run_on<R: Threads + Wait + Sync>(
    rt: &HostRuntime,
    threads: &R,
    time: &Time,
    line: &Line<'_>,
    names: &PieceNames<'_>,
    contents: &Contents,
) -> Result<Ended, AllocError> {
    let derivation = lent(rt, &contents.derivation)?;
    let proofs = lent(rt, &contents.proofs)?;
    let files = contents.files(&derivation, &proofs);
    let joined = joined_of(rt, outline_of(line), files.text)?;
    let call = Call {
        rt,
        threads,
        most: most_threads(rt, threads, line, &files),
        time,
        shows: shows_early(line),
        outputs: &names.outputs,
        derivation: &names.derivation,
        proofs: &names.proofs,
    };
    run_with(&call, line, names, files, &joined)
}

/// Does the command over these files, and those that its outline uses.
fn run_with<R: Threads + Wait + Sync>(
    call: &Call<'_, '_, '_, R>,
    line: &Line<'_>,
    names: &PieceNames<'_>,
    files: Given<'_>,
    joined: &Option<Joined>,
) -> Result<Ended, AllocError> {
    let used: &[String] = match joined {
        Some(joined) => joined.used(),
        None => &[],
    };
    if let Some(clash) = clash_with(call.rt, line, names, used)? {
        report_clash(call.rt, clash)?;
        return Ok(Ended::MISFIT);
    }
    let is_read = files.text.is_some();
    let status = match outline_of(line) {
        Some(name) => done_over(call, line, files, name, joined)?,
        None => done_and_drawn(call, line, &files)?,
    };
    Ok(Ended {
        status,
        is_last: status == 2 || status == 3 && is_read,
    })
}

/// Over how many files the command is to be done, one after another.
fn files_of(command: &Command<'_>) -> usize {
    match command {
        Command::Verify { outlines, .. } => outlines.count,
        _ => 1,
    }
}

/// Does what the words ask for, over each file of a command that takes several; the worst status.
fn run_words<R: Threads + Wait + Sync>(
    rt: &HostRuntime,
    threads: &R,
    words: &[String],
) -> Result<u8, AllocError> {
    let first = match Line::read(rt.alloc(), words, 0) {
        Ok(line) => line,
        Err(fault) => return Ok(usage(rt, &fault)),
    };
    let names = PieceNames::of(rt.alloc(), words, &first.command)?;
    let time = Time::begin(rt, first.settings.seconds);
    run_each(rt, threads, &time, words, &first, &names)
}

/// Does the first line of these words, and then those over the further files; the worst status.
fn run_each<R: Threads + Wait + Sync>(
    rt: &HostRuntime,
    threads: &R,
    time: &Time,
    words: &[String],
    first: &Line<'_>,
    names: &PieceNames<'_>,
) -> Result<u8, AllocError> {
    let mut ended = run(rt, threads, time, first, names)?;
    let mut worst = ended.status;
    for place in 1..files_of(&first.command) {
        if ended.is_last {
            break;
        }
        let line = match Line::read(rt.alloc(), words, place) {
            Ok(line) => line,
            Err(fault) => return Ok(worst.max(usage(rt, &fault))),
        };
        ended = run(rt, threads, time, &line, names)?;
        worst = worst.max(ended.status);
    }
    report_over(rt, time);
    Ok(worst)
}

/// The words of the command line, with the program's name as its users know it.
fn words_of(rt: &HostRuntime) -> io::Result<Vec<String>> {
    let mut words: Vec<String> = env::args(rt)?.collect(rt.alloc())?;
    if let Some(name) = words.first_mut() {
        *name = String::from_str(rt.alloc(), "rgc")?;
    }
    Ok(words)
}

/// Reads the words, and does what they ask for; the status. The threads of a run are had from `threads`.
pub(crate) fn work<R: Threads + Wait + Sync>(
    rt: &HostRuntime,
    threads: &R,
) -> Result<u8, AllocError> {
    let words = match words_of(rt) {
        Ok(words) => words,
        Err(error) if error.kind() == io::ErrorKind::OutOfMemory => return Err(AllocError),
        Err(_) => {
            let _ = eprintln!(rt; "error: a word of the command line isn't UTF-8");
            return Ok(2);
        }
    };
    run_words(rt, threads, words.as_slice())
}
