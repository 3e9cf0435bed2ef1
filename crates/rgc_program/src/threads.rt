//! How many threads a command gets.

use rgc_commands::Given;
use rgc_line::{Command, Line};
use rgc_system::has_small_stacks;
use std::thread::{Threads, available_parallelism};

/// Files with fewer bytes together are checked in about the time that threads take to start.
const FEW_BYTES: usize = 36_864;

/// How many bytes a file has.
fn size_of(file: Option<&[u8]>) -> usize {
    file.map_or(0, |bytes| bytes.len())
}

/// How many bytes the pieces of a file have.
fn size_of_pieces(file: Option<&[&[u8]]>) -> usize {
    let mut size = 0_usize;
    for piece in file.unwrap_or(&[]) {
        size = size.saturating_add(piece.len());
    }
    size
}

/// Whether a text, a derivation and proofs are small together.
fn are_small(files: &Given<'_>) -> bool {
    let size = size_of(files.text).saturating_add(size_of_pieces(files.derivation));
    size.saturating_add(size_of_pieces(files.proofs)) < FEW_BYTES
}

/// How many threads suit so many processors and these files: as many, or one where small files are checked.
fn suiting(command: &Command<'_>, files: &Given<'_>, processors: usize) -> usize {
    match command {
        Command::Check { .. }
        | Command::Emit { .. }
        | Command::Accesses { .. }
        | Command::Run { .. }
            if are_small(files) => 1,
        _ => processors,
    }
}

/// The most threads for a command: those that it asks for, and else as many as suit the processors; one, where others would have too small a stack.
pub(crate) fn most_threads<R: Threads>(
    rt: &HostRuntime,
    threads: &R,
    line: &Line<'_>,
    files: &Given<'_>,
) -> usize {
    match line.settings.threads {
        _ if has_small_stacks(rt) => 1,
        Some(number) => usize::try_from(number).unwrap_or(usize::MAX),
        None => {
            let processors = available_parallelism(threads).map_or(1, |number| number.get());
            suiting(&line.command, files, processors)
        }
    }
}
