//! The first fault of an outline, and what may be printed of an outline's bytes.

use crate::files::{Format, NoFiles, OutlineSource};
use crate::json::JsonObject;
use rg_outline::Expansion;
use rg_outline_syntax::{Fault, FaultKind, Names, Texts, push_sentence, tell};
use std::alloc::{AllocError, Global};

/// The most bytes of a line that is printed.
const MOST_PRINTED: usize = 2_000;

/// Lines as they are printed: a control byte of an outline does nothing to the terminal, and of each line there are so many bytes at most.
pub(crate) fn printable(alloc: Global, lines: &[u8]) -> Result<Vec<u8>, AllocError> {
    let mut shown = Vec::new(alloc);
    let mut count = 0usize;
    for byte in lines {
        count = count.saturating_add(1);
        if count <= MOST_PRINTED || *byte == b'\n' {
            shown.push(match *byte {
                0..=8 | 11..=31 | 127 => b'?',
                byte => byte,
            })?;
        }
        if *byte == b'\n' {
            count = 0;
        }
    }
    Ok(shown)
}

/// Whether what was printed is as large as a text may be, at most; an error where memory was refused.
pub(crate) fn fits(printed: Result<(), Fault>) -> Result<bool, AllocError> {
    match printed {
        Ok(()) => Ok(true),
        Err(fault) if matches!(fault.kind, FaultKind::Memory) => Err(AllocError),
        Err(_) => Ok(false),
    }
}

/// What reports a fault by what it may name.
fn lines_of(
    alloc: Global,
    outline: OutlineSource<'_>,
    fault: Fault,
    names: Names<'_>,
) -> Result<Vec<u8>, AllocError> {
    let mut lines = Vec::new(alloc);
    if outline.format == Format::Plain {
        tell(&mut lines, outline.name.as_bytes(), fault, names)?;
        return printable(alloc, &lines);
    }
    let mut sentence = Vec::new(alloc);
    push_sentence(&mut sentence, fault, names)?;
    let mut object = JsonObject::of_kind(alloc, b"refused");
    object.put_place(outline.name.as_bytes(), outline.source, fault.span);
    object.put_text("sentence", &sentence);
    object.push_to(&mut lines)?;
    Ok(lines)
}

/// Why an outline with this fault stands for no files, by what the fault may name.
fn refused(alloc: Global, outline: OutlineSource<'_>, fault: Fault, names: Names<'_>) -> NoFiles {
    if matches!(fault.kind, FaultKind::Memory) {
        return NoFiles::Memory;
    }
    match lines_of(alloc, outline, fault, names) {
        Ok(lines) => NoFiles::Reported(lines),
        Err(_) => NoFiles::Memory,
    }
}

/// The refusal for a fault that was found before any name was known.
pub(crate) fn refused_source(alloc: Global, outline: OutlineSource<'_>, fault: Fault) -> NoFiles {
    let none = Texts::new(alloc);
    let names = Names {
        source: outline.source,
        words: &none,
        members: &none,
        parts: &none,
        bindings: &[],
        uses: &[],
    };
    refused(alloc, outline, fault, names)
}

/// The refusal for a fault, by the names that were known when it was found.
pub(crate) fn refused_expansion(
    outline: OutlineSource<'_>,
    expansion: &Expansion<'_>,
    fault: Fault,
) -> NoFiles {
    let alloc = expansion.scope.alloc;
    let mut bindings = Vec::new(alloc);
    match expansion.bindings(&mut bindings, fault) {
        Ok(()) => refused(alloc, outline, fault, expansion.names(&bindings)),
        Err(_) => NoFiles::Memory,
    }
}
