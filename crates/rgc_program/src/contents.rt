//! The bytes of the files that a command reads, or that one of them can't be read.

use crate::names::PieceNames;
use crate::outline::outline_format;
use rg_outline_reports::unread_line;
use rg_words::limits::{MOST_PROOF_BYTES, MOST_TEXT_BYTES};
use rgc_commands::Given;
use rgc_line::{Format, Named};
use rgc_system::{INPUT, read, report};
use std::alloc::{AllocError, Global};
use std::io;

/// Whether more than one file is standard input.
pub(crate) fn reads_input_twice(named: &Named<'_>, names: &PieceNames<'_>) -> bool {
    let files = [named.text, named.start, named.moves];
    let single = files.iter().filter(|name| **name == Some(INPUT)).count();
    let of_derivation = names
        .derivation
        .iter()
        .filter(|name| **name == INPUT)
        .count();
    let of_proofs = names.proofs.iter().filter(|name| **name == INPUT).count();
    single
        .saturating_add(of_derivation)
        .saturating_add(of_proofs)
        > 1
}

/// Why a file can't be read.
fn reason_of(alloc: Global, kind: io::ErrorKind) -> Result<String, AllocError> {
    match kind {
        io::ErrorKind::NotFound => String::from_str(alloc, "no such file"),
        io::ErrorKind::IsADirectory => String::from_str(alloc, "a directory is no file"),
        kind => format!(in alloc; "{kind}"),
    }
}

/// Reports that a file can't be read, and why.
fn report_unread(
    rt: &HostRuntime,
    name: &str,
    kind: io::ErrorKind,
    format: Format,
) -> Result<(), AllocError> {
    let reason = reason_of(rt.alloc(), kind)?;
    let line = unread_line(rt.alloc(), outline_format(format), name, &reason)?;
    report(rt, &line);
    Ok(())
}

/// A file's bytes, or none where it can't be read, which is reported.
fn bytes_of(
    rt: &HostRuntime,
    name: &str,
    most: usize,
    format: Format,
) -> Result<Option<Vec<u8>>, AllocError> {
    match read(rt, name, most) {
        Ok(bytes) => Ok(Some(bytes)),
        Err(error) => match error.kind() {
            io::ErrorKind::OutOfMemory => Err(AllocError),
            kind => {
                report_unread(rt, name, kind, format)?;
                Ok(None)
            }
        },
    }
}

/// The bytes of the files that a command names: none where one isn't named or can't be read.
#[derive(Drop)]
pub(crate) struct Contents {
    pub(crate) text: Option<Vec<u8>>,
    pub(crate) derivation: Option<Vec<Vec<u8>>>,
    pub(crate) proofs: Option<Vec<Vec<u8>>>,
    pub(crate) start: Option<Vec<u8>>,
    pub(crate) moves: Option<Vec<u8>>,
}

/// The bytes of a file that may not be named, or none where it isn't or can't be read.
fn bytes_of_named(
    rt: &HostRuntime,
    name: Option<&str>,
    most: usize,
    format: Format,
) -> Result<Option<Vec<u8>>, AllocError> {
    match name {
        Some(name) => bytes_of(rt, name, most, format),
        None => Ok(None),
    }
}

/// The bytes of the pieces of a file, or none where one of them can't be read.
fn bytes_of_pieces(
    rt: &HostRuntime,
    names: &[&str],
    most: usize,
    format: Format,
) -> Result<Option<Vec<Vec<u8>>>, AllocError> {
    let mut pieces = Vec::new(rt.alloc());
    for name in names {
        match bytes_of(rt, name, most, format)? {
            Some(bytes) => pieces.push(bytes)?,
            None => return Ok(None),
        }
    }
    Ok(Some(pieces))
}

/// The pieces of a file, lent to a command.
pub(crate) fn lent<'a>(
    rt: &HostRuntime,
    file: &'a Option<Vec<Vec<u8>>>,
) -> Result<Vec<&'a [u8]>, AllocError> {
    let mut pieces = Vec::new(rt.alloc());
    if let Some(file) = file {
        for piece in file {
            pieces.push(piece.as_slice())?;
        }
    }
    Ok(pieces)
}

impl Contents {
    /// No bytes so far.
    pub(crate) fn empty() -> Contents {
        Contents {
            text: None,
            derivation: None,
            proofs: None,
            start: None,
            moves: None,
        }
    }

    /// Reads the files. Those that can't be read are reported in this format.
    pub(crate) fn read(
        &mut self,
        rt: &HostRuntime,
        named: &Named<'_>,
        names: &PieceNames<'_>,
        format: Format,
    ) -> Result<(), AllocError> {
        self.text = bytes_of_named(rt, named.text, MOST_TEXT_BYTES, format)?;
        if named.derivation.is_some() {
            self.derivation = bytes_of_pieces(rt, &names.derivation, MOST_TEXT_BYTES, format)?;
        }
        if named.proofs.is_some() {
            self.proofs = bytes_of_pieces(rt, &names.proofs, MOST_PROOF_BYTES, format)?;
        }
        self.start = bytes_of_named(rt, named.start, MOST_TEXT_BYTES, format)?;
        self.moves = bytes_of_named(rt, named.moves, MOST_TEXT_BYTES, format)?;
        Ok(())
    }
    /// The bytes, lent to a command, with the pieces of a derivation and of proofs as they were lent before.
    pub(crate) fn files<'a>(
        &'a self,
        derivation: &'a [&'a [u8]],
        proofs: &'a [&'a [u8]],
    ) -> Given<'a> {
        let mut of_derivation = None;
        if self.derivation.is_some() {
            of_derivation = Some(derivation);
        }
        let mut of_proofs = None;
        if self.proofs.is_some() {
            of_proofs = Some(proofs);
        }
        Given {
            text: self.text.as_ref().map(|bytes| bytes.as_slice()),
            derivation: of_derivation,
            proofs: of_proofs,
            start: self.start.as_ref().map(|bytes| bytes.as_slice()),
            moves: self.moves.as_ref().map(|bytes| bytes.as_slice()),
            outline: None,
        }
    }
}
