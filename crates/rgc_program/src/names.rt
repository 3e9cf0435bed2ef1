//! The names of the files of a derivation and of proofs, each of which may be given in several.

use rgc_line::{Command, Line};
use std::alloc::{AllocError, Global};

/// The files of a derivation and of proofs, in their order: those that a command reads, or, of an outline, writes; and those that proofs are written to.
#[derive(Drop)]
pub struct PieceNames<'a> {
    pub derivation: Vec<&'a str>,
    pub proofs: Vec<&'a str>,
    pub outputs: Vec<&'a str>,
}

/// The files that the words of a command name at an id; none where they name none.
fn files_at<'a>(alloc: Global, words: &'a [String], id: &str) -> Result<Vec<&'a str>, AllocError> {
    match Line::files(alloc, words, id) {
        Ok(files) => Ok(files),
        // The words were read before, so memory was refused.
        Err(_) => Err(AllocError),
    }
}

/// The files of a derivation: the one at its place, and those that the option names.
fn with_first<'a>(
    alloc: Global,
    first: &'a str,
    further: &[&'a str],
) -> Result<Vec<&'a str>, AllocError> {
    let mut names = Vec::new(alloc);
    names.push(first)?;
    names.extend_from_slice(further)?;
    Ok(names)
}

impl<'a> PieceNames<'a> {
    /// The names in the words of a command.
    pub fn of(
        alloc: Global,
        words: &'a [String],
        command: &Command<'a>,
    ) -> Result<PieceNames<'a>, AllocError> {
        let further = files_at(alloc, words, "derivation")?;
        let derivation = match *command {
            Command::Check { derivation, .. }
            | Command::Emit { derivation, .. }
            | Command::Accesses { derivation, .. }
            | Command::Run { derivation, .. }
            | Command::Conditions { derivation, .. }
            | Command::Prove { derivation, .. } => with_first(alloc, derivation, &further)?,
            _ => further,
        };
        let proofs = match *command {
            Command::Outline { .. } => files_at(alloc, words, "proofs")?,
            _ => files_at(alloc, words, "PROOFS")?,
        };
        let outputs = files_at(alloc, words, "output")?;
        Ok(PieceNames {
            derivation,
            proofs,
            outputs,
        })
    }
}
