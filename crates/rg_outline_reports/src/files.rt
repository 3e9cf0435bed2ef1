//! An outline as it is given, the files that it stands for, and what is found of them.

use crate::Claim;
use rg_outline_syntax::Fault;
use std::alloc::{AllocError, Global};

/// The files that an outline stands for, each as it is printed.
#[derive(Drop)]
pub struct OutlineFiles {
    /// The program.
    pub text: Vec<u8>,
    /// The lines that derive its parts. They may be longer than a file may be.
    pub derivation: Vec<u8>,
    /// The places of the derivation at which a further piece of it begins: a piece is whole lines, as many as fit into a file.
    pub cuts: Vec<usize>,
    /// Whether each word of the text is auxiliary, in the order of the text's words.
    pub auxiliary: Vec<bool>,
    /// Which parts interrupt which, as `--priority` says it; empty where the outline says nothing of it.
    pub priority: String,
}

/// What the words and the statements of the text are in the outline.
#[derive(Drop)]
pub struct Places {
    /// Each word as the outline writes it, in the order of the text's words.
    pub words: Vec<Vec<u8>>,
    /// The line of each statement in the outline's own file, which of one in a used file is that of its use, by the statement's number in the text; 0 for a sequence, and as the first one, since numbers are from 1.
    pub lines: Vec<u64>,
    /// The numbers of those that nobody wrote: each is the `skip` of an `else` that isn't there.
    pub added: Vec<usize>,
}

/// What is reported of conditions that aren't proved.
#[derive(Drop)]
pub struct Failures {
    /// It as it is printed.
    pub lines: Vec<u8>,
    /// What it says to be false.
    pub claims: Vec<Claim>,
}

/// Why an outline stands for no files.
#[derive(Drop)]
pub enum NoFiles {
    /// What reports its first fault: the file with line and column and a sentence, the line, and a line of carets; or the same as JSON.
    Reported(Vec<u8>),
    /// Memory was refused.
    Memory,
}

impl NoFiles {
    /// The same once more.
    pub(crate) fn copied(&self, alloc: Global) -> NoFiles {
        match self {
            NoFiles::Reported(lines) => match Vec::from_slice(alloc, lines) {
                Ok(lines) => NoFiles::Reported(lines),
                Err(_) => NoFiles::Memory,
            },
            NoFiles::Memory => NoFiles::Memory,
        }
    }
}

/// How reports are printed.
#[derive(Clone, Copy, PartialEq, Eq)]
pub enum Format {
    /// Lines to be read.
    Plain,
    /// One JSON value a line.
    Json,
}

/// An outline: its own file, as places name it; its bytes, with those of the files that it uses as `push_file` puts them; why one of these can't be used;
/// how what is reported of it is printed; and whether it is to be warned of what it is perhaps not meant to say.
#[derive(Clone, Copy)]
pub struct OutlineSource<'a> {
    pub name: &'a str,
    pub source: &'a [u8],
    pub fault: Option<Fault>,
    pub format: Format,
    pub has_warnings: bool,
}

impl From<AllocError> for NoFiles {
    fn from(_: AllocError) -> NoFiles {
        NoFiles::Memory
    }
}
