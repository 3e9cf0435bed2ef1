//! The reading of the command line.

ghost use Rattle.std.specs.Prelude.{◌≡◌, [], map, IfOk, MatchResult};
ghost use Rattle.clap.specs.Words.{subcommand_of, fault_of};
ghost use Rattle.rgc_line.specs.App.{rgc_app};
ghost use Rattle.rgc_line.specs.Line.{Says, IsLineFault, AreFilesOf};

use crate::app::rgc_command;
use crate::command::{Command, Settings};
use crate::fields::{FieldFault, files};
use crate::readers::line_of;
use std::alloc::Global;
use std::convert::AsStr;
use thiserror::Error;

/// Why a command line names no command.
#[derive(Debug, Drop, Error)]
pub enum LineFault {
    #[error("{0}")]
    Usage(clap::Error),
    #[error("error: {0}")]
    Fields(FieldFault),
}

/// A command line.
#[derive(Clone, Copy)]
pub struct Line<'a> {
    /// What the program is asked to do.
    pub command: Command<'a>,
    /// How it is asked to do it.
    pub settings: Settings<'a>,
}

impl<'a> Line<'a> {
    /// Reads the words, of which the first is the program's name. Of a command over several files it is the one over the file at this place,
    /// from 0.
    ///
    /// # Errors
    ///
    /// `Usage` with the fault that `clap` finds in the words, or where memory is refused; `Fields` where options don't fit together, where an
    /// option has a word that it doesn't know, or where there is no file at the place.
    pub fn read<S: AsStr>(
        alloc: Global,
        words: &'a [S],
        place: usize,
    ) -> Result<Line<'a>, LineFault>
        // The command, its files and its options are those that `clap` reads in the words.
        ensures line { IfOk result (Says (subcommand_of rgc_app (map S.text words.now)) place) }

        // Words come to a command only where `clap` finds no fault in them, and else to a fault that it finds, or, where memory was not refused
        // and it finds none, to options that don't fit together or to no file at the place.
        ensures fault { MatchResult result
            (λ _. fault_of rgc_app (map S.text words.now) ≡ [])
            (IsLineFault (map S.text words.now) place) }
    {
        let command = match rgc_command(alloc) {
            Ok(command) => command,
            Err(error) => return Err(LineFault::Usage(error.into())),
        };
        let matches = match command.try_get_matches_from(words) {
            Ok(matches) => matches,
            Err(error) => return Err(LineFault::Usage(error)),
        };
        let (name, inner) = matches.subcommand().unwrap();
        match line_of(name, inner, place) {
            Ok(line) => Ok(line),
            Err(fault) => Err(LineFault::Fields(fault)),
        }
    }

    /// The files that the words name at a place or an option, by its id, in their order; none where they name none.
    ///
    /// # Errors
    ///
    /// `Usage` with the fault that `clap` finds in the words, or where memory is refused.
    pub fn files<S: AsStr>(
        alloc: Global,
        words: &'a [S],
        id: &str,
    ) -> Result<Vec<&'a str>, LineFault>
        ensures { IfOk result (λ files. AreFilesOf (subcommand_of rgc_app (map S.text words.now)) id.now (map (λ file. file.now) files.items)) }
    {
        let command = match rgc_command(alloc) {
            Ok(command) => command,
            Err(error) => return Err(LineFault::Usage(error.into())),
        };
        let matches = match command.try_get_matches_from(words) {
            Ok(matches) => matches,
            Err(error) => return Err(LineFault::Usage(error)),
        };
        let (_, inner) = matches.subcommand().unwrap();
        match files(alloc, inner, id) {
            Ok(files) => Ok(files),
            Err(error) => Err(LineFault::Usage(error.into())),
        }
    }
}
