//! One file or option, from the matches of a subcommand.

ghost use Rattle.std.specs.Prelude.{◌≡◌, map, IfOk, IfErr, codes};
ghost use Rattle.clap.specs.Words.{found_of, rows_of};
ghost use Rattle.rgc_line.specs.App.{condition};
ghost use Rattle.rgc_line.specs.Values.{HasFiles, HasValue, optional, IsThere};
ghost use Rattle.rgc_line.specs.Values as value;
ghost use Rattle.rgc_line.specs.Line.{AreApart, AreRunFilesApart, IsBeyond};
ghost use Rattle.rgc_line.specs.Inner.Table.{HasOption, HasChosen, HasSource, IsNumber, IsNumberIf};
ghost use Rattle.rgc_line.specs.declared.fields.FieldFault.TheVariants.{Apart, NoFile};

use crate::command::{Chosen, Outlines};
use crate::commands::{
    CONDITION, DERIVATION_FILES, OUTLINES, RUN_DERIVATION, RUN_OUTLINE, RUN_PROOFS, RUN_TEXT,
};
use clap::ArgMatches;
use std::alloc::{AllocError, Global};
use thiserror::Error;

/// Why the matches of a subcommand give no command.
#[derive(Clone, Copy, Debug, Error)]
pub enum FieldFault {
    /// One of two options that go together stands alone.
    #[error("--derivation and --condition go together")]
    Apart,
    /// A format that isn't known.
    #[error("--format takes plain or json, with emit json or c, and with clauses plain or smt2")]
    UnknownFormat,
    /// A run of an outline and of files, or of some files alone.
    #[error("run takes TEXT DERIVATION PROOFS, or --outline FILE")]
    RunFiles,
    /// The code of an outline and of files, or of some files alone.
    #[error("emit takes TEXT DERIVATION PROOFS, or --outline FILE")]
    EmitFiles,
    /// The accesses of an outline and of files, or of some files alone.
    #[error("accesses takes TEXT DERIVATION PROOFS, or --outline FILE")]
    AccessesFiles,
    /// The place is after the last of the files.
    #[error("there is no file at the place")]
    NoFile,
}

/// A program, by its files or by an outline.
#[derive(Clone, Copy)]
pub enum Source<'a> {
    /// Its text, its derivation and the proofs.
    Files {
        text: &'a str,
        derivation: &'a str,
        proofs: &'a str,
    },
    /// An outline in their place.
    Outline {
        outline: &'a str,
    },
}

/// A file or a word that may be left out.
pub fn option<'a>(matches: &ArgMatches<'a>, id: &str) -> Option<&'a str>
    ensures has { HasOption (rows_of (found_of matches.now)) id.now result }
    ensures value { HasValue (rows_of (found_of matches.now)) id.now (optional value.file result) }
{
    matches.get_str(id)
}

/// A file that has to be named.
pub fn file<'a>(matches: &ArgMatches<'a>, id: &str) -> &'a str
    requires { IsThere (rows_of (found_of matches.now)) id.now }
    ensures { HasValue (rows_of (found_of matches.now)) id.now (value.file result) }
{
    option(matches, id).unwrap()
}

/// The file at a place among the outlines.
pub fn outline_at<'a>(matches: &ArgMatches<'a>, place: usize) -> Result<Outlines<'a>, FieldFault>
    requires { IsThere (rows_of (found_of matches.now)) (codes "OUTLINE") }
    ensures file { IfOk result (λ o. HasValue (rows_of (found_of matches.now)) (codes "OUTLINE") (value.file_of o)) }
    ensures place { IfOk result (λ o. o.place ≡ place) }
    ensures fault { IfErr result (λ f. (f ≡ NoFile) × IsBeyond (rows_of (found_of matches.now)) place) }
{
    let names = matches.get_strs(OUTLINES.id).unwrap();
    if place < names.len() {
        return Ok(Outlines {
            outline: names[place],
            place,
            count: names.len(),
        });
    }
    Err(FieldFault::NoFile)
}

/// The files at the id, in their order; none where none is there.
pub fn files<'a>(
    alloc: Global,
    matches: &ArgMatches<'a>,
    id: &str,
) -> Result<Vec<&'a str>, AllocError>
    ensures { IfOk result (λ files. HasFiles (rows_of (found_of matches.now)) id.now (map (λ file. file.now) files.items)) }
{
    match matches.get_strs(id) {
        Some(names) => Vec::from_slice(alloc, names),
        None => Ok(Vec::new(alloc)),
    }
}

/// A number that has to be given, or is given by default.
pub fn given_number(matches: &ArgMatches<'_>, id: &str) -> u64
    requires { IsNumber (rows_of (found_of matches.now)) id.now }
    ensures { HasValue (rows_of (found_of matches.now)) id.now (value.number result) }
{
    matches.get_one::<u64>(id).unwrap()
}

/// A number that may be left out.
pub fn number_or_none(matches: &ArgMatches<'_>, id: &str) -> Option<u64>
    requires { IsNumberIf (rows_of (found_of matches.now)) id.now }
    ensures { HasValue (rows_of (found_of matches.now)) id.now (optional value.number result) }
{
    match option(matches, id) {
        Some(_) => Some(given_number(matches, id)),
        None => None,
    }
}

/// Whether the option is there.
pub fn is_given(matches: &ArgMatches<'_>, id: &str) -> bool
    ensures { HasValue (rows_of (found_of matches.now)) id.now (value.flag result) }
{
    match option(matches, id) {
        Some(text) => text == "true",
        None => false,
    }
}

/// The condition that the two options choose, where both are given.
pub fn chosen<'a>(matches: &ArgMatches<'a>) -> Result<Option<Chosen<'a>>, FieldFault>
    requires { IsNumberIf (rows_of (found_of matches.now)) condition.id }
    ensures chosen { IfOk result (HasChosen (rows_of (found_of matches.now))) }
    ensures fault { IfErr result (λ f. (f ≡ Apart) × AreApart (rows_of (found_of matches.now))) }
{
    match (
        option(matches, DERIVATION_FILES.id),
        option(matches, CONDITION.id),
    ) {
        (None, None) => Ok(None),
        (Some(derivation), Some(_)) => Ok(Some(Chosen {
            derivation,
            condition: given_number(matches, CONDITION.id),
        })),
        _ => Err(FieldFault::Apart),
    }
}

/// The program that a run, or code, is asked for of; this fault where it is given in both ways or in none.
pub fn source_of<'a>(matches: &ArgMatches<'a>, fault: FieldFault) -> Result<Source<'a>, FieldFault>
    ensures source { IfOk result (HasSource (rows_of (found_of matches.now))) }
    ensures fault { IfErr result (λ f. (f ≡ fault) × AreRunFilesApart (rows_of (found_of matches.now))) }
{
    if let Some(outline) = option(matches, RUN_OUTLINE.id) {
        if let Some(_) = option(matches, RUN_TEXT.id) {
            return Err(fault);
        }
        return Ok(Source::Outline { outline });
    }
    let Some(text) = option(matches, RUN_TEXT.id) else {
        return Err(fault);
    };
    let Some(derivation) = option(matches, RUN_DERIVATION.id) else {
        return Err(fault);
    };
    let Some(proofs) = option(matches, RUN_PROOFS.id) else {
        return Err(fault);
    };
    Ok(Source::Files {
        text,
        derivation,
        proofs,
    })
}
