//! Each command, from the matches of its subcommand.

ghost use Rattle.std.specs.Prelude.{◌≡◌, IfOk, IfErr, find};
ghost use Rattle.std.specs.Str.{bytes_eq};
ghost use Rattle.clap.specs.Words.{found_of, rows_of};
ghost use Rattle.rgc_line.specs.Line.{AreRunFilesApart, HasContents, IsAt, IsFieldFault, contents_of};
ghost use Rattle.rgc_line.specs.App.{kinds, row_of, HasSettings};
ghost use Rattle.rgc_line.specs.Inner.Table.{IsListed, IsRefused, IsTable, IsWhole, Reads};
ghost use Rattle.rgc_line.specs.declared.commands.Kind.TheVariants as kind;
ghost use Rattle.rgc_line.specs.declared.fields.FieldFault.TheVariants.{AccessesFiles, EmitFiles, RunFiles};

use crate::command::{Command, settings_of};
use crate::commands::{
    COMMANDS, CONDITIONS, DERIVATION, DERIVATION_FILES, DRAW, FORMULAS, HINTS, IN_PLACE, INVARIANT,
    Kind, LIMIT, MAP, MOVES, OUTLINE, PROOFS, REFUSAL, REFUSED, RUNS_ONLY, Row, START, STEPS, TEXT,
    VERIFY_STEPS, WRITTEN_PROOFS, WRITTEN_TEXT,
};
use crate::fields::{
    FieldFault, Source, chosen, file, given_number, is_given, number_or_none, option, outline_at,
    source_of,
};
use crate::line::Line;
use clap::ArgMatches;

/// A run of three files, or of an outline.
fn run<'a>(matches: &ArgMatches<'a>) -> Result<Command<'a>, FieldFault>
    requires { IsWhole kind.Run (rows_of (found_of matches.now)) }
    ensures reads { IfOk result (Reads kind.Run (rows_of (found_of matches.now))) }
    ensures fault { IfErr result (λ f. (f ≡ RunFiles) × AreRunFilesApart (rows_of (found_of matches.now))) }
{
    let start = option(matches, START.id);
    let moves = option(matches, MOVES.id);
    let limit = given_number(matches, LIMIT.id);
    let draw = option(matches, DRAW.id);
    match source_of(matches, FieldFault::RunFiles)? {
        Source::Outline { outline } => Ok(Command::RunOutline {
            outline,
            start,
            moves,
            limit,
            draw,
        }),
        Source::Files {
            text,
            derivation,
            proofs,
        } => Ok(Command::Run {
            text,
            derivation,
            proofs,
            start,
            moves,
            limit,
            draw,
        }),
    }
}

/// A check of three files.
fn check<'a>(matches: &ArgMatches<'a>) -> Command<'a>
    requires { IsWhole kind.Check (rows_of (found_of matches.now)) }
    ensures { Reads kind.Check (rows_of (found_of matches.now)) result }
{
    Command::Check {
        text: file(matches, TEXT.id),
        derivation: file(matches, DERIVATION.id),
        proofs: file(matches, PROOFS.id),
    }
}

/// The conditions of two files.
fn conditions<'a>(matches: &ArgMatches<'a>) -> Command<'a>
    requires { IsWhole kind.Conditions (rows_of (found_of matches.now)) }
    ensures { Reads kind.Conditions (rows_of (found_of matches.now)) result }
{
    Command::Conditions {
        text: file(matches, TEXT.id),
        derivation: file(matches, DERIVATION.id),
        has_formulas: is_given(matches, FORMULAS.id),
    }
}

/// A search for the proofs of two files.
fn prove<'a>(matches: &ArgMatches<'a>) -> Command<'a>
    requires { IsWhole kind.Prove (rows_of (found_of matches.now)) }
    ensures { Reads kind.Prove (rows_of (found_of matches.now)) result }
{
    Command::Prove {
        text: file(matches, TEXT.id),
        derivation: file(matches, DERIVATION.id),
        steps: given_number(matches, STEPS.id),
        conditions: option(matches, CONDITIONS.id),
    }
}

/// The code of three files, or of an outline.
fn emit<'a>(matches: &ArgMatches<'a>) -> Result<Command<'a>, FieldFault>
    requires { IsWhole kind.Emit (rows_of (found_of matches.now)) }
    ensures reads { IfOk result (Reads kind.Emit (rows_of (found_of matches.now))) }
    ensures fault { IfErr result (λ f. (f ≡ EmitFiles) × AreRunFilesApart (rows_of (found_of matches.now))) }
{
    match source_of(matches, FieldFault::EmitFiles)? {
        Source::Outline { outline } => Ok(Command::EmitOutline { outline }),
        Source::Files {
            text,
            derivation,
            proofs,
        } => Ok(Command::Emit {
            text,
            derivation,
            proofs,
        }),
    }
}

/// The accesses of three files, or of an outline.
fn accesses<'a>(matches: &ArgMatches<'a>) -> Result<Command<'a>, FieldFault>
    requires { IsWhole kind.Accesses (rows_of (found_of matches.now)) }
    ensures reads { IfOk result (Reads kind.Accesses (rows_of (found_of matches.now))) }
    ensures fault { IfErr result (λ f. (f ≡ AccessesFiles) × AreRunFilesApart (rows_of (found_of matches.now))) }
{
    match source_of(matches, FieldFault::AccessesFiles)? {
        Source::Outline { outline } => Ok(Command::AccessesOutline { outline }),
        Source::Files {
            text,
            derivation,
            proofs,
        } => Ok(Command::Accesses {
            text,
            derivation,
            proofs,
        }),
    }
}

/// The files of an outline.
fn outline<'a>(matches: &ArgMatches<'a>) -> Command<'a>
    requires { IsWhole kind.Outline (rows_of (found_of matches.now)) }
    ensures { Reads kind.Outline (rows_of (found_of matches.now)) result }
{
    Command::Outline {
        outline: file(matches, OUTLINE.id),
        steps: number_or_none(matches, VERIFY_STEPS.id),
        text: option(matches, WRITTEN_TEXT.id),
        derivation: option(matches, DERIVATION_FILES.id),
        proofs: option(matches, WRITTEN_PROOFS.id),
        map: option(matches, MAP.id),
    }
}

/// The command of this kind; of one over several files, the one over the file at this place.
fn command_of<'a>(
    kind: Kind,
    matches: &ArgMatches<'a>,
    place: usize,
) -> Result<Command<'a>, FieldFault>
    requires { IsWhole kind (rows_of (found_of matches.now)) }
    ensures reads { IfOk result (Reads kind (rows_of (found_of matches.now))) }
    ensures at { IfOk result (IsAt place) }
    ensures fault { IfErr result (IsFieldFault kind (rows_of (found_of matches.now)) place) }
{
    match kind {
        Kind::Number => Ok(Command::Number {
            text: file(matches, TEXT.id),
        }),
        Kind::Check => Ok(check(matches)),
        Kind::Conditions => Ok(conditions(matches)),
        Kind::Prove => Ok(prove(matches)),
        Kind::Emit => emit(matches),
        Kind::Accesses => accesses(matches),
        Kind::Run => run(matches),
        Kind::Valid => Ok(Command::Valid {
            text: file(matches, TEXT.id),
            proofs: file(matches, HINTS.id),
        }),
        Kind::Clauses => Ok(Command::Clauses {
            text: file(matches, TEXT.id),
            chosen: chosen(matches)?,
        }),
        Kind::Find => Ok(Command::Find {
            text: file(matches, TEXT.id),
            steps: given_number(matches, STEPS.id),
            chosen: chosen(matches)?,
        }),
        Kind::Outline => Ok(outline(matches)),
        Kind::Verify => Ok(Command::Verify {
            outlines: outline_at(matches, place)?,
            steps: number_or_none(matches, VERIFY_STEPS.id),
            is_runs_only: is_given(matches, RUNS_ONLY.id),
            text: option(matches, WRITTEN_TEXT.id),
        }),
        Kind::Complete => Ok(Command::Complete {
            outline: file(matches, OUTLINE.id),
            steps: number_or_none(matches, VERIFY_STEPS.id),
            finds_invariant: is_given(matches, INVARIANT.id),
            is_in_place: is_given(matches, IN_PLACE.id),
        }),
        Kind::Challenge => Ok(Command::Challenge {
            outline: file(matches, OUTLINE.id),
            has_refused: is_given(matches, REFUSED.id),
        }),
        Kind::Explain => Ok(Command::Explain {
            number: given_number(matches, REFUSAL.id),
        }),
    }
}

/// The kind of the row of a name.
fn kind_named(rows: &[Row], name: &str) -> Option<Kind>
    requires { IsTable rows.now }
    ensures { result ≡ find (λ kind. bytes_eq (row_of kind).name name.now) kinds }
{
    for row in rows {
        if row.name == name {
            return Some(row.kind);
        }
    }
    None
}

/// The command of a subcommand's name and matches, with its settings; of one over several files, the one over the file at this place.
pub fn line_of<'a>(
    name: &str,
    matches: &ArgMatches<'a>,
    place: usize,
) -> Result<Line<'a>, FieldFault>
    requires { IsListed name.now (rows_of (found_of matches.now)) }
    ensures contents { IfOk result (λ l. HasContents name.now (rows_of (found_of matches.now)) (contents_of l.command)) }
    ensures settings { IfOk result (λ l. HasSettings (rows_of (found_of matches.now)) l.settings) }
    ensures at { IfOk result (λ l. IsAt place l.command) }
    ensures fault { IfErr result (IsRefused name.now (rows_of (found_of matches.now)) place) }
{
    let kind = kind_named(&COMMANDS, name).unwrap();
    let settings = settings_of(matches)?;
    match command_of(kind, matches, place) {
        Ok(command) => Ok(Line { command, settings }),
        Err(fault) => Err(fault),
    }
}
