//! The answer of a line.

ghost use Rattle.std.specs.Prelude.{◌≡◌, [], true, IfOk, IfErr, OnOk};
ghost use Rattle.rgc_commands.specs.Answers.{IsAnswer, AreNotesOf};
ghost use Rattle.rgc_commands.specs.Put.{ArePut};
ghost use Rattle.rgc_commands.specs.Inner.Stops.{IsOverOutline};
ghost use Rattle.rgc_commands.specs.Stops.{IsStop, asks_for_c, asks_for_form, fits, fits_clauses, fits_verdict};

use crate::answers::{Answer, is_plain};
use crate::coding::{Asked, accesses, accesses_outline, emit, emit_outline, run, run_outline};
use crate::files::Files;
use crate::outlines::{Verification, Written, challenge_outline, expand, verify};
use crate::sides::Sides;
use crate::smt::clauses_or_script;
use crate::stops::Stop;
use crate::texts::{check, conditions, explain, find_of, number, prove, valid};
use rg_watch::Watcher;
use rgc_answers::Context;
use rgc_line::{Command, Line, Settings};
use std::sync::Wait;
use std::thread::Threads;

/// Whether the settings ask for C.
fn asks_for_c(settings: &Settings<'_>) -> bool
    ensures { result ≡ asks_for_c settings.now }
{
    settings.is_c || settings.prefix.is_some() || settings.is_traced
}

/// Whether the settings ask for a form that only one command has: for C or for SMT-LIB.
fn asks_for_form(settings: &Settings<'_>) -> bool
    ensures { result ≡ asks_for_form settings.now }
{
    asks_for_c(settings) || settings.is_smt
}

/// Whether a verdict can be followed by how each step is done in C, where that is asked for; else no words are erased, and no order of parts is given.
fn fits_verdict(settings: &Settings<'_>, is_runs_only: bool, text: Option<&str>) -> bool
    ensures { result ≡ fits_verdict settings.now is_runs_only text.entry }
{
    if settings.has_accesses {
        !is_runs_only && text.is_none() && is_plain(settings.format)
    } else {
        settings.erase.is_none() && settings.priority.is_none()
    }
}

/// Whether clauses can be printed as the settings ask for: they have no form as JSON.
fn fits_clauses(settings: &Settings<'_>) -> bool
    ensures { result ≡ fits_clauses settings.now }
{
    !asks_for_c(settings) && settings.erase.is_none() && is_plain(settings.format)
}

/// Whether a command can do what its settings ask for.
fn fits(settings: &Settings<'_>, command: &Command<'_>) -> bool
    ensures { result ≡ fits settings.now command.now }
{
    match command {
        Command::Emit { .. } | Command::EmitOutline { .. } => !settings.is_smt,
        Command::Accesses { .. } | Command::AccessesOutline { .. } | Command::Run { .. } => {
            !asks_for_form(settings)
        }
        Command::Clauses { .. } => fits_clauses(settings),
        Command::Complete { .. } => false,
        Command::Verify {
            is_runs_only,
            text,
            ..
        } => !asks_for_form(settings) && fits_verdict(settings, *is_runs_only, *text),
        _ => !asks_for_form(settings) && settings.erase.is_none(),
    }
}

/// The line that reports that a command can't do what its settings ask for.
fn unfit(settings: &Settings<'_>, command: &Command<'_>) -> &'static str {
    match command {
        Command::Run { .. } => "error: --format takes plain or json\n",
        Command::Clauses { .. } => "error: --format takes plain or smt2\n",
        Command::Verify { .. } if settings.has_accesses && !settings.is_c => {
            "error: --accesses goes without --runs-only, --text and --format json\n"
        }
        Command::Verify { .. } if settings.priority.is_some() => {
            "error: --priority goes with --accesses\n"
        }
        _ => UNFIT,
    }
}

/// The sentence for all others.
const UNFIT: &str =
    "error: --erase goes with emit, accesses and a run of TEXT DERIVATION PROOFS, --format c with emit, and --format smt2 with clauses\n";

/// The answer of a command over an outline.
fn answer_outline<'a, R: Threads + Wait + Sync, P: Watcher + Copy + Sync>(
    context: &Context<'_, R, P>,
    line: &Line<'a>,
    files: &Files<'a>,
    notes: &mut Vec<u8>,
    sides: &mut Sides,
) -> Result<Answer<'a>, Stop>
    requires over { IsOverOutline line.now.command }
    ensures answer { IfOk result (IsAnswer line.now.settings line.now.command files.now) }
    ensures put { OnOk result (ArePut line.now.command files.now sides.old sides.new) }
    ensures stopped { IfErr result (IsStop line.now.settings line.now.command files.now) }
{
    let settings = &line.settings;
    match line.command {
        Command::EmitOutline { .. } => emit_outline(context, settings, files, notes),
        Command::AccessesOutline { .. } => accesses_outline(context, settings, files, notes),
        Command::RunOutline {
            start,
            moves,
            limit,
            draw,
            ..
        } => {
            let asked = Asked::new(start, moves, limit, draw);
            run_outline(context, settings, asked, files)
        }
        Command::Outline {
            steps,
            text,
            derivation,
            proofs,
            map,
            ..
        } => {
            let written = Written::new(text, derivation, proofs, map);
            expand(context, written, steps, files, sides)
        }
        Command::Verify {
            outlines,
            steps,
            is_runs_only,
            text,
        } => {
            let asked = Verification::new(outlines, steps, is_runs_only, text);
            verify(context, settings, asked, files, notes, sides)
        }
        Command::Challenge { has_refused, .. } => {
            challenge_outline(context, settings, has_refused, files, notes)
        }
        Command::Complete { .. } => Err(Stop::Usage(UNFIT)),
        _ => Err(Stop::Usage(UNFIT)),
    }
}

/// The answer of a command that can do what its settings ask for.
fn answer_of<'a, R: Threads + Wait + Sync, P: Watcher + Copy + Sync>(
    context: &Context<'_, R, P>,
    line: &Line<'a>,
    files: &Files<'a>,
    notes: &mut Vec<u8>,
    sides: &mut Sides,
) -> Result<Answer<'a>, Stop>
    requires { notes.old.items ≡ [] }
    ensures answer { IfOk result (IsAnswer line.now.settings line.now.command files.now) }
    ensures put { OnOk result (ArePut line.now.command files.now sides.old sides.new) }
    ensures notes { OnOk result (AreNotesOf line.now.command notes.new.items) }
    ensures stopped { IfErr result (IsStop line.now.settings line.now.command files.now) }
{
    let (alloc, settings) = (context.alloc, &line.settings);
    match line.command {
        Command::Number { .. } => number(alloc, files),
        Command::Check { .. } => check(context, files),
        Command::Conditions { has_formulas, .. } => {
            conditions(alloc, settings.format, has_formulas, files)
        }
        Command::Prove {
            steps,
            conditions,
            ..
        } => prove(context, steps, conditions, files),
        Command::Valid { .. } => valid(context, files),
        Command::Clauses { chosen, .. } => {
            clauses_or_script(alloc, settings.is_smt, chosen, files)
        }
        Command::Find { steps, chosen, .. } => find_of(context, steps, chosen, files),
        Command::Explain { number } => explain(number, files),
        Command::Emit { .. } => emit(context, settings, files, notes),
        Command::Accesses { .. } => accesses(context, settings, files, notes),
        Command::Run {
            start,
            moves,
            limit,
            draw,
            ..
        } => {
            let asked = Asked::new(start, moves, limit, draw);
            run(context, settings, asked, files)
        }
        _ => answer_outline(context, line, files, notes, sides),
    }
}

/// What the line asks of the files that it names, in the threads of the context, each search with a copy of the watcher. What is reported of the answer is
/// noted, and what is written beside the output is put into `sides`.
///
/// # Errors
///
/// - `Stop::Device` for the first file that the command names and that has no bytes.
/// - `Stop::Usage` where the words don't fit.
/// - `Stop::Refused` for the first fault of the files, or where memory is refused.
/// - `Stop::Unverified` where conditions of an outline have no proof.
/// - `Stop::Fault` where an outline is refused, where words can't be erased, or where no C does a step at once.
pub fn answer<'a, R: Threads + Wait + Sync, P: Watcher + Copy + Sync>(
    context: &Context<'_, R, P>,
    line: &Line<'a>,
    files: &Files<'a>,
    notes: &mut Vec<u8>,
    sides: &mut Sides,
) -> Result<Answer<'a>, Stop>
    requires { notes.old.items ≡ [] }
    // It can do what its settings ask for.
    ensures fit { OnOk result (fits line.now.settings line.now.command ≡ true) }
    ensures answer { IfOk result (IsAnswer line.now.settings line.now.command files.now) }
    ensures put { OnOk result (ArePut line.now.command files.now sides.old sides.new) }
    ensures notes { OnOk result (AreNotesOf line.now.command notes.new.items) }
    ensures stopped { IfErr result (IsStop line.now.settings line.now.command files.now) }
{
    if !fits(&line.settings, &line.command) {
        return Err(Stop::Usage(unfit(&line.settings, &line.command)));
    }
    answer_of(context, line, files, notes, sides)
}
