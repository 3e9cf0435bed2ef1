//! The answers of the commands over an outline.

ghost use Rattle.std.specs.Prelude.{◌≡◌, ◌++◌, ℕ, List, Option, Some, true, false, is_some, string_bytes, map, IfOk, IfErr, OnOk};
ghost use Rattle.std.specs.Borrow.{Bor};
ghost use Rattle.rg_accept.specs.Stages.{derived_program, derived_lines};
ghost use Rattle.rgc_line.specs.declared.command.Command.TheVariants.{Challenge, Verify};
ghost use Rattle.rgc_line.specs.declared.command.Settings.{Settings as LineSettings};
ghost use Rattle.rgc_outlines.specs.Cut.{IsOfPieces};
ghost use Rattle.rgc_outlines.specs.Proved.{IsProvedOf};
ghost use Rattle.rgc_outlines.specs.Verdict.{name_text};
ghost use Rattle.rg_outline_reports.specs.WalkReport.{reported_lines};
ghost use Rattle.rgc_commands.specs.Answers.{IsAnswer, IsTextOf, HasMore};
ghost use Rattle.rgc_commands.specs.Of.{files_of, outline_files, IsReportedBy};
ghost use Rattle.rgc_commands.specs.Put.{AreProofs, ArePut, IsPut};
ghost use Rattle.rgc_commands.specs.Inner.Expansion.{expansion};
ghost use Rattle.rgc_commands.specs.Inner.Stops.{IsDevice, IsFaultStop, IsNoOutline, IsProofStop, NoFault, IsVerifiedStop, IsExpandStop};
ghost use Rattle.rgc_commands.specs.Stops.{IsStop, LacksMore, outline_line, search_steps};

use crate::answers::{Answer, Verified};
use crate::code::Form;
use crate::coding::proved_text;
use crate::files::{Expanded, Files};
use crate::sides::Sides;
use crate::stops::Stop;
use rg_outline_reports::{NoFiles, Outlined, WalkReport};
use rg_watch::Watcher;
use rgc::{Derived, Unproved};
use rgc_answers::Context;
use rgc_line::{Format, Outlines, Settings};
use rgc_outlines::{
    Options, Proved, VerdictForm, challenge_changes, derive_outline, prove_outline, push_name,
    push_stuck_warning, runs_only, unproved_report, walk_report, warnings_of,
};
use std::alloc::{AllocError, Global};
use std::sync::Wait;
use std::thread::Threads;

/// What the outline of a command was worked out to.
pub(crate) fn expanded_of<'a>(files: &Files<'a>) -> Result<&'a Expanded<'a>, Stop>
    ensures expanded { IfOk result (λ e. files.now.outline ≡ Some e) }
    ensures unread { (rest : Option (List ℕ)) → IfErr result (IsDevice (outline_line files.now rest)) }
{
    match files.outline {
        Some(expanded) => Ok(expanded),
        None => Err(Stop::Device("device outline\n")),
    }
}

/// The outline, where it stands for files.
fn outlined_in<'a>(alloc: Global, expanded: &'a Expanded<'a>) -> Result<&'a Outlined<'a>, Stop>
    ensures files { IfOk result (λ o. files_of expanded.now ≡ Some o.now.files) }
    ensures none { IfErr result (IsFaultStop (IsReportedBy expanded.now)) }
{
    match expanded {
        Ok(outlined) => Ok(outlined),
        Err(NoFiles::Reported(lines)) => Err(Stop::Fault(Vec::from_slice(alloc, lines)?)),
        Err(NoFiles::Memory) => Err(Stop::from(AllocError)),
    }
}

/// The outline of a command, where it stands for files.
pub(crate) fn outlined_of<'a>(alloc: Global, files: &Files<'a>) -> Result<&'a Outlined<'a>, Stop>
    ensures files { IfOk result (λ o. outline_files files.now.outline ≡ Some o.now.files) }
    ensures none { IfErr result (IsNoOutline files.now) }
{
    let expanded = expanded_of(files)?;
    outlined_in(alloc, expanded)
}

/// The most decisions of each search, where a command doesn't name them.
pub(crate) const MOST_STEPS: u64 = 1_000_000;

/// The most decisions of each search for a changed program.
const MOST_STEPS_FOR_CHANGES: u64 = 10_000;

/// A walk of an outline's program: in which form it is printed what it finds, and the most steps that it makes, where a command names them.
#[derive(Clone, Copy)]
pub(crate) struct AskedWalk<'a> {
    form: VerdictForm<'a>,
    most: Option<u64>,
}

/// Has the watcher print a report before a walk, which may take long; where it does, the report is cleared.
fn show<W: Watcher>(watcher: &mut W, report: &mut Vec<u8>) {
    if watcher.found(report) {
        report.clear();
    }
}

/// What is printed of conditions of an outline that have no proof; and what a walk of its program finds, where there is one. What has no proof is left out
/// where the watcher has printed it.
fn unverified<R, P: Watcher + Copy>(
    context: &Context<'_, R, P>,
    outlined: &Outlined<'_>,
    unproved: &[Unproved],
    walk: Option<AskedWalk<'_>>,
) -> Result<Vec<u8>, Stop>
    ensures { (steps : ℕ) → IfErr result (IsProofStop outlined.now.files steps NoFault) }
{
    let alloc = context.alloc;
    let mut own = *context.watcher;
    let mut report = unproved_report(alloc, outlined, unproved)?;
    if let Some(walk) = walk {
        push_name(walk.form, &mut report)?;
        show(&mut own, &mut report);
        let walked = walk_report(alloc, outlined, unproved, walk.most, &mut own)?;
        report.extend_from_slice(walked.report.lines())?;
    }
    Ok(report)
}

/// Proofs of all conditions of an outline, each found with at most so many decisions. Where some have none, what a walk finds is printed too, where there is
/// one.
pub(crate) fn prove<R: Threads + Wait + Sync, P: Watcher + Copy + Sync>(
    context: &Context<'_, R, P>,
    outlined: &Outlined<'_>,
    steps: u64,
    walk: Option<AskedWalk<'_>>,
) -> Result<Proved, Stop>
    ensures proved { IfOk result (IsProvedOf outlined.now.files) }
    ensures stopped { IfErr result (IsProofStop outlined.now.files steps NoFault) }
{
    match prove_outline(context, outlined, steps)? {
        Ok(proved) => Ok(proved),
        Err(unproved) => {
            let report = unverified(context, outlined, &unproved, walk)?;
            Err(Stop::Unverified(report))
        }
    }
}

/// The most decisions of each search, where a command says so or not.
pub(crate) fn search_steps(steps: Option<u64>) -> u64
    ensures { result ≡ search_steps steps }
{
    steps.unwrap_or(MOST_STEPS)
}

/// How it is said that an outline is verified: after its name, where it is one of several.
pub(crate) fn form_of<'a>(format: Format, outlines: Outlines<'a>) -> VerdictForm<'a> {
    match format {
        Format::Json => VerdictForm::Json(outlines.outline),
        Format::Plain if outlines.count > 1 => VerdictForm::Named(outlines.outline),
        Format::Plain => VerdictForm::Alone,
    }
}

/// How an outline is verified.
#[derive(Clone, Copy)]
pub(crate) struct Verification<'a> {
    outlines: Outlines<'a>,
    /// The most decisions of each search, or steps of runs.
    steps: Option<u64>,
    /// Whether its runs alone are followed.
    is_runs_only: bool,
    /// The file for the program's text.
    text: Option<&'a str>,
}

impl<'a> Verification<'a> {
    pub(crate) fn new(
        outlines: Outlines<'a>,
        steps: Option<u64>,
        is_runs_only: bool,
        text: Option<&'a str>,
    ) -> Verification<'a>
        ensures { result ≡ record { outlines = outlines.entry; steps = steps; is_runs_only = is_runs_only; text = text.entry } }
    {
        Verification {
            outlines,
            steps,
            is_runs_only,
            text,
        }
    }
}

/// The outline that is verified; its text is put beside the output where that is asked for.
fn verified_outline<'a>(
    alloc: Global,
    asked: Verification<'_>,
    files: &Files<'a>,
    sides: &mut Sides,
) -> Result<&'a Outlined<'a>, Stop>
    ensures files { IfOk result (λ o. outline_files files.now.outline ≡ Some o.now.files) }
    ensures text { IfOk result (λ o. IsPut asked.entry.text o.now.files.text.items sides.old.text.items sides.new.text.items) }
    ensures stopped { IfErr result (IsVerifiedStop asked.entry.outlines asked.entry.text files.now) }
{
    if asked.text.is_some() && asked.outlines.count != 1 {
        return Err(Stop::Usage("error: --text takes one outline\n"));
    }
    let outlined = outlined_of(alloc, files)?;
    if asked.text.is_some() {
        sides.text.extend_from_slice(&outlined.files.text)?;
    }
    Ok(outlined)
}

/// What is printed after a verdict: how each step is done in C, where that is asked for.
fn more_of<R: Threads + Wait + Sync, P: Watcher + Copy>(
    context: &Context<'_, R, P>,
    settings: &Settings<'_>,
    outlined: &Outlined<'_>,
    proved: Proved,
    notes: &mut Vec<u8>,
) -> Result<Vec<u8>, Stop>
    requires { IsProvedOf outlined.now.files proved }
    ensures more { IfOk result (λ more. HasMore settings.now outlined.now.files more.items) }
    ensures stopped { (steps : ℕ) → IfErr result (IsProofStop outlined.now.files steps (LacksMore settings.now outlined.now.files)) }
{
    let alloc = context.alloc;
    if !settings.has_accesses {
        return Ok(Vec::new(context.alloc));
    }
    let text = proved_text(context, settings, Form::Accesses, outlined, proved, notes)?;
    Ok(text.into_bytes())
}

/// The verdict on an outline. Its warnings are noted.
fn verify_conditions<'a, R: Threads + Wait + Sync, P: Watcher + Copy + Sync>(
    context: &Context<'_, R, P>,
    settings: &Settings<'a>,
    asked: Verification<'a>,
    files: &Files<'a>,
    notes: &mut Vec<u8>,
    sides: &mut Sides,
) -> Result<Answer<'a>, Stop>
    ensures answer { IfOk result (IsAnswer settings.now (Verify asked.entry.outlines asked.entry.steps false asked.entry.text) files.now) }
    ensures put { OnOk result (ArePut (Verify asked.entry.outlines asked.entry.steps false asked.entry.text) files.now sides.old sides.new) }
    ensures stopped { IfErr result (IsStop settings.now (Verify asked.entry.outlines asked.entry.steps false asked.entry.text) files.now) }
{
    let alloc = context.alloc;
    let outlined = verified_outline(alloc, asked, files, sides)?;
    let mut own = *context.watcher;
    let warnings = warnings_of(alloc, outlined, &mut own)?;
    notes.extend_from_slice(&warnings)?;
    let form = form_of(settings.format, asked.outlines);
    let most = asked.steps;
    let walk = AskedWalk { form, most };
    let proved = prove(context, outlined, search_steps(most), Some(walk))?;
    let counts = proved.counts(alloc)?;
    push_stuck_warning(alloc, outlined, counts.conditions, most, notes, &mut own)?;
    let more = more_of(context, settings, outlined, proved, notes)?;
    Ok(Answer::Verified(Verified {
        form,
        conditions: counts.conditions,
        found: counts.found,
        more,
    }))
}

/// The lines that report what a walk found, after the outline's name where they begin with it.
fn walked_text(
    alloc: Global,
    form: VerdictForm<'_>,
    report: &WalkReport,
) -> Result<Vec<u8>, AllocError>
    ensures { IfOk result (λ text. text.items ≡ name_text form.entry ++ reported_lines report.now) }
{
    let mut text = Vec::new(alloc);
    push_name(form, &mut text)?;
    text.extend_from_slice(report.lines())?;
    Ok(text)
}

/// What is found of the runs of an outline's program alone. Where none breaks its specification, the warning of one that gets stuck is noted.
fn walk<'a, R, P: Watcher + Copy>(
    context: &Context<'_, R, P>,
    settings: &Settings<'a>,
    asked: Verification<'a>,
    files: &Files<'a>,
    notes: &mut Vec<u8>,
    sides: &mut Sides,
) -> Result<Answer<'a>, Stop>
    ensures answer { IfOk result (IsAnswer settings.now (Verify asked.entry.outlines asked.entry.steps true asked.entry.text) files.now) }
    ensures put { OnOk result (ArePut (Verify asked.entry.outlines asked.entry.steps true asked.entry.text) files.now sides.old sides.new) }
    ensures stopped { IfErr result (IsStop settings.now (Verify asked.entry.outlines asked.entry.steps true asked.entry.text) files.now) }
{
    let alloc = context.alloc;
    let mut own = *context.watcher;
    let outlined = verified_outline(alloc, asked, files, sides)?;
    let runs = runs_only(alloc, outlined, asked.steps, &mut own)?;
    let form = form_of(settings.format, asked.outlines);
    let text = walked_text(alloc, form, &runs.report)?;
    if !runs.is_broken {
        notes.extend_from_slice(&runs.warnings)?;
    }
    Ok(Answer::Walked(runs.is_broken, text))
}

/// The verdict on an outline, or what is found of its program's runs alone.
pub(crate) fn verify<'a, R: Threads + Wait + Sync, P: Watcher + Copy + Sync>(
    context: &Context<'_, R, P>,
    settings: &Settings<'a>,
    asked: Verification<'a>,
    files: &Files<'a>,
    notes: &mut Vec<u8>,
    sides: &mut Sides,
) -> Result<Answer<'a>, Stop>
    ensures answer { IfOk result (IsAnswer settings.now (Verify asked.entry.outlines asked.entry.steps asked.entry.is_runs_only asked.entry.text) files.now) }
    ensures put { OnOk result (ArePut (Verify asked.entry.outlines asked.entry.steps asked.entry.is_runs_only asked.entry.text) files.now sides.old sides.new) }
    ensures stopped { IfErr result (IsStop settings.now (Verify asked.entry.outlines asked.entry.steps asked.entry.is_runs_only asked.entry.text) files.now) }
{
    if asked.is_runs_only {
        walk(context, settings, asked, files, notes, sides)
    } else {
        verify_conditions(context, settings, asked, files, notes, sides)
    }
}

/// The verdict on an outline, and which small changes of its program its specification doesn't see. Its warnings are noted where it isn't verified.
pub(crate) fn challenge_outline<'a, R: Threads + Wait + Sync, P: Watcher + Copy + Sync>(
    context: &Context<'_, R, P>,
    settings: &Settings<'a>,
    has_refused: bool,
    files: &Files<'a>,
    notes: &mut Vec<u8>,
) -> Result<Answer<'a>, Stop>
    ensures answer { (o : Bor (List ℕ)) → IfOk result (IsAnswer settings.now (Challenge o has_refused) files.now) }
    ensures stopped { (o : Bor (List ℕ)) → IfErr result (IsStop settings.now (Challenge o has_refused) files.now) }
{
    let alloc = context.alloc;
    let outlined = outlined_of(alloc, files)?;
    let form = match settings.format {
        Format::Json => VerdictForm::Json(outlined.outline.name),
        Format::Plain => VerdictForm::Alone,
    };
    let mut own = *context.watcher;
    *notes = warnings_of(alloc, outlined, &mut own)?;
    let walk = AskedWalk { form, most: None };
    let proved = prove(context, outlined, MOST_STEPS, Some(walk))?;
    notes.clear();
    let counts = proved.counts(alloc)?;
    let options = Options {
        steps_for_changes: MOST_STEPS_FOR_CHANGES,
        with_refused: has_refused,
    };
    let found = challenge_changes(context, outlined, &proved, options)?;
    Ok(Answer::Verified(Verified {
        form,
        conditions: counts.conditions,
        found: counts.found,
        more: found.lines,
    }))
}

/// The files that a command over an outline names to write to.
#[derive(Clone, Copy)]
pub(crate) struct Written<'a> {
    text: Option<&'a str>,
    derivation: Option<&'a str>,
    proofs: Option<&'a str>,
    map: Option<&'a str>,
}

impl<'a> Written<'a> {
    pub(crate) fn new(
        text: Option<&'a str>,
        derivation: Option<&'a str>,
        proofs: Option<&'a str>,
        map: Option<&'a str>,
    ) -> Written<'a>
        ensures { result ≡ record { text = text.entry; derivation = derivation.entry; proofs = proofs.entry; map = map.entry } }
    {
        Written {
            text,
            derivation,
            proofs,
            map,
        }
    }
}

/// Puts what is named of an outline beside the output, but for its text and its proofs.
fn put(outlined: &Outlined<'_>, written: Written<'_>, sides: &mut Sides) -> Result<(), AllocError>
    ensures derivation { OnOk result (IsPut written.entry.derivation outlined.now.files.derivation.items sides.old.derivation.items
        sides.new.derivation.items) }
    ensures text { OnOk result (sides.new.text.items ≡ sides.old.text.items) }
    ensures proofs { OnOk result (sides.new.proofs.items ≡ sides.old.proofs.items) }
{
    if written.derivation.is_some() {
        let derivation = &outlined.files.derivation;
        sides.derivation.extend_from_slice(derivation)?;
        sides.cuts.extend_from_slice(&outlined.files.cuts)?;
    }
    if written.map.is_some() {
        sides.map = outlined.map()?;
    }
    Ok(())
}

/// Puts the text of an outline beside the output where a file is named for it; else it is what is printed.
fn printed_text(
    alloc: Global,
    outlined: &Outlined<'_>,
    written: Written<'_>,
    sides: &mut Sides,
) -> Result<Vec<u8>, AllocError>
    ensures printed { IfOk result (λ text. IsTextOf (is_some written.entry.text) outlined.now.files text.items) }
    ensures text { OnOk result (IsPut written.entry.text outlined.now.files.text.items sides.old.text.items sides.new.text.items) }
    ensures derivation { OnOk result (sides.new.derivation.items ≡ sides.old.derivation.items) }
    ensures proofs { OnOk result (sides.new.proofs.items ≡ sides.old.proofs.items) }
{
    let text = &outlined.files.text;
    if written.text.is_none() {
        return Vec::from_slice(alloc, text);
    }
    sides.text.extend_from_slice(text)?;
    Ok(Vec::new(alloc))
}

/// What an outline's files derive; the proofs of all conditions, where a file is named for them, are put beside the output. At most so many decisions are
/// made for each, where a command says so.
fn derive<R: Threads + Wait + Sync, P: Watcher + Copy + Sync>(
    context: &Context<'_, R, P>,
    outlined: &Outlined<'_>,
    written: Written<'_>,
    steps: Option<u64>,
    sides: &mut Sides,
) -> Result<Derived, Stop>
    ensures derived { IfOk result (λ d. IsOfPieces outlined.now.files.text.items outlined.now.files.derivation.items (derived_program d) (derived_lines d)) }
    ensures proofs { OnOk result (AreProofs written.entry.proofs outlined.now.files (map string_bytes sides.new.proofs.items)) }
    ensures text { OnOk result (sides.new.text.items ≡ sides.old.text.items) }
    ensures derivation { OnOk result (sides.new.derivation.items ≡ sides.old.derivation.items) }
    ensures stopped { IfErr result (IsExpandStop (is_some written.entry.proofs) outlined.now.files (search_steps steps)) }
{
    if written.proofs.is_none() {
        return Ok(derive_outline(context.alloc, &outlined.files)?);
    }
    let Proved { derived, proofs } = prove(context, outlined, search_steps(steps), None)?;
    sides.proofs = proofs;
    Ok(derived)
}

/// What an outline stands for: into `sides` what is named for files, and the text to the output where it isn't.
pub(crate) fn expand<'a, R: Threads + Wait + Sync, P: Watcher + Copy + Sync>(
    context: &Context<'_, R, P>,
    written: Written<'a>,
    steps: Option<u64>,
    files: &Files<'a>,
    sides: &mut Sides,
) -> Result<Answer<'a>, Stop>
    ensures answer { (s : LineSettings) → (o : Bor (List ℕ)) → IfOk result (IsAnswer s (expansion o steps written.entry) files.now) }
    ensures put { (o : Bor (List ℕ)) → OnOk result (ArePut (expansion o steps written.entry) files.now sides.old sides.new) }
    ensures stopped { (s : LineSettings) → (o : Bor (List ℕ)) → IfErr result (IsStop s (expansion o steps written.entry) files.now) }
{
    let outlined = outlined_of(context.alloc, files)?;
    let _ = derive(context, outlined, written, steps, sides)?;
    put(outlined, written, sides)?;
    let text = printed_text(context.alloc, outlined, written, sides)?;
    Ok(Answer::Expanded(text))
}
