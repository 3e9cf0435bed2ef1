//! What is reported of an outline of which some conditions have no proof.

ghost use Rattle.std.specs.Prelude.{IsTrue, IfOk, IfErr};
ghost use Rattle.rg_parse.specs.Programs.{IsProgramRefusal};
ghost use Rattle.rgc_outlines.specs.WalkedRefuted.{IsRefuted};
ghost use Rattle.rgc_outlines.specs.WalkReport.{IsReportOf};

use crate::claims::confirmed;
use crate::walk::{BOUNDS, WalkedRuns, runs_within};
use rg_find::Judged;
use rg_outline_reports::{Failed, Failing, Failures, Outlined, values_of};
use rg_parse::program;
use rg_walk::Bounds;
use rg_watch::Watcher;
use rg_words::{Refusal, RefusalNumber};
use rgc::Unproved;
use std::alloc::{AllocError, Global};

/// What is known of a condition without a proof, as it is reported of an outline: with the states in which it is false, or without them.
fn failing(judged: &Judged, has_states: bool) -> Failing<'_> {
    match judged {
        Judged::Fails(first, second) if has_states => Failing::At(first, second.as_ref()),
        Judged::Fails(..) => Failing::False,
        Judged::GaveUp => Failing::Unproved,
        _ => Failing::TooLarge,
    }
}

/// What is reported of conditions without proofs, with the states in which they are false, or without them.
fn failures_of(
    alloc: Global,
    outlined: &Outlined<'_>,
    unproved: &[Unproved],
    has_states: bool,
) -> Result<Failures, AllocError> {
    let mut failed = Vec::new(alloc);
    for one in unproved {
        failed.push(Failed {
            number: one.number,
            failing: failing(&one.judged, has_states),
        })?;
    }
    outlined.failures(&failed)
}

/// What is reported of failures, where all that they say to be false is, over the words of this text; else nothing.
fn lines_if_so(
    alloc: Global,
    text: &[u8],
    failures: Failures,
) -> Result<Option<Vec<u8>>, AllocError> {
    match program(alloc, text) {
        Ok(program) => confirmed(alloc, &program.layout, failures),
        Err(refusal) if refusal.number == RefusalNumber::Memory => Err(AllocError),
        Err(_) => Ok(None),
    }
}

/// What is reported of the conditions of an outline that have no proof. Each formula that is said to be false is evaluated first, at the values that
/// are given; where one isn't false, no states are given but only which conditions there are.
/// An error comes only where memory is refused.
pub fn unproved_report(
    alloc: Global,
    outlined: &Outlined<'_>,
    unproved: &[Unproved],
) -> Result<Vec<u8>, AllocError> {
    let failures = failures_of(alloc, outlined, unproved, true)?;
    if let Some(lines) = lines_if_so(alloc, &outlined.files.text, failures)? {
        return Ok(lines);
    }
    let Failures { lines, .. } = failures_of(alloc, outlined, unproved, false)?;
    Ok(lines)
}

/// The states at which conditions fail.
fn states_of(alloc: Global, unproved: &[Unproved]) -> Result<Vec<Vec<u64>>, AllocError> {
    let mut states = Vec::new(alloc);
    for one in unproved {
        if let Judged::Fails(state, _) = &one.judged {
            states.push(values_of(alloc, state)?)?;
        }
    }
    Ok(states)
}

/// What a walk of an outline's text finds, which begins at the states at which conditions fail, too: whether a run breaks the specification of the program
/// or of one of its parts. (Runs that get stuck aren't looked for while conditions have no proof.)
///
/// # Errors
///
/// As `crate::walk_text`.
pub fn walk_report<W: Watcher>(
    alloc: Global,
    outlined: &Outlined<'_>,
    unproved: &[Unproved],
    steps: Option<u64>,
    watcher: &mut W,
) -> Result<WalkedRuns, Refusal>
    // A run is reported only where the program that the outline's text spells doesn't satisfy its specification.
    ensures broken { IfOk result (λ runs. IsTrue runs.is_broken → IsRefuted outlined.now.files.text.items) }
    // What is reported is what a walk of this program found.
    ensures report { IfOk result (λ runs. IsReportOf outlined.now.files.text.items runs.is_broken runs.report) }
    ensures refused { IfErr result (IsProgramRefusal outlined.now.files.text.items) }
{
    let states = states_of(alloc, unproved)?;
    let bounds = Bounds {
        steps: steps.unwrap_or(BOUNDS.steps),
        ..BOUNDS
    };
    runs_within(alloc, outlined, &states, bounds, watcher)
}
