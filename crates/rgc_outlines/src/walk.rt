//! The walk of an outline's text, and the runs of an outline alone, where no assertion is asked.

ghost use Rattle.std.specs.Prelude.{IsTrue, IfOk, IfErr};
ghost use Rattle.rg_parse.specs.Programs.{IsProgramRefusal};
ghost use Rattle.rg_walk.specs.Breaking.{OnBreaks};
ghost use Rattle.rgc_outlines.specs.WalkedRefuted.{IsRefuted};
ghost use Rattle.rgc_outlines.specs.WalkReport.{IsReportOf, IsWalkOf};

use rg_outline_reports::{Format, Outlined, WalkReport};
use rg_parse::program;
use rg_walk::{Bounds, Walked, walk};
use rg_watch::Watcher;
use rg_words::{Refusal, RefusalNumber};
use std::alloc::{AllocError, Global};

/// How far a walk goes where conditions have no proof: about five seconds.
pub(crate) const BOUNDS: Bounds = Bounds {
    steps: 12_000_000,
    bytes: 1_500_000_000,
    with_parts: true,
};

/// The most steps of the runs of a program that are followed alone, where a command doesn't name them: about ten seconds.
const MOST_STEPS: u64 = 25_000_000;

/// How far a walk goes at most for a run that gets stuck, where all conditions are proved: about a fifth of a second.
const BOUNDS_FOR_STUCK: Bounds = Bounds {
    steps: 500_000,
    bytes: 100_000_000,
    with_parts: false,
};

/// The most steps for each condition that was proved: in the examples they take less time than its proof.
const STEPS_OF_CONDITION: u64 = 5_000;

/// What was found of the runs of an outline's program.
#[derive(Drop)]
pub struct WalkedRuns {
    /// Whether one of them breaks the specification of the program, or, where parts are looked at, of a part.
    pub is_broken: bool,
    /// That run, in the outline's words; or that none was found, and how far the walk went: there may still be one.
    pub report: WalkReport,
    /// The warning of a run that gets stuck, if there is one.
    pub warnings: Vec<u8>,
}

/// Walks the program that a text spells, as `rg_walk::walk` does: from these states, too, no further than these bounds, and as long as the watcher lets
/// it.
///
/// # Errors
///
/// As `rg_parse::program`; `Memory` where memory is refused.
pub fn walk_text<W: Watcher>(
    alloc: Global,
    text: &[u8],
    given: &[Vec<u64>],
    bounds: Bounds,
    watcher: &mut W,
) -> Result<Walked, Refusal>
    // A run is given only where the text's program doesn't satisfy its specification.
    ensures breaks { IfOk result (λ walked. OnBreaks walked (IsRefuted text.now)) }
    // It is one of this program, and breaks the specification.
    ensures walked { IfOk result (IsWalkOf text.now) }
    ensures refused { IfErr result (IsProgramRefusal text.now) }
{
    let program = match program(alloc, text) {
        Ok(program) => program,
        Err(refusal) => return Err(refusal),
    };
    let walked = walk(alloc, &program, given, bounds, watcher)?;
    Ok(walked)
}

/// Adds a warning where a walk found a run that gets stuck: after a blank line, where there are others.
fn push_stuck(
    outlined: &Outlined<'_>,
    walked: &Walked,
    warnings: &mut Vec<u8>,
) -> Result<(), AllocError> {
    if let Walked::NotFound(found) = walked
        && let Some(run) = found.stuck()
    {
        let lines = outlined.stuck(run)?;
        if !warnings.is_empty() && outlined.outline.format == Format::Plain {
            warnings.push(b'\n')?;
        }
        warnings.extend_from_slice(&lines)?;
    }
    Ok(())
}

/// How far a walk goes for a run that gets stuck, where so many conditions were proved, and with at most so many steps where a command names them.
fn bounds_for_stuck(conditions: usize, most: Option<u64>) -> Bounds {
    let proved = (conditions as u64).saturating_mul(STEPS_OF_CONDITION);
    let steps = BOUNDS_FOR_STUCK.steps.min(proved);
    Bounds {
        steps: steps.min(most.unwrap_or(u64::MAX)),
        ..BOUNDS_FOR_STUCK
    }
}

/// Follows runs of an outline's program, of which so many conditions were proved, for a short time, with at most so many steps where a command names them;
/// and adds a warning where one gets stuck, unless warnings are off.
/// An error comes only where memory is refused.
pub fn push_stuck_warning<W: Watcher>(
    alloc: Global,
    outlined: &Outlined<'_>,
    conditions: usize,
    most: Option<u64>,
    warnings: &mut Vec<u8>,
    watcher: &mut W,
) -> Result<(), AllocError> {
    if !outlined.outline.has_warnings {
        return Ok(());
    }
    let bounds = bounds_for_stuck(conditions, most);
    match walk_text(alloc, &outlined.files.text, &[], bounds, watcher) {
        Ok(walked) => push_stuck(outlined, &walked, warnings),
        Err(refusal) if refusal.number == RefusalNumber::Memory => Err(AllocError),
        Err(_) => Ok(()),
    }
}

/// What a walk of an outline's text finds within these bounds. `given` are states from which it looks, too, each as the values of the words in their order.
///
/// # Errors
///
/// As `walk_text`.
pub(crate) fn runs_within<W: Watcher>(
    alloc: Global,
    outlined: &Outlined<'_>,
    given: &[Vec<u64>],
    bounds: Bounds,
    watcher: &mut W,
) -> Result<WalkedRuns, Refusal>
    ensures broken { IfOk result (λ runs. IsTrue runs.is_broken → IsRefuted outlined.now.files.text.items) }
    ensures report { IfOk result (λ runs. IsReportOf outlined.now.files.text.items runs.is_broken runs.report) }
    ensures refused { IfErr result (IsProgramRefusal outlined.now.files.text.items) }
{
    let walked = match walk_text(alloc, &outlined.files.text, given, bounds, watcher) {
        Ok(walked) => walked,
        Err(refusal) => return Err(refusal),
    };
    let is_broken = matches!(walked, Walked::Breaks(_));
    let mut warnings = Vec::new(alloc);
    push_stuck(outlined, &walked, &mut warnings)?;
    let report = WalkReport::of(outlined, walked)?;
    Ok(WalkedRuns {
        is_broken,
        report,
        warnings,
    })
}

/// What is found of the runs of an outline's program alone: whether one breaks the program's specification. At most so many steps are made, or as many as
/// take about ten seconds.
///
/// # Errors
///
/// Where the outline's text is refused, as any text is. `Memory` where memory is refused.
pub fn runs_only<W: Watcher>(
    alloc: Global,
    outlined: &Outlined<'_>,
    steps: Option<u64>,
    watcher: &mut W,
) -> Result<WalkedRuns, Refusal>
    // A run is reported only where the program that the outline's text spells doesn't satisfy its specification.
    ensures broken { IfOk result (λ runs. IsTrue runs.is_broken → IsRefuted outlined.now.files.text.items) }
    // What is reported is what a walk of this program found: a run of it that breaks the specification, or that none was found.
    ensures report { IfOk result (λ runs. IsReportOf outlined.now.files.text.items runs.is_broken runs.report) }
    ensures refused { IfErr result (IsProgramRefusal outlined.now.files.text.items) }
{
    let bounds = Bounds {
        steps: steps.unwrap_or(MOST_STEPS),
        with_parts: false,
        ..BOUNDS
    };
    runs_within(alloc, outlined, &[], bounds, watcher)
}
