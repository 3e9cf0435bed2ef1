//! An outline with the assertions that it lacks.

use crate::completion::{Completion, added_in};
use rg_complete::{Slot, fill};
use rg_outline_reports::{Demand, Outlined, read_outline};
use rg_outline_syntax::Texts;
use rg_watch::Watcher;
use rg_words::Refusal;
use rgc_answers::Context;
use rgc_inductive::{Begun, Failure, Subject, nameless, unfound_report, unless_refused};
use rgc_outlines::{Known, is_proved, prove_outline, runs_only};
use std::alloc::{AllocError, Global};
use std::sync::Wait;
use std::thread::Threads;

/// The most steps of runs that are followed where nothing is found.
const MOST_STEPS_OF_RUNS: u64 = 500_000;

/// The most decisions of each search for an outline with an assertion less.
const MOST_STEPS_OF_THINNING: u64 = 20_000;

/// What was found.
#[derive(Drop)]
pub enum Completed {
    /// An outline with what it lacked.
    Found(Completion),
    /// What is said where none are found; nothing where no assertions would help.
    Unfound(Vec<u8>),
    /// The watcher ended the search.
    GaveUp,
}

/// Whether an outline with these assertions is verified, as far as is known.
#[derive(Drop)]
struct Thinning<'s> {
    source: &'s [u8],
    slots: &'s [Slot],
    assertions: Vec<Vec<u8>>,
    steps: u64,
}

impl Thinning<'_> {
    /// The outline.
    fn outline(&self, alloc: Global) -> Result<Vec<u8>, AllocError> {
        let completion = self.completion(alloc)?;
        Ok(completion.source)
    }

    /// The outline, and what was added to it.
    fn completion(&self, alloc: Global) -> Result<Completion, AllocError> {
        let mut texts = Texts::new(alloc);
        for assertion in &self.assertions {
            texts.push(assertion)?;
        }
        let made = fill(alloc, self.source, self.slots, &texts)?;
        let assertions = added_in(alloc, &made, &texts)?;
        Ok(Completion {
            source: made.source,
            assertions,
            conjuncts: Vec::new(alloc),
            relies: Vec::new(alloc),
        })
    }

    /// Whether the outline is verified.
    fn is_verified<R: Threads + Wait + Sync, P: Watcher + Copy>(
        &self,
        context: &Context<'_, R, P>,
        known: &Known<'_>,
    ) -> Result<bool, Refusal> {
        let alloc = context.alloc;
        let source = self.outline(alloc)?;
        let outline = nameless(&source);
        let Some(read) = unless_refused(read_outline(alloc, outline))? else {
            return Ok(false);
        };
        match unless_refused(Outlined::of(alloc, outline, &read))? {
            Some(outlined) => {
                // (what takes long is rarely so)
                let steps = self.steps.min(MOST_STEPS_OF_THINNING);
                is_proved(context, &outlined.files, known, steps)
            }
            None => Ok(false),
        }
    }

    /// Puts an assertion at a place; what stood there.
    fn put(&mut self, place: usize, assertion: Vec<u8>) -> Option<Vec<u8>> {
        let slot = self.assertions.get_mut(place)?;
        Some(std::mem::replace(slot, assertion))
    }

    /// Leaves out each assertion without which the outline is verified, the last first.
    fn thin<R: Threads + Wait + Sync, P: Watcher + Copy>(
        &mut self,
        context: &Context<'_, R, P>,
        known: &Known<'_>,
    ) -> Result<(), Refusal> {
        for place in (0..self.slots.len()).rev() {
            let Some(before) = self.put(place, Vec::new(context.alloc)) else {
                continue;
            };
            if !self.is_verified(context, known)? {
                self.put(place, before);
            }
        }
        Ok(())
    }
}

/// Leaves out what the outline is verified without; whether it is verified.
fn thinned<R: Threads + Wait + Sync, P: Watcher + Copy + Sync>(
    context: &Context<'_, R, P>,
    thinning: &mut Thinning<'_>,
) -> Result<bool, Refusal> {
    let alloc = context.alloc;
    let source = thinning.outline(alloc)?;
    let outline = nameless(&source);
    let Some(read) = unless_refused(read_outline(alloc, outline))? else {
        return Ok(false);
    };
    let Some(outlined) = unless_refused(Outlined::of(alloc, outline, &read))? else {
        return Ok(false);
    };
    let Ok(proved) = prove_outline(context, &outlined, thinning.steps)? else {
        return Ok(false);
    };
    let conditions = proved.derived.conditions(alloc)?;
    let known = Known::of(alloc, &conditions, &proved.proofs)?;
    thinning.thin(context, &known)?;
    Ok(true)
}

/// What is said where a condition can't be made to hold: first a run of the program that breaks its specification, if a short walk finds one.
fn unfound_of<R, P: Watcher + Copy>(
    context: &Context<'_, R, P>,
    subject: &Subject,
    outlined: &Outlined<'_>,
    failure: &Failure,
) -> Result<Completed, Refusal> {
    let alloc = context.alloc;
    let mut own = *context.watcher;
    let mut report = Vec::new(alloc);
    if failure.duty.demand == Demand::Other {
        return Ok(Completed::Unfound(report));
    }
    let runs = runs_only(alloc, outlined, Some(MOST_STEPS_OF_RUNS), &mut own)?;
    if runs.is_broken {
        report.extend_from_slice(runs.report.lines())?;
    }
    report.extend_from_slice(&unfound_report(alloc, subject, outlined, failure)?)?;
    Ok(Completed::Unfound(report))
}

/// Searches for assertions that an outline lacks.
///
/// # Errors
///
/// Where memory is refused, or where more decisions are asked than a search may make.
pub fn complete<R: Threads + Wait + Sync, P: Watcher + Copy + Sync>(
    context: &Context<'_, R, P>,
    outlined: &Outlined<'_>,
    steps: u64,
) -> Result<Completed, Refusal> {
    let alloc = context.alloc;
    let source = outlined.outline.source;
    let unfound = Completed::Unfound(Vec::new(alloc));
    let Some(subject) = Subject::of(alloc, source, outlined.read, *context.watcher)? else {
        return Ok(unfound);
    };
    let Begun { mut search, .. } = subject.begin(alloc, *context.watcher)?;
    let failure = search.settle_all()?;
    if search.is_ended {
        return Ok(Completed::GaveUp);
    }
    if let Some(failure) = failure {
        return unfound_of(context, &subject, outlined, &failure);
    }
    search.shorten()?;
    let mut thinning = Thinning {
        source,
        slots: &subject.base.slots,
        assertions: search.assertions()?,
        steps,
    };
    if !thinned(context, &mut thinning)? {
        return Ok(unfound);
    }
    Ok(Completed::Found(thinning.completion(alloc)?))
}
