//! Whether a proofs file proves conditions, with whole conditions side by side.

ghost use Rattle.std.specs.Prelude.{◌≡◌, ◌⊎◌, ℕ, ◌+◌, ◌≤◌, ◌<◌, None, length, map, IfOk, OnOk, IfErr, IfSome, slice_index_or};
ghost use Rattle.rg_words.specs.Refusals.{no_memory};
ghost use Rattle.rg_tree.specs.Conditions.{condition_tree};
ghost use Rattle.rg_tree.specs.RuleConditions.{AllConditionsHold};
ghost use Rattle.rg_hints.specs.Placed.{text_of, AreFrom, ArePlaced};
ghost use Rattle.rg_hints.specs.Proved.{AllProvedFrom, AreProved, IsFirstRefusal, IsProofsRefusal};
ghost use Rattle.rg_pool.specs.Inner.Verdicts.{IsVerdictAt, AreVerdicts};

use crate::dealing::deal;
use crate::pieces::{Unreported, check_all, ran_out};
use rg_clauses::Clauses;
use rg_hints::{
    Checker, Lines, Prover, SectionBytes, check, place_sections, proof_sections, prove,
    prove_condition,
};
use rg_tree::condition::Condition;
use rg_words::Refusal;
use std::alloc::{AllocError, Global};
use std::sync::Wait;
use std::sync::atomic::{AtomicBool, Ordering};
use std::thread::Threads;

/// Some conditions of many, and the sections of a proofs file: `before` conditions stand before the first of these. At each
/// place of `placed`, which counts from 0 over all of the conditions, stands the section of the condition there, if it has one.
#[derive(Clone, Copy)]
struct PlacedPart<'p, 's> {
    before: usize,
    conditions: &'p [Condition],
    sections: &'p [SectionBytes<'s>],
    placed: &'p [Option<SectionBytes<'s>>],
}

/// What is reported of the condition at this place, from 0.
fn prove_at<R: Threads + Wait + Sync>(
    checker: &InThreads<'_, R>,
    alloc: Global,
    part: &PlacedPart<'_, '_>,
    index: usize,
) -> Result<(), Refusal>
    requires index { index < length part.now.conditions.now }
    requires len { part.now.before + length part.now.conditions.now ≤ length part.now.placed.now }
    requires placed { ArePlaced part.now.sections.now part.now.placed.now }
    ensures { IsVerdictAt (map text_of part.now.sections.now) part.now.before (map condition_tree part.now.conditions.now) index result }
{
    let conditions = part.conditions;
    let placed = part.placed;
    let before = part.before;
    let place = before + index;
    let number = place as u64 + 1;
    prove_condition(checker, alloc, &conditions[index], number, placed[place])
}

/// Proves the condition at a place; nothing, where another condition was refused before.
fn prove_one<R: Threads + Wait + Sync>(
    checker: &InThreads<'_, R>,
    alloc: Global,
    part: &PlacedPart<'_, '_>,
    refused: &AtomicBool,
    index: usize,
) -> Option<Result<(), Refusal>>
    requires index { index < length part.now.conditions.now }
    requires len { part.now.before + length part.now.conditions.now ≤ length part.now.placed.now }
    requires placed { ArePlaced part.now.sections.now part.now.placed.now }
    ensures { IfSome result (IsVerdictAt (map text_of part.now.sections.now) part.now.before (map condition_tree part.now.conditions.now) index) }
{
    if refused.load(Ordering::SeqCst) {
        return None;
    }
    let proved = prove_at(checker, alloc, part, index);
    if proved.is_err() {
        refused.store(true, Ordering::SeqCst);
    }
    Some(proved)
}

/// What is reported of the condition at this place, from 0: what is known of it, and else what is found now.
fn verdict_at<R: Threads + Wait + Sync>(
    checker: &InThreads<'_, R>,
    alloc: Global,
    part: &PlacedPart<'_, '_>,
    known: &[Option<Result<(), Refusal>>],
    index: usize,
) -> Result<(), Refusal>
    requires index { index < length part.now.conditions.now }
    requires len { part.now.before + length part.now.conditions.now ≤ length part.now.placed.now }
    requires placed { ArePlaced part.now.sections.now part.now.placed.now }
    requires count { length known.now ≡ length part.now.conditions.now }
    requires known { AreVerdicts (map text_of part.now.sections.now) part.now.before (map condition_tree part.now.conditions.now) known.now }
    ensures { IsVerdictAt (map text_of part.now.sections.now) part.now.before (map condition_tree part.now.conditions.now) index result }
{
    if let Some(verdict) = known[index] {
        return verdict;
    }
    prove_at(checker, alloc, part, index)
}

/// Whether each condition is proved, where something is known of some of them.
fn settle<R: Threads + Wait + Sync>(
    checker: &InThreads<'_, R>,
    alloc: Global,
    part: &PlacedPart<'_, '_>,
    known: &[Option<Result<(), Refusal>>],
) -> Result<(), Refusal>
    requires len { part.now.before + length part.now.conditions.now ≤ length part.now.placed.now }
    requires placed { ArePlaced part.now.sections.now part.now.placed.now }
    requires count { length known.now ≡ length part.now.conditions.now }
    requires known { AreVerdicts (map text_of part.now.sections.now) part.now.before (map condition_tree part.now.conditions.now) known.now }
    ensures proved { OnOk result (AllProvedFrom (map text_of part.now.sections.now) (part.now.before + 1) (map condition_tree part.now.conditions.now)) }
    ensures holds { OnOk result (AllConditionsHold (map condition_tree part.now.conditions.now)) }
    ensures refused { IfErr result (λ e. (e ≡ no_memory)
        ⊎ IsFirstRefusal (map text_of part.now.sections.now) (part.now.before + 1)
        (map condition_tree part.now.conditions.now) e) }
    ensures accepts { AllProvedFrom (map text_of part.now.sections.now) (part.now.before + 1) (map condition_tree part.now.conditions.now) →
        IfErr result (λ e. e ≡ no_memory) }
{
    for index in 0..part.conditions.len() {
        if let Err(refusal) = verdict_at(checker, alloc, part, known, index) {
            return Err(refusal);
        }
    }
    Ok(())
}

/// What is reported of each condition, in so many threads; nothing of some of them, where one is refused.
fn prove_some<R: Threads + Wait + Sync>(
    checker: &InThreads<'_, R>,
    alloc: Global,
    part: &PlacedPart<'_, '_>,
) -> Result<Vec<Option<Result<(), Refusal>>>, AllocError>
    requires len { part.now.before + length part.now.conditions.now ≤ length part.now.placed.now }
    requires placed { ArePlaced part.now.sections.now part.now.placed.now }
    ensures count { IfOk result (λ known. length known.items ≡ length part.now.conditions.now) }
    ensures known { IfOk result (λ known.
        AreVerdicts (map text_of part.now.sections.now) part.now.before (map condition_tree part.now.conditions.now)
        known.items) }
{
    let refused = AtomicBool::new(false);
    let reported = &refused;
    let rt = checker.rt;
    let threads = checker.threads;
    let before = part.before;
    let conditions = part.conditions;
    let sections = part.sections;
    let placed = part.placed;
    deal(
        rt,
        alloc,
        threads,
        conditions.len(),
        &|index: usize| -> Option<Result<(), Refusal>>
            requires { (index < length conditions.now) × (before + length conditions.now ≤ length placed.now) × ArePlaced sections.now placed.now }
            ensures { IfSome result (IsVerdictAt (map text_of sections.entry.now) before (map condition_tree conditions.entry.now) index) }
        {
            let checker = InThreads { rt, threads };
            let part = PlacedPart {
                before,
                conditions,
                sections,
                placed,
            };
            prove_one(&checker, alloc, &part, reported, index)
        },
    )
}

/// Whether memory was refused for one of these.
fn any_ran_out(known: &[Option<Result<(), Refusal>>]) -> bool {
    for verdict in known {
        if let Some(verdict) = verdict
            && ran_out(verdict)
        {
            return true;
        }
    }
    false
}

/// Whether each of these conditions, of so many in all, is proved by its section, or without one, in so many threads.
pub(crate) fn prove_each_all<R: Threads + Wait + Sync>(
    checker: &InThreads<'_, R>,
    alloc: Global,
    count: usize,
    before: usize,
    conditions: &[Condition],
    sections: &[SectionBytes<'_>],
) -> Result<(), Refusal>
    requires from { AreFrom 1 sections.now }
    requires part { before + length conditions.now ≤ count }
    ensures proved { OnOk result (AllProvedFrom (map text_of sections.now) (before + 1) (map condition_tree conditions.now)) }
    ensures holds { OnOk result (AllConditionsHold (map condition_tree conditions.now)) }
    ensures refused { IfErr result (λ e. (e ≡ no_memory) ⊎ IsFirstRefusal (map text_of sections.now) (before + 1) (map condition_tree conditions.now) e) }
    ensures accepts { AllProvedFrom (map text_of sections.now) (before + 1) (map condition_tree conditions.now) → IfErr result (λ e. e ≡ no_memory) }
{
    let placed = place_sections(alloc, sections, count)?;
    let part = PlacedPart {
        before,
        conditions,
        sections,
        placed: &placed,
    };
    let known = prove_some(checker, alloc, &part)?;
    if any_ran_out(&known) {
        return Err(Refusal::from(AllocError));
    }
    settle(checker, alloc, &part, &known)
}

/// Whether a proofs file proves these conditions, which count from 1: the answer of `rg_hints::prove`,
/// found condition by condition, in at most so many threads; each takes the first that is left, and checks its section as `check_all` does.
///
/// With 0 or 1 threads all is done in the thread that asks. A thread that can't be had for conditions costs time alone; one
/// that can't be had for a piece of a section is refused as `check_all` reports it. Once a condition is refused no other is begun.
///
/// # Errors
///
/// As `rg_hints::prove`: the first fault, in the order of the conditions. `Memory` where memory is refused in any thread, or a piece of
/// a section has no thread.
pub fn prove_all<R: Threads + Wait + Sync>(
    rt: &R,
    alloc: Global,
    threads: usize,
    conditions: &[Condition],
    proofs: &[u8],
) -> Result<(), Refusal>
    ensures proved { OnOk result (AreProved (map condition_tree conditions.now) proofs.now) }
    ensures holds { OnOk result (AllConditionsHold (map condition_tree conditions.now)) }
    ensures refused { IfErr result (IsProofsRefusal (map condition_tree conditions.now) proofs.now) }
    ensures accepts { AreProved (map condition_tree conditions.now) proofs.now → IfErr result (λ e. e ≡ no_memory) }
{
    if threads < 2 {
        return prove(alloc, conditions, proofs);
    }
    let sections = match proof_sections(alloc, proofs, conditions.len()) {
        Ok(sections) => sections,
        Err(refusal) => return Err(refusal),
    };
    let checker = InThreads { rt, threads };
    prove_each_all(&checker, alloc, conditions.len(), 0, conditions, &sections)
}

/// Checks and proves in threads: conditions side by side, and large sections in pieces. With fewer than two threads all is
/// done in the thread that asks.
#[derive(Clone, Copy)]
pub struct InThreads<'a, R> {
    /// The handle that starts threads.
    pub rt: &'a R,
    /// The most conditions that are looked at side by side.
    pub threads: usize,
}

impl<R: Threads + Wait + Sync> Checker for InThreads<'_, R> {
    ghost use denote.Param.Send.{IsSync};

    ghost can_check = { λ _. IsSync R.row };

    fn check(
        &self,
        alloc: Global,
        condition: u64,
        clauses: &Clauses,
        lines: &Lines,
    ) -> Result<(), Refusal> {
        if self.threads < 2 {
            return check(alloc, condition, clauses, lines);
        }
        check_all(self.rt, alloc, condition, clauses, lines, &Unreported)
    }
}

impl<R: Threads + Wait + Sync> Prover for InThreads<'_, R> {
    ghost use denote.Param.Send.{IsSync};

    ghost can_prove = { λ _. IsSync R.row };

    fn prove(&self, alloc: Global, conditions: &[Condition], proofs: &[u8]) -> Result<(), Refusal> {
        prove_all(self.rt, alloc, self.threads, conditions, proofs)
    }
}
