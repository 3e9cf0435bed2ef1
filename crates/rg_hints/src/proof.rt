//! Whether a proofs file proves conditions.

ghost use Rattle.std.specs.Prelude.{◌≡◌, ◌⊎◌, ℕ, ◌+◌, ◌^◌, ◌<◌, List, length, map, drop, option_map, vec_len, IfOk, OnOk, IfErr, IfSome};
ghost use Rattle.rg_words.specs.Refusals.{no_memory};
ghost use Rattle.rg_tree.specs.Conditions.{condition_tree, ConditionHolds};
ghost use Rattle.rg_tree.specs.RuleConditions.{AllConditionsHold};
ghost use Rattle.rg_clauses.specs.ClauseLists.{IsUnsatisfiable};
ghost use Rattle.rg_hints.specs.Proved.{section_for, Closes, AreClosedBy, IsProvedBy, AllProvedFrom, AreProved, IsUnclosed, IsConditionRefusal, IsFirstRefusal, IsProofsRefusal};
ghost use Rattle.rg_hint_lines.specs.Sections.{SectionText};
ghost use Rattle.rg_hints.specs.Placed.{text_of, HasRoom, AreFrom, HasSections, IsHeadsRefusal, ArePlaced};

use crate::section::{Checker, OneThread, has_empty_clause};
use rg_clauses::Clauses;
use rg_hint_lines::lines::Lines;
use rg_hint_lines::sections::{SectionBytes, read_sections};
use rg_tree::condition::Condition;
use rg_words::limits::MOST_PROOF_BYTES;
use rg_words::{Place, Refusal, RefusalNumber, SourceFile};
use std::alloc::{AllocError, Global};

/// Whether the lines of a section close the clauses of its condition.
fn close_by<C: Checker>(
    checker: &C,
    alloc: Global,
    clauses: &Clauses,
    number: u64,
    section: SectionBytes<'_>,
) -> Result<(), Refusal>
    requires room { HasRoom section }
    requires ready { C.can_check checker.now }
    ensures closed { OnOk result (Closes clauses.now.clauses (text_of section.entry)) }
    ensures unsatisfiable { OnOk result (IsUnsatisfiable clauses.now.clauses) }
    ensures refused { IfErr result (λ e. (e ≡ no_memory) ⊎ IsUnclosed clauses.now.clauses number (Some (text_of section.entry)) e) }
    ensures only { Closes clauses.now.clauses (text_of section.entry) → IfErr result (λ e. e ≡ no_memory) }
{
    let lines = match Lines::read(alloc, section.bytes, section.first_line, clauses.len()) {
        Ok(lines) => lines,
        Err(refusal) => return Err(refusal),
    };
    checker.check(alloc, number, clauses, &lines)
}

/// Whether clauses, which are those of the condition with this number, are closed by its section; without one,
/// whether one of them is empty.
fn close<C: Checker>(
    checker: &C,
    alloc: Global,
    clauses: &Clauses,
    number: u64,
    section: Option<SectionBytes<'_>>,
) -> Result<(), Refusal>
    requires room { IfSome section HasRoom }
    requires ready { C.can_check checker.now }
    ensures closed { OnOk result (AreClosedBy clauses.now.clauses (option_map text_of section.entry)) }
    ensures unsatisfiable { OnOk result (IsUnsatisfiable clauses.now.clauses) }
    ensures refused { IfErr result (λ e. (e ≡ no_memory) ⊎ IsUnclosed clauses.now.clauses number (option_map text_of section.entry) e) }
    ensures only { AreClosedBy clauses.now.clauses (option_map text_of section.entry) → IfErr result (λ e. e ≡ no_memory) }
{
    if let Some(section) = section {
        return close_by(checker, alloc, clauses, number, section);
    }
    if has_empty_clause(clauses) {
        return Ok(());
    }
    Err(Refusal::at(
        RefusalNumber::NoSection,
        SourceFile::Proofs,
        Place::Condition(number),
    ))
}

/// Whether the condition with this number, from 1, is proved by its section, or without one.
///
/// # Errors
///
/// `Limit` at the condition in file `derivation` (too many variables); then, in file `proofs`, `NoSection` at the condition;
/// `Unreadable` or `IdOrder` at the first faulty line of its section; `HintNotEarlier`, `HintNotUnit` or `NoConflict` at
/// its least line that doesn't follow; `NoEmptyClause` at the condition. `Memory` where memory is refused.
pub fn prove_condition<C: Checker>(
    checker: &C,
    alloc: Global,
    condition: &Condition,
    number: u64,
    section: Option<SectionBytes<'_>>,
) -> Result<(), Refusal>
    requires room { IfSome section HasRoom }
    requires ready { C.can_check checker.now }
    ensures proved { OnOk result (IsProvedBy (option_map text_of section.entry) (condition_tree condition.now)) }
    ensures holds { OnOk result (ConditionHolds (condition_tree condition.now)) }
    ensures refused { IfErr result (IsConditionRefusal (option_map text_of section.entry) number (condition_tree condition.now)) }
    ensures only { IsProvedBy (option_map text_of section.entry) (condition_tree condition.now) → IfErr result (λ e. e ≡ no_memory) }
{
    let clauses = match Clauses::of(alloc, condition, SourceFile::Derivation, number) {
        Ok(clauses) => clauses,
        Err(refusal) => return Err(refusal),
    };
    close(checker, alloc, &clauses, number, section)
}

/// The section of the condition with this number, if it has one, and the place of the first section after it. From the
/// place `from` on the sections are of this condition and later ones.
fn take_section<'a>(
    sections: &[SectionBytes<'a>],
    from: usize,
    number: u64,
) -> (Option<SectionBytes<'a>>, usize)
    requires { AreFrom number (drop from sections.now) }
    ensures found { option_map text_of result.0 ≡ section_for (map text_of (drop from sections.now)) number }
    ensures room { IfSome result.0 HasRoom }
    ensures after { AreFrom (number + 1) (drop result.1 sections.now) }
    ensures same { (k : ℕ) → number < k
        → section_for (map text_of (drop from sections.now)) k ≡ section_for (map text_of (drop result.1 sections.now)) k }
{
    if from >= sections.len() {
        return (None, from);
    }
    let first = sections[from];
    if first.condition == number {
        return (Some(first), from + 1);
    }
    (None, from)
}

/// The section of each of so many conditions, in their order, where a condition has one.
///
/// # Errors
///
/// Only where memory is refused.
pub fn place_sections<'a>(
    alloc: Global,
    sections: &[SectionBytes<'a>],
    count: usize,
) -> Result<Vec<Option<SectionBytes<'a>>>, AllocError>
    requires { AreFrom 1 sections.now }
    ensures len { IfOk result (λ placed. vec_len placed ≡ count) }
    ensures each { IfOk result (λ placed. ArePlaced sections.now placed.items) }
{
    let mut placed = Vec::with_capacity(alloc, count)?;
    let mut place = 0;
    for index in 0..count {
        let (section, after) = take_section(sections, place, index as u64 + 1);
        placed.push(section)?;
        place = after;
    }
    Ok(placed)
}

/// Whether each condition is proved by its section, or without one.
fn prove_each(
    alloc: Global,
    conditions: &[Condition],
    sections: &[SectionBytes<'_>],
) -> Result<(), Refusal>
    requires { AreFrom 1 sections.now }
    ensures proved { OnOk result (AllProvedFrom (map text_of sections.now) 1 (map condition_tree conditions.now)) }
    ensures holds { OnOk result (AllConditionsHold (map condition_tree conditions.now)) }
    ensures refused { IfErr result (λ e. (e ≡ no_memory) ⊎ IsFirstRefusal (map text_of sections.now) 1 (map condition_tree conditions.now) e) }
    ensures accepts { AllProvedFrom (map text_of sections.now) 1 (map condition_tree conditions.now) → IfErr result (λ e. e ≡ no_memory) }
{
    let mut left = conditions;
    let mut place = 0;
    let mut number = 1;
    while let [condition, others @ ..] = left {
        let (section, after) = take_section(sections, place, number);
        if let Err(refusal) = prove_condition(&OneThread, alloc, condition, number, section) {
            return Err(refusal);
        }
        left = others;
        place = after;
        number += 1;
    }
    Ok(())
}

/// The sections of a proofs file for so many conditions, in the order of their numbers. No bytes are copied.
///
/// # Errors
///
/// In file `proofs`: `Limit` at line 1 (too many bytes); then at the first such line `Unreadable` before the first head,
/// where the line isn't passed over, and in a head `Unreadable` where its form isn't known, `IdOrder` where its number
/// isn't above that of the head before, `UnknownCondition` where it names no condition. `Memory` where memory is refused.
pub fn proof_sections(
    alloc: Global,
    proofs: &[u8],
    count: usize,
) -> Result<Vec<SectionBytes<'_>>, Refusal>
    ensures sections { IfOk result (λ found. HasSections count proofs.now (map text_of found.items)) }
    ensures from { IfOk result (λ found. AreFrom 1 found.items) }
    ensures refused { IfErr result (IsHeadsRefusal count proofs.now) }
    ensures accepts { (sections : List SectionText) → HasSections count proofs.now sections → IfErr result (λ e. e ≡ no_memory) }
{
    if proofs.len() > MOST_PROOF_BYTES {
        return Err(Refusal::at(RefusalNumber::Limit, SourceFile::Proofs, Place::Line(1)));
    }
    read_sections(alloc, proofs, count as u64)
}

/// Whether a proofs file proves these conditions, which count from 1: each has a section whose lines follow and close its
/// clauses, or no section and an empty clause. Then all of them are true.
///
/// The clauses of one condition are held at a time.
///
/// # Errors
///
/// The first fault, in this order, in file `proofs` but where another is named: `Limit` at line 1 (too many bytes); then
/// at the first such line `Unreadable` before the first head, where the line isn't passed over, and in a head
/// `Unreadable` where its form isn't known, `IdOrder` where its number isn't above that of the head before,
/// `UnknownCondition` where it names no condition; then for the first condition that isn't proved `Limit` at the
/// condition in file `derivation` (too many variables), `NoSection` at the condition, `Unreadable` or `IdOrder` at the
/// first faulty line of its section, `HintNotEarlier`, `HintNotUnit` or `NoConflict` at its least line that doesn't
/// follow, `NoEmptyClause` at the condition. `Memory` where memory is refused.
pub fn prove(alloc: Global, conditions: &[Condition], proofs: &[u8]) -> Result<(), Refusal>
    ensures proved { OnOk result (AreProved (map condition_tree conditions.now) proofs.now) }
    ensures holds { OnOk result (AllConditionsHold (map condition_tree conditions.now)) }
    ensures refused { IfErr result (IsProofsRefusal (map condition_tree conditions.now) proofs.now) }
    ensures accepts { AreProved (map condition_tree conditions.now) proofs.now → IfErr result (λ e. e ≡ no_memory) }
{
    let sections = match proof_sections(alloc, proofs, conditions.len()) {
        Ok(sections) => sections,
        Err(refusal) => return Err(refusal),
    };
    prove_each(alloc, conditions, &sections)
}

/// Who decides whether a proofs file proves conditions: one thread, or several.
pub trait Prover {
    // What has to hold of it where it is asked: nothing, or that it may be shared by threads.
    ghost can_prove: { Self → Type 0 } = { λ _. Unit {0} };

    /// Whether a proofs file proves these conditions, which count from 1, as `prove` reports it.
    fn prove(&self, alloc: Global, conditions: &[Condition], proofs: &[u8]) -> Result<(), Refusal>
        requires { can_prove self.now }
        ensures proved { OnOk result (AreProved (map condition_tree conditions.now) proofs.now) }
        ensures holds { OnOk result (AllConditionsHold (map condition_tree conditions.now)) }
        ensures refused { IfErr result (IsProofsRefusal (map condition_tree conditions.now) proofs.now) }
        ensures accepts { AreProved (map condition_tree conditions.now) proofs.now → IfErr result (λ e. e ≡ no_memory) };
}

impl Prover for OneThread {
    fn prove(&self, alloc: Global, conditions: &[Condition], proofs: &[u8]) -> Result<(), Refusal> {
        prove(alloc, conditions, proofs)
    }
}
