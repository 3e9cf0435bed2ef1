//! Formulas to show: their clauses, and whether hint lines prove them.

ghost use Rattle.std.specs.Prelude.{◌≡◌, ◌≤◌, List, IfOk, IfErr, OnOk};
ghost use Rattle.rg_words.specs.declared.limits.TheConstants.{MOST_VARIABLES, MOST_DECISIONS};
ghost use Rattle.rg_words.specs.Layout.{Word};
ghost use Rattle.rg_words.specs.Refusals.{no_memory};
ghost use Rattle.rg_tree.specs.Trees.{Proposition};
ghost use Rattle.rg_clauses.specs.ClauseLists.{IsUnsatisfiable};
ghost use Rattle.rg_parse.specs.Shown.{SpellsShow};
ghost use Rattle.rg_tree.specs.Conditions.{condition_tree, ConditionHolds};
ghost use Rattle.rg_clauses.specs.Conditions.{clauses_of_condition};
ghost use Rattle.rg_find.specs.Judged.{IsJudged, JudgedFits, JudgedInOrder};
ghost use Rattle.rgc.specs.Valid.{clauses_shown, HasClauses, ShownHolds, IsShown, IsClausesRefusal, IsFindRefusal, IsProved, IsValidRefusal};

use rg_clauses::Clauses;
use rg_find::{Judged, judge};
use rg_hints::{Checker, Lines, OneThread};
use rg_parse::{one_meaning, show};
use rg_tree::condition::Condition;
use rg_watch::Watcher;
use rg_words::limits::MOST_PROOF_BYTES;
use rg_words::{Place, Refusal, RefusalNumber, SourceFile};
use std::alloc::Global;

/// The clauses of the formula that a text `words .. show ..` spells: they can be satisfied exactly where it fails for some pair
/// of states that agree on the fixed words.
///
/// # Errors
///
/// The first fault of the text, as `rg_parse::show` reports it; then `Limit` at condition 1 where the formula has too many
/// variables. `Memory` where memory is refused.
pub fn clauses(alloc: Global, text: &[u8]) -> Result<Clauses, Refusal>
    ensures clauses { IfOk result (λ c. HasClauses text.now c) }
    ensures holds { IfOk result (λ c. IsUnsatisfiable c.clauses → ShownHolds text.now) }
    ensures refused { IfErr result (IsClausesRefusal text.now) }
    ensures accepts { (words : List Word) (f : Proposition) → SpellsShow text.now words f → (clauses_shown words f).variables ≤ MOST_VARIABLES
        → IfErr result (λ e. e ≡ no_memory) }
{
    // The text spells one formula.
    one_meaning();
    let (layout, formula) = match show(alloc, text) {
        Ok(shown) => shown,
        Err(refusal) => return Err(refusal),
    };
    let condition = Condition::show(alloc, layout, formula);
    match Clauses::of(alloc, &condition, SourceFile::Text, 1) {
        Ok(clauses) => Ok(clauses),
        Err(refusal) => Err(refusal),
    }
}

/// What a search says of the formula that the text spells, with the condition that it is: lines that prove it, or the states at which it
/// fails, or nothing after so many decisions. The watcher hears of a long search.
///
/// # Errors
///
/// As `clauses`; then `Limit`, without a file and a place, where more than `MOST_DECISIONS` are asked for.
pub fn find<W: Watcher>(
    alloc: Global,
    text: &[u8],
    steps: u64,
    watcher: &mut W,
) -> Result<(Condition, Judged), Refusal>
    ensures formula { IfOk result (λ r. IsShown text.now (condition_tree r.0)) }
    ensures judged { IfOk result (λ r. IsJudged (condition_tree r.0) r.1) }
    ensures fits { IfOk result (λ r. JudgedFits r.1) }
    // The numbers of lines follow those of the clauses and have no gaps.
    ensures order { IfOk result (λ r. JudgedInOrder r.1) }
    ensures clauses { IfOk result (λ r. HasClauses text.now (clauses_of_condition (condition_tree r.0))) }
    ensures holds { IfOk result (λ r. ConditionHolds (condition_tree r.0) → ShownHolds text.now) }
    ensures steps { OnOk result (steps ≤ MOST_DECISIONS) }
    ensures refused { IfErr result (IsFindRefusal text.now steps) }
{
    // The text spells one formula.
    one_meaning();
    let (layout, formula) = match show(alloc, text) {
        Ok(shown) => shown,
        Err(refusal) => return Err(refusal),
    };
    let condition = Condition::show(alloc, layout, formula);
    match judge(alloc, &condition, SourceFile::Text, 1, steps, watcher) {
        Ok(judged) => Ok((condition, judged)),
        Err(refusal) => Err(refusal),
    }
}

/// As `valid`, where this checker decides of the lines: `OneThread`, or `InThreads`, which checks many lines in four threads and refuses
/// `Memory` also where a thread can't be had for a piece of them.
///
/// # Errors
///
/// As `valid`.
pub fn valid_by<C: Checker>(
    checker: &C,
    alloc: Global,
    text: &[u8],
    proofs: &[u8],
) -> Result<(), Refusal>
    requires { C.can_check checker.now }
    ensures proved { OnOk result (IsProved text.now proofs.now) }
    ensures holds { OnOk result (ShownHolds text.now) }
    ensures refused { IfErr result (IsValidRefusal text.now proofs.now) }
    ensures accepts { IsProved text.now proofs.now → IfErr result (λ e. e ≡ no_memory) }
{
    // The text spells one formula, so it has one list of clauses.
    one_meaning();
    let clauses = match clauses(alloc, text) {
        Ok(clauses) => clauses,
        Err(refusal) => return Err(refusal),
    };
    if proofs.len() > MOST_PROOF_BYTES {
        return Err(Refusal::at(RefusalNumber::Limit, SourceFile::Proofs, Place::Line(1)));
    }
    let lines = match Lines::read(alloc, proofs, 1, clauses.len()) {
        Ok(lines) => lines,
        Err(refusal) => return Err(refusal),
    };
    match checker.check(alloc, 1, &clauses, &lines) {
        Ok(()) => Ok(()),
        Err(refusal) => Err(refusal),
    }
}

/// Whether the hint lines prove the formula that the text spells. After Ok it is true in every state; where it speaks of two
/// states, in every pair of states that agree on the fixed words.
///
/// # Errors
///
/// The first fault: of the text and its condition, as `clauses` reports it; then in file `proofs` `Limit` at line 1 (too many
/// bytes), then `Unreadable` or `IdOrder` at the first faulty line, then `HintNotEarlier`, `HintNotUnit` or `NoConflict` at the
/// least line that doesn't follow, then `NoEmptyClause` at condition 1. `Memory` where memory is refused.
pub fn valid(alloc: Global, text: &[u8], proofs: &[u8]) -> Result<(), Refusal>
    ensures proved { OnOk result (IsProved text.now proofs.now) }
    ensures holds { OnOk result (ShownHolds text.now) }
    ensures refused { IfErr result (IsValidRefusal text.now proofs.now) }
    ensures accepts { IsProved text.now proofs.now → IfErr result (λ e. e ≡ no_memory) }
{
    valid_by(&OneThread, alloc, text, proofs)
}
