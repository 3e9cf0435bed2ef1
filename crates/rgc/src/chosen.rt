//! A condition of a text's program with its derivation, chosen by its number.

ghost use Rattle.std.specs.Prelude.{◌≡◌, ◌≤◌, None, Some, map, IfOk, IfErr, OnOk};
ghost use Rattle.rg_words.specs.declared.limits.TheConstants.{MOST_VARIABLES, MOST_DECISIONS};
ghost use Rattle.rg_words.specs.declared.refusal.RefusalNumber.TheVariants.{UnknownCondition};
ghost use Rattle.rg_words.specs.declared.refusal.SourceFile.TheVariants.{Derivation};
ghost use Rattle.rg_words.specs.declared.refusal.Place.TheVariants.{Condition as the_condition};
ghost use Rattle.rg_words.specs.Refusals.{refused_in};
ghost use Rattle.rg_tree.specs.Conditions.{condition_tree};
ghost use Rattle.rg_tree.specs.Programs.{nth};
ghost use Rattle.rg_clauses.specs.Conditions.{clauses_of_condition};
ghost use Rattle.rg_find.specs.Judged.{IsJudged, JudgedFits, JudgedInOrder};
ghost use Rattle.rgc.specs.Pieces.{bytes_of};
ghost use Rattle.rgc.specs.Chosen.{IsChosen, IsChoiceRefusal, IsChosenClausesRefusal, IsChosenFindRefusal};

use crate::pieces::derive_program;
use rg_clauses::Clauses;
use rg_find::{Judged, judge};
use rg_tree::condition::Condition;
use rg_watch::Watcher;
use rg_words::{Place, Refusal, RefusalNumber, SourceFile};
use std::alloc::Global;

/// The condition of a number, from 1.
fn condition_at(mut conditions: Vec<Condition>, number: u64) -> Result<Condition, Refusal>
    ensures found { IfOk result (λ c. nth (map condition_tree conditions.items) number ≡ Some (condition_tree c)) }
    ensures none { IfErr result (λ _. nth (map condition_tree conditions.items) number ≡ None) }
    ensures refused { IfErr result (λ e. e ≡ refused_in UnknownCondition Derivation (the_condition number)) }
{
    if number == 0 || number > conditions.len() as u64 {
        return Err(Refusal::at(
            RefusalNumber::UnknownCondition,
            SourceFile::Derivation,
            Place::Condition(number),
        ));
    }
    Ok(conditions.swap_remove((number - 1) as usize))
}

/// The condition of this number, from 1, of the text's program with this derivation.
///
/// # Errors
///
/// As `derive_program`; then `UnknownCondition` at this condition of the derivation where there is none of this number.
pub fn chosen_condition(
    alloc: Global,
    text: &[u8],
    derivation: &[&[u8]],
    number: u64,
) -> Result<Condition, Refusal>
    ensures chosen { IfOk result (λ c. IsChosen text.now (bytes_of derivation.now) number (condition_tree c)) }
    ensures refused { IfErr result (IsChoiceRefusal text.now (bytes_of derivation.now) number) }
{
    let derived = match derive_program(alloc, text, derivation) {
        Ok(derived) => derived,
        Err(refusal) => return Err(refusal),
    };
    let conditions = derived.conditions(alloc)?;
    match condition_at(conditions, number) {
        Ok(condition) => Ok(condition),
        Err(refusal) => Err(refusal),
    }
}

/// The clauses of the condition of this number, from 1, of the text's program with this derivation: they can be satisfied exactly where it
/// fails for some pair of states that agree on the fixed words. No other condition's clauses are built.
///
/// # Errors
///
/// As `chosen_condition`; then `Limit` at this condition of the derivation where it has too many variables.
pub fn condition_clauses(
    alloc: Global,
    text: &[u8],
    derivation: &[&[u8]],
    number: u64,
) -> Result<(Condition, Clauses), Refusal>
    ensures chosen { IfOk result (λ r. IsChosen text.now (bytes_of derivation.now) number (condition_tree r.0)) }
    ensures clauses { IfOk result (λ r. r.1 ≡ clauses_of_condition (condition_tree r.0)) }
    ensures within { IfOk result (λ r. (clauses_of_condition (condition_tree r.0)).variables ≤ MOST_VARIABLES) }
    ensures refused { IfErr result (IsChosenClausesRefusal text.now (bytes_of derivation.now) number) }
{
    let chosen = match chosen_condition(alloc, text, derivation, number) {
        Ok(condition) => condition,
        Err(refusal) => return Err(refusal),
    };
    match Clauses::of(alloc, &chosen, SourceFile::Derivation, number) {
        Ok(clauses) => Ok((chosen, clauses)),
        Err(refusal) => Err(refusal),
    }
}

/// What a search says of the condition of this number, from 1, of the text's program with this derivation, with the condition: lines that prove it,
/// or the states at which it fails, or nothing after so many decisions. The watcher hears of a long search.
///
/// # Errors
///
/// As `condition_clauses`; then `Limit`, without a file and a place, where more than `MOST_DECISIONS` are asked for.
pub fn find_condition<W: Watcher>(
    alloc: Global,
    text: &[u8],
    derivation: &[&[u8]],
    number: u64,
    steps: u64,
    watcher: &mut W,
) -> Result<(Condition, Judged), Refusal>
    ensures chosen { IfOk result (λ r. IsChosen text.now (bytes_of derivation.now) number (condition_tree r.0)) }
    ensures judged { IfOk result (λ r. IsJudged (condition_tree r.0) r.1) }
    ensures fits { IfOk result (λ r. JudgedFits r.1) }
    // The numbers of lines follow those of the clauses and have no gaps.
    ensures order { IfOk result (λ r. JudgedInOrder r.1) }
    ensures steps { OnOk result (steps ≤ MOST_DECISIONS) }
    ensures refused { IfErr result (IsChosenFindRefusal text.now (bytes_of derivation.now) number steps) }
{
    let condition = match chosen_condition(alloc, text, derivation, number) {
        Ok(condition) => condition,
        Err(refusal) => return Err(refusal),
    };
    match judge(
        alloc,
        &condition,
        SourceFile::Derivation,
        number,
        steps,
        watcher,
    ) {
        Ok(judged) => Ok((condition, judged)),
        Err(refusal) => Err(refusal),
    }
}
