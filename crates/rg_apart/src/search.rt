//! The words at which the assertions are found to keep the parts apart.

ghost use Rattle.std.specs.Prelude.{◌≡◌, ◌<◌, true, length, map, IfOk};
ghost use Rattle.rg_tree.specs.ProgramTrees.{program as program_tree};
ghost use Rattle.rg_tree.specs.Conditions.{condition_tree};
ghost use Rattle.rg_tree.specs.ConditionTrees.{ConditionHolds};
ghost use Rattle.rg_tree.specs.RuleConditions.{AllConditionsHold};
ghost use Rattle.rg_accept.specs.Stages.{emitted_program, emitted_lines};
ghost use Rattle.rg_apart.specs.Laws.{IsLeftOf, PartsAreApart, AreTrueAt};

use crate::conditions::apart_conditions;
use crate::laws::parts_never_meet;
use rg_accept::Emitted;
use rg_c_plan::apart::may_be_apart;
use rg_code::checked::Checked;
use rg_find::{Judged, judge};
use rg_tree::condition::Condition;
use rg_tree::program::Program;
use rg_watch::Watcher;
use rg_words::{RefusalNumber, SourceFile};
use std::alloc::{AllocError, Global};

/// How conditions are looked at.
#[derive(Clone, Copy)]
pub struct Search<'a, W> {
    /// The most decisions of the search for each condition.
    pub steps: u64,
    /// Each search has a copy of it.
    pub watcher: &'a W,
}

/// Whether a condition is found to be true.
fn is_found<W: Watcher + Copy>(
    alloc: Global,
    condition: &Condition,
    search: Search<'_, W>,
) -> Result<bool, AllocError>
    ensures { IfOk result (λ r. r ≡ true → ConditionHolds (condition_tree condition.now)) }
{
    let mut own = *search.watcher;
    match judge(
        alloc,
        condition,
        SourceFile::Derivation,
        1,
        search.steps,
        &mut own,
    ) {
        Ok(Judged::Holds(_)) => Ok(true),
        Err(refusal) if refusal.number == RefusalNumber::Memory => Err(AllocError),
        _ => Ok(false),
    }
}

/// Whether all of these conditions are.
fn are_found<W: Watcher + Copy>(
    alloc: Global,
    conditions: &[Condition],
    search: Search<'_, W>,
) -> Result<bool, AllocError>
    ensures { IfOk result (λ r. r ≡ true → AllConditionsHold (map condition_tree conditions.now)) }
{
    for condition in conditions {
        if !is_found(alloc, condition, search)? {
            return Ok(false);
        }
    }
    Ok(true)
}

/// Whether the conditions for a word of what is left of a program are, where parts meet at it.
fn are_found_at<W: Watcher + Copy>(
    alloc: Global,
    emitted: &Emitted,
    left: &Program,
    erased: &[bool],
    word: usize,
    search: Search<'_, W>,
) -> Result<bool, AllocError>
    requires left { IsLeftOf erased.now (emitted_program emitted.now) (program_tree left.now) }
    requires word { word < length left.now.layout }
    ensures { IfOk result (λ r. r ≡ true → AreTrueAt (emitted_program emitted.now) (program_tree left.now) erased.now (emitted_lines emitted.now) word) }
{
    if !may_be_apart(alloc, left, word)? {
        return Ok(false);
    }
    let program = emitted.program();
    let conditions = apart_conditions(alloc, program, left, erased, emitted.lines(), word)?;
    are_found(alloc, &conditions, search)
}

/// A flag for each word of what is left of a program where these words are erased: set where searches find that the assertions keep the parts apart at it, and parts
/// meet there at all. Nothing is promised of a word without a flag: a search may give up.
///
/// An error comes only where memory was refused.
pub fn find_apart<W: Watcher + Copy>(
    alloc: Global,
    emitted: &Emitted,
    left: &Program,
    erased: &[bool],
    search: Search<'_, W>,
) -> Result<Vec<bool>, AllocError>
    requires { IsLeftOf erased.now (emitted_program emitted.now) (program_tree left.now) }
    ensures { IfOk result (λ apart. PartsAreApart (program_tree left.now) apart.items) }
{
    // Where the conditions are true, no run brings two parts to such a word.
    parts_never_meet();
    let mut apart = Vec::new(alloc);
    for word in 0..left.layout.len() {
        apart.push(are_found_at(alloc, emitted, left, erased, word, search)?)?;
    }
    Ok(apart)
}
