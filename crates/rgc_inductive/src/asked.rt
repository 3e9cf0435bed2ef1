//! What a search says of a condition with a hypothesis more, and with another goal.

ghost use Rattle.std.specs.Prelude.{◌≡◌, ◌∷◌, map, IfOk};
ghost use Rattle.rg_words.specs.Layout.{widths_of};
ghost use Rattle.rg_tree.specs.ConditionTrees.{second_state};
ghost use Rattle.rg_tree.specs.Typing.{IsTyped};
ghost use Rattle.rg_tree.specs.View.{formula as view};

use rg_complete::after;
use rg_find::{Judged, judge};
use rg_outline_reports::values_of;
use rg_parse::formula;
use rg_tree::condition::{Condition, Second};
use rg_tree::copy::copy_formula;
use rg_tree::rule_conditions::copy_assigns;
use rg_tree::tree::Formula;
use rg_tree::typing::typed_trees_fit;
use rg_watch::Watcher;
use rg_words::{Refusal, RefusalNumber, SourceFile, State};
use std::alloc::{AllocError, Global};

/// The most decisions of a search.
const MOST_STEPS: u64 = 20_000;

/// What was found of a condition.
#[derive(Drop)]
pub(crate) enum Outcome {
    Holds,
    /// It fails at this state, and after it at the other one.
    Fails(Vec<u64>, Vec<u64>),
    Unknown,
}

/// The second state of a condition, again.
fn copy_second(alloc: Global, second: &Second) -> Result<Second, AllocError>
    ensures { IfOk result (λ s. second_state s ≡ second_state second.now) }
{
    match second {
        Second::Same => Ok(Second::Same),
        Second::Free => Ok(Second::Free),
        Second::After(assignments) => {
            let assignments = copy_assigns(alloc, assignments)?;
            Ok(Second::After(assignments))
        }
    }
}

/// A formula, and others after it, again.
fn copy_after(
    alloc: Global,
    first: &Formula,
    others: &[Formula],
) -> Result<Vec<Formula>, AllocError>
    ensures { IfOk result (λ fs. map view fs.items ≡ view first.now ∷ map view others.now) }
{
    let mut copies = Vec::new(alloc);
    copies.push(copy_formula(alloc, first)?)?;
    for formula in others {
        copies.push(copy_formula(alloc, formula)?)?;
    }
    Ok(copies)
}

/// How the goal of a condition is read: on the second state alone; and whether a step that changes nothing meets it.
#[derive(Clone, Copy)]
struct Reading {
    is_alone: bool,
    may_stay: bool,
}

/// A condition with a hypothesis more, and with this goal.
#[tactic(auto, using(crate::proofs::Strengthened::strengthened_typed))]
fn strengthened(
    alloc: Global,
    base: &Condition,
    given: &Formula,
    goal: &Formula,
    reading: Reading,
) -> Result<Condition, AllocError>
    requires given { IsTyped (widths_of base.now.layout) (view given.now) }
    requires goal { IsTyped (widths_of base.now.layout) (view goal.now) }
{
    typed_trees_fit();
    base.facts();
    let hypotheses = copy_after(alloc, given, &base.hypotheses)?;
    let second = copy_second(alloc, &base.second)?;
    let goal = copy_formula(alloc, goal)?;
    let layout = base.layout.copy()?;
    layout.facts();
    Ok(Condition {
        layout,
        hypotheses,
        second,
        goal,
        alone: reading.is_alone,
        or_no_change: reading.may_stay,
    })
}

/// A condition with a hypothesis more.
fn with_given(alloc: Global, base: &Condition, given: &Formula) -> Result<Condition, AllocError>
    requires { IsTyped (widths_of base.now.layout) (view given.now) }
{
    base.facts();
    let reading = Reading {
        is_alone: base.alone,
        may_stay: base.or_no_change,
    };
    strengthened(alloc, base, given, &base.goal, reading)
}

/// A condition with a hypothesis more, and with this goal in the second state.
fn with_goal(
    alloc: Global,
    base: &Condition,
    given: &Formula,
    goal: &Formula,
) -> Result<Condition, AllocError>
    requires given { IsTyped (widths_of base.now.layout) (view given.now) }
    requires goal { IsTyped (widths_of base.now.layout) (view goal.now) }
{
    let reading = Reading {
        is_alone: true,
        may_stay: false,
    };
    strengthened(alloc, base, given, goal, reading)
}

/// The states between which a condition fails: the second one is given where the condition speaks of any two.
fn failing(
    alloc: Global,
    condition: &Condition,
    first: &State,
    second: Option<&State>,
) -> Result<Outcome, AllocError> {
    let before = values_of(alloc, first)?;
    let next = match second {
        Some(second) => values_of(alloc, second)?,
        None => after(alloc, condition, &before)?,
    };
    Ok(Outcome::Fails(before, next))
}

/// What a search that ended says of a condition.
fn said(alloc: Global, condition: &Condition, judged: Judged) -> Result<Outcome, AllocError> {
    match judged {
        Judged::Holds(_) => Ok(Outcome::Holds),
        Judged::Fails(first, second) => failing(alloc, condition, &first, second.as_ref()),
        Judged::GaveUp | Judged::TooLarge => Ok(Outcome::Unknown),
    }
}

/// What a search says of a condition.
fn outcome_of<W: Watcher>(
    alloc: Global,
    condition: &Condition,
    watcher: &mut W,
) -> Result<Outcome, AllocError> {
    let file = SourceFile::Derivation;
    match judge(alloc, condition, file, 1, MOST_STEPS, watcher) {
        Ok(judged) => said(alloc, condition, judged),
        Err(refusal) => unknown(refusal),
    }
}

/// That a text can't be read says nothing of a condition, unless memory was refused.
fn unknown(refusal: Refusal) -> Result<Outcome, AllocError> {
    if refusal.number == RefusalNumber::Memory {
        return Err(AllocError);
    }
    Ok(Outcome::Unknown)
}

/// What a search says of a condition with what this text gives as a hypothesis more; and with what the other says as its goal, if there is one.
pub(crate) fn ask<W: Watcher>(
    alloc: Global,
    base: &Condition,
    given: &[u8],
    goal: Option<&[u8]>,
    watcher: &mut W,
) -> Result<Outcome, AllocError> {
    let given = match formula(alloc, &base.layout, given) {
        Ok(given) => given,
        Err(refusal) => return unknown(refusal),
    };
    let Some(goal) = goal else {
        let condition = with_given(alloc, base, &given)?;
        return outcome_of(alloc, &condition, watcher);
    };
    let goal = match formula(alloc, &base.layout, goal) {
        Ok(goal) => goal,
        Err(refusal) => return unknown(refusal),
    };
    let condition = with_goal(alloc, base, &given, &goal)?;
    outcome_of(alloc, &condition, watcher)
}
