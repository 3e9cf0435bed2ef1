//! Steps that make at most one access at which they may meet another party.

ghost use Rattle.std.specs.Prelude.{◌≡◌, map};
ghost use Rattle.std.specs.List.{list_all};
ghost use Rattle.rg_tree.specs.ConditionTrees.{assignment};
ghost use Rattle.rg_c_plan.specs.View.{guard_tree, step, view};
ghost use Rattle.rg_c_plan.specs.Changes.{moving};
ghost use Rattle.rg_c_plan.specs.Once.{exposes_one, is_one_access};
ghost use Rattle.rg_c_plan.specs.Kinds.{crowds, is_crowded, failed, step_fault, failing_step, failing};
ghost use Rattle.rg_c_plan.specs.Inner.Tests.{steps_crowd};

use crate::apart::late_word;
use crate::chosen::is_chosen;
use crate::kind::Kind;
use crate::planned::Unplanned;
use crate::step::Step;
use crate::twice::is_exposed_twice;
use crate::views::PartView;
use crate::way::{exposes, exposes_another, first_exposed, in_section};
use rg_tree::condition::Assign;
use rg_tree::tree::Formula;

/// Whether a step outside of sections exposes one word at most.
fn exposes_one(kinds: &[Kind], guard: Option<&Formula>, act: &[Assign]) -> bool
    ensures { result ≡ exposes_one kinds.now (guard_tree guard.entry) (moving (map assignment act.now)) }
{
    if in_section(kinds, guard, act) {
        return false;
    }
    match first_exposed(kinds, guard, act) {
        Some(word) => !exposes_another(kinds, guard, act, word),
        None => true,
    }
}

/// Whether a step is one access: it exposes one word at most, outside of sections, or makes at most one access to an atomic word, whatever the state.
fn is_one_access(kinds: &[Kind], guard: Option<&Formula>, act: &[Assign]) -> bool
    ensures { result ≡ is_one_access kinds.now (guard_tree guard.entry) (moving (map assignment act.now)) }
{
    exposes_one(kinds, guard, act)
        || !is_exposed_twice(kinds, guard, act)
        || is_chosen(kinds, guard, act)
}

/// Whether some of these steps needs a section for a word: it exposes it, and isn't one access.
fn steps_crowd(kinds: &[Kind], word: usize, steps: &[Step<'_>]) -> bool
    ensures { result ≡ steps_crowd kinds.now word (map step steps.now) }
{
    for s in steps {
        if exposes(kinds, s.guard, s.act, word) && !is_one_access(kinds, s.guard, s.act) {
            return true;
        }
    }
    false
}

/// Whether some step of these parts does.
pub(crate) fn is_crowded(views: &[PartView<'_>], word: usize) -> bool
    ensures { result ≡ is_crowded (map view views.now) word }
{
    for v in views {
        if steps_crowd(&v.kinds, word, &v.steps) {
            return true;
        }
    }
    false
}

/// A step that isn't one access, with the first word that it exposes.
fn failed(kinds: &[Kind], s: &Step<'_>) -> Unplanned
    ensures { result ≡ failed kinds.now (step s.now) }
{
    let word = match first_exposed(kinds, s.guard, s.act) {
        Some(word) => word,
        None => 0,
    };
    Unplanned::Step(s.line, word)
}

/// Why a step can't be done at once: it isn't one access; or it touches a word at which parts are kept apart, and isn't early.
fn step_fault(kinds: &[Kind], s: &Step<'_>) -> Option<Unplanned>
    ensures { result ≡ step_fault kinds.now (step s.now) }
{
    if !is_one_access(kinds, s.guard, s.act) {
        return Some(failed(kinds, s));
    }
    match late_word(kinds, s.guard, s.act) {
        Some(word) => Some(Unplanned::Step(s.line, word)),
        None => None,
    }
}

/// The first of these steps that can't.
fn failing_step(kinds: &[Kind], steps: &[Step<'_>]) -> Option<Unplanned>
    ensures { result ≡ failing_step kinds.now (map step steps.now) }
{
    for s in steps {
        if let Some(fault) = step_fault(kinds, s) {
            return Some(fault);
        }
    }
    None
}

/// The first one of these parts.
pub(crate) fn failing(views: &[PartView<'_>]) -> Option<Unplanned>
    ensures { result ≡ failing (map view views.now) }
{
    for v in views {
        if let Some(step) = failing_step(&v.kinds, &v.steps) {
            return Some(step);
        }
    }
    None
}
