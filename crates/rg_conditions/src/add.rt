//! One condition more, of each form that a rule asks.

ghost use Rattle.std.specs.Prelude.{◌≡◌, ◌++◌, [], ◌∷◌, map, OnOk, IfOk};
ghost use Rattle.rg_tree.specs.View.{formula};
ghost use Rattle.rg_tree.specs.ConditionTrees.{assignment, ConditionTyped};
ghost use Rattle.rg_tree.specs.Conditions.{condition_tree};
ghost use Rattle.rg_tree.specs.RuleConditions.{reaches as reach, makes as make, keeps as keep, allows as allow, as_condition};

use rg_tree::condition::{Assign, Condition};
use rg_tree::copy::copy_formula;
use rg_tree::rule_conditions::{allows, copy_assigns, implies, keeps, makes, reaches};
use rg_tree::tree::Formula;
use rg_words::Layout;
use std::alloc::{AllocError, Global};

/// What a condition of assignments owns: the assignments, the goal and the words.
fn copies(
    alloc: Global,
    layout: &Layout,
    act: &[Assign],
    goal: &Formula,
) -> Result<(Vec<Assign>, Formula, Layout), AllocError>
    ensures act { IfOk result (λ r. map assignment r.0.items ≡ map assignment act.now) }
    ensures goal { IfOk result (λ r. formula r.1 ≡ formula goal.now) }
    ensures words { IfOk result (λ r. r.2 ≡ layout.now) }
{
    let act = copy_assigns(alloc, act)?;
    let goal = copy_formula(alloc, goal)?;
    let layout = layout.copy()?;
    Ok((act, goal, layout))
}

/// Adds that the goal holds after the assignments where all the given formulas hold.
pub(crate) fn add_reached(
    alloc: Global,
    all: &mut Vec<Condition>,
    layout: &Layout,
    given: Vec<Formula>,
    act: &[Assign],
    goal: &Formula,
) -> Result<(), AllocError>
    requires { ConditionTyped (as_condition layout.now (reach (map formula given.items) (map assignment act.now) (formula goal.now))) }
    ensures { OnOk result (map condition_tree all.new.items
        ≡ map condition_tree all.old.items
        ++ as_condition layout.now (reach (map formula given.items) (map assignment act.now) (formula goal.now)) ∷ []) }
{
    let (act, goal, layout) = copies(alloc, layout, act, goal)?;
    all.push(reaches(layout, given, act, goal))?;
    Ok(())
}

/// Adds that the step that the assignments make is inside the goal where all the given formulas hold.
pub(crate) fn add_made(
    alloc: Global,
    all: &mut Vec<Condition>,
    layout: &Layout,
    given: Vec<Formula>,
    act: &[Assign],
    goal: &Formula,
) -> Result<(), AllocError>
    requires { ConditionTyped (as_condition layout.now (make (map formula given.items) (map assignment act.now) (formula goal.now))) }
    ensures { OnOk result (map condition_tree all.new.items
        ≡ map condition_tree all.old.items
        ++ as_condition layout.now (make (map formula given.items) (map assignment act.now) (formula goal.now)) ∷ []) }
{
    let (act, goal, layout) = copies(alloc, layout, act, goal)?;
    all.push(makes(layout, given, act, goal))?;
    Ok(())
}

/// Adds that the predicate holds after a step that the relation allows where it holds before.
pub(crate) fn add_kept(
    alloc: Global,
    all: &mut Vec<Condition>,
    layout: &Layout,
    predicate: &Formula,
    relation: &Formula,
) -> Result<(), AllocError>
    requires { ConditionTyped (as_condition layout.now (keep (formula predicate.now) (formula relation.now))) }
    ensures { OnOk result (map condition_tree all.new.items
        ≡ map condition_tree all.old.items
        ++ as_condition layout.now (keep (formula predicate.now) (formula relation.now)) ∷ []) }
{
    let layout = layout.copy()?;
    let condition = keeps(alloc, layout, predicate, relation)?;
    all.push(condition)?;
    Ok(())
}

/// Adds that a step that the first relation allows is inside the second.
pub(crate) fn add_allowed(
    alloc: Global,
    all: &mut Vec<Condition>,
    layout: &Layout,
    first: &Formula,
    second: &Formula,
) -> Result<(), AllocError>
    requires { ConditionTyped (as_condition layout.now (allow (formula first.now) (formula second.now))) }
    ensures { OnOk result (map condition_tree all.new.items
        ≡ map condition_tree all.old.items
        ++ as_condition layout.now (allow (formula first.now) (formula second.now)) ∷ []) }
{
    let layout = layout.copy()?;
    let condition = allows(alloc, layout, first, second)?;
    all.push(condition)?;
    Ok(())
}

/// Adds that the goal holds where the given formula does.
pub(crate) fn add_implied(
    alloc: Global,
    all: &mut Vec<Condition>,
    layout: &Layout,
    given: &Formula,
    goal: &Formula,
) -> Result<(), AllocError>
    requires { ConditionTyped (as_condition layout.now (reach (formula given.now ∷ []) [] (formula goal.now))) }
    ensures { OnOk result (map condition_tree all.new.items
        ≡ map condition_tree all.old.items
        ++ as_condition layout.now (reach (formula given.now ∷ []) [] (formula goal.now)) ∷ []) }
{
    let layout = layout.copy()?;
    let condition = implies(alloc, layout, given, goal)?;
    all.push(condition)?;
    Ok(())
}
