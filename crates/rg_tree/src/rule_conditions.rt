//! The conditions of the rules.

ghost use Rattle.std.specs.Prelude.{◌≡◌, [], ◌∷◌, map, IfOk};
ghost use Rattle.rg_tree.specs.View.{formula};
ghost use Rattle.rg_tree.specs.ConditionTrees.{assignment, ConditionTyped};
ghost use Rattle.rg_tree.specs.Conditions.{condition_tree};
ghost use Rattle.rg_tree.specs.RuleConditions.{reaches, makes, keeps, allows, as_condition};

use crate::condition::{Assign, Condition, Second};
use crate::copy::{copy_expr, copy_formula};
use crate::tree::Formula;
use crate::typing::typed_trees_fit;
use rg_words::Layout;
use std::alloc::{AllocError, Global};

/// Where all of these hold in a state, the goal holds after the assignments.
pub fn reaches(layout: Layout, given: Vec<Formula>, act: Vec<Assign>, goal: Formula) -> Condition
    requires { ConditionTyped (as_condition layout (reaches (map formula given.items) (map assignment act.items) (formula goal))) }
    ensures { condition_tree result ≡ as_condition layout (reaches (map formula given.items) (map assignment act.items) (formula goal)) }
{
    typed_trees_fit();
    layout.facts();
    Condition {
        layout,
        hypotheses: given,
        second: Second::After(act),
        goal,
        alone: true,
        or_no_change: false,
    }
}

/// Where all of these hold in a state, the step that the assignments make is inside the goal: the goal holds of it, or it
/// changes nothing.
pub fn makes(layout: Layout, given: Vec<Formula>, act: Vec<Assign>, goal: Formula) -> Condition
    requires { ConditionTyped (as_condition layout (makes (map formula given.items) (map assignment act.items) (formula goal))) }
    ensures { condition_tree result ≡ as_condition layout (makes (map formula given.items) (map assignment act.items) (formula goal)) }
{
    typed_trees_fit();
    layout.facts();
    Condition {
        layout,
        hypotheses: given,
        second: Second::After(act),
        goal,
        alone: false,
        or_no_change: true,
    }
}

/// Where the predicate holds, it holds after a step that the relation allows. Refused only where memory was refused.
pub fn keeps(
    alloc: Global,
    layout: Layout,
    predicate: &Formula,
    relation: &Formula,
) -> Result<Condition, AllocError>
    requires { ConditionTyped (as_condition layout (keeps (formula predicate.now) (formula relation.now))) }
    ensures { IfOk result (λ c. condition_tree c ≡ as_condition layout (keeps (formula predicate.now) (formula relation.now))) }
{
    typed_trees_fit();
    layout.facts();
    let (hypotheses, goal) = kept(alloc, predicate, relation)?;
    Ok(Condition {
        layout,
        hypotheses,
        second: Second::Free,
        goal,
        alone: true,
        or_no_change: false,
    })
}

/// A step that the first relation allows is inside the second. Refused only where memory was refused.
pub fn allows(
    alloc: Global,
    layout: Layout,
    first: &Formula,
    second: &Formula,
) -> Result<Condition, AllocError>
    requires { ConditionTyped (as_condition layout (allows (formula first.now) (formula second.now))) }
    ensures { IfOk result (λ c. condition_tree c ≡ as_condition layout (allows (formula first.now) (formula second.now))) }
{
    typed_trees_fit();
    layout.facts();
    let mut hypotheses = Vec::new(alloc);
    hypotheses.push(copy_formula(alloc, first)?)?;
    let goal = copy_formula(alloc, second)?;
    Ok(Condition {
        layout,
        hypotheses,
        second: Second::Free,
        goal,
        alone: false,
        or_no_change: true,
    })
}

/// Equal assignments. Refused only where memory was refused.
pub fn copy_assigns(alloc: Global, all: &[Assign]) -> Result<Vec<Assign>, AllocError>
    ensures { IfOk result (λ copy. map assignment copy.items ≡ map assignment all.now) }
{
    let mut copy = Vec::new(alloc);
    for a in all {
        copy.push(Assign {
            word: a.word,
            value: copy_expr(alloc, &a.value)?,
        })?;
    }
    Ok(copy)
}

/// Where the one formula holds in a state, the other holds. Refused only where memory was refused.
pub fn implies(
    alloc: Global,
    layout: Layout,
    given: &Formula,
    goal: &Formula,
) -> Result<Condition, AllocError>
    requires { ConditionTyped (as_condition layout (reaches (formula given.now ∷ []) [] (formula goal.now))) }
    ensures { IfOk result (λ c. condition_tree c ≡ as_condition layout (reaches (formula given.now ∷ []) [] (formula goal.now))) }
{
    typed_trees_fit();
    layout.facts();
    let mut hypotheses = Vec::new(alloc);
    hypotheses.push(copy_formula(alloc, given)?)?;
    let goal = copy_formula(alloc, goal)?;
    Ok(Condition {
        layout,
        hypotheses,
        second: Second::After(Vec::new(alloc)),
        goal,
        alone: true,
        or_no_change: false,
    })
}

/// Copies of a predicate and a relation, and the predicate once more.
fn kept(
    alloc: Global,
    predicate: &Formula,
    relation: &Formula,
) -> Result<(Vec<Formula>, Formula), AllocError>
    ensures hypotheses { IfOk result (λ r. map formula r.0.items ≡ formula predicate.now ∷ formula relation.now ∷ []) }
    ensures goal { IfOk result (λ r. formula r.1 ≡ formula predicate.now) }
{
    let goal = copy_formula(alloc, predicate)?;
    let mut hypotheses = Vec::new(alloc);
    hypotheses.push(copy_formula(alloc, predicate)?)?;
    hypotheses.push(copy_formula(alloc, relation)?)?;
    Ok((hypotheses, goal))
}
