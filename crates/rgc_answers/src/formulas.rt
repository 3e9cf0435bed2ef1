//! A condition as one formula over its words.

ghost use Rattle.std.specs.Prelude.{◌≡◌, ◌++◌, length, map, IfOk, OnOk};
ghost use Rattle.rg_words.specs.declared.operators.Connective.TheVariants.{Or};
ghost use Rattle.rg_tree.specs.Trees.{connected};
ghost use Rattle.rg_tree.specs.Fits.{FormulaFits};
ghost use Rattle.rg_tree.specs.ConditionTrees.{AllFit, SecondFits, second_state};
ghost use Rattle.rg_tree.specs.Conditions.{condition_tree};
ghost use Rattle.rg_tree.specs.View.{expression, formula};
ghost use Rattle.rgc_answers.specs.Equations.{equations, conjunction};
ghost use Rattle.rgc_answers.specs.Rows.{plain_row};
ghost use Rattle.rgc_answers.specs.Formulas.{step_of, given_of, goal_over, goal_of, formula_of};
ghost use Rattle.rgc_answers.specs.Inner.Formulas.{formulas_over};

use crate::equations::{conjunction, implied, joined, push_equations};
use crate::replace::formula_over;
use crate::rows::{assigned_row, before_row, moved_row, plain_row, second_row};
use rg_tree::condition::{Condition, Second};
use rg_tree::tree::{Expr, Formula};
use rg_words::operators::Connective;
use std::alloc::{AllocError, Global};

/// Adds the hypotheses with their words replaced. As with all calls of this file, an error comes only where memory was refused.
fn push_over(
    alloc: Global,
    all: &mut Vec<Formula>,
    hypotheses: &[Formula],
    plain: &[Expr],
    primed: &[Expr],
) -> Result<(), AllocError>
    requires fit { AllFit (map formula hypotheses.now) (length plain.now) }
    requires same { length primed.now ≡ length plain.now }
    ensures { OnOk result (map formula all.new.items ≡ map formula all.old.items ++ formulas_over plain.now primed.now hypotheses.now) }
{
    for hypothesis in hypotheses {
        let over = formula_over(alloc, hypothesis, plain, primed)?;
        all.push(over)?;
    }
    Ok(())
}

/// Adds what is known of the second state: a word that is assigned to has the value that the assignments give it.
fn push_step(
    alloc: Global,
    all: &mut Vec<Formula>,
    count: usize,
    second: &Second,
) -> Result<(), AllocError>
    requires { SecondFits (second_state second.now) count }
    ensures { OnOk result (map formula all.new.items ≡ map formula all.old.items ++ step_of (second_state second.now) count) }
{
    if let Second::After(act) = second {
        let moved = moved_row(alloc, count, act.as_slice())?;
        let assigned = assigned_row(alloc, count, act.as_slice())?;
        push_equations(alloc, all, moved.as_slice(), assigned.as_slice())?;
    }
    Ok(())
}

/// The hypotheses of a condition, and what is known of the second state.
fn given_of(alloc: Global, c: &Condition) -> Result<Vec<Formula>, AllocError>
    ensures { IfOk result (λ given. map formula given.items ≡ given_of (condition_tree c.now)) }
{
    c.facts();
    let count = c.layout.len();
    let plain = plain_row(alloc, count)?;
    let before = before_row(alloc, count, &c.second)?;
    let mut given = Vec::new(alloc);
    push_over(
        alloc,
        &mut given,
        c.hypotheses.as_slice(),
        plain.as_slice(),
        before.as_slice(),
    )?;
    push_step(alloc, &mut given, count, &c.second)?;
    Ok(given)
}

/// The goal, or the formula that nothing changes.
fn met(alloc: Global, goal: Formula, second: &[Expr], plain: &[Expr]) -> Result<Formula, AllocError>
    requires { length plain.now ≡ length second.now }
    ensures { IfOk result (λ f. formula f ≡ connected Or (formula goal) (conjunction (equations (map expression second.now) (map expression plain.now)))) }
{
    let mut unchanged = Vec::new(alloc);
    push_equations(alloc, &mut unchanged, second, plain)?;
    let unchanged = conjunction(alloc, unchanged)?;
    joined(alloc, Connective::Or, goal, unchanged)
}

/// The goal of a condition over these two states.
fn goal_over(
    alloc: Global,
    c: &Condition,
    plain: &[Expr],
    second: &[Expr],
) -> Result<Formula, AllocError>
    requires fits { FormulaFits (formula c.now.goal) (length plain.now) }
    requires same { length second.now ≡ length plain.now }
    ensures { IfOk result (λ f. formula f ≡ goal_over (condition_tree c.now) (map expression plain.now) (map expression second.now)) }
{
    let first = if c.alone { second } else { plain };
    let goal = formula_over(alloc, &c.goal, first, second)?;
    if c.or_no_change {
        met(alloc, goal, second, plain)
    } else {
        Ok(goal)
    }
}

/// The goal of a condition.
fn goal_of(alloc: Global, c: &Condition) -> Result<Formula, AllocError>
    ensures { IfOk result (λ f. formula f ≡ goal_of (condition_tree c.now)) }
{
    c.facts();
    let count = c.layout.len();
    let plain = plain_row(alloc, count)?;
    let second = second_row(alloc, count, &c.second)?;
    goal_over(alloc, c, plain.as_slice(), second.as_slice())
}

/// The condition as one formula over its words: it holds of each two states that agree on the fixed words exactly where the condition is true.
pub fn formula_of(alloc: Global, c: &Condition) -> Result<Formula, AllocError>
    ensures formula { IfOk result (λ f. formula f ≡ formula_of (condition_tree c.now)) }
    ensures fits { IfOk result (λ f. FormulaFits (formula f) (length c.now.layout)) }
{
    c.facts();
    let given = given_of(alloc, c)?;
    let goal = goal_of(alloc, c)?;
    let whole = implied(alloc, given, goal)?;
    Ok(whole)
}
