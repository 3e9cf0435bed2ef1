//! Equations of the words' values in two states, and formulas joined.

ghost use Rattle.std.specs.Prelude.{◌≡◌, ◌++◌, length, map, IfOk, OnOk};
ghost use Rattle.rg_tree.specs.Trees.{connected};
ghost use Rattle.rg_tree.specs.View.{expression, formula};
ghost use Rattle.rgc_answers.specs.Equations.{equation, equations, conjunction, implied};

use rg_tree::copy::copy_expr;
use rg_tree::tree::{Expr, Formula};
use rg_words::operators::{Comparison, Connective};
use std::alloc::{AllocError, Global};

/// Adds the equation of two expressions of a word, where the first reads it in the second state. As with all calls of this file, an error
/// comes only where memory was refused.
fn push_equation(
    alloc: Global,
    all: &mut Vec<Formula>,
    left: &Expr,
    right: &Expr,
) -> Result<(), AllocError>
    ensures { OnOk result (map formula all.new.items ≡ map formula all.old.items ++ equation (expression left.now) (expression right.now)) }
{
    if let Expr::NextWord(word) = left {
        let right = copy_expr(alloc, right)?;
        all.push(Formula::Compare(Comparison::Equal, Expr::NextWord(*word), right))?;
    }
    Ok(())
}

/// Adds the equations of two rows.
pub fn push_equations(
    alloc: Global,
    all: &mut Vec<Formula>,
    left: &[Expr],
    right: &[Expr],
) -> Result<(), AllocError>
    requires { length right.now ≡ length left.now }
    ensures { OnOk result (map formula all.new.items ≡ map formula all.old.items ++ equations (map expression left.now) (map expression right.now)) }
{
    for word in 0..left.len() {
        push_equation(alloc, all, &left[word], &right[word])?;
    }
    Ok(())
}

/// Two formulas, joined.
pub fn joined(
    alloc: Global,
    connective: Connective,
    f: Formula,
    g: Formula,
) -> Result<Formula, AllocError>
    ensures { IfOk result (λ r. formula r ≡ connected connective (formula f) (formula g)) }
{
    let f = Box::new(alloc, f)?;
    let g = Box::new(alloc, g)?;
    Ok(Formula::Connect(connective, f, g))
}

/// The formula that holds where all of these do.
pub fn conjunction(alloc: Global, mut all: Vec<Formula>) -> Result<Formula, AllocError>
    ensures { IfOk result (λ r. formula r ≡ conjunction (map formula all.items)) }
{
    let Some(mut whole) = all.pop() else {
        return Ok(Formula::Truth(true));
    };
    while let Some(before) = all.pop() {
        whole = joined(alloc, Connective::And, before, whole)?;
    }
    Ok(whole)
}

/// The formula that says that these give the goal.
pub fn implied(alloc: Global, given: Vec<Formula>, goal: Formula) -> Result<Formula, AllocError>
    ensures { IfOk result (λ r. formula r ≡ implied (map formula given.items) (formula goal)) }
{
    if given.is_empty() {
        return Ok(goal);
    }
    let given = conjunction(alloc, given)?;
    joined(alloc, Connective::Implies, given, goal)
}
