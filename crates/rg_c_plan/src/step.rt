//! Steps of programs.

ghost use Rattle.std.specs.Prelude.{◌≡◌, ◌++◌, ◌∷◌, [], map, OnOk, IfOk};
ghost use Rattle.rg_tree.specs.ConditionTrees.{assignment};
ghost use Rattle.rg_tree.specs.ProgramView.{statement, items, part as part_tree};
ghost use Rattle.rg_c_plan.specs.Changes.{moving};
ghost use Rattle.rg_c_plan.specs.Accesses.{steps, steps_of_items, steps_of_parts};
ghost use Rattle.rg_c_plan.specs.View.{guard_tree, step};

use rg_tree::condition::Assign;
use rg_tree::part::Part;
use rg_tree::statement::{Items, Stmt};
use rg_tree::tree::Formula;
use std::alloc::{AllocError, Global};
use std::slice::from_ref;

/// A step of a part: a skip, an assignment, an await with its assignments, the test of an if or of a while.
#[derive(Clone, Copy)]
pub struct Step<'a> {
    /// The line of its statement, from 1.
    pub line: u32,
    /// What it waits for or tests.
    pub guard: Option<&'a Formula>,
    /// What it assigns, in order; assignments of words to themselves change nothing, and are passed over.
    pub act: &'a [Assign],
}

/// Adds a step.
fn push_step<'a>(
    line: u32,
    guard: Option<&'a Formula>,
    act: &'a [Assign],
    list: &mut Vec<Step<'a>>,
) -> Result<(), AllocError>
    ensures { OnOk result (map step list.new.items
        ≡ map step list.old.items
        ++ record { line = line; guard = guard_tree guard.entry; act = moving (map assignment act.now) } ∷ []) }
{
    list.push(Step { line, guard, act })?;
    Ok(())
}

/// Adds the steps of a statement.
#[cycle(steps)]
fn push_steps<'a>(s: &'a Stmt, list: &mut Vec<Step<'a>>) -> Result<(), AllocError>
    ensures { OnOk result (map step list.new.items ≡ map step list.old.items ++ steps (statement s.now)) }
{
    match s {
        Stmt::Skip(line) => push_step(*line, None, &[], list),
        Stmt::Assign(line, a) => push_step(*line, None, from_ref(a), list),
        Stmt::Await(line, f, act) => push_step(*line, Some(f), act, list),
        Stmt::Seq(_, first, rest) => {
            push_steps(first, list)?;
            push_items(rest, list)
        }
        Stmt::If(line, f, first, second) => {
            push_step(*line, Some(f), &[], list)?;
            push_steps(first, list)?;
            push_steps(second, list)
        }
        Stmt::While(line, f, body) => {
            push_step(*line, Some(f), &[], list)?;
            push_steps(body, list)
        }
    }
}

/// Adds the steps of the items of a sequence.
#[cycle(steps)]
fn push_items<'a>(s: &'a Items, list: &mut Vec<Step<'a>>) -> Result<(), AllocError>
    ensures { OnOk result (map step list.new.items ≡ map step list.old.items ++ steps_of_items (items s.now)) }
{
    match s {
        Items::One(s) => push_steps(s, list),
        Items::More(s, rest) => {
            push_steps(s, list)?;
            push_items(rest, list)
        }
    }
}

/// The steps of a statement, in the order of the text.
///
/// An error comes only where memory was refused.
pub fn steps_of(alloc: Global, s: &Stmt) -> Result<Vec<Step<'_>>, AllocError>
    ensures { IfOk result (λ list. map step list.items ≡ steps (statement s.now)) }
{
    let mut list = Vec::new(alloc);
    push_steps(s, &mut list)?;
    Ok(list)
}

/// The steps of all parts, in the order of the text.
///
/// An error comes only where memory was refused.
pub fn steps_of_parts(alloc: Global, parts: &[Part]) -> Result<Vec<Step<'_>>, AllocError>
    ensures { IfOk result (λ list. map step list.items ≡ steps_of_parts (map part_tree parts.now)) }
{
    let mut list = Vec::new(alloc);
    for part in parts {
        push_steps(&part.body, &mut list)?;
    }
    Ok(list)
}
