//! One own step of a part.

ghost use Rattle.std.specs.Prelude.{◌≡◌, ◌++◌, [], ◌∷◌, if◌then◌else◌, Some, None, map, length, IfOk, OnOk};
ghost use Rattle.rg_words.specs.Layout.{widths_of};
ghost use Rattle.rg_words.specs.States.{IsState};
ghost use Rattle.rg_tree.specs.View.{formula};
ghost use Rattle.rg_tree.specs.ProgramView.{statement, items};
ghost use Rattle.rg_tree.specs.ConditionTrees.{assignment, assigned, AssignmentsTyped};
ghost use Rattle.rg_tree.specs.Traces.{holds_at};
ghost use Rattle.rg_tree.specs.TypedPrograms.{IsTypedPredicate, IsTypedStatement, AreTypedItems};
ghost use Rattle.rg_tree.specs.Following.{same_state, list_of, step_of, step_of_all};
ghost use Rattle.rg_runs.specs.Inner.Todo.{todo_of, AreTyped};

use crate::states::copy_state;
use rg_tree::condition::Assign;
use rg_tree::meaning::{holds, value};
use rg_tree::statement::{Items, Stmt};
use rg_tree::tree::Formula;
use rg_tree::typing::{typed_trees_fit, values_stay_within_width};
use rg_words::{Layout, State};
use std::alloc::{AllocError, Global};
use std::collections::VecDeque;
use std::slice;

/// Whether both have the same values.
fn same(first: &State, second: &State) -> bool
    ensures { result ≡ same_state first.now.values second.now.values }
{
    first.same(second)
}

/// Whether a formula of one state holds.
fn holds_in(layout: &Layout, f: &Formula, state: &State) -> bool
    requires state { IsState layout.now state.now.values }
    requires formula { IsTypedPredicate layout.now (formula f.now) }
    ensures { result ≡ holds_at (formula f.now) state.now.values }
{
    typed_trees_fit();
    layout.facts();
    state.facts();
    holds(f, state, state)
}

/// Makes one assignment.
fn set(layout: &Layout, state: &mut State, assign: &Assign)
    requires widths { state.old.widths ≡ widths_of layout.now }
    requires typed { AssignmentsTyped (widths_of layout.now) (assignment assign.now ∷ []) }
    ensures widths { state.new.widths ≡ widths_of layout.now }
    ensures values { state.new.values ≡ assigned (assignment assign.now ∷ []) state.old.values }
{
    typed_trees_fit();
    values_stay_within_width();
    layout.facts();
    state.facts();
    let value = value(&assign.value, state, state);
    state.set(assign.word, value);
}

/// Whether these assignments, made in order as one step, lead from the one state to the other.
fn leads(
    alloc: Global,
    layout: &Layout,
    act: &[Assign],
    before: &State,
    after: &State,
) -> Result<bool, AllocError>
    requires before { IsState layout.now before.now.values }
    requires typed { AssignmentsTyped (widths_of layout.now) (map assignment act.now) }
    ensures { IfOk result (λ yes. yes ≡ same_state after.now.values (assigned (map assignment act.now) before.now.values)) }
{
    let mut state = copy_state(alloc, layout, before)?;
    for assign in act {
        set(layout, &mut state, assign);
    }
    Ok(same(after, &state))
}

/// Puts the items of a sequence before what is to be done.
fn put_items<'a>(todo: &mut VecDeque<&'a Stmt>, rest: &'a Items) -> Result<(), AllocError>
    ensures { OnOk result (todo_of todo.new.items ≡ list_of (items rest.now) ++ todo_of todo.old.items) }
{
    match rest {
        Items::One(item) => {
            todo.push_front(item)?;
        }
        Items::More(item, rest) => {
            put_items(todo, rest)?;
            todo.push_front(item)?;
        }
    }
    Ok(())
}

/// Whether an own step of this statement can lead from the one state to the other. Where it can, what it still has to do after
/// that step is put before the rest.
fn step<'a>(
    alloc: Global,
    layout: &Layout,
    mut s: &'a Stmt,
    todo: &mut VecDeque<&'a Stmt>,
    before: &State,
    after: &State,
) -> Result<bool, AllocError>
    requires before { IsState layout.now before.now.values }
    requires typed { IsTypedStatement layout.now (statement s.now) }
    requires rest { AreTyped layout.now (todo_of todo.old.items) }
    ensures step { IfOk result (λ yes. step_of (statement s.now) (todo_of todo.old.items) before.now.values after.now.values
        ≡ (if yes then Some (todo_of todo.new.items) else None)) }
    ensures typed { OnOk result (AreTyped layout.now (todo_of todo.new.items)) }
{
    loop {
        match s {
            Stmt::Skip(_) => return Ok(same(after, before)),
            Stmt::Assign(_, assign) => {
                return leads(alloc, layout, slice::from_ref(assign), before, after);
            }
            Stmt::Await(_, guard, act) => {
                if !holds_in(layout, guard, before) {
                    return Ok(false);
                }
                return leads(alloc, layout, act, before, after);
            }
            Stmt::Seq(_, first, rest) => {
                put_items(todo, rest)?;
                s = first;
            }
            Stmt::If(_, test, first, second) => {
                let chosen = if holds_in(layout, test, before) {
                    first
                } else {
                    second
                };
                todo.push_front(chosen)?;
                return Ok(same(after, before));
            }
            Stmt::While(_, test, body) => {
                if holds_in(layout, test, before) {
                    todo.push_front(s)?;
                    todo.push_front(body)?;
                }
                return Ok(same(after, before));
            }
        }
    }
}

/// Whether an own step of what is to be done can lead from the one state to the other. Where it can, `todo` is then what is
/// still to be done.
pub(crate) fn step_first(
    alloc: Global,
    layout: &Layout,
    todo: &mut VecDeque<&Stmt>,
    before: &State,
    after: &State,
) -> Result<bool, AllocError>
    requires before { IsState layout.now before.now.values }
    requires typed { AreTyped layout.now (todo_of todo.old.items) }
    ensures step { IfOk result (λ yes. step_of_all (todo_of todo.old.items) before.now.values after.now.values
        ≡ (if yes then Some (todo_of todo.new.items) else None)) }
    ensures typed { OnOk result (AreTyped layout.now (todo_of todo.new.items)) }
{
    let Some(next) = todo.pop_front() else {
        return Ok(false);
    };
    step(alloc, layout, next, todo, before, after)
}
