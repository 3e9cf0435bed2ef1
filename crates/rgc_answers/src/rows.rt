//! Rows: an expression for each word, which gives the word's value in some state.

ghost use Rattle.std.specs.Prelude.{◌≡◌, ◌<◌, [], ◌∷◌, length, map, slice_set, IfOk, OnOk};
ghost use Rattle.rg_tree.specs.ConditionTrees.{assignment, second_state, AssignmentsFit, SecondFits};
ghost use Rattle.rg_tree.specs.Trees.{next_word};
ghost use Rattle.rg_tree.specs.View.{expression};
ghost use Rattle.rgc_answers.specs.Rows.{plain_row, primed_row, assigned_row, moved_row, before_row, second_row};

use crate::replace::expression_over;
use rg_tree::condition::{Assign, Second};
use rg_tree::tree::Expr;
use std::alloc::{AllocError, Global};

/// Each of so many words in the first state. As with all calls of this file, an error comes only where memory was refused.
pub fn plain_row(alloc: Global, count: usize) -> Result<Vec<Expr>, AllocError>
    ensures { IfOk result (λ row. map expression row.items ≡ plain_row count) }
{
    let mut row = Vec::new(alloc);
    for word in 0..count {
        row.push(Expr::Word(word))?;
    }
    Ok(row)
}

/// Each of so many words in the second state.
fn primed_row(alloc: Global, count: usize) -> Result<Vec<Expr>, AllocError>
    ensures { IfOk result (λ row. map expression row.items ≡ primed_row count) }
{
    let mut row = Vec::new(alloc);
    for word in 0..count {
        row.push(Expr::NextWord(word))?;
    }
    Ok(row)
}

/// An assignment to a word of a row.
fn assign(alloc: Global, row: &mut Vec<Expr>, a: &Assign) -> Result<(), AllocError>
    requires { AssignmentsFit (assignment a.now ∷ []) (length row.old.items) }
    ensures row { OnOk result (map expression row.new.items ≡ assigned_row (assignment a.now ∷ []) (map expression row.old.items)) }
    ensures count { OnOk result (length row.new.items ≡ length row.old.items) }
{
    let value = expression_over(alloc, &a.value, row.as_slice(), row.as_slice())?;
    row[a.word] = value;
    Ok(())
}

/// The row after assignments, in order: each reads what the earlier ones wrote.
pub fn assigned_row(alloc: Global, count: usize, act: &[Assign]) -> Result<Vec<Expr>, AllocError>
    requires { AssignmentsFit (map assignment act.now) count }
    ensures { IfOk result (λ row. map expression row.items ≡ assigned_row (map assignment act.now) (plain_row count)) }
{
    let mut row = plain_row(alloc, count)?;
    for a in act {
        assign(alloc, &mut row, a)?;
    }
    Ok(row)
}

/// Reads a word of a row in the second state.
fn prime(row: &mut Vec<Expr>, word: usize)
    requires { word < length row.old.items }
    ensures row { map expression row.new.items ≡ slice_set (map expression row.old.items) word (next_word word) }
    ensures count { length row.new.items ≡ length row.old.items }
{
    row[word] = Expr::NextWord(word);
}

/// Each of so many words: where it is assigned to, in the second state, and else in the first.
pub fn moved_row(alloc: Global, count: usize, act: &[Assign]) -> Result<Vec<Expr>, AllocError>
    requires { AssignmentsFit (map assignment act.now) count }
    ensures { IfOk result (λ row. map expression row.items ≡ moved_row (map assignment act.now) (plain_row count)) }
{
    let mut row = plain_row(alloc, count)?;
    for a in act {
        prime(&mut row, a.word);
    }
    Ok(row)
}

/// The second state that hypotheses read: there is one only where it is free.
pub fn before_row(alloc: Global, count: usize, second: &Second) -> Result<Vec<Expr>, AllocError>
    ensures { IfOk result (λ row. map expression row.items ≡ before_row (second_state second.now) count) }
{
    match second {
        Second::Free => primed_row(alloc, count),
        Second::Same | Second::After(_) => plain_row(alloc, count),
    }
}

/// The second state that the goal reads.
pub fn second_row(alloc: Global, count: usize, second: &Second) -> Result<Vec<Expr>, AllocError>
    requires { SecondFits (second_state second.now) count }
    ensures { IfOk result (λ row. map expression row.items ≡ second_row (second_state second.now) count) }
{
    match second {
        Second::Same => plain_row(alloc, count),
        Second::Free => primed_row(alloc, count),
        Second::After(act) => moved_row(alloc, count, act.as_slice()),
    }
}
