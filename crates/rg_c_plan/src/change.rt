//! What an assignment does to its word.

ghost use Rattle.std.specs.Prelude.{◌≡◌, map, IfOk};
ghost use Rattle.rg_tree.specs.View.{expression};
ghost use Rattle.rg_tree.specs.ConditionTrees.{assignment};
ghost use Rattle.rg_c_plan.specs.View.{change};
ghost use Rattle.rg_c_plan.specs.Changes.{is_word, moves, moving, change_by, change_of};

use rg_tree::condition::Assign;
use rg_tree::copy::copy_expr;
use rg_tree::tree::{Expr, Formula};
use std::alloc::{AllocError, Global};

/// A change of a word.
#[derive(Clone, Copy)]
pub struct Change<'a> {
    /// The word is changed where this holds; without it, always.
    pub test: Option<&'a Formula>,
    /// What the word is changed to.
    pub value: &'a Expr,
}

/// Whether an expression is this word itself.
fn is_word(word: usize, e: &Expr) -> bool
    ensures { result ≡ is_word word (expression e.now) }
{
    match e {
        Expr::Word(k) => word == *k,
        _ => false,
    }
}

/// Whether an assignment isn't one of a word to itself, which changes nothing.
pub(crate) fn moves(a: &Assign) -> bool
    ensures { result ≡ moves (assignment a.now) }
{
    !is_word(a.word, &a.value)
}

/// How a word is changed by this value: `x := (if F then E else x)` changes it to `E` where `F` holds.
fn change_by(word: usize, value: &Expr) -> Change<'_>
    ensures { change result ≡ change_by word (expression value.now) }
{
    match value {
        Expr::If(f, a, b) if is_word(word, b) => Change {
            test: Some(f),
            value: a,
        },
        _ => Change { test: None, value },
    }
}

/// How an assignment changes its word: `x := (if F then E else x)` changes x to `E` where `F` holds, and leaves it alone elsewhere.
pub fn change_of(a: &Assign) -> Change<'_>
    ensures { change result ≡ change_of (assignment a.now) }
{
    change_by(a.word, &a.value)
}

/// An equal assignment.
fn copy_assignment(alloc: Global, a: &Assign) -> Result<Assign, AllocError>
    ensures { IfOk result (λ b. assignment b ≡ assignment a.now) }
{
    let value = copy_expr(alloc, &a.value)?;
    Ok(Assign {
        word: a.word,
        value,
    })
}

/// The assignments without those of a word to itself.
///
/// An error comes only where memory was refused.
pub fn moving(alloc: Global, act: &[Assign]) -> Result<Vec<Assign>, AllocError>
    ensures { IfOk result (λ list. map assignment list.items ≡ moving (map assignment act.now)) }
{
    let mut list = Vec::new(alloc);
    for a in act {
        if moves(a) {
            list.push(copy_assignment(alloc, a)?)?;
        }
    }
    Ok(list)
}
