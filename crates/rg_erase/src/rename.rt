//! Trees over the words that stay.

ghost use Rattle.std.specs.Prelude.{◌≡◌, IfOk};
ghost use Rattle.rg_tree.specs.View.{expression, formula};
ghost use Rattle.rg_tree.specs.ConditionTrees.{assignment};
ghost use Rattle.rg_erase.specs.Erased.{new_place, renamed, renamed_formula, renamed_assignment};

use crate::mention::is_set;
use rg_tree::condition::Assign;
use rg_tree::tree::{Expr, Formula};
use std::alloc::{AllocError, Global};

/// The place of a word among those that stay.
pub(crate) fn new_place(erased: &[bool], k: usize) -> usize
    ensures { result ≡ new_place erased.now k }
{
    let mut place = 0;
    for word in 0..k {
        if !is_set(erased, word) {
            place += 1;
        }
    }
    place
}

/// An expression over the words that stay.
#[cycle(rename)]
pub(crate) fn renamed(alloc: Global, erased: &[bool], e: &Expr) -> Result<Expr, AllocError>
    ensures { IfOk result (λ c. expression c ≡ renamed erased.now (expression e.now)) }
{
    Ok(match e {
        Expr::Number(width, n) => Expr::Number(*width, *n),
        Expr::Word(k) => Expr::Word(new_place(erased, *k)),
        Expr::NextWord(k) => Expr::NextWord(new_place(erased, *k)),
        Expr::Inverse(width, a) => {
            let a = renamed(alloc, erased, a)?;
            Expr::Inverse(*width, Box::new(alloc, a)?)
        }
        Expr::Binary(operator, width, a, b) => {
            let a = renamed(alloc, erased, a)?;
            let b = renamed(alloc, erased, b)?;
            Expr::Binary(*operator, *width, Box::new(alloc, a)?, Box::new(alloc, b)?)
        }
        Expr::Shifted(shift, width, a, count) => {
            let a = renamed(alloc, erased, a)?;
            Expr::Shifted(*shift, *width, Box::new(alloc, a)?, *count)
        }
        Expr::If(f, a, b) => {
            let f = renamed_formula(alloc, erased, f)?;
            let a = renamed(alloc, erased, a)?;
            let b = renamed(alloc, erased, b)?;
            Expr::If(
                Box::new(alloc, f)?,
                Box::new(alloc, a)?,
                Box::new(alloc, b)?,
            )
        }
    })
}

/// A formula over the words that stay.
#[cycle(rename)]
pub(crate) fn renamed_formula(
    alloc: Global,
    erased: &[bool],
    f: &Formula,
) -> Result<Formula, AllocError>
    ensures { IfOk result (λ c. formula c ≡ renamed_formula erased.now (formula f.now)) }
{
    Ok(match f {
        Formula::Truth(b) => Formula::Truth(*b),
        Formula::Not(f) => {
            let f = renamed_formula(alloc, erased, f)?;
            Formula::Not(Box::new(alloc, f)?)
        }
        Formula::Connect(connective, f, g) => {
            let f = renamed_formula(alloc, erased, f)?;
            let g = renamed_formula(alloc, erased, g)?;
            Formula::Connect(*connective, Box::new(alloc, f)?, Box::new(alloc, g)?)
        }
        Formula::Compare(comparison, a, b) => {
            let a = renamed(alloc, erased, a)?;
            let b = renamed(alloc, erased, b)?;
            Formula::Compare(*comparison, a, b)
        }
    })
}

/// An assignment to a word that stays.
pub(crate) fn renamed_assignment(
    alloc: Global,
    erased: &[bool],
    a: &Assign,
) -> Result<Assign, AllocError>
    ensures { IfOk result (λ c. assignment c ≡ renamed_assignment erased.now (assignment a.now)) }
{
    let value = renamed(alloc, erased, &a.value)?;
    Ok(Assign {
        word: new_place(erased, a.word),
        value,
    })
}
