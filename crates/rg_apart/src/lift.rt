//! What is said of the words that are left of a program, said of the program's words.

ghost use Rattle.std.specs.Prelude.{◌≡◌, false, get_or, slice_index, IfOk};
ghost use Rattle.rg_tree.specs.View.{expression, formula};
ghost use Rattle.rg_apart.specs.Lifted.{lifted, lifted_formula, old_places};

use rg_tree::tree::{Expr, Formula};
use rg_words::Layout;
use std::alloc::{AllocError, Global};

/// Whether a word is erased; one without a flag is not.
fn is_erased(erased: &[bool], word: usize) -> bool
    ensures { result ≡ get_or erased.now word false }
{
    match erased.get(word) {
        Some(flag) => *flag,
        None => false,
    }
}

/// The places of the words that stay where these are erased.
pub(crate) fn old_places(
    alloc: Global,
    erased: &[bool],
    layout: &Layout,
) -> Result<Vec<usize>, AllocError>
    ensures { IfOk result (λ old. old.items ≡ old_places erased.now layout.now) }
{
    let mut old = Vec::new(alloc);
    for word in 0..layout.len() {
        if !is_erased(erased, word) {
            old.push(word)?;
        }
    }
    Ok(old)
}

/// The place in the program of a word that is left.
fn old_place(old: &[usize], word: usize) -> usize
    ensures { result ≡ slice_index old.now word }
{
    match old.get(word) {
        Some(place) => *place,
        None => 0,
    }
}

/// An expression of the words that are left, over the program's words.
#[cycle(lift)]
fn lifted(alloc: Global, old: &[usize], e: &Expr) -> Result<Expr, AllocError>
    ensures { IfOk result (λ c. expression c ≡ lifted old.now (expression e.now)) }
{
    Ok(match e {
        Expr::Number(width, n) => Expr::Number(*width, *n),
        Expr::Word(k) => Expr::Word(old_place(old, *k)),
        Expr::NextWord(k) => Expr::NextWord(old_place(old, *k)),
        Expr::Inverse(width, a) => {
            let a = lifted(alloc, old, a)?;
            Expr::Inverse(*width, Box::new(alloc, a)?)
        }
        Expr::Binary(operator, width, a, b) => {
            let a = lifted(alloc, old, a)?;
            let b = lifted(alloc, old, b)?;
            Expr::Binary(*operator, *width, Box::new(alloc, a)?, Box::new(alloc, b)?)
        }
        Expr::Shifted(shift, width, a, count) => {
            let a = lifted(alloc, old, a)?;
            Expr::Shifted(*shift, *width, Box::new(alloc, a)?, *count)
        }
        Expr::If(f, a, b) => {
            let f = lifted_formula(alloc, old, f)?;
            let a = lifted(alloc, old, a)?;
            let b = lifted(alloc, old, b)?;
            Expr::If(
                Box::new(alloc, f)?,
                Box::new(alloc, a)?,
                Box::new(alloc, b)?,
            )
        }
    })
}

/// A formula of the words that are left, over the program's words.
#[cycle(lift)]
pub(crate) fn lifted_formula(
    alloc: Global,
    old: &[usize],
    f: &Formula,
) -> Result<Formula, AllocError>
    ensures { IfOk result (λ c. formula c ≡ lifted_formula old.now (formula f.now)) }
{
    Ok(match f {
        Formula::Truth(b) => Formula::Truth(*b),
        Formula::Not(f) => {
            let f = lifted_formula(alloc, old, f)?;
            Formula::Not(Box::new(alloc, f)?)
        }
        Formula::Connect(connective, f, g) => {
            let f = lifted_formula(alloc, old, f)?;
            let g = lifted_formula(alloc, old, g)?;
            Formula::Connect(*connective, Box::new(alloc, f)?, Box::new(alloc, g)?)
        }
        Formula::Compare(comparison, a, b) => {
            let a = lifted(alloc, old, a)?;
            let b = lifted(alloc, old, b)?;
            Formula::Compare(*comparison, a, b)
        }
    })
}
