//! The conjuncts of a formula: those that stay, and those that are lost.

ghost use Rattle.std.specs.Prelude.{◌≡◌, ◌++◌, map, OnOk, IfOk};
ghost use Rattle.rg_words.specs.declared.operators.Connective.TheVariants.{And};
ghost use Rattle.rg_tree.specs.Trees.{connected};
ghost use Rattle.rg_tree.specs.View.{formula};
ghost use Rattle.rg_erase.specs.Erased.{conjuncts, kept_of, all_of, kept, lost};

use crate::mention::speaks_of;
use crate::rename::renamed_formula;
use rg_tree::copy::copy_formula;
use rg_tree::tree::Formula;
use rg_words::operators::Connective;
use std::alloc::{AllocError, Global};

/// Adds the conjuncts of a formula.
#[cycle(conjuncts)]
fn push_conjuncts(alloc: Global, f: &Formula, list: &mut Vec<Formula>) -> Result<(), AllocError>
    ensures { OnOk result (map formula list.new.items ≡ map formula list.old.items ++ conjuncts (formula f.now)) }
{
    match f {
        Formula::Connect(Connective::And, g, h) => {
            push_conjuncts(alloc, g, list)?;
            push_conjuncts(alloc, h, list)
        }
        _ => {
            let f = copy_formula(alloc, f)?;
            list.push(f)?;
            Ok(())
        }
    }
}

/// The conjuncts of a formula, in order.
pub(crate) fn conjuncts(alloc: Global, f: &Formula) -> Result<Vec<Formula>, AllocError>
    ensures { IfOk result (λ list. map formula list.items ≡ conjuncts (formula f.now)) }
{
    let mut list = Vec::new(alloc);
    push_conjuncts(alloc, f, &mut list)?;
    Ok(list)
}

/// Those of these formulas that speak of no erased word, over the words that stay.
fn kept_of(alloc: Global, erased: &[bool], list: &[Formula]) -> Result<Vec<Formula>, AllocError>
    ensures { IfOk result (λ kept. map formula kept.items ≡ kept_of erased.now (map formula list.now)) }
{
    let mut kept = Vec::new(alloc);
    for f in list {
        if speaks_of(erased, erased, f).is_none() {
            kept.push(renamed_formula(alloc, erased, f)?)?;
        }
    }
    Ok(kept)
}

/// A formula, and another one besides.
fn both(alloc: Global, f: Formula, g: &Formula) -> Result<Formula, AllocError>
    ensures { IfOk result (λ h. formula h ≡ connected And (formula f) (formula g.now)) }
{
    let g = copy_formula(alloc, g)?;
    let f = Box::new(alloc, f)?;
    Ok(Formula::Connect(Connective::And, f, Box::new(alloc, g)?))
}

/// Formulas as one.
fn all_of(alloc: Global, list: &[Formula]) -> Result<Formula, AllocError>
    ensures { IfOk result (λ f. formula f ≡ all_of (map formula list.now)) }
{
    let Some((first, rest)) = list.split_first() else {
        return Ok(Formula::Truth(true));
    };
    let mut all = copy_formula(alloc, first)?;
    for f in rest {
        all = both(alloc, all, f)?;
    }
    Ok(all)
}

/// The conjuncts of a formula that speak of no erased word, over the words that stay, as one formula; true where there are none.
pub(crate) fn kept(alloc: Global, erased: &[bool], f: &Formula) -> Result<Formula, AllocError>
    ensures { IfOk result (λ g. formula g ≡ kept erased.now (formula f.now)) }
{
    let list = conjuncts(alloc, f)?;
    let staying = kept_of(alloc, erased, &list)?;
    all_of(alloc, &staying)
}

/// The conjuncts of a formula that speak of erased words, which the program without these words doesn't promise.
pub fn lost(alloc: Global, erased: &[bool], f: &Formula) -> Result<Vec<Formula>, AllocError>
    ensures { IfOk result (λ list. map formula list.items ≡ lost erased.now (formula f.now)) }
{
    let all = conjuncts(alloc, f)?;
    let mut list = Vec::new(alloc);
    for f in &all {
        if speaks_of(erased, erased, f).is_some() {
            list.push(copy_formula(alloc, f)?)?;
        }
    }
    Ok(list)
}
