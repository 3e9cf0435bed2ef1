//! Assignments as C does them.

ghost use Rattle.std.specs.Prelude.{◌≡◌, ◌∷◌, [], length, map, IfOk};
ghost use Rattle.rg_words.specs.Layout.{widths_of};
ghost use Rattle.rg_tree.specs.Fits.{ExpressionFits};
ghost use Rattle.rg_tree.specs.View.{expression};
ghost use Rattle.rg_tree.specs.ConditionTrees.{assignment};
ghost use Rattle.rg_c.specs.Assigned.{given_of, is_stored, is_in, targets_beside};
ghost use Rattle.rg_c.specs.Fitting.{AssignmentsFit};
ghost use Rattle.rg_c.specs.View.{given};

use crate::tree::Given;
use rg_c_plan::change::change_of;
use rg_c_plan::kind::Kind;
use rg_c_plan::way::{has_atomic_accesses, kind_at};
use rg_c_values::translate::{stored_in_c, test_in_c};
use rg_tree::condition::Assign;
use rg_words::Layout;
use std::alloc::{AllocError, Global};

/// What an assignment does.
#[tactic(auto, using(crate::proofs::MovingFits::change_fits))]
fn translated(alloc: Global, layout: &Layout, a: &Assign) -> Result<Given, AllocError>
    requires { ExpressionFits (expression a.now.value) (length layout.now) }
    ensures { IfOk result (λ g. given g ≡ given_of (widths_of layout.now) (assignment a.now)) }
{
    let width = if a.word < layout.len() {
        layout.width(a.word)
    } else {
        0
    };
    let c = change_of(a);
    let value = stored_in_c(alloc, layout, width, c.value)?;
    let test = match c.test {
        None => None,
        Some(f) => Some(test_in_c(alloc, layout, f)?),
    };
    Ok(Given {
        test,
        word: a.word,
        value,
    })
}

/// What assignments do.
pub(crate) fn all_translated(
    alloc: Global,
    layout: &Layout,
    act: &[Assign],
) -> Result<Vec<Given>, AllocError>
    requires { AssignmentsFit (length layout.now) (map assignment act.now) }
    ensures { IfOk result (λ gs. map given gs.items ≡ map (given_of (widths_of layout.now)) (map assignment act.now)) }
{
    let mut list = Vec::new(alloc);
    for a in act {
        list.push(translated(alloc, layout, a)?)?;
    }
    Ok(list)
}

/// Whether a word is stored: each access to it is atomic.
pub(crate) fn is_stored(kinds: &[Kind], word: usize) -> bool
    ensures { result ≡ is_stored kinds.now word }
{
    has_atomic_accesses(kind_at(kinds, word))
}

/// Whether a number is in a list.
fn is_in(k: usize, list: &[usize]) -> bool
    ensures { result ≡ is_in k list.now }
{
    for x in list {
        if k == *x {
            return true;
        }
    }
    false
}

/// The words beside this one that are assigned, each once.
pub(crate) fn targets_beside(
    alloc: Global,
    word: usize,
    gs: &[Given],
) -> Result<Vec<usize>, AllocError>
    ensures { IfOk result (λ list. list.items ≡ targets_beside (word ∷ []) (map given gs.now)) }
{
    let mut known = Vec::new(alloc);
    known.push(word)?;
    let mut list = Vec::new(alloc);
    for g in gs {
        if !is_in(g.word, &known) {
            known.insert(0, g.word)?;
            list.push(g.word)?;
        }
    }
    Ok(list)
}
