//! Conjuncts that give words their values.

ghost use Rattle.std.specs.Prelude.{◌≡◌, ◌<◌, ◌&&◌, not, [], false, length, slice_index_or, IfOk, OnOk, option_and_then, get_or};
ghost use Rattle.rg_words.specs.Layout.{fixed_of};
ghost use Rattle.rg_tree.specs.View.{expression, formula};
ghost use Rattle.rg_erase.specs.Erased.{conjuncts, speaks_of};
ghost use Rattle.rg_erase.specs.Faults.{defined_by, target_as, target_of, is_in, definition_fault, defined_after, undefined, erased_free, in_pre, in_rely};
ghost use Rattle.rg_erase.specs.Inner.Definables.{defining};

use crate::conjuncts::conjuncts;
use crate::mention::{flagged, is_set, mentions, speaks_of};
use rg_tree::tree::{Expr, Formula};
use rg_words::Layout;
use rg_words::operators::Comparison;
use std::alloc::{AllocError, Global};

/// What may define words, in a formula of one state or of two.
#[derive(Clone, Copy)]
pub(crate) struct Definable<'a> {
    /// The words that may be defined, and whether they are primed there.
    pub(crate) words: &'a [bool],
    pub(crate) primed: bool,
    /// The words that a value may not mention, unprimed and primed.
    pub(crate) excluded: &'a [bool],
    pub(crate) excluded_next: &'a [bool],
}

/// The word that an expression is, where it may be defined.
fn defined_by(d: &Definable<'_>, e: &Expr) -> Option<usize>
    ensures { result ≡ defined_by (defining d.now) (expression e.now) }
{
    match e {
        Expr::Word(k) if !d.primed => flagged(d.words, *k),
        Expr::NextWord(k) if d.primed => flagged(d.words, *k),
        _ => None,
    }
}

/// The word that one side of an equation is, where it may be defined, and the other side may be its value.
fn target_as(d: &Definable<'_>, side: &Expr, value: &Expr) -> Option<usize>
    ensures { result ≡ target_as (defining d.now) (expression side.now) (expression value.now) }
{
    match defined_by(d, side) {
        Some(k) if mentions(d.excluded, d.excluded_next, value).is_none() => Some(k),
        _ => None,
    }
}

/// The word to which a formula gives a value: it is the equation of the two.
fn target_of(d: &Definable<'_>, f: &Formula) -> Option<usize>
    ensures { result ≡ target_of (defining d.now) (formula f.now) }
{
    match f {
        Formula::Compare(Comparison::Equal, a, b) => match target_as(d, a, b) {
            Some(k) => Some(k),
            None => target_as(d, b, a),
        },
        _ => None,
    }
}

/// Whether a number is in a list.
fn is_in(k: usize, list: &[usize]) -> bool
    ensures { result ≡ is_in k list.now }
{
    for x in list {
        if *x == k {
            return true;
        }
    }
    false
}

/// The erased word of which a formula says something else than its value, once, where these words are defined before; the word that it defines is
/// added to them.
fn fault_of(
    erased: &[bool],
    d: &Definable<'_>,
    f: &Formula,
    before: &mut Vec<usize>,
) -> Result<Option<usize>, AllocError>
    ensures fault { IfOk result (λ r. r
        ≡ option_and_then (λ k. definition_fault (target_of (defining d.now) (formula f.now)) before.old.items k)
        (speaks_of erased.now erased.now (formula f.now))) }
    ensures before { OnOk result (before.new.items ≡ defined_after (target_of (defining d.now) (formula f.now)) before.old.items) }
{
    let spoken = speaks_of(erased, erased, f);
    match target_of(d, f) {
        None => Ok(spoken),
        Some(target) => {
            let again = spoken.is_some() && is_in(target, before);
            before.insert(0, target)?;
            Ok(if again { Some(target) } else { None })
        }
    }
}

/// The first erased word of which a formula's conjuncts say something else than its value, once.
fn undefined(
    alloc: Global,
    erased: &[bool],
    d: &Definable<'_>,
    f: &Formula,
) -> Result<Option<usize>, AllocError>
    ensures { IfOk result (λ r. r ≡ undefined erased.now (defining d.now) [] (conjuncts (formula f.now))) }
{
    let list = conjuncts(alloc, f)?;
    let mut before = Vec::new(alloc);
    for f in &list {
        let fault = fault_of(erased, d, f, &mut before)?;
        if fault.is_some() {
            return Ok(fault);
        }
    }
    Ok(None)
}

/// The first erased word of which a pre says something else than its value, once.
pub(crate) fn undefined_in_pre(
    alloc: Global,
    erased: &[bool],
    pre: &Formula,
) -> Result<Option<usize>, AllocError>
    ensures { IfOk result (λ r. r ≡ undefined erased.now (in_pre erased.now) [] (conjuncts (formula pre.now))) }
{
    let d = Definable {
        words: erased,
        primed: false,
        excluded: erased,
        excluded_next: erased,
    };
    undefined(alloc, erased, &d, pre)
}

/// Whether a word is erased and isn't fixed.
fn is_erased_free(erased: &[bool], layout: &Layout, word: usize) -> bool
    requires { word < length layout.now }
    ensures { result ≡ (get_or erased.now word false && not (slice_index_or (fixed_of layout.now) word false)) }
{
    is_set(erased, word) && !layout.is_fixed(word)
}

/// Of the erased words those that aren't fixed.
fn erased_free(alloc: Global, erased: &[bool], layout: &Layout) -> Result<Vec<bool>, AllocError>
    ensures { IfOk result (λ flags. flags.items ≡ erased_free erased.now layout.now) }
{
    let mut flags = Vec::new(alloc);
    for word in 0..layout.len() {
        flags.push(is_erased_free(erased, layout, word))?;
    }
    Ok(flags)
}

/// The first erased word of which a rely says something else than its value after a step, once.
pub(crate) fn undefined_in_rely(
    alloc: Global,
    erased: &[bool],
    layout: &Layout,
    rely: &Formula,
) -> Result<Option<usize>, AllocError>
    ensures { IfOk result (λ r. r ≡ undefined erased.now (in_rely erased.now layout.now) [] (conjuncts (formula rely.now))) }
{
    let words = erased_free(alloc, erased, layout)?;
    let d = Definable {
        words: &words,
        primed: true,
        excluded: &[],
        excluded_next: erased,
    };
    undefined(alloc, erased, &d, rely)
}
