//! How a step is done in C.

ghost use Rattle.std.specs.Prelude.{◌≡◌, map, IfOk};
ghost use Rattle.rg_tree.specs.ConditionTrees.{assignment};
ghost use Rattle.rg_c_plan.specs.View.{guard_tree};
ghost use Rattle.rg_c_plan.specs.Changes.{moving};
ghost use Rattle.rg_c_plan.specs.Ways.{kind_at, is_atomic, is_shared, has_atomic_accesses, exposes, touches_guarded, times_assigned, way_at, exposes_another, first_exposed, in_section, way_from, way_of, meets_at, met_words};

use crate::change::moves;
use crate::kind::Kind;
use crate::mention::{reads, touches, writes};
use rg_tree::condition::Assign;
use rg_tree::tree::Formula;
use std::alloc::{AllocError, Global};

/// How a step is done. A word is its place in the layout, from 0.
#[derive(Clone, Copy, Debug, PartialEq, Eq)]
pub enum Way {
    /// By plain accesses: it meets nobody.
    Direct,
    /// By one atomic load of this word, and plain accesses.
    Load(usize),
    /// By one atomic store to this word, and plain accesses.
    Store(usize),
    /// By an atomic exchange of this word, and plain accesses.
    Exchange(usize),
    /// By at most one atomic load or store, of one of several words, which the words of its part choose, and plain accesses.
    Select,
    /// In a critical section, with at most one atomic access.
    Section,
}

/// The kind of a word; one without a kind is plain.
pub fn kind_at(kinds: &[Kind], word: usize) -> Kind
    ensures { result ≡ kind_at kinds.now word }
{
    match kinds.get(word) {
        Some(kind) => *kind,
        None => Kind::Own,
    }
}

/// Whether each access to a word of this kind is atomic.
pub fn has_atomic_accesses(kind: Kind) -> bool
    ensures { result ≡ has_atomic_accesses kind }
{
    matches!(kind, Kind::Atomic | Kind::Published | Kind::Sheltered)
}

/// Whether a write to a word of this kind may meet another party outside of sections.
pub(crate) fn is_shared(kind: Kind) -> bool
    ensures { result ≡ is_shared kind }
{
    matches!(kind, Kind::Atomic | Kind::Published)
}

/// Whether a word is atomic.
pub(crate) fn is_atomic(kinds: &[Kind], word: usize) -> bool
    ensures { result ≡ is_atomic (kind_at kinds.now word) }
{
    matches!(kind_at(kinds, word), Kind::Atomic)
}

/// Whether a step may meet another party at a word outside of sections: it touches an atomic word, or writes one that its part publishes.
pub(crate) fn exposes(kinds: &[Kind], guard: Option<&Formula>, act: &[Assign], word: usize) -> bool
    ensures { result ≡ exposes kinds.now (guard_tree guard.entry) (moving (map assignment act.now)) word }
{
    match kind_at(kinds, word) {
        Kind::Atomic => touches(word, guard, act),
        Kind::Published => writes(word, act),
        Kind::Fixed | Kind::Own | Kind::Apart | Kind::Sheltered | Kind::Guarded => false,
    }
}

/// Whether a step touches this word, and it is guarded.
fn touches_guarded(kinds: &[Kind], guard: Option<&Formula>, act: &[Assign], word: usize) -> bool
    ensures { result ≡ touches_guarded kinds.now (guard_tree guard.entry) (moving (map assignment act.now)) word }
{
    matches!(kind_at(kinds, word), Kind::Guarded) && touches(word, guard, act)
}

/// The first word that a step exposes.
#[tactic(auto, using(crate::proofs::Places::range_more, crate::proofs::Places::range_over))]
pub(crate) fn first_exposed(
    kinds: &[Kind],
    guard: Option<&Formula>,
    act: &[Assign],
) -> Option<usize>
    ensures { result ≡ first_exposed kinds.now (guard_tree guard.entry) (moving (map assignment act.now)) }
{
    for word in 0..kinds.len() {
        if exposes(kinds, guard, act, word) {
            return Some(word);
        }
    }
    None
}

/// Whether a step exposes another word than this one.
#[tactic(auto, using(crate::proofs::Places::range_more, crate::proofs::Places::range_over))]
pub(crate) fn exposes_another(
    kinds: &[Kind],
    guard: Option<&Formula>,
    act: &[Assign],
    word: usize,
) -> bool
    ensures { result ≡ exposes_another kinds.now (guard_tree guard.entry) (moving (map assignment act.now)) word }
{
    for other in 0..kinds.len() {
        if other != word && exposes(kinds, guard, act, other) {
            return true;
        }
    }
    false
}

/// Whether a step is in a section: it touches a guarded word.
#[tactic(auto, using(crate::proofs::Places::range_more, crate::proofs::Places::range_over))]
pub(crate) fn in_section(kinds: &[Kind], guard: Option<&Formula>, act: &[Assign]) -> bool
    ensures { result ≡ in_section kinds.now (guard_tree guard.entry) (moving (map assignment act.now)) }
{
    for word in 0..kinds.len() {
        if touches_guarded(kinds, guard, act, word) {
            return true;
        }
    }
    false
}

/// How often a word is assigned, but to itself.
fn times_assigned(word: usize, act: &[Assign]) -> usize
    ensures { result ≡ times_assigned word (moving (map assignment act.now)) }
{
    let mut count: usize = 0;
    for a in act {
        if moves(a) && word == a.word {
            count += 1;
        }
    }
    count
}

/// How a step is done that exposes this word alone.
fn way_at(kinds: &[Kind], guard: Option<&Formula>, act: &[Assign], word: usize) -> Way
    ensures { result ≡ way_at kinds.now (guard_tree guard.entry) (moving (map assignment act.now)) word }
{
    if !(is_atomic(kinds, word) && reads(word, guard, act)) && times_assigned(word, act) == 1 {
        Way::Store(word)
    } else if !writes(word, act) {
        Way::Load(word)
    } else {
        Way::Exchange(word)
    }
}

/// How a step is done outside of sections whose first exposed word is this one.
fn way_from(kinds: &[Kind], guard: Option<&Formula>, act: &[Assign], word: usize) -> Way
    ensures { result ≡ way_from kinds.now (guard_tree guard.entry) (moving (map assignment act.now)) word }
{
    if exposes_another(kinds, guard, act, word) {
        Way::Select
    } else {
        way_at(kinds, guard, act, word)
    }
}

/// How a step is done, by the kinds of words as its part sees them, its guard or test, if it has one, and its assignments.
pub fn way_of(kinds: &[Kind], guard: Option<&Formula>, act: &[Assign]) -> Way
    ensures { result ≡ way_of kinds.now (guard_tree guard.entry) (moving (map assignment act.now)) }
{
    if in_section(kinds, guard, act) {
        return Way::Section;
    }
    match first_exposed(kinds, guard, act) {
        Some(word) => way_from(kinds, guard, act, word),
        None => Way::Direct,
    }
}

/// Whether a step may meet others at a word: it exposes it, or touches it in a section.
fn meets_at(kinds: &[Kind], guard: Option<&Formula>, act: &[Assign], word: usize) -> bool
    ensures { result ≡ meets_at kinds.now (guard_tree guard.entry) (moving (map assignment act.now)) word }
{
    exposes(kinds, guard, act, word) || touches_guarded(kinds, guard, act, word)
}

/// The words at which a step may meet others, in the order of declaration: those that it exposes, and guarded ones.
///
/// An error comes only where memory was refused.
#[tactic(auto, using(crate::proofs::Places::range_more, crate::proofs::Places::range_over))]
pub fn met_words(
    alloc: Global,
    kinds: &[Kind],
    guard: Option<&Formula>,
    act: &[Assign],
) -> Result<Vec<usize>, AllocError>
    ensures { IfOk result (λ list. list.items ≡ met_words kinds.now (guard_tree guard.entry) (moving (map assignment act.now))) }
{
    let mut list = Vec::new(alloc);
    for word in 0..kinds.len() {
        if meets_at(kinds, guard, act, word) {
            list.push(word)?;
        }
    }
    Ok(list)
}
