//! Words at which the assertions of a derivation keep the parts of a program apart.

ghost use Rattle.std.specs.Prelude.{◌≡◌, ◌<◌, false, length, map, IfOk};
ghost use Rattle.rg_tree.specs.ConditionTrees.{assignment};
ghost use Rattle.rg_tree.specs.ProgramTrees.{program as program_tree};
ghost use Rattle.rg_c_plan.specs.View.{guard_tree};
ghost use Rattle.rg_c_plan.specs.Changes.{moving};
ghost use Rattle.rg_c_plan.specs.Ways.{kind_at};
ghost use Rattle.rg_c_plan.specs.Apart.{is_apart, may_be_apart, is_store, ends_with, is_early, is_apart_kind, apart_word, late_word};

use crate::access::{accesses, meets_any, some_meet, world_access};
use crate::change::moves;
use crate::kind::Kind;
use crate::mention::touches;
use crate::way::{Way, first_exposed, kind_at, way_of};
use rg_tree::condition::Assign;
use rg_tree::program::Program;
use rg_tree::tree::Formula;
use std::alloc::{AllocError, Global};

/// Whether the assertions keep the parts apart at a word, as these flags say; at one without a flag they don't.
pub fn is_apart(apart: &[bool], word: usize) -> bool
    ensures { result ≡ is_apart apart.now word }
{
    match apart.get(word) {
        Some(flag) => *flag,
        None => false,
    }
}

/// Whether the assertions may keep parts apart at a word: some meet there, and the world outside meets none.
///
/// An error comes only where memory was refused.
pub fn may_be_apart(alloc: Global, program: &Program, word: usize) -> Result<bool, AllocError>
    requires { word < length program.now.layout }
    ensures { IfOk result (λ r. r ≡ may_be_apart (program_tree program.now) word) }
{
    let list = accesses(alloc, program, word)?;
    let world = world_access(word, &program.layout, &program.spec.rely);
    Ok(some_meet(&list) && !meets_any(world, &list))
}

/// Whether a step is done by a store.
fn is_store(way: Way) -> bool
    ensures { result ≡ is_store way }
{
    matches!(way, Way::Store(_))
}

/// Whether the last assignment, but of a word to itself, is to this word.
fn ends_with(word: usize, act: &[Assign]) -> bool
    ensures { result ≡ ends_with word false (moving (map assignment act.now)) }
{
    let mut ends = false;
    for a in act {
        if moves(a) {
            ends = word == a.word;
        }
    }
    ends
}

/// Whether a step does all that it does plainly before another part can see that it is made: it makes no atomic access, or one store, and nothing after it.
fn is_early(kinds: &[Kind], guard: Option<&Formula>, act: &[Assign]) -> bool
    ensures { result ≡ is_early kinds.now (guard_tree guard.entry) (moving (map assignment act.now)) }
{
    match first_exposed(kinds, guard, act) {
        Some(word) => is_store(way_of(kinds, guard, act)) && ends_with(word, act),
        None => true,
    }
}

/// Whether parts are kept apart at a word.
fn is_apart_kind(kinds: &[Kind], word: usize) -> bool
    ensures { result ≡ is_apart_kind (kind_at kinds.now word) }
{
    matches!(kind_at(kinds, word), Kind::Apart)
}

/// The first word that a step touches at which parts are kept apart.
#[tactic(auto, using(crate::proofs::Places::range_more, crate::proofs::Places::range_over))]
fn apart_word(kinds: &[Kind], guard: Option<&Formula>, act: &[Assign]) -> Option<usize>
    ensures { result ≡ apart_word kinds.now (guard_tree guard.entry) (moving (map assignment act.now)) }
{
    for word in 0..kinds.len() {
        if is_apart_kind(kinds, word) && touches(word, guard, act) {
            return Some(word);
        }
    }
    None
}

/// The same of a step that isn't early.
pub(crate) fn late_word(kinds: &[Kind], guard: Option<&Formula>, act: &[Assign]) -> Option<usize>
    ensures { result ≡ late_word kinds.now (guard_tree guard.entry) (moving (map assignment act.now)) }
{
    if is_early(kinds, guard, act) {
        None
    } else {
        apart_word(kinds, guard, act)
    }
}
