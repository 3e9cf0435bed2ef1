//! The choice of a kind for each word.

ghost use Rattle.std.specs.Prelude.{◌≡◌, ◌<◌, length, map, None, Some, IfOk, IfErr, OnOk};
ghost use Rattle.rg_tree.specs.ProgramTrees.{program as program_tree};
ghost use Rattle.rg_c_plan.specs.View.{view};
ghost use Rattle.rg_c_plan.specs.Kinds.{bare_kind, bare_kinds, kind_among, kinds_of, unplanned};
ghost use Rattle.rg_c_plan.specs.Sound.{IsSound};

use crate::access::{accesses, is_touched, some_meet, world_access};
use crate::apart::{is_apart, may_be_apart};
use crate::kind::Kind;
use crate::once::{failing, is_crowded};
use crate::order::{Rank, waiting};
use crate::planned::{Plan, Unplanned};
use crate::views::{PartView, views};
use crate::way::kind_at;
use rg_tree::program::Program;
use std::alloc::{AllocError, Global};

/// The kind of a word where no step were in a section.
fn bare_kind(
    alloc: Global,
    program: &Program,
    apart: &[bool],
    word: usize,
) -> Result<Kind, AllocError>
    requires { word < length program.now.layout }
    ensures { IfOk result (λ kind. kind ≡ bare_kind (program_tree program.now) apart.now word) }
{
    if program.layout.is_fixed(word) {
        return Ok(Kind::Fixed);
    }
    if is_apart(apart, word) && may_be_apart(alloc, program, word)? {
        return Ok(Kind::Apart);
    }
    let list = accesses(alloc, program, word)?;
    Ok(if some_meet(&list) {
        Kind::Atomic
    } else {
        Kind::Own
    })
}

/// The kinds of words where no step were in a section.
#[tactic(auto, using(crate::proofs::Places::range_more, crate::proofs::Places::range_over))]
fn bare_kinds(alloc: Global, program: &Program, apart: &[bool]) -> Result<Vec<Kind>, AllocError>
    ensures { IfOk result (λ list. list.items ≡ bare_kinds (program_tree program.now) apart.now) }
{
    let mut list = Vec::new(alloc);
    for word in 0..program.layout.len() {
        list.push(bare_kind(alloc, program, apart, word)?)?;
    }
    Ok(list)
}

/// The kind of a word that is of this bare kind, beside these parts.
fn kind_among(program: &Program, views: &[PartView<'_>], kind: Kind, word: usize) -> Kind
    requires { word < length program.now.layout }
    ensures { result ≡ kind_among (program_tree program.now) (map view views.now) kind word }
{
    match kind {
        Kind::Atomic => {
            let world = world_access(word, &program.layout, &program.spec.rely);
            if !is_touched(world) && is_crowded(views, word) {
                Kind::Guarded
            } else {
                Kind::Atomic
            }
        }
        _ => kind,
    }
}

/// The kind of each word.
#[tactic(auto, using(crate::proofs::Places::range_more, crate::proofs::Places::range_over))]
fn kinds_of(
    alloc: Global,
    program: &Program,
    order: &[Option<Rank>],
    apart: &[bool],
) -> Result<Vec<Kind>, AllocError>
    ensures { IfOk result (λ list. list.items ≡ kinds_of (program_tree program.now) order.now apart.now) }
{
    let bare = bare_kinds(alloc, program, apart)?;
    let views = views(alloc, program, order, &bare)?;
    let mut kinds = Vec::new(alloc);
    for word in 0..program.layout.len() {
        kinds.push(kind_among(program, &views, kind_at(&bare, word), word))?;
    }
    Ok(kinds)
}

/// A kind for each word, such that each step is done as `way_of` says, and that is sound: a fixed word is `Fixed`; one at which no two parties meet is `Own`; one
/// at which only parts do, and the assertions keep them apart, is `Apart`; one for which a step needs a section is `Guarded`; all others are `Atomic`. A flag for each
/// word, in the order of declaration, says whether the assertions keep the parts apart; flags that aren't there are `false`. A rank for each part says which interrupt
/// which; a part whose rank isn't there interrupts none.
///
/// # Errors
///
/// An `AllocError` only where memory was refused. In an `Ok`, why there is no C: the first `await` that may wait in a part that interrupts another one, or the first step
/// of the text that no C of this form does at once.
pub fn plan(
    alloc: Global,
    program: &Program,
    order: &[Option<Rank>],
    apart: &[bool],
) -> Result<Result<Plan, Unplanned>, AllocError>
    // Exactly the kinds that the definition gives.
    ensures kinds { IfOk result (λ r. IfOk r (λ p. p.kinds.items ≡ kinds_of (program_tree program.now) order.now apart.now)) }
    // They are sound.
    ensures sound { IfOk result (λ r. IfOk r (λ p. IsSound p.kinds.items order.now (program_tree program.now))) }
    // Refused exactly where a part that interrupts another one may wait, or there is a step that no C does at once, and the first such line is given.
    ensures planned { IfOk result (λ r. OnOk r (unplanned (program_tree program.now) order.now apart.now ≡ None)) }
    ensures unplanned { IfOk result (λ r. IfErr r (λ u. unplanned (program_tree program.now) order.now apart.now ≡ Some u)) }
{
    if let Some(line) = waiting(program, order) {
        return Ok(Err(Unplanned::Wait(line)));
    }
    let kinds = kinds_of(alloc, program, order, apart)?;
    let views = views(alloc, program, order, &kinds)?;
    if let Some(step) = failing(&views) {
        return Ok(Err(step));
    }
    Ok(Ok(Plan { kinds }))
}
