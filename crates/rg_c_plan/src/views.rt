//! The kinds of words as a part sees them.

ghost use Rattle.std.specs.Prelude.{◌≡◌, ◌<◌, length, map, IfOk};
ghost use Rattle.rg_tree.specs.ProgramTrees.{program as program_tree};
ghost use Rattle.rg_c_plan.specs.View.{view};
ghost use Rattle.rg_c_plan.specs.Views.{access_meanwhile, others_access, seen_kind, kinds_for, views};

use crate::access::{Access, accesses, is_touched};
use crate::kind::Kind;
use crate::order::{Rank, may_act};
use crate::step::{Step, steps_of};
use crate::way::kind_at;
use rg_tree::program::Program;
use std::alloc::{AllocError, Global};

/// A part's steps, and the kinds of words as it sees them.
#[derive(Drop)]
pub struct PartView<'a> {
    pub kinds: Vec<Kind>,
    pub steps: Vec<Step<'a>>,
}

/// Whether of these parties, of which the first is the world outside, one reads that may act while this part makes a step. A part is its place, from 0.
#[tactic(auto, using(crate::proofs::Places::range_more, crate::proofs::Places::range_over))]
fn some_reads(order: &[Option<Rank>], part: usize, list: &[Access]) -> bool
    ensures { result ≡ (access_meanwhile order.now part list.now).reads }
{
    for place in 0..list.len() {
        if may_act(order, part, place) && list[place].reads {
            return true;
        }
    }
    false
}

/// Whether one writes.
#[tactic(auto, using(crate::proofs::Places::range_more, crate::proofs::Places::range_over))]
fn some_writes(order: &[Option<Rank>], part: usize, list: &[Access]) -> bool
    ensures { result ≡ (access_meanwhile order.now part list.now).writes }
{
    for place in 0..list.len() {
        if may_act(order, part, place) && list[place].writes {
            return true;
        }
    }
    false
}

/// How the parties that may act while this part makes a step access a word.
fn others_access(
    alloc: Global,
    program: &Program,
    order: &[Option<Rank>],
    part: usize,
    word: usize,
) -> Result<Access, AllocError>
    requires { word < length program.now.layout }
    ensures { IfOk result (λ r. r ≡ others_access (program_tree program.now) order.now part word) }
{
    let list = accesses(alloc, program, word)?;
    Ok(Access {
        reads: some_reads(order, part, &list),
        writes: some_writes(order, part, &list),
    })
}

/// A word of this kind to a part, during whose steps others may access it so.
fn seen_kind(kind: Kind, others: Access) -> Kind
    ensures { result ≡ seen_kind kind others }
{
    match kind {
        Kind::Atomic if others.writes => Kind::Atomic,
        Kind::Atomic if others.reads => Kind::Published,
        Kind::Atomic => Kind::Sheltered,
        Kind::Guarded if !is_touched(others) => Kind::Own,
        _ => kind,
    }
}

/// The kinds of words as a part sees them, which interrupts others so: an atomic word that no party writes that may act meanwhile is one that it publishes, and one that
/// none touches is sheltered; a guarded word that none touches is its own. The part is its place, from 0.
///
/// An error comes only where memory was refused.
#[tactic(auto, using(crate::proofs::Places::range_more, crate::proofs::Places::range_over))]
pub fn kinds_for(
    alloc: Global,
    program: &Program,
    order: &[Option<Rank>],
    kinds: &[Kind],
    part: usize,
) -> Result<Vec<Kind>, AllocError>
    ensures { IfOk result (λ list. list.items ≡ kinds_for (program_tree program.now) order.now kinds.now part) }
{
    let mut list = Vec::new(alloc);
    for word in 0..program.layout.len() {
        let others = others_access(alloc, program, order, part, word)?;
        list.push(seen_kind(kind_at(kinds, word), others))?;
    }
    Ok(list)
}

/// Each part's steps, and the kinds of words as it sees them.
///
/// An error comes only where memory was refused.
pub fn views<'a>(
    alloc: Global,
    program: &'a Program,
    order: &[Option<Rank>],
    kinds: &[Kind],
) -> Result<Vec<PartView<'a>>, AllocError>
    ensures { IfOk result (λ list. map view list.items ≡ views (program_tree program.now) order.now kinds.now) }
{
    let mut list = Vec::new(alloc);
    for (place, part) in program.parts.iter().enumerate() {
        let kinds = kinds_for(alloc, program, order, kinds, place)?;
        let steps = steps_of(alloc, &part.body)?;
        list.push(PartView { kinds, steps })?;
    }
    Ok(list)
}
