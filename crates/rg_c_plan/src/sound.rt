//! The check that kinds of words are sound.

ghost use Rattle.std.specs.Prelude.{◌≡◌, ◌<◌, length, IfOk};
ghost use Rattle.std.specs.Bool.{Decides};
ghost use Rattle.rg_tree.specs.ProgramTrees.{program as program_tree};
ghost use Rattle.rg_c_plan.specs.Sound.{IsSound};
ghost use Rattle.rg_c_plan.specs.Inner.Tests.{is_word_sound, are_words_sound};

use crate::access::{accesses, is_touched, some_meet, world_access};
use crate::apart::may_be_apart;
use crate::kind::Kind;
use crate::once::failing;
use crate::order::{Rank, waiting};
use crate::views::views;
use crate::way::kind_at;
use rg_tree::program::Program;
use std::alloc::{AllocError, Global};

/// Whether a word of this kind is sound.
fn is_word_sound(
    alloc: Global,
    program: &Program,
    kind: Kind,
    word: usize,
) -> Result<bool, AllocError>
    requires { word < length program.now.layout }
    ensures { IfOk result (λ r. r ≡ is_word_sound (program_tree program.now) kind word) }
{
    let fixed = program.layout.is_fixed(word);
    match kind {
        Kind::Fixed => Ok(fixed),
        Kind::Own => {
            let list = accesses(alloc, program, word)?;
            Ok(!fixed && !some_meet(&list))
        }
        Kind::Apart => {
            let may = may_be_apart(alloc, program, word)?;
            Ok(!fixed && may)
        }
        Kind::Published | Kind::Sheltered => Ok(false),
        Kind::Atomic => Ok(!fixed),
        Kind::Guarded => {
            let access = world_access(word, &program.layout, &program.spec.rely);
            Ok(!fixed && !is_touched(access))
        }
    }
}

/// Whether each word is sound.
#[tactic(auto, using(crate::proofs::Places::range_more, crate::proofs::Places::range_over))]
fn are_words_sound(alloc: Global, kinds: &[Kind], program: &Program) -> Result<bool, AllocError>
    requires { length kinds.now ≡ length program.now.layout }
    ensures { IfOk result (λ r. r ≡ are_words_sound (program_tree program.now) kinds.now) }
{
    for word in 0..kinds.len() {
        if !is_word_sound(alloc, program, kind_at(kinds, word), word)? {
            return Ok(false);
        }
    }
    Ok(true)
}

/// Whether kinds of words are sound for a program whose parts interrupt each other so, whoever chose them.
///
/// An error comes only where memory was refused.
pub fn is_sound(
    alloc: Global,
    kinds: &[Kind],
    order: &[Option<Rank>],
    program: &Program,
) -> Result<bool, AllocError>
    ensures { IfOk result (λ r. Decides r (IsSound kinds.now order.now (program_tree program.now))) }
{
    if kinds.len() != program.layout.len() {
        return Ok(false);
    }
    if !are_words_sound(alloc, kinds, program)? {
        return Ok(false);
    }
    if waiting(program, order).is_some() {
        return Ok(false);
    }
    let views = views(alloc, program, order, kinds)?;
    match failing(&views) {
        Some(_) => Ok(false),
        None => Ok(true),
    }
}
