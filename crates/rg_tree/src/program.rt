//! Programs.

ghost use Rattle.std.specs.Prelude.{map};
ghost use Rattle.rg_tree.specs.ProgramView.{specification, part};
ghost use Rattle.rg_tree.specs.TypedPrograms.{IsTypedProgram};
ghost use Rattle.rg_tree.specs.Inner.ProgramProof.{IsTypedProgram-prop};

use crate::part::{Part, Spec};
use rg_words::Layout;

/// A program: its words, its specification, and its parts in order, which are numbered from 1.
///
/// It fits its words: every formula and assignment is of one width, no fixed word is assigned, a primed word stands only in a
/// rely or a guarantee; it has at least one part, and the limits are kept.
#[derive(Drop)]
pub struct Program {
    pub layout: Layout,
    pub spec: Spec,
    pub parts: Vec<Part>,
    pub ghost typed: { IsTypedProgram (record { words = layout; spec = specification spec; parts = map part parts.items }) } by { IsTypedProgram-prop _ },
}
