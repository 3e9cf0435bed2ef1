//! From an outline to what it stands for: the formulas of the program and of its parts, the lines of the derivation, and both as texts.
#![tactic(auto)]

mod derivation;
mod derive;
mod expansion;
mod indices;
mod openers;
mod order;
mod parts;
mod print;
mod settle;
mod specify;
mod statements;
mod text;

pub use derivation::{push_clipped, push_derivation, push_map};
pub use expansion::{
    Action, Assertion, Block, BlockRow, Expansion, Line, Origin, OutlinePart, PartWord,
    Specification, Statement, Update,
};
pub use indices::IndexAsked;
pub use order::push_priority;
pub use print::{middle, push_flat};
use rg_outline_syntax::Fault;
pub use rg_tree::line::Rule;
pub use text::{push_question, push_text};

/// Works out the whole outline. An expansion is worked out once. After the first fault nothing more is worked out; what is known is to be read and
/// checked as any text is.
///
/// # Errors
///
/// - The first `MeaningFault`, at its place.
/// - `FaultKind::Memory` where memory is refused.
pub fn work_out(expansion: &mut Expansion<'_>) -> Result<(), Fault> {
    expansion.scope.declare();
    expansion.specify();
    expansion.take_parts();
    expansion.refuse_sharing();
    expansion.refuse_interrupts();
    if !expansion.scope.is_stopped() {
        expansion.at = None;
        expansion.specify_parts();
        expansion.derive();
        expansion.count_openers();
    }
    match expansion.scope.fault() {
        None => Ok(()),
        Some(fault) => Err(fault),
    }
}
