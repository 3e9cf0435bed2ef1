//! Trees as texts write them, and the grammar of each kind of text.
//!
//! A leaf of these trees is its token: names are not looked up and widths are not known. `specs/Grammar` has the ways to write a
//! text and their tokens, `specs/Limits` the limits of depth and length, `specs/Texts` what a way to write a text says.
#![tactic(auto)]

mod text_kind;
pub mod written;

pub use text_kind::TextKind;
