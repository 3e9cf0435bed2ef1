//! The readers of texts: from bytes to typed trees, or the first fault.
//!
//! A text goes through four passes, each over the whole of it: its tokens (`rg_text`), its shape (`rg_shape`), its tree (`rg_build`) and its
//! meaning (`rg_resolve`). `reader::read` is this path, one for all kinds of text.
#![tactic(auto)]

mod derivations;
mod faultless;
mod formulas;
mod inputs;
pub mod parse;
mod parse_programs;
pub mod printed;
mod programs;
mod reader;

pub use derivations::{derivation, one_derivation};
pub use faultless::faultless_texts_spell;
pub use formulas::{formula, one_meaning, show};
pub use inputs::{moves, one_reading, start};
pub use parse_programs::{beginnings_have_one_list, parse_program, programs_have_one_tree};
pub use programs::{one_program, program};
