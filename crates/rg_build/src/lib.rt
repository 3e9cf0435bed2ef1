//! The pass of building: from tokens whose shape is known to the trees of formulas, shown texts, starts, moves, derivations and
//! programs.
#![tactic(auto)]

mod begun;
mod derivations;
mod formulas;
mod frames;
mod programs;

pub use begun::begun_too_many;
pub use derivations::build_derivation;
pub use formulas::{build_formula, build_moves, build_show, build_start};
pub use frames::{Frame, Item, Setter, put, take_token};
pub use programs::build_program;
