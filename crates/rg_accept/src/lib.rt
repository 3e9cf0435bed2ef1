//! Acceptance: a program's text or tree with its derivation and its proofs, stage by stage, to code that has exactly its runs.
#![tactic(auto)]

mod acceptance;
pub mod laws;
mod stages;

pub use acceptance::{accept, accept_all, accept_program, build, build_by, build_program};
pub use stages::{Accepted, Derived, Emitted, Parsed};
