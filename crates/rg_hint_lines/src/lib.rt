//! Hint lines and the sections of a proofs file, as they are read and written.
#![tactic(auto)]

pub mod lines;
mod normal;
mod read;
pub mod refusal;
pub mod sections;
pub mod text;
