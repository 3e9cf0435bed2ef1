//! A command line carried out over the bytes of its files: over texts (a program or a formula, a derivation, proofs, and what a run takes), over an
//! outline, or the explanation of a refusal. The answer is what is so of the files; it is rendered as lines or JSON. A command that has no answer reports
//! why, and its status sums that up.
#![tactic(auto)]

mod answered;
mod answers;
mod code;
mod coding;
mod derivation_entries;
mod entries;
mod explained;
mod files;
mod given;
mod meaning;
mod names;
mod operations;
mod outlines;
mod performed;
mod priority;
mod proof_entries;
mod rendered;
mod run_entries;
mod runs;
mod sentences;
mod sides;
mod smt;
mod stops;
mod text_entries;
mod texts;
mod titles;

pub use answered::answer;
pub use answers::{Answer, Verified};
pub use code::{Coded, Form, Ready};
pub use entries::Entry;
pub use files::{Expanded, Files};
pub use given::Given;
pub use performed::perform;
pub use rendered::render;
pub use rgc_answers::Context;
pub use sides::Sides;
pub use stops::Stop;
