//! A slow and plain judge of runs, for tests.
#![tactic(auto)]

mod follow;
mod states;
mod step;
mod trace;

pub use follow::follows;
pub use trace::{Step, Trace};
