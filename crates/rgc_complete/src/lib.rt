//! The search for assertions that an outline lacks. Nothing is promised of it: what it finds is an outline, which is verified as any other.
#![tactic(auto)]

mod completion;
mod found;
mod invariant;
mod relies;

pub use completion::Completion;
pub use found::{Completed, complete};
pub use invariant::complete_with_invariant;
pub use relies::complete_with_relies;
