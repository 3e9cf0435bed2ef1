//! The rule for parallel parts, after Xu, de Roever and He (Formal Aspects of Computing 9, 1997).
#![tactic(auto)]

pub mod conditions;
mod laws;
pub mod names;

pub use laws::parallel_rule;
