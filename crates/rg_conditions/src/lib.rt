//! The conditions that a line of a derivation asks, by its rule.
#![tactic(auto)]

mod add;
pub mod conditions;
mod premise;
