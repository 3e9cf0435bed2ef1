//! The pass of shape: whether tokens are those of a text of their kind, and else the first fault. No tree is built.
#![tactic(auto)]

mod kinds;
mod point;
pub mod shape;
