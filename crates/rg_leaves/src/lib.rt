//! The leaves of texts, each against the declared words: names and numbers, groups of one width, and targets of assignments.
#![tactic(auto)]

pub mod group;
pub mod leaf;
pub mod scope;
pub mod target;
