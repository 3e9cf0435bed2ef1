//! The pass of meaning: from written trees to typed trees, by name resolution and type checking, or the first fault of meaning.
#![tactic(auto)]

pub mod declare;
pub mod resolve;
