//! Rows of literals, one for each bit of a word: operations on them, and the input bits of a condition.
#![tactic(auto)]

pub mod input_rows;
pub mod literals;
pub mod rows;
