//! The compiler: flat code of blocks, with exactly the program's runs.
#![tactic(auto)]

pub mod block;
pub mod checked;
pub mod code;
pub mod compile;
mod emit;
pub mod laws;
pub mod operation;
mod postfix;
