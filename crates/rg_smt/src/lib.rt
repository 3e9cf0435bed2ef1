//! Conditions as SMT-LIB 2 over bit vectors, for solvers that people have: a script that can be satisfied where a condition fails.
#![tactic(auto)]

mod formulas;
mod scripts;
mod symbols;

pub use scripts::script;
