//! Values and tests of the language as expressions of C11, and what C works out of them.
#![tactic(auto)]

pub mod arrays;
pub mod items;
pub mod laws;
pub mod names;
pub mod pieces;
pub mod print;
mod simplify;
pub mod translate;
pub mod tree;
