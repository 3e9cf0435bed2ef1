//! A program as one C11 header.
#![tactic(auto)]

mod assigned;
mod bodies;
pub mod header;
mod heads;
pub mod laws;
pub mod operations;
mod orders;
mod print;
mod questions;
mod reads;
mod source;
mod start;
mod statements;
mod steps;
pub mod titles;
mod together;
mod tree;
mod used;
