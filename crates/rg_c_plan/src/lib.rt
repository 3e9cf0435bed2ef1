//! How each step of a program is done in C: kinds of words, ways of steps, and the check that both are sound.
#![tactic(auto)]

pub mod access;
pub mod apart;
pub mod change;
mod chosen;
pub mod kind;
pub mod laws;
pub mod mention;
mod once;
pub mod order;
pub mod plan;
pub mod planned;
pub mod sites;
pub mod sound;
pub mod step;
mod twice;
pub mod views;
pub mod way;
