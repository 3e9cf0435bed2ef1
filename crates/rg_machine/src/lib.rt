//! The machine: it does one block of one part at a time, and takes no memory for it.
#![tactic(auto)]

pub mod config;
pub mod event;
pub mod laws;
mod lead;
pub mod replace;
mod replay;
mod room;
mod stack;
mod stores;
