//! Runs of a program: a thread for each part, one for the moves of the environment, and the records printed in order.
#![tactic(auto)]

pub mod gate;
pub mod log;
pub mod player;
pub mod runner;
pub mod seeded;
pub mod stage;
pub mod table;
mod task;
pub mod threads;
