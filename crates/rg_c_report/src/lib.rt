//! What is said of a program in C: how many steps are done in each way, who reads and writes each word, and how each step is done.
#![tactic(auto)]

pub mod counts;
pub mod lines;
pub mod orders;
pub mod parties;
pub mod report;
pub mod words;
