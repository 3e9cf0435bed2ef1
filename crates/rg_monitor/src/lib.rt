//! The record of a step, with the parts whose guarantee covers it; its line; and records put in order.
#![tactic(auto)]

pub mod fits;
pub mod gather;
pub mod lines;
pub mod record;
