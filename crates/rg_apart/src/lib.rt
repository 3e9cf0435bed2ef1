//! Where the assertions of a derivation keep the parts of a program apart: the conditions that say so, and that then no run brings two parts to one word.
#![tactic(auto)]

pub mod conditions;
pub mod laws;
mod lift;
pub mod search;
mod visits;
