//! Looks for hint lines that close clauses, or for values that satisfy them.
//!
//! The search is that of `rg_search`, of which nothing is promised: what it finds is checked before it is given.
#![tactic(auto)]

mod answer;
mod judgement;
mod logged_lines;
mod twins;

pub use answer::{Found, find, find_watched};
pub use judgement::{Judged, judge};
