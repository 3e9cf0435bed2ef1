//! A search for clauses that close given clauses, or for values that satisfy them, over plain lists: classes of equal gates, cases, sums
//! that are derived of others, a sweep over the gates, and then conflicts.
//!
//! Nothing is promised of what it answers, so that no call has a clause on it: `rg_find` checks whatever is found before it is given.
#![tactic(auto)]

mod adders;
mod answer;
mod cases;
mod congruence;
mod leaders;
mod lemmas;
mod links;
mod plain;
mod relations;
mod shortening;
mod simulation;
mod sums;
mod sweep;

pub use answer::{Answer, solve};
pub use plain::Twin;
pub use rg_solver::given::Given;
pub use shortening::Refutation;
