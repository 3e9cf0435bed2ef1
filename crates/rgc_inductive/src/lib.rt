//! The search for assertions by which all conditions of an outline hold: of the candidates at each place, the greatest set that is inductive, and then as few
//! of it as are needed (C. Flanagan, K. R. M. Leino: Houdini, FME 2001). Nothing is promised of it: what it finds is an outline, which is verified as any other.
#![tactic(auto)]

mod asked;
mod conditions;
mod elaborated;
mod memory;
mod reached;
mod search;
mod shorter;
mod starts;
mod subject;
mod unfound;
mod written;

pub use conditions::{Base, Duty, Stand, nameless, unless_refused};
pub use elaborated::{FamilyAtoms, Instance, Tried, fixed_words};
pub use reached::{Reached, state_after};
pub use search::{Chosen, Failure, Search, cheapest};
pub use subject::{Begun, Subject, candidates_of};
pub use unfound::unfound_report;
pub use written::{assertion, push_atom};
