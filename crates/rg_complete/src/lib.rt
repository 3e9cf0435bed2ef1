//! The places of an outline at which an assertion may be written and none is, what may stand there, and the outline with it; and what a search for assertions
//! works with: rows of candidates, formulas at states, and equations that hold in states.
#![tactic(auto)]

mod alive;
mod atoms;
mod brackets;
mod compared;
mod equations;
mod evaluate;
mod filled;
mod gathered;
mod invariants;
mod linear;
mod numbers;
mod prints;
mod relies;
mod slots;
mod substituted;
mod trial;
mod words;

pub use alive::{Alive, Bits, Candidate, is_true};
pub use atoms::{Atom, Atoms};
pub use evaluate::{Moment, after, all_hold, holds, words_of};
pub use filled::{Filled, fill};
pub use gathered::atoms_of;
pub use invariants::{has_own_name, said_of_all, with_conjuncts};
pub use linear::equations_of;
pub use prints::{mixed, print_of};
pub use relies::with_relies;
pub use slots::{Scope, Slot, SlotKind, Slots, slots_of};
pub use trial::{Trial, trial_of};
pub use words::some_word;
