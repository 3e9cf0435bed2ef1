//! The floor: the machine with the history of its steps, which is legal at each moment; and a seat for each part.
#![tactic(auto)]

pub mod change;
pub mod closed;
pub mod floor;
pub mod laws;
pub mod ready;
pub mod round;
pub mod seat;
pub mod stepping;
pub mod turn;
pub mod walk;
