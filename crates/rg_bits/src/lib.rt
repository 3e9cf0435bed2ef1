//! Conditions over words as AND gates: the literal that is true where a condition holds.
#![tactic(auto)]

mod condition;
mod decode;
mod expression;
mod operations;

pub use condition::formula;
pub use decode::states;
pub use rg_rows::input_rows::inputs;
