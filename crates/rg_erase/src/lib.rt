//! Programs without some of their words: auxiliary words, which no test and no other word needs, are erased, and the runs stay what they were.
#![tactic(auto)]

mod conjuncts;
mod definitions;
mod erasing;
mod fault;
mod kept;
mod mention;
mod product;
mod reads;
mod rename;
mod words;

pub use conjuncts::lost;
pub use erasing::erase;
pub use fault::Fault;
pub use product::Erased;
