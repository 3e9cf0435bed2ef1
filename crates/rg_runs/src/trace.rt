//! Traces of a program.

use rg_words::State;

/// One step of a program.
#[derive(Drop)]
pub struct Step {
    /// Who makes it: 0 for the environment, else a part by its number, from 1.
    pub who: usize,
    /// The state that it leads to.
    pub after: State,
}

/// A first state, and steps from it.
#[derive(Drop)]
pub struct Trace {
    pub first: State,
    pub steps: Vec<Step>,
}
