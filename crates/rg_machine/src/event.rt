//! Events.

use rg_words::State;

/// What may happen to a configuration.
#[derive(Drop)]
pub enum Event {
    /// A step of the part of this number, from 1.
    Part(usize),
    /// The environment makes this the state of the words.
    Environment(State),
}
