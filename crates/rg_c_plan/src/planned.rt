//! What planning gives.

use crate::kind::Kind;

/// The kind of each word, in the order of declaration.
#[derive(Drop)]
pub struct Plan {
    pub kinds: Vec<Kind>,
}

/// Why there is no C of this form. A line is that of a statement, from 1.
#[derive(Clone, Copy, Debug, PartialEq, Eq)]
pub enum Unplanned {
    /// The step at this line isn't done at once: it makes more than one access to words that the world outside touches, or to one of them and to others; or it touches
    /// a word at which parts are kept apart, and makes another atomic access than one store, last. The first such word is its place in the layout, from 0.
    Step(u32, usize),
    /// A part that interrupts another one may wait at this line.
    Wait(u32),
}
