//! What a run works with.

use rg_tree::moves::Move;
use std::alloc::Global;

/// What a run works with: the handle of its threads, memory, the gate before each turn, and the moves of the environment.
#[derive(Drop)]
pub struct Stage<'a, G, R> {
    pub rt: &'a R,
    pub alloc: Global,
    pub gate: &'a G,
    /// They are made in their order.
    pub moves: &'a [Move],
}
