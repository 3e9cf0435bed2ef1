//! What a command works with.

use std::alloc::Global;

/// What a command works with: threads, memory and the watcher of its searches.
#[derive(Drop)]
pub struct Context<'a, R, P> {
    pub rt: &'a R,
    pub alloc: Global,
    /// The most threads in which conditions are looked at. Their count changes no answer.
    pub threads: usize,
    /// Each search has a copy of it.
    pub watcher: &'a P,
}
