//! Gates: what is called before each turn.

use std::sync::Wait;

/// What a worker calls before each of its turns, and where its part waits for others.
pub trait Gate {
    /// Called by the worker of a part, which is named by its number from 1, before its nth turn, counted from 1. The count stays at
    /// its greatest value. The worker holds no lock meanwhile, so a gate may wait.
    fn before<R: Wait>(&self, rt: &R, part: usize, nth: u64);

    /// Called while the floor is locked where a part takes no turn before another one makes a step, or none any more.
    fn rests(&self, _part: usize, _is_over: bool) {}

    /// Called while the floor is locked where a part made a step.
    fn stepped(&self) {}
}

/// A gate that lets each turn through at once.
#[derive(Drop)]
pub struct Open;

impl Gate for Open {
    fn before<R: Wait>(&self, _rt: &R, _part: usize, _nth: u64) {}
}
