//! What long searches report to, and what says whether they go on.
#![tactic(auto)]

ghost use Rattle.std.specs.Prelude.{◌≡◌, true, false};

/// What a search for a proof and a walk over runs report to now and then, and what says whether they go on.
pub trait Watcher {
    /// A search has met so many conflicts, and keeps so many learned clauses; whether it goes on.
    fn searched(&mut self, conflicts: u64, learned: usize) -> bool;

    /// A walk has made so many steps, and met so many states; whether it goes on.
    fn walked(&mut self, steps: u64, states: usize) -> bool;

    /// A search for assertions has asked so many questions; whether it goes on.
    fn asked(&mut self, questions: usize) -> bool;

    /// These lines are known before a walk that may take long; whether they are printed now, so that they needn't be printed at the end.
    fn found(&mut self, lines: &[u8]) -> bool;
}

/// A watcher that hears nothing and ends nothing.
#[derive(Clone, Copy)]
pub struct Unwatched;

impl Watcher for Unwatched {
    fn searched(&mut self, _conflicts: u64, _learned: usize) -> bool
        ensures { result ≡ true }
    {
        true
    }

    fn walked(&mut self, _steps: u64, _states: usize) -> bool
        ensures { result ≡ true }
    {
        true
    }

    fn asked(&mut self, _questions: usize) -> bool
        ensures { result ≡ true }
    {
        true
    }

    fn found(&mut self, _lines: &[u8]) -> bool
        ensures { result ≡ false }
    {
        false
    }
}
