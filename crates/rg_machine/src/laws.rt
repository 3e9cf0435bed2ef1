//! What replays are, as a law: a function that does nothing and whose contract is the law.

ghost use Rattle.rg_machine.specs.EventRuns.{ReplaysAreRuns};

/// Events that are replayed from the first places are the steps of a run of the code.
pub fn replays_are_runs()
    ensures { ReplaysAreRuns }
{}
