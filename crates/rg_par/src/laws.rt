//! What the rule promises, as a function that does nothing and whose contract is the promise.

ghost use Rattle.rg_par.specs.Parallel.{ParallelRule};

/// Where each part satisfies its own specification and the rule's conditions are met, the program satisfies its specification.
pub fn parallel_rule()
    ensures { ParallelRule }
{}
