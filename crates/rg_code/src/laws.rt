//! What the compiler promises, as functions that do nothing and whose contracts are the promises.

ghost use Rattle.rg_code.specs.Operations.{OperationsLeaveValues};
ghost use Rattle.rg_code.specs.Code.{CompilerIsRight};
ghost use Rattle.rg_code.specs.Laws.{BlockStepsArePairs};

/// The operations of an expression leave exactly its value on top of the stack, and those of a formula its truth value.
pub fn operations_leave_values()
    ensures { OperationsLeaveValues }
{}

/// The code of a program has exactly the program's runs, with any steps of the environment.
pub fn compiler_is_right()
    ensures { CompilerIsRight }
{}

/// The step of a legal block leads from a state to a state, keeps the fixed words, and goes to a block of its part.
pub fn block_steps_are_pairs()
    ensures { BlockStepsArePairs }
{}
