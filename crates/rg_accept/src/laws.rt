//! What acceptance gives out besides, as a function that does nothing and whose contract is the law.

ghost use Rattle.rg_accept.specs.Standing.{AssertionsHold};

/// In each run of accepted code from the pre, with steps of the environment inside the rely, the pre of a line of the derivation holds of each statement at whose
/// block a part stands.
pub fn assertions_hold()
    ensures { AssertionsHold }
{}
