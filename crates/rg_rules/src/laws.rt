//! What the rules promise, as a function that does nothing and whose contract is the promise.

ghost use Rattle.rg_rules.specs.Derivations.{RulesAreSound};
ghost use Rattle.rg_rules.specs.Faults.{DerivationsHaveNoFault};

/// Where the lines fit and their conditions are met, each line's statement satisfies the line's four formulas.
pub fn rules_are_sound()
    ensures { RulesAreSound }
{}

/// Lines that derive the parts have no fault: what is reported as the first fault of a derivation is reported of none that fits.
pub fn derivations_have_no_fault()
    ensures { DerivationsHaveNoFault }
{}
