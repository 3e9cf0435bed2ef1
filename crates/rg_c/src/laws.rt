//! What holds of all steps, as laws: functions that do nothing, and whose contracts are the laws.

ghost use Rattle.rg_c.specs.Functions.{FunctionsStayApart};
ghost use Rattle.rg_c.specs.Laws.{StepsAreRight, TestsAreRight};
ghost use Rattle.rg_c.specs.Starts.{StartsAreInside};
ghost use Rattle.rg_c.specs.Together.{StoresAreTogether};

/// Done at once, the statements of each step make exactly the step of the program, whatever the kinds of the words, and each test is
/// answered as its formula says.
#[tactic(auto, using(crate::proofs::StepsRight::steps_are_right, crate::proofs::StepsRight::tests_are_right))]
pub fn steps_are_right()
    ensures steps { StepsAreRight }
    ensures tests { TestsAreRight }
{}

/// Assignments that are written as one store to an item of an array do what it does, at an index within the array.
#[tactic(auto, using(crate::proofs::TogetherRight::stores_are_together))]
pub fn stores_are_together()
    ensures { StoresAreTogether }
{}

/// Each start that a header gives is a state of the words, inside the pre.
#[tactic(auto, using(crate::proofs::Starts::starts_are_inside))]
pub fn starts_are_inside()
    ensures { StartsAreInside }
{}

/// Functions of headers have different names, and so have those of one header, where no title has `_run`, `_round` or `_perform` in it.
#[tactic(auto, using(crate::proofs::FunctionsApart::functions_stay_apart))]
pub fn functions_stay_apart()
    ensures { FunctionsStayApart }
{}
