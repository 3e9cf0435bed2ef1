//! What holds of all statements and programs, as laws: functions that do nothing, and whose contracts are the laws.

ghost use Rattle.rg_tree.specs.Joined.{RunsAreJoins};
ghost use Rattle.rg_tree.specs.Programs.{BeginningsRun, OneFlag};
ghost use Rattle.rg_tree.specs.Following.{FollowingDecides};
ghost use Rattle.rg_tree.specs.Laws.{StepsArePairs};

/// The runs of a statement are the least set that is closed under the joins of traces.
#[tactic(auto, using(crate::proofs::Joined::runs_are_joins))]
pub fn runs_are_joins()
    ensures { RunsAreJoins }
{}

/// Each beginning of a run is a run, and a trace has at most one flag that says whether it has ended.
pub fn runs_begin()
    ensures runs { BeginningsRun }
    ensures flags { OneFlag }
{}

/// Following a trace, with a list of what is still to be done, decides the runs of a statement.
#[tactic(auto, using(crate::proofs::Follows::following_decides))]
pub fn following_decides()
    ensures { FollowingDecides }
{}

/// The step of typed assignments leads from a state to a state and keeps the fixed words.
pub fn steps_are_pairs()
    ensures { StepsArePairs }
{}
