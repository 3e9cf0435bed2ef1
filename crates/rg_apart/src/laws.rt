//! What the conditions are good for, as functions that do nothing and whose contracts are the laws.

ghost use Rattle.rg_apart.specs.Laws.{ErasedIsLeft, WholeIsLeft, PartsNeverMeet};

/// Where the conditions of an accepted program and those of the flagged words are true, no run from the pre, with steps of the environment inside the rely, brings two
/// parts to steps that both access a flagged word, and of which one may write it; also of what is left of the program where words are erased.
pub fn parts_never_meet()
    ensures { PartsNeverMeet }
{}

/// After each run of what is left of a program, the parts stand where the program's parts stand after a run of which it is what stays.
pub fn parts_stand_where_they_stood()
    ensures whole { WholeIsLeft }
    ensures erased { ErasedIsLeft }
{}
