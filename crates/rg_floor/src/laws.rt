//! What legal floors mean, as laws: functions that do nothing, and whose contracts are the laws.

ghost use Rattle.rg_floor.specs.Ready.{ReadyMeansSteps};
ghost use Rattle.rg_floor.specs.Laws.{HistoriesAreRuns, StepsAreCovered, EndsAreInPost};

/// The steps of a legal floor are a run of its code; each recorded step of a part has this part in its cover; and a floor whose parts
/// are all at their ends has its words in the post.
pub fn legal_floors()
    ensures runs { HistoriesAreRuns }
    ensures covered { StepsAreCovered }
    ensures ended { EndsAreInPost }
{}

/// The test whether a block can be done is true exactly where the block makes some step.
pub fn ready_means_steps()
    ensures { ReadyMeansSteps }
{}
