//! What a turn answers.

use rg_monitor::record::Record;

/// Why a run is over.
#[derive(Clone, Copy, PartialEq, Eq, Debug)]
pub enum Why {
    /// Every part is at its end.
    Ended,
    /// The parts made as many steps as they may.
    Limit,
    /// No part can step, and no more moves come.
    Stuck,
    /// It was stopped.
    Stopped,
}

/// What a turn did.
#[derive(Drop)]
pub enum Turn {
    /// The part's block, with the record of this step.
    Did(Record),
    /// Nothing: the part's guard doesn't hold.
    Blocked,
    /// Nothing: the part is at its end.
    Ended,
    /// Nothing: the run is over.
    Over(Why),
}

/// Which case a turn is.
#[derive(Clone, Copy, PartialEq, Eq)]
pub(crate) enum Case {
    IsOver(Why),
    AtEnd,
    Waits,
    Steps,
}
