//! The small changes of an outline's program, each as a changed outline, and the lines that report them.
#![tactic(auto)]

mod blocks;
mod change;
mod changes;
mod edits;
mod report;
mod steps;
mod tests;
mod words;

pub use change::{Between, Change, ChangeGroup, Edit, Replacement};
pub use changes::{Changes, changes_of};
pub use edits::changed_outline;
pub use report::{
    Counts, push_change, push_change_alone, push_counts, push_survivors, push_unspoken,
};
