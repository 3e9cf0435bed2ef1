//! What is done with an outline: it is proved, its runs are followed, and its program is changed in small ways. What is said of it is said only where its
//! text, its derivation and its proofs are accepted as any files are.
#![tactic(auto)]

mod answers;
mod asked;
mod candidates;
mod challenge_json;
mod challenges;
mod claims;
mod known;
mod naming;
mod pieces;
mod proved;
mod unproved;
mod verdict;
mod walk;
mod warnings;

pub use answers::{Answer, Answered};
pub use asked::is_proved;
pub use challenges::{Challenge, Options, challenge_changes};
pub use claims::confirmed;
pub use known::Known;
pub use naming::{Naming, draw_reported, lines_of, naming_of, push_reported};
pub use pieces::{derive_outline, short_derivations_are_accepted, short_derivations_are_built};
pub use proved::{Counts, Proved, prove_outline, proved_outlines_are_accepted};
pub use unproved::{unproved_report, walk_report};
pub use verdict::{VerdictForm, push_name, verdict_line};
pub use walk::{WalkedRuns, push_stuck_warning, runs_only, walk_text};
pub use warnings::warnings_of;
