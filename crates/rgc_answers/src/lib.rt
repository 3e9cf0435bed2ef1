//! The texts of answers, as lines or as JSON: numbered statements, conditions, proofs, listings, runs and refusals; and the picture of a run. Of a run
//! the lines go out as its steps are made.
#![tactic(auto)]

mod accepted;
mod blocks;
mod conditions;
mod context;
mod ends;
mod equations;
mod formulas;
mod frame;
mod json_line;
mod judged;
mod label;
pub mod listing;
mod numbers;
mod picture;
mod pieces;
mod proof_lines;
mod records;
mod refusals;
mod replace;
mod rows;
mod run_json;
mod running;

pub use accepted::accepted_text;
pub use blocks::formulas_text;
pub use conditions::{conditions_text, listing_text};
pub use context::Context;
pub use formulas::formula_of;
pub use judged::{found_text, reason};
pub use label::Shown;
pub use numbers::{kind_text, numbers_text, part_name};
pub use picture::{MOST_DRAWN, draw};
pub use proof_lines::{Range, proofs_text, unproved_text};
pub use refusals::{refusal_json, refusal_value};
pub use run_json::write_run;
pub use running::{Run, Unread, draw_run, passed_lines, play_run, why_line};
