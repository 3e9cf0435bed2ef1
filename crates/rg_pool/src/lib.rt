//! Work in many threads, with the answers of one.
#![tactic(auto)]

mod dealing;
mod pieces;
mod proof_pieces;
mod proving;

pub use dealing::deal;
pub use pieces::{LEAST_LINES, Pieces, Unreported, check_all};
pub use proof_pieces::prove_pieces;
pub use proving::{InThreads, prove_all};
pub use rg_hints::check_piece;
