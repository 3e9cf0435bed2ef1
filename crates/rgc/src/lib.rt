//! The library of `rgc`: a formula and its hint lines, and a program's text or tree with its derivation and its proofs.
#![tactic(auto)]

mod chosen;
mod failures;
mod pieces;
mod proofs_found;
mod shown;

pub use chosen::{chosen_condition, condition_clauses, find_condition};
pub use failures::failure_text;
pub use pieces::{
    accept_in_pieces, build_in_pieces, derive_program, one_piece_fits, one_piece_is_accepted,
    one_piece_is_built,
};
pub use proofs_found::{
    ProofsFound, SearchSettings, Unproved, bytes_of_pieces, failures_text, find_part, find_proofs,
    name_at,
};
pub use rg_accept::{
    Accepted, Derived, Emitted, Parsed, accept, accept_all, accept_program, build, build_by,
    build_program,
};
pub use rg_pool::InThreads;
pub use shown::{clauses, find, valid, valid_by};
