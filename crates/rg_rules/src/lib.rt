//! Derivations of parts by the six rules of a part, after Xu, de Roever and He (Formal Aspects of Computing 9, 1997).
#![tactic(auto)]

mod conditions;
mod derivation;
mod fits;
mod laws;
mod names;
mod read;
mod table;

pub use derivation::Derivation;
pub use laws::{derivations_have_no_fault, rules_are_sound};
pub use rg_tree::line::{DerivationLine, Rule};
