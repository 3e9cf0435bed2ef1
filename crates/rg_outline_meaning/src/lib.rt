//! What an outline stands for: its words, the four formulas at its head, and its parts, by the rules of `specs`. It is read from the written trees
//! alone, and shares nothing with the expansion: a program that was parsed from the expansion's text is compared with it.
#![tactic(auto)]

mod declared;
mod expressions;
mod folded;
mod meaning;
mod names;
mod numbers;
mod parts;
mod ranges;
mod same;
mod selected;
mod statements;
mod uses;

pub use parts::stands_for;
