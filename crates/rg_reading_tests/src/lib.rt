//! What no command reaches of the trees and their parsers, over public calls alone.
#![tactic(auto)]

#[cfg(test)]
mod derivations;
#[cfg(test)]
mod inputs;
#[cfg(test)]
mod programs;
#[cfg(test)]
mod tokens;
#[cfg(test)]
mod trees;
#[cfg(test)]
mod words;
