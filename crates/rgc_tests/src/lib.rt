//! What no row shows of commands: writers that fail, refused memory, counts of decisions.
#![tactic(auto)]

#[cfg(test)]
mod commands;
#[cfg(test)]
mod line;
#[cfg(test)]
mod memory;
#[cfg(test)]
mod program;
#[cfg(test)]
mod programs;
#[cfg(test)]
mod runs;
#[cfg(test)]
mod threads;
#[cfg(test)]
mod writers;
