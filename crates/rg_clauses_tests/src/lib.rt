//! Rows of gates and clauses that no command reaches, over public calls alone.
#![tactic(auto)]

#[cfg(test)]
mod clauses;
#[cfg(test)]
mod conditions;
#[cfg(test)]
mod files;
#[cfg(test)]
mod finder;
#[cfg(test)]
mod gates;
#[cfg(test)]
mod meeting;
#[cfg(test)]
mod scan;
