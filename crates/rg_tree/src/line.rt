//! The lines of a derivation.

use crate::part::Spec;

/// A rule for the statements of a part.
#[derive(Clone, Copy, Debug, PartialEq, Eq)]
pub enum Rule {
    /// For `skip` and an assignment.
    Basic,
    /// For `await`.
    Atomic,
    Seq,
    If,
    Loop,
    /// For any statement, from another line of the same statement.
    Conseq,
}

/// A line: that a statement satisfies four formulas, by a rule and earlier lines.
#[derive(Drop)]
pub struct DerivationLine {
    /// The number that the line gives itself.
    pub own_number: u64,
    /// The line of the source on which it begins, from 1.
    pub source_line: u32,
    pub rule: Rule,
    /// The statement's number, from 1.
    pub number: u64,
    /// The numbers of the lines that it follows from, each from 1.
    pub premises: Vec<u64>,
    pub spec: Spec,
}
