//! The given clauses, as plain lists.

use crate::table::at;

/// Clauses of signed literals over the variables from 1 on, as in the DIMACS format, kept flat.
#[derive(Clone, Copy)]
pub struct Given<'a> {
    /// The count of variables.
    pub variables: u32,
    /// The count of inputs, which are the first variables.
    pub inputs: u32,
    /// All literals, clause by clause.
    pub literals: &'a [i32],
    /// The place among the literals where each clause begins.
    pub starts: &'a [usize],
}

impl<'a> Given<'a> {
    /// The count of clauses.
    pub fn len(self) -> usize {
        self.starts.len()
    }

    /// The literals of a clause; past the last clause there are none.
    pub fn clause(self, index: usize) -> &'a [i32] {
        let end = self.literals.len();
        let from = at(self.starts, index, end);
        let to = at(self.starts, index.saturating_add(1), end);
        self.literals.get(from..to).unwrap_or(&[])
    }

    /// Whether a clause has no literals.
    pub fn has_empty(self) -> bool {
        for index in 0..self.len() {
            if self.clause(index).is_empty() {
                return true;
            }
        }
        false
    }
}
