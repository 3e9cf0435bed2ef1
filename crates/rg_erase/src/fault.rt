//! Why words can't be erased.

/// Why words can't be erased from a program. A word is its place in the layout, from 0.
#[derive(Clone, Copy, Debug, PartialEq, Eq)]
pub enum Fault {
    /// No word stays that a step may change.
    NothingLeft,
    /// The pre says something else of this word than its value, once: a conjunct `a = E`, where `E` has no erased word.
    Pre(usize),
    /// The rely says something else of this word than its value after a step, once: a conjunct `a' = E`, where `E` has no primed erased word, and `a` isn't
    /// fixed.
    Rely(usize),
    /// The statement of this line, from 1, reads this word: in its test or guard, or in a value that is assigned to a word that stays.
    Read(u32, usize),
}
