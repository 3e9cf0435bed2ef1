//! The kinds of text.

/// A kind of text.
#[derive(Clone, Copy)]
pub enum TextKind {
    /// A formula alone.
    Formula,
    /// Declared words, and a formula to show.
    Show,
    /// Words and the numbers that they begin with.
    Start,
    /// The moves of the environment.
    Moves,
    /// A program.
    Program,
    /// A derivation of the parts of a program.
    Derivation,
}
