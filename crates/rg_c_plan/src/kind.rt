//! Kinds of words.

/// How a word is declared and accessed in C.
#[derive(Clone, Copy, Debug, PartialEq, Eq)]
pub enum Kind {
    /// No step changes it: `const`.
    Fixed,
    /// Plain: no two parties meet at it.
    Own,
    /// Plain: parts meet at it, but the assertions of a derivation keep them apart. A step that touches it makes no atomic access, or one store, last.
    Apart,
    /// Atomic to all others, and written by no other party than the part that looks: that part reads it as its own. No program's word is of this
    /// kind; `kinds_for` gives it to the words that a part publishes.
    Published,
    /// Atomic to all others, none of which may act while the part that looks makes a step: that part reads and writes it as its own. No program's word is of
    /// this kind either; `kinds_for` gives it.
    Sheltered,
    /// Each access to it is atomic: a step makes at most one access to a word of this kind, or exposes no other word.
    Atomic,
    /// Plain, and touched in critical sections alone, and by a part that interrupts all others that touch it.
    Guarded,
}
