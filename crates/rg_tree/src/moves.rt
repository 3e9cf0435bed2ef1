//! Moves of the environment: what others may do between the steps of the parts.

ghost use Rattle.std.specs.Prelude.{◌≡◌, All};
ghost use Rattle.rg_tree.specs.Moves.{given, IsValueOf};

use rg_words::State;

/// A value that a word is given.
#[derive(Clone, Copy, Debug, PartialEq, Eq)]
pub struct WordValue {
    /// The word's number: its place in the layout, from 0.
    pub word: usize,
    pub value: u64,
}

/// A move: the words that it names get these values, and the others keep theirs.
#[derive(Drop)]
pub struct Move {
    /// The count of steps that are made before it.
    pub at: u64,
    pub values: Vec<WordValue>,
}

/// Gives the words these values, in order. Other words keep theirs.
pub fn give(values: &[WordValue], state: &mut State)
    requires { All (IsValueOf state.old.widths) values.now }
    ensures values { state.new.values ≡ given values.now state.old.values }
    ensures widths { state.new.widths ≡ state.old.widths }
{
    // As many values as widths.
    state.facts();
    for value in values {
        state.set(value.word, value.value);
    }
}
