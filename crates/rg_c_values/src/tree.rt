//! Expressions of C: the values and the tests that are printed.

use rg_words::operators::{Comparison, Operator, Shift};

/// A value of C, of an unsigned type. The first `u32` of an operation is the width of its type in bits, 32 or 64; a word is its
/// place in the layout, from 0.
#[derive(Drop)]
#[cycle(tree)]
pub enum Value {
    Literal(u64),
    /// A word, as a value of its container: the unsigned type of so many bits, the least that holds the word.
    Word(u32, usize),
    /// The value cast to the unsigned type of so many bits.
    Cast(u32, Box<Value>),
    Inverse(u32, Box<Value>),
    Binary(Operator, u32, Box<Value>, Box<Value>),
    /// What is left of the operand where it is divided by the number.
    Rest(u32, Box<Value>, u64),
    /// The operand moved by so many bits.
    Shifted(Shift, u32, Box<Value>, u32),
    /// The first value where the test is true, else the second.
    Choice(Box<Test>, Box<Value>, Box<Value>),
}

/// A test of C.
#[derive(Drop)]
#[cycle(tree)]
pub enum Test {
    Truth(bool),
    Not(Box<Test>),
    Joined(Joint, Box<Test>, Box<Test>),
    /// Both sides are compared as unsigned numbers.
    Compared(Comparison, Value, Value),
}

/// How two tests are joined.
#[derive(Clone, Copy, Debug, PartialEq, Eq)]
pub enum Joint {
    And,
    Or,
    /// Both are true or both are false.
    Same,
}
