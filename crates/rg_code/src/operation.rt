//! Operations in postfix order.

use rg_words::operators::{Comparison, Connective, Operator, Shift};

/// An operation over a stack of numbers: it takes its operands from the top, where the one that was worked out last stands,
/// and leaves its result there. A truth value is 1 or 0.
#[derive(Clone, Copy)]
pub enum Operation {
    /// This number.
    Number(u64),
    /// The value of a word, by its place in the layout, from 0.
    Word(usize),
    /// All bits of one number of this width, in bits, turned.
    Inverse(u32),
    /// An operation on two numbers of this width, in bits.
    Binary(Operator, u32),
    /// A number of this width moved by so many bits.
    Shifted(Shift, u32, u32),
    /// Of a truth value and two numbers: the first number where it is true, else the second.
    Pick,
    /// The truth value of a comparison of two numbers.
    Compare(Comparison),
    Truth(bool),
    Not,
    Connect(Connective),
}
