//! Expressions and formulas over words of any width.

use rg_words::operators::{Comparison, Connective, Operator, Shift};

/// An expression. A `u32` before an operand is a width in bits; a word is its place in the layout, from 0.
#[derive(Drop)]
#[cycle(tree)]
pub enum Expr {
    /// A number of this width.
    Number(u32, u64),
    /// A word in the first state.
    Word(usize),
    /// A word in the second state, which is written with a prime.
    NextWord(usize),
    /// All bits turned: 2 to the power of the width, less 1, less the operand.
    Inverse(u32, Box<Expr>),
    Binary(Operator, u32, Box<Expr>, Box<Expr>),
    /// The operand moved by so many bits. What leaves the width is lost, and zeros move in.
    Shifted(Shift, u32, Box<Expr>, u32),
    /// The first expression where the formula is true, else the second.
    If(Box<Formula>, Box<Expr>, Box<Expr>),
}

/// A formula.
#[cycle(tree)]
pub enum Formula {
    Truth(bool),
    Not(Box<Formula>),
    Connect(Connective, Box<Formula>, Box<Formula>),
    /// Both sides are compared as unsigned numbers.
    Compare(Comparison, Expr, Expr),
}

/// A chain leans to the left, and may have thousands of operands: a loop lets go of it, and calls itself for the right operands alone.
impl Drop for Formula {
    #[cycle(tree)]
    fn drop(mut self) {
        loop {
            match self {
                Formula::Truth(_) => return,
                Formula::Compare(_, a, b) => {
                    drop(a);
                    drop(b);
                    return;
                }
                Formula::Not(f) => self = Box::into_inner(f),
                Formula::Connect(_, f, g) => {
                    drop(g);
                    self = Box::into_inner(f);
                }
            }
        }
    }
}
