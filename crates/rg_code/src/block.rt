//! Blocks: the steps of flat code.

use crate::operation::Operation;

/// The number that the operations leave goes to a word.
#[derive(Drop)]
pub struct Store {
    /// The word's number: its place in the layout, from 0.
    pub word: usize,
    pub value: Vec<Operation>,
}

/// A block, which is done as one step. A `u32` is the line of its statement, from 1; a place is a block of the same part, from 0.
#[derive(Drop)]
pub enum Block {
    /// The stores in order, and then the block at this place.
    Do(u32, usize, Vec<Store>),
    /// Where the operations leave 1, the stores in order, and then the block at this place.
    Await(u32, usize, Vec<Operation>, Vec<Store>),
    /// Nothing changes, and then the block at the first place where the operations leave 1, else at the second.
    Test(u32, usize, usize, Vec<Operation>),
    /// No step more.
    End,
}
