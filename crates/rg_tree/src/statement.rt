//! Statements.

use crate::condition::Assign;
use crate::tree::Formula;

/// A statement, with the line of its first token, from 1.
#[derive(Drop)]
#[cycle(statement)]
pub enum Stmt {
    /// A step that changes nothing.
    Skip(u32),
    /// One assignment, as one step.
    Assign(u32, Assign),
    /// Where the formula holds, these assignments in order, as one step.
    Await(u32, Formula, Vec<Assign>),
    /// The first, and then the items after it.
    Seq(u32, Box<Stmt>, Box<Items>),
    /// A test as one step, and then the first block where the formula holds, else the second.
    If(u32, Formula, Box<Stmt>, Box<Stmt>),
    /// A test as one step, and where the formula holds the block and the test again.
    While(u32, Formula, Box<Stmt>),
}

/// The items of a sequence after its first.
#[derive(Drop)]
#[cycle(statement)]
pub enum Items {
    One(Box<Stmt>),
    More(Box<Stmt>, Box<Items>),
}
