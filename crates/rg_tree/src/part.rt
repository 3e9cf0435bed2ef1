//! Specifications and parts.

use crate::statement::Stmt;
use crate::tree::Formula;

/// What a run may begin with, what others may do, what own steps do, and where an ended run stands
/// (C. B. Jones, ACM TOPLAS 5(4), 1983).
#[derive(Drop)]
pub struct Spec {
    pub pre: Formula,
    pub rely: Formula,
    pub guar: Formula,
    pub post: Formula,
}

/// A parallel part.
#[derive(Drop)]
pub struct Part {
    pub name: String,
    pub spec: Spec,
    pub body: Stmt,
}
