//! The statements of a program with their numbers.

ghost use Rattle.std.specs.Prelude.{◌≡◌, [], ◌∷◌, map, OnOk, IfOk};
ghost use Rattle.rg_tree.specs.Inner.Numbering.{Adds};
ghost use Rattle.rg_tree.specs.ProgramView.{statement, items, part};
ghost use Rattle.rg_tree.specs.Numbering.{statements, statements_of_items, line_of_statement, kind_of, numbered_parts};

use crate::program::Program;
use crate::statement::{Items, Stmt};
use std::alloc::{AllocError, Global};

/// What a statement is.
#[derive(Clone, Copy, Debug, PartialEq, Eq)]
pub enum StatementKind {
    Skip,
    Assign,
    Await,
    If,
    While,
    Seq,
}

/// A statement by its number: from 1, over the parts in order, each statement before those inside it.
#[derive(Clone, Copy, Debug, PartialEq, Eq)]
pub struct Numbered {
    pub number: usize,
    /// The part's number, from 1.
    pub part: usize,
    /// The line of its first token, from 1.
    pub line: u32,
    pub kind: StatementKind,
}

/// Adds the statement and those inside it.
#[cycle(numbered)]
fn push_statement(list: &mut Vec<Numbered>, part: usize, s: &Stmt) -> Result<(), AllocError>
    ensures { OnOk result (Adds part (statements (statement s.now)) list.old.items list.new.items) }
{
    push_one(list, part, s)?;
    match s {
        Stmt::Skip(_) | Stmt::Assign(_, _) | Stmt::Await(_, _, _) => {}
        Stmt::Seq(_, first, rest) => {
            push_statement(list, part, first)?;
            push_items(list, part, rest)?;
        }
        Stmt::If(_, _, first, second) => {
            push_statement(list, part, first)?;
            push_statement(list, part, second)?;
        }
        Stmt::While(_, _, body) => {
            push_statement(list, part, body)?;
        }
    }
    Ok(())
}

/// Adds the items of a sequence.
#[cycle(numbered)]
fn push_items(list: &mut Vec<Numbered>, part: usize, rest: &Items) -> Result<(), AllocError>
    ensures { OnOk result (Adds part (statements_of_items (items rest.now)) list.old.items list.new.items) }
{
    match rest {
        Items::One(s) => {
            push_statement(list, part, s)?;
        }
        Items::More(s, rest) => {
            push_statement(list, part, s)?;
            push_items(list, part, rest)?;
        }
    }
    Ok(())
}

/// Adds the statement alone.
fn push_one(list: &mut Vec<Numbered>, part: usize, s: &Stmt) -> Result<(), AllocError>
    ensures { OnOk result (Adds part (statement s.now ∷ []) list.old.items list.new.items) }
{
    let (line, kind) = head_of(s);
    let number = list.len() + 1;
    list.push(Numbered {
        number,
        part,
        line,
        kind,
    })?;
    Ok(())
}

/// The line and the kind of a statement.
fn head_of(s: &Stmt) -> (u32, StatementKind)
    ensures line { result.0 ≡ line_of_statement (statement s.now) }
    ensures kind { result.1 ≡ kind_of (statement s.now) }
{
    match s {
        Stmt::Skip(line) => (*line, StatementKind::Skip),
        Stmt::Assign(line, _) => (*line, StatementKind::Assign),
        Stmt::Await(line, _, _) => (*line, StatementKind::Await),
        Stmt::Seq(line, _, _) => (*line, StatementKind::Seq),
        Stmt::If(line, _, _, _) => (*line, StatementKind::If),
        Stmt::While(line, _, _) => (*line, StatementKind::While),
    }
}

impl Program {
    /// The statements in the order of their numbers.
    pub fn numbered(&self, alloc: Global) -> Result<Vec<Numbered>, AllocError>
        ensures { IfOk result (λ list. list.items ≡ numbered_parts 1 1 (map part self.now.parts.items)) }
    {
        let mut list = Vec::new(alloc);
        let mut number = 0;
        for part in &self.parts {
            number += 1;
            push_statement(&mut list, number, &part.body)?;
        }
        Ok(list)
    }
}
