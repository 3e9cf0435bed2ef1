//! Uses of named statements, as functions of their own.

ghost use Rattle.std.specs.Prelude.{◌≡◌, ◌++◌, ◌+◌, ◌<◌, ◌^◌, [], length, map, string_bytes, IfOk, OnOk};
ghost use Rattle.rg_tree.specs.ProgramView.{statement, items};
ghost use Rattle.rg_code.specs.Code.{count_of, count_of_items};
ghost use Rattle.rg_c.specs.Printed.{function_text};
ghost use Rattle.rg_c.specs.Fitting.{StatementFits, ItemsFit};
ghost use Rattle.rg_c.specs.Operations.{is_within, within, items_within, operation_text, operations_text};
ghost use Rattle.rg_c.specs.View.{page, on, operation as operation_tree};

use crate::bodies::{Titles, UNUSED};
use crate::heads::push_operation_open;
use crate::print::{inner, push_closing, push_code, push_opening};
use crate::statements::push_statement;
use crate::tree::Sheet;
use rg_tree::statement::{Items, Stmt};
use std::alloc::AllocError;

/// One use of named statements in a part, whose statements a caller may want to make alone.
#[derive(Drop)]
pub struct Operation {
    /// The place of the part in the program, from 0.
    pub part: usize,
    /// What the name of its function ends in.
    pub name: String,
    /// The line of the program's text, from 1, with the first of its statements.
    pub first: u32,
    /// The line with the last of them.
    pub last: u32,
}

/// Lines of the program's text, from the first to the last.
#[derive(Clone, Copy)]
struct Rows {
    first: u32,
    last: u32,
}

/// Whether a line is one of these.
fn is_within(rows: Rows, row: u32) -> bool
    ensures { result ≡ is_within rows.first rows.last row }
{
    rows.first <= row && row <= rows.last
}

/// Adds what of a statement, whose first step stands at this place, is on these lines, and gives the place after the statement.
#[cycle(operations)]
fn push_within(
    s: &Sheet<'_>,
    text: &mut String,
    rows: Rows,
    place: usize,
    stmt: &Stmt,
) -> Result<usize, AllocError>
    requires fits { StatementFits (length s.now.layout.now) (statement stmt.now) }
    requires room { place + count_of (statement stmt.now) < 2 ^ 64 }
    ensures text { OnOk result (string_bytes text.new ≡ string_bytes text.old ++ on s.now (within (page s.now) rows.first rows.last place (statement stmt.now))) }
    ensures place { IfOk result (λ next. next ≡ place + count_of (statement stmt.now)) }
{
    match stmt {
        Stmt::Skip(row) | Stmt::Assign(row, _) | Stmt::Await(row, _, _) => {
            if is_within(rows, *row) {
                return push_statement(s, text, place, stmt);
            }
            Ok(place + 1)
        }
        Stmt::Seq(_, first, rest) => {
            let middle = push_within(s, text, rows, place, first)?;
            push_items_within(s, text, rows, middle, rest)
        }
        Stmt::If(row, _, first, second) => {
            if is_within(rows, *row) {
                return push_statement(s, text, place, stmt);
            }
            let middle = push_within(s, text, rows, place + 1, first)?;
            push_within(s, text, rows, middle, second)
        }
        Stmt::While(row, _, body) => {
            if is_within(rows, *row) {
                return push_statement(s, text, place, stmt);
            }
            push_within(s, text, rows, place + 1, body)
        }
    }
}

/// Adds what of the items of a sequence is on these lines.
#[cycle(operations)]
fn push_items_within(
    s: &Sheet<'_>,
    text: &mut String,
    rows: Rows,
    place: usize,
    list: &Items,
) -> Result<usize, AllocError>
    requires fits { ItemsFit (length s.now.layout.now) (items list.now) }
    requires room { place + count_of_items (items list.now) < 2 ^ 64 }
    ensures text { OnOk result (string_bytes text.new ≡ string_bytes text.old ++ on s.now (items_within (page s.now) rows.first rows.last place (items list.now))) }
    ensures place { IfOk result (λ next. next ≡ place + count_of_items (items list.now)) }
{
    match list {
        Items::One(stmt) => push_within(s, text, rows, place, stmt),
        Items::More(stmt, rest) => {
            let next = push_within(s, text, rows, place, stmt)?;
            push_items_within(s, text, rows, next, rest)
        }
    }
}

/// Adds the body of the function of the statements on these lines.
fn push_rows(s: &Sheet<'_>, text: &mut String, rows: Rows, body: &Stmt) -> Result<(), AllocError>
    requires fits { StatementFits (length s.now.layout.now) (statement body.now) }
    requires room { count_of (statement body.now) < 2 ^ 64 }
    ensures { OnOk result (string_bytes text.new ≡ string_bytes text.old ++ function_text s.now.layout.now [] (within (page s.now) rows.first rows.last 0 (statement body.now))) }
{
    let inside = inner(s.alloc, "")?;
    let outer = Sheet {
        reads: &[],
        indent: "",
        ..*s
    };
    let deeper = Sheet {
        indent: &inside,
        ..outer
    };
    push_opening(&outer, text, &[])?;
    push_code(&deeper, text, &UNUSED)?;
    push_within(&deeper, text, rows, 0, body)?;
    push_closing(&outer, text)
}

/// Adds the function of a use in a part with this body.
#[tactic(auto, unfolding(crate::specs::Operations::operation_text))]
fn push_operation(
    s: &Sheet<'_>,
    text: &mut String,
    titles: &Titles<'_>,
    operation: &Operation,
    body: &Stmt,
) -> Result<(), AllocError>
    requires fits { StatementFits (length s.now.layout.now) (statement body.now) }
    requires room { count_of (statement body.now) < 2 ^ 64 }
    ensures { OnOk result (string_bytes text.new ≡ string_bytes text.old ++ operation_text titles.now.name.now titles.now.part.now (page s.now) (operation_tree
        operation.now) (statement body.now)) }
{
    push_operation_open(text, titles.name, titles.part, &operation.name)?;
    let rows = Rows {
        first: operation.first,
        last: operation.last,
    };
    push_rows(s, text, rows, body)
}

/// Adds the functions of the uses in this part.
pub(crate) fn push_operations(
    s: &Sheet<'_>,
    text: &mut String,
    titles: &Titles<'_>,
    operations: &[Operation],
    body: &Stmt,
) -> Result<(), AllocError>
    requires fits { StatementFits (length s.now.layout.now) (statement body.now) }
    requires room { count_of (statement body.now) < 2 ^ 64 }
    ensures { OnOk result (string_bytes text.new ≡ string_bytes text.old ++ operations_text titles.now.name.now titles.now.part.now (page s.now) (map operation_tree
        operations.now) (statement body.now)) }
{
    for operation in operations {
        if operation.part == s.part {
            push_operation(s, text, titles, operation, body)?;
        }
    }
    Ok(())
}
