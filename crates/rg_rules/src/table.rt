//! The statements of a program by their numbers.

ghost use Rattle.std.specs.Prelude.{All, ◌≡◌, ◌++◌, ◌≤◌, [], ◌∷◌, length, map, OnOk, IfOk, IfSome};
ghost use Rattle.std.specs.Option.{option_map};
ghost use Rattle.rg_words.specs.declared.limits.TheConstants.{MOST_STATEMENTS};
ghost use Rattle.rg_tree.specs.Programs.{nth};
ghost use Rattle.rg_tree.specs.Numbering.{statements, statements_of_items, statements_of_parts};
ghost use Rattle.rg_tree.specs.ProgramView.{statement, items, part};
ghost use Rattle.rg_rules.specs.Inner.View.{referred};

use rg_tree::part::Part;
use rg_tree::statement::{Items, Stmt};
use std::alloc::{AllocError, Global};

/// The statements of the parts, each before those inside it.
pub(crate) fn statements_by_number<'a>(
    alloc: Global,
    parts: &'a [Part],
) -> Result<Vec<&'a Stmt>, AllocError>
    ensures { IfOk result (λ list. map referred list.items ≡ statements_of_parts (map part parts.now)) }
{
    let mut list = Vec::new(alloc);
    for part in parts {
        push_statement(&mut list, &part.body)?;
    }
    Ok(list)
}

/// Adds the statement and those inside it.
#[cycle(table)]
fn push_statement<'a>(list: &mut Vec<&'a Stmt>, s: &'a Stmt) -> Result<(), AllocError>
    ensures { OnOk result (map referred list.new.items ≡ map referred list.old.items ++ statements (statement s.now)) }
{
    list.push(s)?;
    match s {
        Stmt::Skip(_) | Stmt::Assign(_, _) | Stmt::Await(_, _, _) => {}
        Stmt::Seq(_, first, rest) => {
            push_statement(list, first)?;
            push_items(list, rest)?;
        }
        Stmt::If(_, _, first, second) => {
            push_statement(list, first)?;
            push_statement(list, second)?;
        }
        Stmt::While(_, _, body) => {
            push_statement(list, body)?;
        }
    }
    Ok(())
}

/// Adds the items of a sequence.
#[cycle(table)]
fn push_items<'a>(list: &mut Vec<&'a Stmt>, rest: &'a Items) -> Result<(), AllocError>
    ensures { OnOk result (map referred list.new.items ≡ map referred list.old.items ++ statements_of_items (items rest.now)) }
{
    match rest {
        Items::One(s) => {
            push_statement(list, s)?;
        }
        Items::More(s, rest) => {
            push_statement(list, s)?;
            push_items(list, rest)?;
        }
    }
    Ok(())
}

/// How many statements there are in each of these, itself among them.
pub(crate) fn sizes_of(alloc: Global, list: &[&Stmt]) -> Result<Vec<u64>, AllocError>
    requires { All (λ s. length (statements (referred s)) ≤ MOST_STATEMENTS) list.now }
    ensures { IfOk result (λ sizes. sizes.items ≡ map (λ s. length (statements s)) (map referred list.now)) }
{
    let mut sizes = Vec::new(alloc);
    for s in list {
        sizes.push(size(s))?;
    }
    Ok(sizes)
}

/// The statement of a number, from 1.
pub(crate) fn statement_at<'a>(list: &[&'a Stmt], number: u64) -> Option<&'a Stmt>
    ensures exact { option_map referred result ≡ nth (map referred list.now) number }
    ensures within { IfSome result (λ _. number ≤ length list.now) }
{
    if number == 0 || number > list.len() as u64 {
        None
    } else {
        Some(list[(number - 1) as usize])
    }
}

/// How many statements there are in a statement, itself among them.
#[cycle(size)]
pub(crate) fn size(s: &Stmt) -> u64
    requires { length (statements (statement s.now)) ≤ MOST_STATEMENTS }
    ensures { result ≡ length (statements (statement s.now)) }
{
    match s {
        Stmt::Skip(_) | Stmt::Assign(_, _) | Stmt::Await(_, _, _) => 1,
        Stmt::Seq(_, first, rest) => size(first) + size_of_items(rest) + 1,
        Stmt::If(_, _, first, second) => size(first) + size(second) + 1,
        Stmt::While(_, _, body) => size(body) + 1,
    }
}

#[cycle(size)]
fn size_of_items(rest: &Items) -> u64
    requires { length (statements_of_items (items rest.now)) ≤ MOST_STATEMENTS }
    ensures { result ≡ length (statements_of_items (items rest.now)) }
{
    match rest {
        Items::One(s) => size(s),
        Items::More(s, rest) => size(s) + size_of_items(rest),
    }
}
