//! Statements as blocks.

ghost use Rattle.std.specs.Prelude.{◌≡◌, ◌+◌, ◌^◌, ◌<◌, ◌++◌, [], ◌∷◌, map, length, OnOk, IfOk};
ghost use Rattle.rg_tree.specs.ProgramView.{statement, items};
ghost use Rattle.rg_code.specs.Code.{count_of, count_of_items, code_of, code_of_items, part_code};
ghost use Rattle.rg_code.specs.BlockView.{block};

use crate::block::Block;
use crate::postfix::{one_store, stores, test};
use rg_tree::statement::{Items, Stmt};
use std::alloc::{AllocError, Global};

/// How many blocks a statement has.
#[cycle(count)]
fn count(s: &Stmt) -> usize
    requires { count_of (statement s.now) < 2 ^ 64 }
    ensures { result ≡ count_of (statement s.now) }
{
    match s {
        Stmt::Skip(_) | Stmt::Assign(_, _) | Stmt::Await(_, _, _) => 1,
        Stmt::Seq(_, first, rest) => count(first) + count_items(rest),
        Stmt::If(_, _, first, second) => 1 + count(first) + count(second),
        Stmt::While(_, _, body) => 1 + count(body),
    }
}

/// How many blocks the items of a sequence have.
#[cycle(count)]
fn count_items(list: &Items) -> usize
    requires { count_of_items (items list.now) < 2 ^ 64 }
    ensures { result ≡ count_of_items (items list.now) }
{
    let mut all = 0;
    let mut rest = list;
    loop {
        match rest {
            Items::One(s) => return all + count(s),
            Items::More(s, more) => {
                all += count(s);
                rest = more;
            }
        }
    }
}

/// Adds an item at the end of a list. It stands apart so that a call that is refused memory drops no block in place, kind by kind.
fn put<T: Drop>(items: &mut Vec<T>, item: T) -> Result<(), AllocError>
    ensures { OnOk result (items.new.items ≡ items.old.items ++ item ∷ []) }
{
    items.push(item)?;
    Ok(())
}

/// Adds the blocks of a statement, after which comes the block at place `next`.
#[cycle(emit)]
fn emit(alloc: Global, code: &mut Vec<Block>, s: &Stmt, next: usize) -> Result<(), AllocError>
    requires { length code.old.items + count_of (statement s.now) < 2 ^ 64 }
    ensures code { OnOk result (map block code.new.items ≡ map block code.old.items ++ code_of (statement s.now) (length code.old.items) next) }
    ensures count { OnOk result (length code.new.items ≡ length code.old.items + count_of (statement s.now)) }
{
    match s {
        Stmt::Skip(line) => { put(code, Block::Do(*line, next, Vec::new(alloc))) }
        Stmt::Assign(line, a) => {
            let act = one_store(alloc, a)?;
            put(code, Block::Do(*line, next, act))
        }
        Stmt::Await(line, guard, act) => {
            let guard = test(alloc, guard)?;
            let act = stores(alloc, act)?;
            put(code, Block::Await(*line, next, guard, act))
        }
        Stmt::Seq(_, first, rest) => {
            let middle = code.len() + count(first);
            emit(alloc, code, first, middle)?;
            emit_items(alloc, code, rest, next)
        }
        Stmt::If(line, guard, first, second) => {
            let yes_place = code.len() + 1;
            let no_place = yes_place + count(first);
            let guard = test(alloc, guard)?;
            put(code, Block::Test(*line, yes_place, no_place, guard))?;
            emit(alloc, code, first, next)?;
            emit(alloc, code, second, next)
        }
        Stmt::While(line, guard, body) => {
            let place = code.len();
            let guard = test(alloc, guard)?;
            put(code, Block::Test(*line, place + 1, next, guard))?;
            emit(alloc, code, body, place)
        }
    }
}

/// Adds the blocks of the items of a sequence.
#[cycle(emit)]
fn emit_items(
    alloc: Global,
    code: &mut Vec<Block>,
    list: &Items,
    next: usize,
) -> Result<(), AllocError>
    requires { length code.old.items + count_of_items (items list.now) < 2 ^ 64 }
    ensures code { OnOk result (map block code.new.items ≡ map block code.old.items ++ code_of_items (items list.now) (length code.old.items) next) }
    ensures count { OnOk result (length code.new.items ≡ length code.old.items + count_of_items (items list.now)) }
{
    let mut rest = list;
    loop {
        match rest {
            Items::One(s) => return emit(alloc, code, s, next),
            Items::More(s, more) => {
                let middle = code.len() + count(s);
                emit(alloc, code, s, middle)?;
                rest = more;
            }
        }
    }
}

/// The code of a part's body, with its end.
pub(crate) fn body_blocks(alloc: Global, body: &Stmt) -> Result<Vec<Block>, AllocError>
    requires { count_of (statement body.now) < 2 ^ 64 }
    ensures { IfOk result (λ code. map block code.items ≡ part_code (statement body.now)) }
{
    let mut code = Vec::new(alloc);
    let end = count(body);
    emit(alloc, &mut code, body, end)?;
    put(&mut code, Block::End)?;
    Ok(code)
}
