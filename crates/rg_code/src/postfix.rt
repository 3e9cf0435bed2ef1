//! Trees as operations in postfix order.

ghost use Rattle.std.specs.Prelude.{◌≡◌, ◌++◌, [], ◌∷◌, map, OnOk, IfOk};
ghost use Rattle.rg_tree.specs.View.{expression, formula};
ghost use Rattle.rg_tree.specs.ConditionTrees.{assignment};
ghost use Rattle.rg_code.specs.Operations.{expression_operations, formula_operations};
ghost use Rattle.rg_code.specs.Code.{store_of};
ghost use Rattle.rg_code.specs.BlockView.{store as store_tree};

use crate::block::Store;
use crate::operation::Operation;
use rg_tree::condition::Assign;
use rg_tree::tree::{Expr, Formula};
use std::alloc::{AllocError, Global};

/// Adds the operations of an expression.
#[cycle(postfix)]
fn push_expression(list: &mut Vec<Operation>, e: &Expr) -> Result<(), AllocError>
    ensures { OnOk result (list.new.items ≡ list.old.items ++ expression_operations (expression e.now)) }
{
    match e {
        Expr::Number(_, n) => put(list, Operation::Number(*n)),
        Expr::Word(k) | Expr::NextWord(k) => put(list, Operation::Word(*k)),
        Expr::Inverse(width, a) => {
            push_expression(list, a)?;
            put(list, Operation::Inverse(*width))
        }
        Expr::Binary(operator, width, a, b) => {
            push_expression(list, a)?;
            push_expression(list, b)?;
            put(list, Operation::Binary(*operator, *width))
        }
        Expr::Shifted(shift, width, a, count) => {
            push_expression(list, a)?;
            put(list, Operation::Shifted(*shift, *width, *count))
        }
        Expr::If(f, a, b) => {
            push_formula(list, f)?;
            push_expression(list, a)?;
            push_expression(list, b)?;
            put(list, Operation::Pick)
        }
    }
}

/// Adds the operations of a formula.
#[cycle(postfix)]
fn push_formula(list: &mut Vec<Operation>, f: &Formula) -> Result<(), AllocError>
    ensures { OnOk result (list.new.items ≡ list.old.items ++ formula_operations (formula f.now)) }
{
    match f {
        Formula::Truth(b) => put(list, Operation::Truth(*b)),
        Formula::Not(f) => {
            push_formula(list, f)?;
            put(list, Operation::Not)
        }
        Formula::Connect(connective, f, g) => {
            push_formula(list, f)?;
            push_formula(list, g)?;
            put(list, Operation::Connect(*connective))
        }
        Formula::Compare(comparison, a, b) => {
            push_expression(list, a)?;
            push_expression(list, b)?;
            put(list, Operation::Compare(*comparison))
        }
    }
}

/// Adds one operation.
fn put(list: &mut Vec<Operation>, operation: Operation) -> Result<(), AllocError>
    ensures { OnOk result (list.new.items ≡ list.old.items ++ operation ∷ []) }
{
    list.push(operation)?;
    Ok(())
}

/// The operations of a test.
pub(crate) fn test(alloc: Global, f: &Formula) -> Result<Vec<Operation>, AllocError>
    ensures { IfOk result (λ list. list.items ≡ formula_operations (formula f.now)) }
{
    let mut list = Vec::new(alloc);
    push_formula(&mut list, f)?;
    Ok(list)
}

/// The store of an assignment.
fn store(alloc: Global, a: &Assign) -> Result<Store, AllocError>
    ensures { IfOk result (λ s. store_tree s ≡ store_of (assignment a.now)) }
{
    let mut value = Vec::new(alloc);
    push_expression(&mut value, &a.value)?;
    Ok(Store {
        word: a.word,
        value,
    })
}

/// The stores of assignments, in order.
pub(crate) fn stores(alloc: Global, act: &[Assign]) -> Result<Vec<Store>, AllocError>
    ensures { IfOk result (λ list. map store_tree list.items ≡ map store_of (map assignment act.now)) }
{
    let mut list = Vec::new(alloc);
    for a in act {
        list.push(store(alloc, a)?)?;
    }
    Ok(list)
}

/// The stores of one assignment.
pub(crate) fn one_store(alloc: Global, a: &Assign) -> Result<Vec<Store>, AllocError>
    ensures { IfOk result (λ list. map store_tree list.items ≡ store_of (assignment a.now) ∷ []) }
{
    let mut list = Vec::new(alloc);
    list.push(store(alloc, a)?)?;
    Ok(list)
}
