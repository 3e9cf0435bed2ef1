//! Statements and blocks.

ghost use Rattle.std.specs.Prelude.{◌≡◌, [], map, IsTrue, IfOk, IfErr};
ghost use Rattle.rg_tree.specs.ProgramView.{statement};
ghost use Rattle.rg_tree.specs.Numbering.{line_of_statement};
ghost use Rattle.rg_syntax.specs.Written.{statement as written, listed};
ghost use Rattle.rg_resolve.specs.Faults.{IsRefusal};
ghost use Rattle.rg_resolve.specs.Programs.{statement_faults, block_faults};
ghost use Rattle.rg_resolve.specs.Inner.ProgramTrees.{statement_tree, statement_trees, block_tree, block_of};

use super::assigned::{assignment_of, assignments_of};
use super::formula::formula_tree;
use rg_leaves::scope::Scope;
use rg_syntax::written::StatementText;
use rg_tree::statement::{Items, Stmt};
use rg_words::Refusal;
use std::alloc::{AllocError, Global};

/// The line of a statement's first token.
fn line_of(s: &Stmt) -> u32
    ensures { result ≡ line_of_statement (statement s.now) }
{
    match s {
        Stmt::Skip(line)
        | Stmt::Assign(line, _)
        | Stmt::Await(line, _, _)
        | Stmt::Seq(line, _, _)
        | Stmt::If(line, _, _, _)
        | Stmt::While(line, _, _) => *line,
    }
}

/// The block of these items, of which there is one at least.
fn joined(alloc: Global, mut statements: Vec<Stmt>) -> Result<Stmt, AllocError>
    ensures { IfOk result (λ s. statement s ≡ block_of (map statement statements.items)) }
{
    let Some(last) = statements.pop() else {
        return Ok(Stmt::Skip(0));
    };
    let Some(mut before) = statements.pop() else {
        return Ok(last);
    };
    let mut items = Items::One(Box::new(alloc, last)?);
    while let Some(earlier) = statements.pop() {
        let item = Box::new(alloc, before)?;
        items = Items::More(item, Box::new(alloc, items)?);
        before = earlier;
    }
    let line = line_of(&before);
    let first = Box::new(alloc, before)?;
    Ok(Stmt::Seq(line, first, Box::new(alloc, items)?))
}

/// The tree of a statement.
#[cycle(blocks)]
fn statement_of(scope: &Scope, s: &StatementText) -> Result<Stmt, Refusal>
    requires { IsTrue scope.now.one_state }
    ensures tree { IfOk result (λ t. statement t ≡ statement_tree scope.now.layout.now (written scope.now.source.now s.now)) }
    ensures faultless { IfOk result (λ _. statement_faults scope.now.layout.now (written scope.now.source.now s.now) ≡ []) }
    ensures fault { IfErr result (λ refusal. IsRefusal scope.now.file (statement_faults scope.now.layout.now (written scope.now.source.now s.now)) refusal) }
{
    match s {
        StatementText::Skip(token) => Ok(Stmt::Skip(token.line)),
        StatementText::Assign(assigned) => {
            let assignment = assignment_of(scope, assigned)?;
            Ok(Stmt::Assign(assigned.target.line, assignment))
        }
        StatementText::Await(token, guard, assigned) => {
            let guard = formula_tree(scope, guard)?;
            let assignments = assignments_of(scope, assigned)?;
            Ok(Stmt::Await(token.line, guard, assignments))
        }
        StatementText::If(token, test, first, second) => {
            let test = formula_tree(scope, test)?;
            let first = joined(scope.alloc, statements_of(scope, first)?)?;
            let second = joined(scope.alloc, statements_of(scope, second)?)?;
            let first = Box::new(scope.alloc, first)?;
            Ok(Stmt::If(token.line, test, first, Box::new(scope.alloc, second)?))
        }
        StatementText::While(token, test, body) => {
            let test = formula_tree(scope, test)?;
            let body = joined(scope.alloc, statements_of(scope, body)?)?;
            Ok(Stmt::While(token.line, test, Box::new(scope.alloc, body)?))
        }
    }
}

/// The trees of statements, in order.
#[cycle(blocks)]
fn statements_of(scope: &Scope, items: &[StatementText]) -> Result<Vec<Stmt>, Refusal>
    requires { IsTrue scope.now.one_state }
    ensures trees { IfOk result (λ ts. map statement ts.items ≡ statement_trees scope.now.layout.now (listed (map (written scope.now.source.now) items.now))) }
    ensures faultless { IfOk result (λ _. block_faults scope.now.layout.now (listed (map (written scope.now.source.now) items.now)) ≡ []) }
    ensures fault { IfErr result (λ refusal. IsRefusal scope.now.file
        (block_faults scope.now.layout.now (listed (map (written scope.now.source.now) items.now))) refusal) }
{
    let mut statements = Vec::new(scope.alloc);
    for one in items {
        statements.push(statement_of(scope, one)?)?;
    }
    Ok(statements)
}

/// The tree of a block.
pub fn block_of(scope: &Scope, items: &[StatementText]) -> Result<Stmt, Refusal>
    requires { IsTrue scope.now.one_state }
    ensures tree { IfOk result (λ t. statement t ≡ block_tree scope.now.layout.now (listed (map (written scope.now.source.now) items.now))) }
    ensures faultless { IfOk result (λ _. block_faults scope.now.layout.now (listed (map (written scope.now.source.now) items.now)) ≡ []) }
    ensures fault { IfErr result (λ refusal. IsRefusal scope.now.file
        (block_faults scope.now.layout.now (listed (map (written scope.now.source.now) items.now))) refusal) }
{
    let statements = statements_of(scope, items)?;
    let block = joined(scope.alloc, statements)?;
    Ok(block)
}
