//! Whether trees that were read are those of a program, whose trees have widths and whose statements have lines.

ghost use Rattle.std.specs.Prelude.{◌≡◌, map, IsTrue};
ghost use Rattle.rg_tree.specs.View.{expression, formula as view};
ghost use Rattle.rg_tree.specs.ConditionTrees.{assignment};
ghost use Rattle.rg_tree.specs.ProgramView.{statement as statement_view, items as items_view};
ghost use Rattle.rg_outline_meaning.specs.Programs.{bare, bare_claim, bare_assignment, bare_statement, bare_items};

use rg_tree::condition::Assign;
use rg_tree::statement::{Items, Stmt};
use rg_tree::tree::{Expr, Formula};

/// Whether a value that was read is this one.
#[cycle(same)]
fn is_value(read: &Expr, value: &Expr) -> bool
    ensures { IsTrue result → expression read.now ≡ bare (expression value.now) }
{
    match (read, value) {
        (Expr::Number(w, m), Expr::Number(_, n)) => *w == 0 && m == n,
        (Expr::Word(j), Expr::Word(k)) => j == k,
        (Expr::NextWord(j), Expr::NextWord(k)) => j == k,
        (Expr::Inverse(w, a), Expr::Inverse(_, b)) => *w == 0 && is_value(a, b),
        (Expr::Binary(o, w, a, b), Expr::Binary(p, _, c, d)) => {
            *w == 0 && o == p && is_value(a, c) && is_value(b, d)
        }
        (Expr::Shifted(s, w, a, j), Expr::Shifted(t, _, b, k)) => {
            *w == 0 && s == t && j == k && is_value(a, b)
        }
        (Expr::If(f, a, b), Expr::If(g, c, d)) => {
            is_formula(f, g) && is_value(a, c) && is_value(b, d)
        }
        _ => false,
    }
}

/// Whether a formula that was read is this one.
#[cycle(same)]
pub(crate) fn is_formula(read: &Formula, formula: &Formula) -> bool
    ensures { IsTrue result → view read.now ≡ bare_claim (view formula.now) }
{
    match (read, formula) {
        (Formula::Truth(a), Formula::Truth(b)) => a == b,
        (Formula::Not(f), Formula::Not(g)) => is_formula(f, g),
        (Formula::Connect(c, f, g), Formula::Connect(d, h, i)) => {
            c == d && is_formula(f, h) && is_formula(g, i)
        }
        (Formula::Compare(c, a, b), Formula::Compare(d, p, q)) => {
            c == d && is_value(a, p) && is_value(b, q)
        }
        _ => false,
    }
}

/// Whether assignments that were read are these.
fn is_step(read: &[Assign], step: &[Assign]) -> bool
    ensures { IsTrue result → map assignment read.now ≡ map bare_assignment (map assignment step.now) }
{
    match (read.split_first(), step.split_first()) {
        (Some((one, rest)), Some((other, others))) => {
            one.word == other.word && is_value(&one.value, &other.value) && is_step(rest, others)
        }
        (None, None) => true,
        _ => false,
    }
}

/// Whether a statement that was read is this one.
#[cycle(statements)]
pub(crate) fn is_statement(read: &Stmt, statement: &Stmt) -> bool
    ensures { IsTrue result → statement_view read.now ≡ bare_statement (statement_view statement.now) }
{
    match (read, statement) {
        (Stmt::Skip(line), Stmt::Skip(_)) => *line == 0,
        (Stmt::Assign(line, a), Stmt::Assign(_, b)) => {
            *line == 0 && a.word == b.word && is_value(&a.value, &b.value)
        }
        (Stmt::Await(line, f, a), Stmt::Await(_, g, b)) => {
            *line == 0 && is_formula(f, g) && is_step(a, b)
        },
        (Stmt::Seq(line, a, rest), Stmt::Seq(_, b, others)) => {
            *line == 0 && is_statement(a, b) && are_items(rest, others)
        }
        (Stmt::If(line, f, a, b), Stmt::If(_, g, c, d)) => {
            *line == 0 && is_formula(f, g) && is_statement(a, c) && is_statement(b, d)
        }
        (Stmt::While(line, f, a), Stmt::While(_, g, b)) => {
            *line == 0 && is_formula(f, g) && is_statement(a, b)
        },
        _ => false,
    }
}

/// Whether the items of a sequence that were read are these.
#[cycle(statements)]
fn are_items(read: &Items, items: &Items) -> bool
    ensures { IsTrue result → items_view read.now ≡ bare_items (items_view items.now) }
{
    match (read, items) {
        (Items::One(a), Items::One(b)) => is_statement(a, b),
        (Items::More(a, rest), Items::More(b, others)) => {
            is_statement(a, b) && are_items(rest, others)
        }
        _ => false,
    }
}
