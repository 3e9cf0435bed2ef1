//! Whether two trees are equal, wherever they lie in memory.

ghost use Rattle.std.specs.Prelude.{◌≡◌, IsTrue, ◌↔◌};
ghost use Rattle.rg_tree.specs.View.{expression, formula};

use crate::tree::{Expr, Formula};

/// Whether two expressions are equal: numbers by value and width, words by number, operations by operator and width.
#[cycle(equal)]
pub fn same_expr(a: &Expr, b: &Expr) -> bool
    ensures { IsTrue result ↔ (expression a.now ≡ expression b.now) }
{
    match (a, b) {
        (Expr::Number(v, m), Expr::Number(w, n)) => v == w && m == n,
        (Expr::Word(j), Expr::Word(k)) => j == k,
        (Expr::NextWord(j), Expr::NextWord(k)) => j == k,
        (Expr::Inverse(v, a), Expr::Inverse(w, b)) => v == w && same_expr(a, b),
        (Expr::Binary(o, v, a, b), Expr::Binary(p, w, c, d)) => {
            o == p && v == w && same_expr(a, c) && same_expr(b, d)
        }
        (Expr::Shifted(s, v, a, j), Expr::Shifted(t, w, b, k)) => {
            s == t && v == w && j == k && same_expr(a, b)
        }
        (Expr::If(f, a, b), Expr::If(g, c, d)) => {
            same_formula(f, g) && same_expr(a, c) && same_expr(b, d)
        }
        _ => false,
    }
}

/// Whether two formulas are equal.
#[cycle(equal)]
pub fn same_formula(f: &Formula, g: &Formula) -> bool
    ensures { IsTrue result ↔ (formula f.now ≡ formula g.now) }
{
    match (f, g) {
        (Formula::Truth(a), Formula::Truth(b)) => a == b,
        (Formula::Not(f), Formula::Not(g)) => same_formula(f, g),
        (Formula::Connect(c, f, g), Formula::Connect(d, h, i)) => {
            c == d && same_formula(f, h) && same_formula(g, i)
        }
        (Formula::Compare(c, a, b), Formula::Compare(d, p, q)) => {
            c == d && same_expr(a, p) && same_expr(b, q)
        }
        _ => false,
    }
}
