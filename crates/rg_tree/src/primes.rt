//! Whether a tree speaks of the second state.

ghost use Rattle.std.specs.Prelude.{◌≡◌};
ghost use Rattle.rg_tree.specs.View.{expression, formula};
ghost use Rattle.rg_tree.specs.Primes.{has_next_word, speaks_of_two};

use crate::tree::{Expr, Formula};

/// Whether a primed word stands in the formula, also one of a fixed word, and also where its value makes no difference.
#[cycle(primes)]
pub fn speaks_of_two(f: &Formula) -> bool
    ensures { result ≡ speaks_of_two (formula f.now) }
{
    match f {
        Formula::Truth(_) => false,
        Formula::Not(f) => speaks_of_two(f),
        Formula::Connect(_, f, g) => speaks_of_two(f) || speaks_of_two(g),
        Formula::Compare(_, a, b) => has_next_word(a) || has_next_word(b),
    }
}

/// Whether a primed word stands in the expression.
#[cycle(primes)]
pub fn has_next_word(e: &Expr) -> bool
    ensures { result ≡ has_next_word (expression e.now) }
{
    match e {
        Expr::Number(_, _) | Expr::Word(_) => false,
        Expr::NextWord(_) => true,
        Expr::Inverse(_, a) | Expr::Shifted(_, _, a, _) => has_next_word(a),
        Expr::Binary(_, _, a, b) => has_next_word(a) || has_next_word(b),
        Expr::If(f, a, b) => speaks_of_two(f) || has_next_word(a) || has_next_word(b),
    }
}
