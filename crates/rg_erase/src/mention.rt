//! The words that a tree speaks of.

ghost use Rattle.std.specs.Prelude.{◌≡◌, false, get_or};
ghost use Rattle.rg_tree.specs.View.{expression, formula};
ghost use Rattle.rg_erase.specs.Erased.{flagged, mentions, speaks_of};

use rg_tree::tree::{Expr, Formula};

/// Whether a flag is set; one that isn't there is not.
pub(crate) fn is_set(flags: &[bool], k: usize) -> bool
    ensures { result ≡ get_or flags.now k false }
{
    match flags.get(k) {
        Some(flag) => *flag,
        None => false,
    }
}

/// The word itself, where its flag is set.
pub(crate) fn flagged(flags: &[bool], k: usize) -> Option<usize>
    ensures { result ≡ flagged flags.now k }
{
    if is_set(flags, k) { Some(k) } else { None }
}

/// The first word in an expression that has the first flag, or is primed and has the second.
#[cycle(mention)]
pub(crate) fn mentions(now: &[bool], next: &[bool], e: &Expr) -> Option<usize>
    ensures { result ≡ mentions now.now next.now (expression e.now) }
{
    match e {
        Expr::Number(_, _) => None,
        Expr::Word(k) => flagged(now, *k),
        Expr::NextWord(k) => flagged(next, *k),
        Expr::Inverse(_, a) | Expr::Shifted(_, _, a, _) => mentions(now, next, a),
        Expr::Binary(_, _, a, b) => match mentions(now, next, a) {
            Some(k) => Some(k),
            None => mentions(now, next, b),
        },
        Expr::If(f, a, b) => match speaks_of(now, next, f) {
            Some(k) => Some(k),
            None => match mentions(now, next, a) {
                Some(k) => Some(k),
                None => mentions(now, next, b),
            },
        },
    }
}

/// The first word in a formula that has the first flag, or is primed and has the second.
#[cycle(mention)]
pub(crate) fn speaks_of(now: &[bool], next: &[bool], f: &Formula) -> Option<usize>
    ensures { result ≡ speaks_of now.now next.now (formula f.now) }
{
    match f {
        Formula::Truth(_) => None,
        Formula::Not(f) => speaks_of(now, next, f),
        Formula::Connect(_, f, g) => match speaks_of(now, next, f) {
            Some(k) => Some(k),
            None => speaks_of(now, next, g),
        },
        Formula::Compare(_, a, b) => match mentions(now, next, a) {
            Some(k) => Some(k),
            None => mentions(now, next, b),
        },
    }
}
