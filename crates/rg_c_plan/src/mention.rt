//! Words that stand in trees.

ghost use Rattle.std.specs.Prelude.{◌≡◌, ◌&&◌, not, map};
ghost use Rattle.std.specs.List.{list_any};
ghost use Rattle.rg_tree.specs.View.{expression, formula};
ghost use Rattle.rg_tree.specs.ConditionTrees.{assignment};
ghost use Rattle.rg_c_plan.specs.View.{guard_tree};
ghost use Rattle.rg_c_plan.specs.Changes.{moves, moving, change_of};
ghost use Rattle.rg_c_plan.specs.Accesses.{stands_in, stands_in_formula, stands_in_test, is_read_by, reads, writes, touches, keeps, conjuncts};

use crate::change::{change_of, moves};
use rg_tree::condition::Assign;
use rg_tree::tree::{Expr, Formula};
use rg_words::operators::{Comparison, Connective};

/// Whether a word, primed or not, stands in an expression.
#[cycle(mention)]
pub(crate) fn stands_in(word: usize, e: &Expr) -> bool
    ensures { result ≡ stands_in word (expression e.now) }
{
    match e {
        Expr::Number(_, _) => false,
        Expr::Word(k) | Expr::NextWord(k) => word == *k,
        Expr::Inverse(_, a) | Expr::Shifted(_, _, a, _) => stands_in(word, a),
        Expr::Binary(_, _, a, b) => stands_in(word, a) || stands_in(word, b),
        Expr::If(f, a, b) => {
            stands_in_formula(word, f) || stands_in(word, a) || stands_in(word, b)
        }
    }
}

/// Whether a word, primed or not, stands in a formula.
#[cycle(mention)]
pub(crate) fn stands_in_formula(word: usize, f: &Formula) -> bool
    ensures { result ≡ stands_in_formula word (formula f.now) }
{
    match f {
        Formula::Truth(_) => false,
        Formula::Not(f) => stands_in_formula(word, f),
        Formula::Connect(_, f, g) => stands_in_formula(word, f) || stands_in_formula(word, g),
        Formula::Compare(_, a, b) => stands_in(word, a) || stands_in(word, b),
    }
}

/// Whether a word stands in a guard or test, if there is one.
fn stands_in_test(word: usize, test: Option<&Formula>) -> bool
    ensures { result ≡ stands_in_test word (guard_tree test.entry) }
{
    match test {
        Some(f) => stands_in_formula(word, f),
        None => false,
    }
}

/// Whether a word is read by an assignment that changes something.
fn is_read_by(word: usize, a: &Assign) -> bool
    ensures { result ≡ moves (assignment a.now) && is_read_by word (change_of (assignment a.now)) }
{
    let c = change_of(a);
    moves(a) && (stands_in_test(word, c.test) || stands_in(word, c.value))
}

/// Whether a word is read by one of these.
fn changes_read(word: usize, act: &[Assign]) -> bool
    ensures { result ≡ list_any (λ a. is_read_by word (change_of a)) (moving (map assignment act.now)) }
{
    for a in act {
        if is_read_by(word, a) {
            return true;
        }
    }
    false
}

/// Whether a step with this guard or test, if it has one, and these assignments reads a word: it stands in the guard, or is read by a change.
pub(crate) fn reads(word: usize, guard: Option<&Formula>, act: &[Assign]) -> bool
    ensures { result ≡ reads word (guard_tree guard.entry) (moving (map assignment act.now)) }
{
    stands_in_test(word, guard) || changes_read(word, act)
}

/// Whether these assignments write a word: one that changes something does.
pub fn writes(word: usize, act: &[Assign]) -> bool
    ensures { result ≡ writes word (moving (map assignment act.now)) }
{
    for a in act {
        if moves(a) && word == a.word {
            return true;
        }
    }
    false
}

/// Whether a step with this guard or test and these assignments reads or writes a word.
pub(crate) fn touches(word: usize, guard: Option<&Formula>, act: &[Assign]) -> bool
    ensures { result ≡ touches word (guard_tree guard.entry) (moving (map assignment act.now)) }
{
    reads(word, guard, act) || writes(word, act)
}

/// Whether a formula says that a word stays what it is.
fn keeps(word: usize, f: &Formula) -> bool
    ensures { result ≡ keeps word (formula f.now) }
{
    match f {
        Formula::Compare(Comparison::Equal, Expr::NextWord(i), Expr::Word(j))
        | Formula::Compare(Comparison::Equal, Expr::Word(i), Expr::NextWord(j)) => {
            word == *i && word == *j
        }
        _ => false,
    }
}

/// Whether a conjunct of a formula says that a word stays what it is.
#[cycle(kept)]
pub(crate) fn is_kept(word: usize, f: &Formula) -> bool
    ensures { result ≡ list_any (keeps word) (conjuncts (formula f.now)) }
{
    match f {
        Formula::Connect(Connective::And, f, g) => is_kept(word, f) || is_kept(word, g),
        _ => keeps(word, f),
    }
}

/// Whether another conjunct of a formula speaks of a word than one that says that it stays.
#[cycle(seen)]
pub(crate) fn is_seen(word: usize, f: &Formula) -> bool
    ensures { result ≡ list_any (λ g. stands_in_formula word g && not (keeps word g)) (conjuncts (formula f.now)) }
{
    match f {
        Formula::Connect(Connective::And, f, g) => is_seen(word, f) || is_seen(word, g),
        _ => stands_in_formula(word, f) && !keeps(word, f),
    }
}
