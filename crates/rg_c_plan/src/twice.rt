//! Evaluations that access atomic words, and those that may do so twice.

ghost use Rattle.std.specs.Prelude.{◌≡◌, ◌&&◌, map};
ghost use Rattle.rg_tree.specs.View.{expression, formula};
ghost use Rattle.rg_tree.specs.ConditionTrees.{assignment};
ghost use Rattle.rg_c_plan.specs.View.{guard_tree};
ghost use Rattle.rg_c_plan.specs.Changes.{moves, moving};
ghost use Rattle.rg_c_plan.specs.Once.{reads_atomic, tests_atomic, reads_twice, tests_twice, guard_reads, guard_reads_twice, stores, accesses_atomic, accesses_twice, some_access, more_accesses, is_exposed_twice};

use crate::change::{change_of, moves};
use crate::kind::Kind;
use crate::way::{is_atomic, is_shared, kind_at};
use rg_tree::condition::Assign;
use rg_tree::tree::{Expr, Formula};

/// Whether an atomic word stands in an expression.
#[cycle(atomic)]
pub(crate) fn reads_atomic(kinds: &[Kind], e: &Expr) -> bool
    ensures { result ≡ reads_atomic kinds.now (expression e.now) }
{
    match e {
        Expr::Number(_, _) => false,
        Expr::Word(k) | Expr::NextWord(k) => is_atomic(kinds, *k),
        Expr::Inverse(_, a) | Expr::Shifted(_, _, a, _) => reads_atomic(kinds, a),
        Expr::Binary(_, _, a, b) => reads_atomic(kinds, a) || reads_atomic(kinds, b),
        Expr::If(f, a, b) => {
            tests_atomic(kinds, f) || reads_atomic(kinds, a) || reads_atomic(kinds, b)
        }
    }
}

/// Whether one stands in a formula.
#[cycle(atomic)]
fn tests_atomic(kinds: &[Kind], f: &Formula) -> bool
    ensures { result ≡ tests_atomic kinds.now (formula f.now) }
{
    match f {
        Formula::Truth(_) => false,
        Formula::Not(f) => tests_atomic(kinds, f),
        Formula::Connect(_, f, g) => tests_atomic(kinds, f) || tests_atomic(kinds, g),
        Formula::Compare(_, a, b) => reads_atomic(kinds, a) || reads_atomic(kinds, b),
    }
}

/// Whether an evaluation may read atomic words more than once; of a choice the test is evaluated, and one side.
#[cycle(twice)]
fn reads_twice(kinds: &[Kind], e: &Expr) -> bool
    ensures { result ≡ reads_twice kinds.now (expression e.now) }
{
    match e {
        Expr::Number(_, _) | Expr::Word(_) | Expr::NextWord(_) => false,
        Expr::Inverse(_, a) | Expr::Shifted(_, _, a, _) => reads_twice(kinds, a),
        Expr::Binary(_, _, a, b) => {
            reads_twice(kinds, a)
                || reads_twice(kinds, b)
                || reads_atomic(kinds, a) && reads_atomic(kinds, b)
        }
        Expr::If(f, a, b) => {
            tests_twice(kinds, f)
                || reads_twice(kinds, a)
                || reads_twice(kinds, b)
                || tests_atomic(kinds, f) && (reads_atomic(kinds, a) || reads_atomic(kinds, b))
        }
    }
}

/// Whether the evaluation of a formula may.
#[cycle(twice)]
fn tests_twice(kinds: &[Kind], f: &Formula) -> bool
    ensures { result ≡ tests_twice kinds.now (formula f.now) }
{
    match f {
        Formula::Truth(_) => false,
        Formula::Not(f) => tests_twice(kinds, f),
        Formula::Connect(_, f, g) => {
            tests_twice(kinds, f)
                || tests_twice(kinds, g)
                || tests_atomic(kinds, f) && tests_atomic(kinds, g)
        }
        Formula::Compare(_, a, b) => {
            reads_twice(kinds, a)
                || reads_twice(kinds, b)
                || reads_atomic(kinds, a) && reads_atomic(kinds, b)
        }
    }
}

/// Whether an atomic word stands in a guard or test, if there is one.
pub(crate) fn guard_reads(kinds: &[Kind], guard: Option<&Formula>) -> bool
    ensures { result ≡ guard_reads kinds.now (guard_tree guard.entry) }
{
    match guard {
        Some(f) => tests_atomic(kinds, f),
        None => false,
    }
}

/// Whether its evaluation may read atomic words more than once.
fn guard_reads_twice(kinds: &[Kind], guard: Option<&Formula>) -> bool
    ensures { result ≡ guard_reads_twice kinds.now (guard_tree guard.entry) }
{
    match guard {
        Some(f) => tests_twice(kinds, f),
        None => false,
    }
}

/// Whether an assignment writes a word at which it may meet another party.
fn stores(kinds: &[Kind], a: &Assign) -> bool
    ensures { result ≡ stores kinds.now (assignment a.now) }
{
    is_shared(kind_at(kinds, a.word))
}

/// Whether an assignment makes such a write, or reads an atomic word.
pub(crate) fn accesses_atomic(kinds: &[Kind], a: &Assign) -> bool
    ensures { result ≡ accesses_atomic kinds.now (assignment a.now) }
{
    let c = change_of(a);
    guard_reads(kinds, c.test) || reads_atomic(kinds, c.value) || stores(kinds, a)
}

/// Whether it may make two such accesses.
fn accesses_twice(kinds: &[Kind], a: &Assign) -> bool
    ensures { result ≡ accesses_twice kinds.now (assignment a.now) }
{
    let c = change_of(a);
    let tests = guard_reads(kinds, c.test);
    let reads = reads_atomic(kinds, c.value);
    let writes = stores(kinds, a);
    guard_reads_twice(kinds, c.test)
        || reads_twice(kinds, c.value)
        || tests && (reads || writes)
        || reads && writes
}

/// Whether one of these assignments makes such an access.
fn some_access(kinds: &[Kind], act: &[Assign]) -> bool
    ensures { result ≡ some_access kinds.now (moving (map assignment act.now)) }
{
    for a in act {
        if moves(a) && accesses_atomic(kinds, a) {
            return true;
        }
    }
    false
}

/// Whether they may make two.
fn more_accesses(kinds: &[Kind], act: &[Assign]) -> bool
    ensures { result ≡ more_accesses kinds.now (moving (map assignment act.now)) }
{
    for i in 0..act.len() {
        let a = &act[i];
        if moves(a)
            && (accesses_twice(kinds, a)
                || accesses_atomic(kinds, a) && some_access(kinds, &act[i + 1..]))
        {
            return true;
        }
    }
    false
}

/// Whether a step may make two such accesses.
pub(crate) fn is_exposed_twice(kinds: &[Kind], guard: Option<&Formula>, act: &[Assign]) -> bool
    ensures { result ≡ is_exposed_twice kinds.now (guard_tree guard.entry) (moving (map assignment act.now)) }
{
    guard_reads_twice(kinds, guard)
        || more_accesses(kinds, act)
        || guard_reads(kinds, guard) && some_access(kinds, act)
}
