//! Steps that store at one of several places, which an index of their part's own words chooses.

ghost use Rattle.std.specs.Prelude.{◌≡◌, ◌&&◌, ◌||◌, not, false, map, option_map, None};
ghost use Rattle.std.specs.List.{list_any, find};
ghost use Rattle.std.specs.Option.{option_map_or};
ghost use Rattle.rg_tree.specs.View.{expression, formula};
ghost use Rattle.rg_tree.specs.ConditionTrees.{assignment};
ghost use Rattle.rg_c_plan.specs.View.{guard_tree, index};
ghost use Rattle.rg_c_plan.specs.Changes.{moves, moving, change_of};
ghost use Rattle.rg_c_plan.specs.Accesses.{stands_in};
ghost use Rattle.rg_c_plan.specs.Once.{reads_atomic, accesses_atomic, index_by, index_of, is_operator, is_index, stores_at_place, is_chosen_store, are_chosen, is_steady, first_index, is_chosen};

use crate::change::{change_of, moves};
use crate::kind::Kind;
use crate::mention::stands_in;
use crate::twice::{accesses_atomic, guard_reads, reads_atomic};
use rg_tree::condition::Assign;
use rg_tree::tree::{Expr, Formula};
use rg_words::operators::{Comparison, Operator};

/// An index and its number.
#[derive(Clone, Copy)]
pub struct Index<'a> {
    pub index: &'a Expr,
    pub place: u64,
}

/// The index of a test `E = n`.
fn index_by(f: &Formula) -> Option<Index<'_>>
    ensures { option_map index result ≡ index_by (formula f.now) }
{
    match f {
        Formula::Compare(Comparison::Equal, index, Expr::Number(_, n)) => Some(Index {
            index,
            place: *n,
        }),
        _ => None,
    }
}

/// The index of `x := (if E = n then V else x)`.
fn index_of(a: &Assign) -> Option<Index<'_>>
    ensures { option_map index result ≡ index_of (assignment a.now) }
{
    match change_of(a).test {
        Some(f) => index_by(f),
        None => None,
    }
}

/// Whether two operators are the same.
fn is_operator(o: Operator, p: Operator) -> bool
    ensures { result ≡ is_operator o p }
{
    matches!(
        (o, p),
        (Operator::Add, Operator::Add)
            | (Operator::Subtract, Operator::Subtract)
            | (Operator::BitAnd, Operator::BitAnd)
            | (Operator::BitOr, Operator::BitOr)
            | (Operator::BitXor, Operator::BitXor)
    )
}

/// Whether two indices are the same: words, numbers, and operations on such.
#[cycle(index)]
fn is_index(e: &Expr, f: &Expr) -> bool
    ensures { result ≡ is_index (expression e.now) (expression f.now) }
{
    match (e, f) {
        (Expr::Number(w, n), Expr::Number(v, m)) => *w == *v && *n == *m,
        (Expr::Word(k), Expr::Word(j)) => *k == *j,
        (Expr::Binary(o, w, a, b), Expr::Binary(p, v, c, d)) => {
            is_operator(*o, *p) && *w == *v && is_index(a, c) && is_index(b, d)
        }
        _ => false,
    }
}

/// Whether an assignment makes an access, and stores at this place.
fn stores_at_place(kinds: &[Kind], place: u64, a: &Assign) -> bool
    ensures { result ≡ stores_at_place kinds.now place (assignment a.now) }
{
    accesses_atomic(kinds, a) && matches!(index_of(a), Some(i) if place == i.place)
}

/// Whether one of these does.
fn some_at_place(kinds: &[Kind], place: u64, act: &[Assign]) -> bool
    ensures { result ≡ list_any (stores_at_place kinds.now place) (moving (map assignment act.now)) }
{
    for a in act {
        if moves(a) && stores_at_place(kinds, place, a) {
            return true;
        }
    }
    false
}

/// Whether an assignment, before these others, stores at this index, at a place of its own.
fn is_chosen_store(kinds: &[Kind], index: &Expr, a: &Assign, act: &[Assign]) -> bool
    ensures { result ≡ is_chosen_store kinds.now (expression index.now) (assignment a.now) (moving (map assignment act.now)) }
{
    match index_of(a) {
        Some(i) => {
            is_index(index, i.index)
                && !reads_atomic(kinds, change_of(a).value)
                && !some_at_place(kinds, i.place, act)
        }
        None => false,
    }
}

/// Whether each of these that makes an access stores at this index, at a place of its own.
fn are_chosen(kinds: &[Kind], index: &Expr, act: &[Assign]) -> bool
    ensures { result ≡ are_chosen kinds.now (expression index.now) (moving (map assignment act.now)) }
{
    for i in 0..act.len() {
        let a = &act[i];
        if moves(a)
            && accesses_atomic(kinds, a)
            && !is_chosen_store(kinds, index, a, &act[i + 1..])
        {
            return false;
        }
    }
    true
}

/// Whether a word that stands in an index is assigned.
fn is_moved(index: &Expr, act: &[Assign]) -> bool
    ensures { result ≡ list_any (λ a. stands_in a.target (expression index.now)) (moving (map assignment act.now)) }
{
    for a in act {
        if moves(a) && stands_in(a.word, index) {
            return true;
        }
    }
    false
}

/// The index of the first of these that makes an access.
fn first_index<'a>(kinds: &[Kind], act: &'a [Assign]) -> Option<Index<'a>>
    ensures { option_map index result ≡ first_index kinds.now (moving (map assignment act.now)) }
{
    for a in act {
        if moves(a) && accesses_atomic(kinds, a) {
            return index_of(a);
        }
    }
    None
}

/// Whether a step stores at one of several places, which an index of its part's own words chooses.
pub(crate) fn is_chosen(kinds: &[Kind], guard: Option<&Formula>, act: &[Assign]) -> bool
    ensures { result ≡ is_chosen kinds.now (guard_tree guard.entry) (moving (map assignment act.now)) }
{
    if guard_reads(kinds, guard) {
        return false;
    }
    match first_index(kinds, act) {
        Some(i) => {
            !reads_atomic(kinds, i.index)
                && !is_moved(i.index, act)
                && are_chosen(kinds, i.index, act)
        }
        None => false,
    }
}
