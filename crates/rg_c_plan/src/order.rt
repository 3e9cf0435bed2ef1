//! Which parts run on one core, and which of them interrupt which.

ghost use Rattle.std.specs.Prelude.{◌≡◌, map};
ghost use Rattle.rg_tree.specs.View.{formula};
ghost use Rattle.rg_tree.specs.ProgramView.{statement, items, part as part_tree};
ghost use Rattle.rg_tree.specs.ProgramTrees.{program as program_tree};
ghost use Rattle.rg_c_plan.specs.Orders.{rank_of, is_above, interrupts, may_act, is_always, first_wait, first_wait_of, is_handler, waiting};

use rg_tree::program::Program;
use rg_tree::statement::{Items, Stmt};
use rg_tree::tree::Formula;

/// The core on which a part runs, and its place there: it interrupts the parts at later places, which stand still until it has ended. A part without a
/// rank has a core of its own.
#[derive(Clone, Copy, Debug, PartialEq, Eq)]
pub struct Rank {
    pub core: usize,
    pub place: usize,
}

/// The rank of a part, if it has one.
fn rank_of(order: &[Option<Rank>], part: usize) -> Option<Rank>
    ensures { result ≡ rank_of order.now part }
{
    match order.get(part) {
        Some(rank) => *rank,
        None => None,
    }
}

/// Whether a part of the one rank interrupts a part of the other.
fn is_above(first: Option<Rank>, second: Option<Rank>) -> bool
    ensures { result ≡ is_above first second }
{
    match (first, second) {
        (Some(a), Some(b)) => a.core == b.core && a.place < b.place,
        _ => false,
    }
}

/// Whether a part interrupts another one, which stands still until it has ended. A part is its place, from 0.
pub fn interrupts(order: &[Option<Rank>], part: usize, other: usize) -> bool
    ensures { result ≡ interrupts order.now part other }
{
    is_above(rank_of(order, part), rank_of(order, other))
}

/// Whether a party may act while a part makes a step: the world outside, at place 0, or another part, after the world, that it doesn't interrupt.
pub(crate) fn may_act(order: &[Option<Rank>], part: usize, party: usize) -> bool
    ensures { result ≡ may_act order.now part party }
{
    party == 0 || party - 1 != part && !interrupts(order, part, party - 1)
}

/// Whether a formula is the constant true.
pub fn is_always(f: &Formula) -> bool
    ensures { result ≡ is_always (formula f.now) }
{
    match f {
        Formula::Truth(b) => *b,
        _ => false,
    }
}

/// The line of the first `await` of a statement whose formula isn't the constant true, if there is one.
#[cycle(waits)]
fn first_wait(s: &Stmt) -> Option<u32>
    ensures { result ≡ first_wait (statement s.now) }
{
    match s {
        Stmt::Skip(_) | Stmt::Assign(_, _) => None,
        Stmt::Await(line, f, _) => { if is_always(f) { None } else { Some(*line) } }
        Stmt::Seq(_, first, rest) => match first_wait(first) {
            Some(line) => Some(line),
            None => first_wait_of(rest),
        },
        Stmt::If(_, _, first, second) => match first_wait(first) {
            Some(line) => Some(line),
            None => first_wait(second),
        },
        Stmt::While(_, _, body) => first_wait(body),
    }
}

/// The same of the items of a sequence.
#[cycle(waits)]
fn first_wait_of(s: &Items) -> Option<u32>
    ensures { result ≡ first_wait_of (items s.now) }
{
    match s {
        Items::One(s) => first_wait(s),
        Items::More(s, rest) => match first_wait(s) {
            Some(line) => Some(line),
            None => first_wait_of(rest),
        },
    }
}

/// Whether a part interrupts another one of so many parts.
#[tactic(auto, using(crate::proofs::Places::range_more, crate::proofs::Places::range_over))]
fn is_handler(order: &[Option<Rank>], count: usize, part: usize) -> bool
    ensures { result ≡ is_handler order.now count part }
{
    for other in 0..count {
        if interrupts(order, part, other) {
            return true;
        }
    }
    false
}

/// The line of the first `await` that may wait in a part that interrupts another one, if there is one.
pub(crate) fn waiting(program: &Program, order: &[Option<Rank>]) -> Option<u32>
    ensures { result ≡ waiting (program_tree program.now) order.now }
{
    let count = program.parts.len();
    for (place, part) in program.parts.iter().enumerate() {
        if is_handler(order, count, place) {
            if let Some(line) = first_wait(&part.body) {
                return Some(line);
            }
        }
    }
    None
}
