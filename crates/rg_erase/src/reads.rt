//! Where a program reads erased words.

ghost use Rattle.std.specs.Prelude.{◌≡◌, [], ◌∷◌, map, option_map};
ghost use Rattle.rg_tree.specs.View.{formula};
ghost use Rattle.rg_tree.specs.ConditionTrees.{assignment};
ghost use Rattle.rg_tree.specs.ProgramView.{statement, items, part as part_tree};
ghost use Rattle.rg_erase.specs.Erased.{first_of, speaks_of};
ghost use Rattle.rg_erase.specs.Faults.{values_mention, read_in, read_in_items, read_in_parts};
ghost use Rattle.rg_erase.specs.declared.fault.Fault.TheVariants.{Read};

use crate::fault::Fault;
use crate::mention::{is_set, mentions, speaks_of};
use rg_tree::condition::Assign;
use rg_tree::part::Part;
use rg_tree::statement::{Items, Stmt};
use rg_tree::tree::Formula;

/// The first erased word in a value that is assigned to a word that stays.
fn value_mentions(erased: &[bool], a: &Assign) -> Option<usize>
    ensures { result ≡ values_mention erased.now (assignment a.now ∷ []) }
{
    if is_set(erased, a.word) {
        None
    } else {
        mentions(erased, erased, &a.value)
    }
}

/// The first erased word in values that are assigned to words that stay.
fn values_mention(erased: &[bool], act: &[Assign]) -> Option<usize>
    ensures { result ≡ values_mention erased.now (map assignment act.now) }
{
    for a in act {
        let read = value_mentions(erased, a);
        if read.is_some() {
            return read;
        }
    }
    None
}

/// A statement of this line reads this word, if there is one.
fn read_at(line: u32, word: Option<usize>) -> Option<Fault>
    ensures { result ≡ option_map (Read line) word }
{
    match word {
        Some(word) => Some(Fault::Read(line, word)),
        None => None,
    }
}

/// The first erased word in a guard, and in the values that are assigned where it holds.
fn await_mentions(erased: &[bool], guard: &Formula, act: &[Assign]) -> Option<usize>
    ensures { result ≡ first_of (speaks_of erased.now erased.now (formula guard.now)) (values_mention erased.now (map assignment act.now)) }
{
    match speaks_of(erased, erased, guard) {
        Some(k) => Some(k),
        None => values_mention(erased, act),
    }
}

/// The first of two faults.
fn first_of(first: Option<Fault>, second: Option<Fault>) -> Option<Fault>
    ensures { result ≡ first_of first second }
{
    match first {
        Some(fault) => Some(fault),
        None => second,
    }
}

/// The first place in a statement that reads an erased word.
#[cycle(reads)]
fn read_in(erased: &[bool], s: &Stmt) -> Option<Fault>
    ensures { result ≡ read_in erased.now (statement s.now) }
{
    match s {
        Stmt::Skip(_) => None,
        Stmt::Assign(line, a) => read_at(*line, value_mentions(erased, a)),
        Stmt::Await(line, guard, act) => read_at(*line, await_mentions(erased, guard, act)),
        Stmt::Seq(_, first, rest) => first_of(read_in(erased, first), read_in_items(erased, rest)),
        Stmt::If(line, guard, first, second) => {
            let test = read_at(*line, speaks_of(erased, erased, guard));
            let blocks = first_of(read_in(erased, first), read_in(erased, second));
            first_of(test, blocks)
        }
        Stmt::While(line, guard, body) => {
            let test = read_at(*line, speaks_of(erased, erased, guard));
            first_of(test, read_in(erased, body))
        }
    }
}

/// The first place in the items of a sequence that reads an erased word.
#[cycle(reads)]
fn read_in_items(erased: &[bool], list: &Items) -> Option<Fault>
    ensures { result ≡ read_in_items erased.now (items list.now) }
{
    match list {
        Items::One(s) => read_in(erased, s),
        Items::More(s, more) => first_of(read_in(erased, s), read_in_items(erased, more)),
    }
}

/// The first place in the parts that reads an erased word.
pub(crate) fn read_in_parts(erased: &[bool], parts: &[Part]) -> Option<Fault>
    ensures { result ≡ read_in_parts erased.now (map part_tree parts.now) }
{
    for part in parts {
        let read = read_in(erased, &part.body);
        if read.is_some() {
            return read;
        }
    }
    None
}
