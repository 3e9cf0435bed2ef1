//! The text of assignments, and those that together are one store to an item of an array.

ghost use Rattle.std.specs.Prelude.{◌≡◌, ◌++◌, ◌<◌, ◌≤◌, drop, length, map, option_map, string_bytes, IfSome, IfOk, OnOk};
ghost use Rattle.rg_c_values.specs.View.{value, test};
ghost use Rattle.rg_c_values.specs.Arrays.{array_name, indexed};
ghost use Rattle.rg_c_values.specs.Printed.{value_text};
ghost use Rattle.rg_c.specs.declared.tree.Target.TheVariants.{Word, Local};
ghost use Rattle.rg_c.specs.CStatements.{each};
ghost use Rattle.rg_c.specs.Assigned.{given as given_in, assigned_to};
ghost use Rattle.rg_c.specs.Together.{told_by, item_of, item_given, gives_at, gives_from, is_apart, is_together, together, all_given};
ghost use Rattle.rg_c.specs.Printed.{put_text};
ghost use Rattle.rg_c.specs.View.{given, item, piece, on};

use crate::assigned::is_stored;
use crate::print::{Piece, inner, push_closing, push_line, push_opening};
use crate::reads::is_load_of;
use crate::tree::{Asked, Given, Item, Sheet, Target};
use crate::used::value_reads;
use Piece::{Member, Name, Text};
use rg_c_plan::kind::Kind;
use rg_c_values::arrays::{array_length, push_array_name};
use rg_c_values::items::{is_at, is_below, is_value};
use rg_c_values::print::print_value;
use rg_c_values::tree::{Test, Value};
use rg_words::Layout;
use std::alloc::AllocError;

/// Adds a store to what is in this place of the struct, or a plain write.
fn push_put<'a>(
    s: &Sheet<'_>,
    text: &mut String,
    stored: bool,
    place: Piece<'a>,
    v: &'a Value,
) -> Result<(), AllocError>
    ensures { OnOk result (string_bytes text.new
        ≡ string_bytes text.old
        ++ put_text s.now.layout.now s.now.reads.now s.now.indent.now stored
        (piece s.now.layout.now s.now.reads.now place.entry) (value v.now)) }
{
    let v = Piece::Value(v);
    if stored {
        push_line(
            s,
            text,
            &[Text("RGC_STORE(&w->"), place, Text(", "), v, Text(")")],
        )
    } else {
        push_line(s, text, &[Text("w->"), place, Text(" = "), v])
    }
}

/// Adds that a word, or its local, gets a value.
fn push_given(
    s: &Sheet<'_>,
    text: &mut String,
    to: Target,
    word: usize,
    v: &Value,
) -> Result<(), AllocError>
    ensures { OnOk result (string_bytes text.new ≡ string_bytes text.old ++ on s.now (given_in s.now.kinds.now to word (value v.now))) }
{
    match to {
        Target::Word if is_stored(s.kinds, word) => push_put(s, text, true, Member(word), v),
        _ if is_load_of(word, v) => Ok(()),
        Target::Word => push_put(s, text, false, Member(word), v),
        Target::Local => push_line(s, text, &[Name(word), Text("_ = "), Piece::Value(v)]),
    }
}

/// Adds an assignment.
fn push_assigned(s: &Sheet<'_>, text: &mut String, to: Target, g: &Given) -> Result<(), AllocError>
    ensures { OnOk result (string_bytes text.new ≡ string_bytes text.old ++ on s.now (assigned_to s.now.kinds.now to (given g.now))) }
{
    match &g.test {
        None => push_given(s, text, to, g.word, &g.value),
        Some(t) => {
            let inside = inner(s.alloc, s.indent)?;
            let deeper = Sheet {
                indent: &inside,
                ..*s
            };
            let asked = Piece::Question(Asked::Asks(t));
            push_opening(s, text, &[Text("if ("), asked, Text(") ")])?;
            push_given(&deeper, text, to, g.word, &g.value)?;
            push_closing(s, text)
        }
    }
}

/// Adds assignments to locals.
pub(crate) fn push_to_locals(
    s: &Sheet<'_>,
    text: &mut String,
    gs: &[Given],
) -> Result<(), AllocError>
    ensures { OnOk result (string_bytes text.new ≡ string_bytes text.old ++ on s.now (each (assigned_to s.now.kinds.now Local) (map given gs.now))) }
{
    for g in gs {
        push_assigned(s, text, Target::Local, g)?;
    }
    Ok(())
}

/// What the first of assignments tells that may be a store to an item, by its test.
fn told_by<'a>(t: &'a Test, first: usize, v: &'a Value) -> Option<Item<'a>>
    ensures { option_map item result ≡ told_by (test t.now) first (value v.now) }
{
    match t {
        Test::Compared(_, index, _) => Some(Item {
            index,
            first,
            value: v,
        }),
        _ => None,
    }
}

/// And what the assignment tells.
fn item_of(g: &Given) -> Option<Item<'_>>
    ensures { option_map item result ≡ item_of (given g.now) }
{
    match &g.test {
        None => None,
        Some(t) => told_by(t, g.word, &g.value),
    }
}

/// Whether an assignment gives this item the value where the index is its number, in the same way.
fn gives_at(kinds: &[Kind], it: &Item<'_>, number: usize, g: &Given) -> bool
    requires number { number ≤ 64 }
    requires first { it.now.first ≤ 64 }
    ensures { result ≡ gives_at kinds.now (item it.now) number (given g.now) }
{
    let stored = is_stored(kinds, g.word);
    let alike = if is_stored(kinds, it.first) {
        stored
    } else {
        !stored
    };
    match &g.test {
        None => false,
        Some(t) => {
            is_at(it.index, number, t)
                && alike
                && g.word == it.first + number
                && is_value(it.value, &g.value)
        }
    }
}

/// Whether the first assignments do so for each of so many items.
fn gives_all(kinds: &[Kind], it: &Item<'_>, count: usize, gs: &[Given]) -> bool
    requires count { count ≤ 64 }
    requires first { it.now.first ≤ 64 }
    ensures { result ≡ gives_from kinds.now (item it.now) count 0 (map given gs.now) }
{
    let mut number = 0;
    for g in gs {
        if number == count {
            return true;
        }
        if !gives_at(kinds, it, number, g) {
            return false;
        }
        number += 1;
    }
    number == count
}

/// Whether the index reads none of so many items.
#[tactic(auto, using(crate::proofs::Places::range_more, crate::proofs::Places::range_over))]
fn is_apart(it: &Item<'_>, count: usize) -> bool
    requires count { count ≤ 64 }
    requires first { it.now.first ≤ 64 }
    ensures { result ≡ is_apart (item it.now) count }
{
    for number in 0..count {
        if value_reads(it.first + number, it.index) {
            return false;
        }
    }
    true
}

/// Whether the first assignments are this store.
fn is_together(layout: &Layout, kinds: &[Kind], it: &Item<'_>, gs: &[Given]) -> bool
    requires { it.now.first < length layout.now }
    ensures { result ≡ is_together layout.now kinds.now (map given gs.now) (item it.now) }
{
    layout.facts();
    let count = array_length(layout, it.first);
    count > 1
        && is_below(layout, count, it.index)
        && is_apart(it, count)
        && gives_all(kinds, it, count, gs)
}

/// The store that the first assignments are, if they are one.
fn together<'a>(layout: &Layout, kinds: &[Kind], gs: &'a [Given]) -> Option<Item<'a>>
    ensures exact { option_map item result ≡ together layout.now kinds.now (map given gs.now) }
    ensures within { IfSome result (λ it. it.first < length layout.now) }
{
    let (first, _) = gs.split_first()?;
    let it = item_of(first)?;
    if it.first < layout.len() && is_together(layout, kinds, &it, gs) {
        Some(it)
    } else {
        None
    }
}

/// An item of an array as a member of the struct.
fn item_member(s: &Sheet<'_>, it: &Item<'_>) -> Result<String, AllocError>
    requires { it.now.first < length s.now.layout.now }
    ensures { IfOk result (λ text. string_bytes text
        ≡ indexed (array_name s.now.layout.now it.now.first)
        (value_text s.now.layout.now s.now.reads.now (value it.now.index.now))) }
{
    let mut text = String::new(s.alloc);
    push_array_name(&mut text, s.layout, it.first)?;
    text.push_str("[")?;
    print_value(&mut text, s.layout, s.reads, it.index)?;
    text.push_str("]")?;
    Ok(text)
}

/// Adds a store to an item of an array.
fn push_item(s: &Sheet<'_>, text: &mut String, it: &Item<'_>) -> Result<(), AllocError>
    requires { it.now.first < length s.now.layout.now }
    ensures { OnOk result (string_bytes text.new ≡ string_bytes text.old ++ on s.now (item_given s.now.kinds.now (item it.now))) }
{
    let member = item_member(s, it)?;
    push_put(
        s,
        text,
        is_stored(s.kinds, it.first),
        Text(&member),
        it.value,
    )
}

/// Adds assignments to words; those that together are one store are written as that.
pub(crate) fn push_to_words(
    s: &Sheet<'_>,
    text: &mut String,
    gs: &[Given],
) -> Result<(), AllocError>
    ensures { OnOk result (string_bytes text.new ≡ string_bytes text.old ++ on s.now (all_given s.now.layout.now s.now.kinds.now 0 (map given gs.now))) }
{
    let mut written = 0;
    for at in 0..gs.len() {
        if written > 0 {
            written -= 1;
        } else {
            written = push_next(s, text, &gs[at..])?;
        }
    }
    Ok(())
}

/// Adds the first assignment, or the store that it begins. Returns how many of those after it are part of that.
fn push_next(s: &Sheet<'_>, text: &mut String, gs: &[Given]) -> Result<usize, AllocError>
    requires { 0 < length gs.now }
    ensures { IfOk result (λ n.
        string_bytes text.new ++ on s.now (all_given s.now.layout.now s.now.kinds.now n (map given (drop 1 gs.now)))
        ≡ string_bytes text.old ++ on s.now (all_given s.now.layout.now s.now.kinds.now 0 (map given gs.now))) }
{
    match together(s.layout, s.kinds, gs) {
        Some(it) => {
            push_item(s, text, &it)?;
            Ok(array_length(s.layout, it.first).saturating_sub(1))
        }
        None => {
            push_assigned(s, text, Target::Word, &gs[0])?;
            Ok(0)
        }
    }
}
