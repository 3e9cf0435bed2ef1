//! Words that are an array in C: neighbours of one width whose names are numbered from 0.

ghost use Rattle.std.specs.Prelude.{◌≡◌, ◌++◌, ◌<◌, ◌≤◌, [], ◌-◌, length, take, slice_index_or, IfSome, OnOk, string_bytes};
ghost use Rattle.rg_words.specs.Layout.{names_of};
ghost use Rattle.rg_words.specs.Names.{IsName};
ghost use Rattle.rg_c_values.specs.CNames.{c_name};
ghost use Rattle.rg_c_values.specs.Arrays.{name_at, base_of, is_numbered, is_item, items_at, array_length, array_of, array_name, indexed, member_of};

use crate::names::push_c_name;
use itoa::Buffer;
use rg_words::Layout;
use std::alloc::AllocError;

/// The name of an array whose first word has this name.
#[tactic(auto, using(crate::proofs::Places::base_is_text))]
fn base_of(name: &str) -> &str
    requires { IsName name.now }
    ensures { result.now ≡ base_of name.now }
{
    let (base, _) = name.split_at(name.len().saturating_sub(2));
    base
}

/// Whether a name is this one with `_` and a number after it.
fn is_numbered(base: &str, number: usize, name: &str) -> bool
    ensures { result ≡ is_numbered base.now number name.now }
{
    let mut digits = Buffer::new();
    let digits = digits.format(number as u64).as_bytes();
    let name = name.as_bytes();
    if !name.starts_with(base.as_bytes()) {
        return false;
    }
    match name.get(base.len()..) {
        None => false,
        Some(rest) => match rest.split_first() {
            None => false,
            Some((first, rest)) => *first == b'_' && rest == digits,
        },
    }
}

/// Whether the word so many places after this one is an item of an array that begins here.
fn is_item(layout: &Layout, first: usize, item: usize) -> bool
    requires first { first < length layout.now }
    requires item { item ≤ length layout.now }
    ensures { result ≡ is_item layout.now first item }
{
    let _ = layout.len();
    let word = first + item;
    word < layout.len()
        && is_numbered(base_of(layout.name(first)), item, layout.name(word))
        && layout.width(word) == layout.width(first)
}

/// How many items of an array there are from this word on.
#[tactic(auto, using(crate::proofs::Places::range_more, crate::proofs::Places::range_over))]
fn items_at(layout: &Layout, first: usize) -> usize
    requires { first < length layout.now }
    ensures exact { result ≡ items_at layout.now first }
    ensures within { result ≤ length layout.now }
{
    for item in 0..layout.len() {
        if !is_item(layout, first, item) {
            return item;
        }
    }
    layout.len()
}

/// How long the array is that begins at a word; 0 where none does.
pub fn array_length(layout: &Layout, first: usize) -> usize
    requires { first < length layout.now }
    ensures exact { result ≡ array_length layout.now first }
    ensures within { result ≤ length layout.now }
{
    let count = items_at(layout, first);
    if count > 1 && layout.find(base_of(layout.name(first))).is_none() {
        count
    } else {
        0
    }
}

/// Where the array begins that a word is in, if it is in one.
#[tactic(auto, using(crate::proofs::Places::range_more, crate::proofs::Places::range_over))]
pub fn array_of(layout: &Layout, word: usize) -> Option<usize>
    ensures exact { result ≡ array_of layout.now word }
    ensures first { IfSome result (λ first. first ≤ word) }
    ensures within { IfSome result (λ first. first < length layout.now) }
{
    for first in 0..layout.len() {
        if first <= word && word - first < array_length(layout, first) {
            return Some(first);
        }
    }
    None
}

/// Adds the name in C of the array that begins at a word.
///
/// An error comes only where memory was refused.
pub fn push_array_name(text: &mut String, layout: &Layout, first: usize) -> Result<(), AllocError>
    requires { first < length layout.now }
    ensures { OnOk result (string_bytes text.new ≡ string_bytes text.old ++ array_name layout.now first) }
{
    push_c_name(text, base_of(layout.name(first)))
}

/// Adds the name in C of a word, as it is declared; of a word beyond the last one, that of an empty name.
///
/// An error comes only where memory was refused.
pub fn push_name(text: &mut String, layout: &Layout, word: usize) -> Result<(), AllocError>
    ensures { OnOk result (string_bytes text.new ≡ string_bytes text.old ++ c_name (name_at layout.now word)) }
{
    let name = if word < layout.len() {
        layout.name(word)
    } else {
        ""
    };
    push_c_name(text, name)
}

/// Adds a word as a member of the struct: its name, or an item of an array.
///
/// An error comes only where memory was refused.
#[tactic(auto, unfolding(crate::specs::Arrays::member_of))]
pub fn push_member_of(text: &mut String, layout: &Layout, word: usize) -> Result<(), AllocError>
    ensures { OnOk result (string_bytes text.new ≡ string_bytes text.old ++ member_of layout.now word) }
{
    match array_of(layout, word) {
        None => push_name(text, layout, word),
        Some(first) => {
            let mut digits = Buffer::new();
            push_array_name(text, layout, first)?;
            text.push_str("[")?;
            text.push_str(digits.format((word - first) as u64))?;
            text.push_str("]")?;
            Ok(())
        }
    }
}
