//! What words are called in a script.

ghost use Rattle.std.specs.Prelude.{◌≡◌, ◌++◌, false, decimal, map, slice_index, slice_index_or, string_bytes, OnOk};
ghost use Rattle.rg_words.specs.Layout.{fixed_of, widths_of};
ghost use Rattle.rg_tree.specs.ConditionTrees.{assignment};
ghost use Rattle.rg_tree.specs.Printed.{name_text};
ghost use Rattle.rg_smt.specs.Symbols.{last_to, suffix, symbol};
ghost use Rattle.rg_smt.specs.Inner.View.{reading};

use itoa::Buffer;
use rg_tree::condition::Assign;
use rg_words::Layout;
use std::alloc::AllocError;

/// A state of a condition, in which words are read.
#[derive(Clone, Copy)]
pub(crate) enum Moment<'a> {
    /// A second state that is free.
    Second,
    /// The first state after these assignments, of which there may be none.
    Done(&'a [Assign]),
}

/// The number, from 1, of the last assignment to a word; 0 where none is to it.
fn last_to(word: usize, act: &[Assign]) -> usize
    ensures { result ≡ last_to word (map assignment act.now) }
{
    let mut last = 0;
    for place in 0..act.len() {
        if act[place].word == word {
            last = place + 1;
        }
    }
    last
}

/// Whether no step changes a word; of a word that there isn't, no.
pub(crate) fn is_fixed(layout: &Layout, word: usize) -> bool
    ensures { result ≡ slice_index_or (fixed_of layout.now) word false }
{
    word < layout.len() && layout.is_fixed(word)
}

/// The name of a word; of a word that there isn't, nothing.
pub(crate) fn name_of(layout: &Layout, word: usize) -> &str
    ensures { result.now ≡ name_text layout.now word }
{
    if word < layout.len() {
        layout.name(word)
    } else {
        ""
    }
}

/// The width of a word; of a word that there isn't, 0.
pub(crate) fn width_of(layout: &Layout, word: usize) -> u32
    ensures { result ≡ slice_index (widths_of layout.now) word }
{
    if word < layout.len() {
        layout.width(word)
    } else {
        0
    }
}

/// Adds a number in decimal.
pub(crate) fn push_digits(text: &mut String, n: u64) -> Result<(), AllocError>
    ensures { OnOk result (string_bytes text.new ≡ string_bytes text.old ++ decimal n) }
{
    let mut digits = Buffer::new();
    text.push_str(digits.format(n))?;
    Ok(())
}

/// Adds what stands after a word's name, by the state in which it is read.
fn push_suffix(
    text: &mut String,
    layout: &Layout,
    moment: Moment<'_>,
    word: usize,
) -> Result<(), AllocError>
    ensures { OnOk result (string_bytes text.new ≡ string_bytes text.old ++ suffix layout.now (reading moment.entry) word) }
{
    match moment {
        Moment::Second => {
            text.push_str(if is_fixed(layout, word) { "@0" } else { "'" })?;
            Ok(())
        }
        Moment::Done(act) => {
            text.push_str("@")?;
            push_digits(text, last_to(word, act) as u64)
        }
    }
}

/// Adds what a word is called, by the state in which it is read.
pub(crate) fn push_symbol(
    text: &mut String,
    layout: &Layout,
    moment: Moment<'_>,
    word: usize,
) -> Result<(), AllocError>
    ensures { OnOk result (string_bytes text.new ≡ string_bytes text.old ++ symbol layout.now (reading moment.entry) word) }
{
    text.push_str("|")?;
    text.push_str(name_of(layout, word))?;
    push_suffix(text, layout, moment, word)?;
    text.push_str("|")?;
    Ok(())
}
