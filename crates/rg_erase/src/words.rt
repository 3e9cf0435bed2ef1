//! The words that stay.

ghost use Rattle.std.specs.Prelude.{◌≡◌, ◌<◌, ◌++◌, [], ◌∷◌, None, Some, length, slice_get, slice_index_or, IfOk, IfErr, OnOk};
ghost use Rattle.rg_words.specs.Layout.{Word, index_of, names_of};
ghost use Rattle.rg_words.specs.Refusals.{no_memory};
ghost use Rattle.rg_erase.specs.Erased.{staying, first_free};

use crate::mention::is_set;
use rg_words::limits::MOST_WORDS;
use rg_words::{Layout, Refusal};
use std::alloc::Global;

/// Declares a word of a layout in another one that has only words before it.
fn declare(words: &mut Layout, layout: &Layout, word: usize) -> Result<(), Refusal>
    requires word { word < length layout.now }
    requires absent { index_of words.old (slice_index_or (names_of layout.now) word []) ≡ None }
    requires room { length words.old < MOST_WORDS }
    ensures ok { OnOk result ((w : Word) → slice_get layout.now word ≡ Some w → words.new ≡ words.old ++ w ∷ []) }
    ensures refused { IfErr result (λ e. e ≡ no_memory) }
{
    let name = layout.name(word);
    let width = layout.width(word);
    if layout.is_fixed(word) {
        words.add_fixed(name, width)
    } else {
        words.add(name, width)
    }
}

/// The words that stay, in order.
pub(crate) fn words_without(
    alloc: Global,
    layout: &Layout,
    erased: &[bool],
) -> Result<Layout, Refusal>
    ensures words { IfOk result (λ words. words ≡ staying erased.now layout.now) }
    ensures refused { IfErr result (λ e. e ≡ no_memory) }
{
    let mut words = Layout::new(alloc);
    for word in 0..layout.len() {
        if !is_set(erased, word) {
            match declare(&mut words, layout, word) {
                Ok(()) => {}
                Err(refusal) => return Err(refusal),
            }
        }
    }
    Ok(words)
}

/// The first word that isn't fixed; the count of words where all are.
pub(crate) fn first_free(layout: &Layout) -> usize
    ensures { result ≡ first_free layout.now }
{
    for word in 0..layout.len() {
        if !layout.is_fixed(word) {
            return word;
        }
    }
    layout.len()
}
