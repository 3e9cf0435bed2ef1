//! Names of words with commas between them.

ghost use Rattle.std.specs.Prelude.{◌≡◌, ◌∷◌, [], ◌<◌, length, option_map, IfOk};
ghost use Rattle.std.specs.List.{list_any};
ghost use Rattle.std.specs.Str.{bytes_eq};
ghost use Rattle.rg_words.specs.Layout.{names_of};
ghost use Rattle.rgc_commands.specs.Flagged.{names_in, is_one, is_listed, is_word_name, stranger, is_left_out, flags_for};

use rg_words::Layout;
use std::alloc::{AllocError, Global};

/// Whether this is one of the names.
fn is_one(names: &str, name: &str) -> bool
    ensures { result ≡ is_one names.now name.now }
{
    names.split(',').any(|one| one == name)
}

/// The first of the names that no word has.
pub(crate) fn stranger<'a>(layout: &Layout, names: &'a str) -> Option<&'a str>
    ensures { option_map (λ name. name.now) result ≡ stranger layout.now names.now }
{
    names.split(',').find(|one| layout.find(one).is_none())
}

/// Whether a word is one of the names, where there are some.
fn is_listed(layout: &Layout, names: Option<&str>, word: usize) -> bool
    requires { word < length layout.now }
    ensures { result ≡ is_listed layout.now names.entry word }
{
    match names {
        Some(names) => is_one(names, layout.name(word)),
        None => false,
    }
}

/// Whether a word is left out.
fn is_left_out(layout: &Layout, names: Option<&str>, flagged: &[bool], word: usize) -> bool
    requires { word < length layout.now }
    ensures { result ≡ is_left_out layout.now names.entry flagged.now word }
{
    let is_flagged = match flagged.get(word) {
        Some(flag) => *flag,
        None => false,
    };
    is_flagged || is_listed(layout, names, word)
}

/// A flag for each word that says whether it is left out: those that are flagged, and those that are named.
#[tactic(auto, using(crate::proofs::Places::range_more, crate::proofs::Places::range_over))]
pub(crate) fn flags_for(
    alloc: Global,
    layout: &Layout,
    names: Option<&str>,
    flagged: &[bool],
) -> Result<Vec<bool>, AllocError>
    ensures { IfOk result (λ flags. flags.items ≡ flags_for layout.now names.entry flagged.now) }
{
    let mut flags = Vec::new(alloc);
    for word in 0..layout.len() {
        flags.push(is_left_out(layout, names, flagged, word))?;
    }
    Ok(flags)
}
