//! Texts, numbers and names of words.

ghost use Rattle.std.specs.Prelude.{◌≡◌, ◌++◌, decimal, map, string_bytes, OnOk};
ghost use Rattle.std.specs.List.{flat_map};
ghost use Rattle.rg_c_report.specs.Words.{name_of, counted, after_commas, commas};

use itoa::Buffer;
use rg_words::Layout;
use std::alloc::AllocError;

/// Adds texts, one after another.
pub(crate) fn push_all(text: &mut String, pieces: &[&str]) -> Result<(), AllocError>
    ensures { OnOk result (string_bytes text.new ≡ string_bytes text.old ++ flat_map (λ t. t.now) pieces.now) }
{
    for piece in pieces {
        text.push_str(piece)?;
    }
    Ok(())
}

/// Adds a number in decimal.
pub(crate) fn push_number(text: &mut String, n: u64) -> Result<(), AllocError>
    ensures { OnOk result (string_bytes text.new ≡ string_bytes text.old ++ decimal n) }
{
    let mut digits = Buffer::new();
    text.push_str(digits.format(n))?;
    Ok(())
}

/// Adds a number, and what is said of one thing or of several.
#[tactic(auto, unfolding(crate::specs::Words::counted))]
pub(crate) fn push_counted(
    text: &mut String,
    n: u64,
    one: &str,
    several: &str,
) -> Result<(), AllocError>
    ensures { OnOk result (string_bytes text.new ≡ string_bytes text.old ++ counted n one.now several.now) }
{
    push_number(text, n)?;
    text.push_str(if n == 1 { one } else { several })?;
    Ok(())
}

/// The name of a word; an empty text where there is no such word.
pub(crate) fn name_of(layout: &Layout, word: usize) -> &str
    ensures { result.now ≡ name_of layout.now word }
{
    if word < layout.len() {
        layout.name(word)
    } else {
        ""
    }
}

/// Adds the name of a word.
pub(crate) fn push_name(text: &mut String, layout: &Layout, word: usize) -> Result<(), AllocError>
    ensures { OnOk result (string_bytes text.new ≡ string_bytes text.old ++ name_of layout.now word) }
{
    text.push_str(name_of(layout, word))?;
    Ok(())
}

/// Adds texts, each after a comma.
fn push_after_commas(text: &mut String, pieces: &[&str]) -> Result<(), AllocError>
    ensures { OnOk result (string_bytes text.new ≡ string_bytes text.old ++ after_commas (map (λ t. t.now) pieces.now)) }
{
    for piece in pieces {
        text.push_str(", ")?;
        text.push_str(piece)?;
    }
    Ok(())
}

/// Adds texts with commas between them.
pub(crate) fn push_commas(text: &mut String, pieces: &[&str]) -> Result<(), AllocError>
    ensures { OnOk result (string_bytes text.new ≡ string_bytes text.old ++ commas (map (λ t. t.now) pieces.now)) }
{
    match pieces.split_first() {
        None => Ok(()),
        Some((first, rest)) => {
            text.push_str(first)?;
            push_after_commas(text, rest)
        }
    }
}

/// Adds a text, and then others with commas between them.
///
/// An error comes only where memory was refused.
pub fn push_listed(text: &mut String, what: &str, pieces: &[&str]) -> Result<(), AllocError>
    ensures { OnOk result (string_bytes text.new ≡ string_bytes text.old ++ (what.now ++ commas (map (λ t. t.now) pieces.now))) }
{
    text.push_str(what)?;
    push_commas(text, pieces)
}
