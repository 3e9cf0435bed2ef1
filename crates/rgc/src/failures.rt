//! The states at which a condition fails, as text.

ghost use Rattle.std.specs.Prelude.{◌≡◌, ◌++◌, IfOk, OnOk, string_bytes};
ghost use Rattle.rgc.specs.Failures.{value_text, state_line, failure_text};

use itoa::Buffer;
use rg_words::{Layout, State};
use std::alloc::{AllocError, Global};

/// A word with its value, after a space.
fn value_text(alloc: Global, name: &str, value: u64) -> Result<String, AllocError>
    ensures { IfOk result (λ text. string_bytes text ≡ value_text name.now value) }
{
    let mut digits = Buffer::new();
    let value = digits.format(value);
    format!(in alloc; " {name}={value}")
}

/// Adds a line with a title and each word's value.
fn push_state(
    alloc: Global,
    text: &mut String,
    title: &str,
    words: &Layout,
    state: &State,
) -> Result<(), AllocError>
    ensures { OnOk result (string_bytes text.new ≡ string_bytes text.old ++ state_line title.now words.now state.now.values) }
{
    text.push_str(title)?;
    for word in 0..words.len().min(state.len()) {
        let value = value_text(alloc, words.name(word), state.get(word))?;
        text.push_str(&value)?;
    }
    text.push_str("\n")
}

/// The text that gives the states at which a formula or a condition fails: each word with its value before, and after where there is a second
/// state.
///
/// # Errors
///
/// Only where memory is refused.
pub fn failure_text(
    alloc: Global,
    words: &Layout,
    first: &State,
    second: &Option<State>,
) -> Result<String, AllocError>
    ensures { IfOk result (λ text. string_bytes text ≡ failure_text words.now first.now second.now) }
{
    let mut text = String::from_str(alloc, "fails\n")?;
    push_state(alloc, &mut text, "before", words, first)?;
    if let Some(second) = second {
        push_state(alloc, &mut text, "after", words, second)?;
    }
    Ok(text)
}
