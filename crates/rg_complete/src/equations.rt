//! Equations that the assignments of a part leave: of each alone, and of what one gives in another.

use crate::atoms::{Atom, Atoms};
use std::alloc::{AllocError, Global};

/// The most assignments that are looked at.
const MOST: usize = 24;

/// The most formulas before which steps are looked at.
const MOST_BEFORE: usize = 60;

/// An assignment: the word and the value, as texts.
#[derive(Drop)]
pub(crate) struct Step {
    pub(crate) word: Vec<u8>,
    pub(crate) value: Vec<u8>,
}

/// Whether a byte may stand in a name.
fn is_of_name(byte: Option<u8>) -> bool {
    match byte {
        Some(byte) => byte.is_ascii_alphanumeric() || byte == b'_',
        None => false,
    }
}

/// Whether a word stands at a place of a text, and no longer one.
fn stands_at(text: &[u8], word: &[u8], at: usize) -> bool {
    let rest = text.get(at..).unwrap_or(&[]);
    let before = at.checked_sub(1).and_then(|last| text.get(last).copied());
    let after = rest.get(word.len()).copied();
    rest.starts_with(word) && !is_of_name(before) && !is_of_name(after) && after != Some(b'[')
}

/// Whether a word stands in a text.
pub(crate) fn has_word(text: &[u8], word: &[u8]) -> bool {
    (0..text.len()).any(|at| stands_at(text, word, at))
}

/// A text with another in the place of a word.
pub(crate) fn replaced(
    alloc: Global,
    text: &[u8],
    word: &[u8],
    by: &[u8],
) -> Result<Vec<u8>, AllocError> {
    let mut made = Vec::new(alloc);
    let mut skipped = 0usize;
    for (at, byte) in text.iter().enumerate() {
        if skipped > 0 {
            skipped = skipped.saturating_sub(1);
        } else if stands_at(text, word, at) {
            made.extend_from_slice(by)?;
            skipped = word.len().saturating_sub(1);
        } else {
            made.push(*byte)?;
        }
    }
    Ok(made)
}

/// A value as it stands within another.
fn enclosed(alloc: Global, value: &[u8]) -> Result<Vec<u8>, AllocError> {
    let mut text = Vec::new(alloc);
    let is_simple = !value.contains(&b' ') || value.starts_with(b"(");
    text.extend_from_slice(if is_simple { b"" } else { b"(" })?;
    text.extend_from_slice(value)?;
    text.extend_from_slice(if is_simple { b"" } else { b")" })?;
    Ok(text)
}

/// Adds that a word has a value, where that doesn't read it.
fn add_equation(atoms: &mut Atoms, word: &[u8], value: &[u8]) -> Result<(), AllocError> {
    if has_word(value, word) {
        return Ok(());
    }
    atoms.add_joined(word, b" = ", value, false)
}

/// Adds what a step gives in the value of another.
fn add_composed(
    alloc: Global,
    atoms: &mut Atoms,
    first: &Step,
    second: &Step,
) -> Result<(), AllocError> {
    if !has_word(&second.value, &first.word) {
        return Ok(());
    }
    let inner = enclosed(alloc, &first.value)?;
    let value = replaced(alloc, &second.value, &first.word, &inner)?;
    add_equation(atoms, &second.word, &value)
}

/// Adds the equations that these steps leave.
pub(crate) fn add_equations(
    alloc: Global,
    atoms: &mut Atoms,
    steps: &[Step],
) -> Result<(), AllocError> {
    for step in steps.iter().take(MOST) {
        add_equation(atoms, &step.word, &step.value)?;
    }
    for first in steps.iter().take(MOST) {
        for second in steps.iter().take(MOST) {
            add_composed(alloc, atoms, first, second)?;
        }
    }
    Ok(())
}

/// Adds what has to hold before a step so that each equation, or each comparison, that is there already holds after it.
pub(crate) fn add_preconditions(
    alloc: Global,
    atoms: &mut Atoms,
    steps: &[Step],
) -> Result<(), AllocError> {
    let count = atoms.atoms.len().min(MOST_BEFORE);
    for step in steps.iter().take(MOST) {
        let value = enclosed(alloc, &step.value)?;
        for place in 0..count {
            let text = Vec::from_slice(alloc, atoms.texts.at(place))?;
            let is_loose = atoms.atoms.get(place).is_some_and(|atom| atom.is_loose);
            if !is_loose && has_word(&text, &step.word) {
                let before = replaced(alloc, &text, &step.word, &value)?;
                atoms.add(&before, Atom::tight(false))?;
            }
        }
    }
    Ok(())
}
