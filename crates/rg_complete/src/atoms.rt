//! Formulas that may stand in an assertion.

use rg_outline_syntax::Texts;
use std::alloc::{AllocError, Global};

/// The most formulas that are tried in a part.
const MOST: usize = 700;

/// The most bytes of one.
const MOST_BYTES: usize = 160;

/// How a formula is used.
#[derive(Clone, Copy)]
pub struct Atom {
    /// Whether it has to stand in parentheses beside others: it is a chain, an implication or a quantifier.
    pub is_loose: bool,
    /// Whether others are tried where it holds alone.
    pub is_premise: bool,
    /// Whether it isn't tried, as it can't be read or another says the same.
    pub is_out: bool,
}

impl Atom {
    /// A formula that stands without parentheses beside others.
    pub(crate) fn tight(is_premise: bool) -> Atom {
        Atom {
            is_loose: false,
            is_premise,
            is_out: false,
        }
    }
}

/// Formulas over the names of a part, each once.
#[derive(Drop)]
pub struct Atoms {
    alloc: Global,
    pub texts: Texts,
    pub atoms: Vec<Atom>,
}

impl Atoms {
    /// None.
    pub(crate) fn new(alloc: Global) -> Atoms {
        Atoms {
            alloc,
            texts: Texts::new(alloc),
            atoms: Vec::new(alloc),
        }
    }

    /// How many are tried.
    pub fn count(&self) -> usize {
        self.atoms.iter().filter(|atom| !atom.is_out).count()
    }

    /// Adds a formula; where it is there already, it becomes a premise where it is to be one.
    pub(crate) fn add(&mut self, text: &[u8], atom: Atom) -> Result<(), AllocError> {
        if let Some(place) = self.texts.find(text) {
            if let Some(known) = self.atoms.get_mut(place) {
                known.is_premise |= atom.is_premise;
            }
            return Ok(());
        }
        if self.atoms.len() < MOST && text.len() <= MOST_BYTES && !text.is_empty() {
            self.texts.push(text)?;
            self.atoms.push(atom)?;
        }
        Ok(())
    }

    /// Adds a formula of three pieces, which stands without parentheses beside others.
    pub(crate) fn add_joined(
        &mut self,
        first: &[u8],
        second: &[u8],
        third: &[u8],
        is_premise: bool,
    ) -> Result<(), AllocError> {
        let mut text = Vec::from_slice(self.alloc, first)?;
        text.extend_from_slice(second)?;
        text.extend_from_slice(third)?;
        self.add(&text, Atom::tight(is_premise))
    }
}
