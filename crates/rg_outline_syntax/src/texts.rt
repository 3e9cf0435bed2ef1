//! Many short texts, kept in one.

use std::alloc::{AllocError, Global};

/// Texts in a row, each named by its index, from 0.
#[derive(Drop)]
pub struct Texts {
    bytes: Vec<u8>,
    /// Where each text ends.
    ends: Vec<usize>,
}

impl Texts {
    /// No texts.
    pub fn new(alloc: Global) -> Texts {
        Texts {
            bytes: Vec::new(alloc),
            ends: Vec::new(alloc),
        }
    }

    /// How many there are.
    pub fn len(&self) -> usize {
        self.ends.len()
    }

    /// The text of an index; past the last one it is empty.
    pub fn at(&self, index: usize) -> &[u8] {
        let before = index.checked_sub(1);
        let start = before
            .and_then(|before| self.ends.get(before).copied())
            .unwrap_or(0);
        let end = self.ends.get(index).copied().unwrap_or(0);
        self.bytes.get(start..end).unwrap_or(&[])
    }

    /// The index of the first text that is this one.
    pub fn find(&self, text: &[u8]) -> Option<usize> {
        (0..self.len()).find(|index| self.at(*index) == text)
    }

    /// The text that isn't ended yet, to be written at its end.
    pub fn unended(&mut self) -> &mut Vec<u8> {
        &mut self.bytes
    }

    /// Ends a text; `AllocError` where memory is refused.
    pub fn end(&mut self) -> Result<(), AllocError> {
        let end = self.bytes.len();
        self.ends.push(end)?;
        Ok(())
    }

    /// Adds a text; `AllocError` where memory is refused.
    pub fn push(&mut self, text: &[u8]) -> Result<(), AllocError> {
        self.bytes.extend_from_slice(text)?;
        self.end()
    }
}
