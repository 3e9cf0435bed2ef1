//! Which candidates of a place aren't refuted, as rows of bits: in the first row formulas alone, in the others those after a premise.

use std::alloc::{AllocError, Global};

/// A candidate: a formula, in row 0, or a premise and a formula.
#[derive(Clone, Copy, PartialEq, Eq)]
pub struct Candidate {
    pub row: usize,
    pub atom: usize,
}

/// Whether a candidate holds where these formulas are true alone. The premise of each row but the first one is one of the formulas.
pub fn is_true(candidate: Candidate, truth: &Bits, premises: &[usize]) -> bool {
    let premise = candidate
        .row
        .checked_sub(1)
        .and_then(|row| premises.get(row));
    premise.is_some_and(|premise| !truth.has(*premise)) || truth.has(candidate.atom)
}

/// Bits.
#[derive(Drop)]
pub struct Bits {
    pub words: Vec<u64>,
}

/// Candidates.
#[derive(Drop)]
pub struct Alive {
    rows: Vec<Bits>,
}

/// The bit of a place in its word.
fn bit(place: usize) -> u64 {
    1u64 << ((place & 63) as u32)
}

impl Bits {
    /// So many bits, all the same.
    pub fn new(alloc: Global, count: usize, is_set: bool) -> Result<Bits, AllocError> {
        let mut words = Vec::new(alloc);
        for _ in 0..count.saturating_add(63) >> 6 {
            words.push(if is_set { u64::MAX } else { 0 })?;
        }
        Ok(Bits { words })
    }

    /// Whether a bit is set.
    pub fn has(&self, place: usize) -> bool {
        self.words
            .get(place >> 6)
            .is_some_and(|word| *word & bit(place) != 0)
    }

    /// Sets a bit, or unsets it.
    pub fn put(&mut self, place: usize, is_set: bool) {
        if let Some(word) = self.words.get_mut(place >> 6) {
            if is_set {
                *word |= bit(place);
            } else {
                *word &= !bit(place);
            }
        }
    }

    /// Unsets those that aren't set in others; whether there were such.
    pub fn keep(&mut self, others: &Bits) -> bool {
        let mut has_changed = false;
        for (word, other) in self.words.iter_mut().zip(&others.words) {
            if *word & !*other != 0 {
                *word &= *other;
                has_changed = true;
            }
        }
        has_changed
    }

    /// A copy.
    pub fn copy(&self, alloc: Global) -> Result<Bits, AllocError> {
        Ok(Bits {
            words: Vec::from_slice(alloc, &self.words)?,
        })
    }
}

impl Alive {
    /// Rows of these bits.
    pub fn new(alloc: Global, rows: usize, bits: &Bits) -> Result<Alive, AllocError> {
        let mut made = Vec::new(alloc);
        for _ in 0..rows {
            made.push(bits.copy(alloc)?)?;
        }
        Ok(Alive { rows: made })
    }

    /// A row.
    pub fn row(&self, row: usize) -> Option<&Bits> {
        self.rows.get(row)
    }

    /// How many rows there are.
    pub fn len(&self) -> usize {
        self.rows.len()
    }

    /// Whether a candidate isn't refuted.
    pub fn has(&self, candidate: Candidate) -> bool {
        self.rows
            .get(candidate.row)
            .is_some_and(|row| row.has(candidate.atom))
    }

    /// Takes a candidate away, or puts it there.
    pub fn put(&mut self, candidate: Candidate, is_set: bool) {
        if let Some(row) = self.rows.get_mut(candidate.row) {
            row.put(candidate.atom, is_set);
        }
    }

    /// Takes away all candidates that have a formula.
    pub fn leave_out(&mut self, atom: usize, premises: &[usize]) {
        for (index, row) in self.rows.iter_mut().enumerate() {
            let premise = index.checked_sub(1).and_then(|place| premises.get(place));
            if premise.is_some_and(|premise| *premise == atom) {
                row.words.clear();
            }
            row.put(atom, false);
        }
    }

    /// Takes away what is false where the formulas of these bits are true alone; whether there was such. The premise of each row but the first one is one of
    /// the formulas.
    pub fn keep_true(&mut self, truth: &Bits, premises: &[usize]) -> bool {
        let mut has_changed = false;
        for (index, row) in self.rows.iter_mut().enumerate() {
            let premise = index.checked_sub(1).and_then(|place| premises.get(place));
            if premise.is_none_or(|premise| truth.has(*premise)) {
                has_changed |= row.keep(truth);
            }
        }
        has_changed
    }
}
