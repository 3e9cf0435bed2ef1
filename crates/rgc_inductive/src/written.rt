//! What is needed, as it is written into the outline.

use crate::elaborated::FamilyAtoms;
use crate::search::{Search, cost_of};
use rg_complete::Candidate;
use rg_watch::Watcher;
use std::alloc::{AllocError, Global};

/// Adds a formula, in parentheses where it needs them.
fn push_enclosed(text: &mut Vec<u8>, formula: &[u8], is_enclosed: bool) -> Result<(), AllocError> {
    if is_enclosed {
        text.push(b'(')?;
    }
    text.extend_from_slice(formula)?;
    if is_enclosed {
        text.push(b')')?;
    }
    Ok(())
}

/// Adds a formula that is tried.
pub fn push_atom(
    text: &mut Vec<u8>,
    family: &FamilyAtoms,
    atom: usize,
    is_alone: bool,
) -> Result<(), AllocError> {
    let is_loose = family
        .atoms
        .atoms
        .get(atom)
        .is_some_and(|atom| atom.is_loose);
    push_enclosed(text, family.atoms.texts.at(atom), is_loose && !is_alone)
}

/// Adds a candidate.
fn push_candidate(
    alloc: Global,
    text: &mut Vec<u8>,
    family: &FamilyAtoms,
    candidate: Candidate,
    is_alone: bool,
) -> Result<(), AllocError> {
    let premise = candidate
        .row
        .checked_sub(1)
        .and_then(|row| family.premises.get(row).copied());
    let Some(premise) = premise else {
        return push_atom(text, family, candidate.atom, is_alone);
    };
    let mut implication = Vec::new(alloc);
    push_atom(&mut implication, family, premise, false)?;
    implication.extend_from_slice(b" implies ")?;
    push_atom(&mut implication, family, candidate.atom, false)?;
    push_enclosed(text, &implication, !is_alone)
}

/// Candidates as an assertion.
pub fn assertion(
    alloc: Global,
    family: &FamilyAtoms,
    needed: &[Candidate],
) -> Result<Vec<u8>, AllocError> {
    let mut sorted = Vec::new(alloc);
    for candidate in needed {
        sorted.push((cost_of(family, *candidate), candidate.row, candidate.atom))?;
    }
    sorted.sort_unstable();
    let mut text = Vec::new(alloc);
    for (_, row, atom) in &sorted {
        if !text.is_empty() {
            text.extend_from_slice(b" and ")?;
        }
        let candidate = Candidate {
            row: *row,
            atom: *atom,
        };
        push_candidate(alloc, &mut text, family, candidate, sorted.len() == 1)?;
    }
    if text.is_empty() {
        text.extend_from_slice(b"true")?;
    }
    Ok(text)
}

impl<P: Watcher + Copy> Search<'_, P> {
    /// The assertion of each place.
    pub fn assertions(&self) -> Result<Vec<Vec<u8>>, AllocError> {
        let mut texts = Vec::new(self.alloc);
        for (place, needed) in self.needed.iter().enumerate() {
            match self.family_at(place) {
                Some(family) => texts.push(assertion(self.alloc, family, needed)?)?,
                None => texts.push(Vec::new(self.alloc))?,
            }
        }
        Ok(texts)
    }
}
