//! Fewer candidates that make all conditions hold.

use crate::elaborated::FamilyAtoms;
use crate::search::{Search, cost_of};
use rg_complete::{Alive, Bits, Candidate};
use rg_watch::Watcher;
use std::alloc::{AllocError, Global};

/// Copies of what is needed at each place.
fn copies(alloc: Global, needed: &[Vec<Candidate>]) -> Result<Vec<Vec<Candidate>>, AllocError> {
    let mut copies = Vec::new(alloc);
    for one in needed {
        copies.push(Vec::from_slice(alloc, one)?)?;
    }
    Ok(copies)
}

impl<'a, P: Watcher + Copy> Search<'a, P> {
    /// The formulas of the scope of a place.
    pub(crate) fn family_at(&self, place: usize) -> Option<&'a FamilyAtoms> {
        let slot = self.base.slots.get(place)?;
        self.tried.families.get(slot.scope)
    }

    /// Leaves as candidates what is needed alone.
    fn restrict(&mut self) -> Result<(), AllocError> {
        let mut restricted = Vec::new(self.alloc);
        for (place, needed) in self.needed.iter().enumerate() {
            let family = self.family_at(place);
            let atoms = family.map_or(0, |family| family.atoms.atoms.len());
            let rows = family.map_or(0, |family| family.premises.len().saturating_add(1));
            let none = Bits::new(self.alloc, atoms, false)?;
            let mut alive = Alive::new(self.alloc, rows, &none)?;
            for candidate in needed {
                alive.put(*candidate, true);
            }
            restricted.push(alive)?;
        }
        self.alive = restricted;
        Ok(())
    }

    /// Needs these, and no other.
    fn put_back(&mut self, needed: Vec<Vec<Candidate>>) -> Result<(), AllocError> {
        self.needed = needed;
        self.restrict()
    }

    /// Begins with nothing that is needed, over what was needed as candidates.
    fn begin_again(&mut self) -> Result<(), AllocError> {
        self.restrict()?;
        let before = copies(self.alloc, &self.needed)?;
        for needed in self.needed.iter_mut() {
            needed.clear();
        }
        self.open_all();
        if self.settle_all()?.is_some() {
            return self.put_back(before);
        }
        self.restrict()
    }

    /// What is needed at a place, the dearest first.
    fn by_cost(&self, place: usize) -> Result<Vec<Candidate>, AllocError> {
        let mut sorted = Vec::new(self.alloc);
        if let (Some(needed), Some(family)) = (self.needed.get(place), self.family_at(place)) {
            for candidate in needed {
                sorted.push((
                    usize::MAX.saturating_sub(cost_of(family, *candidate)),
                    candidate.row,
                    candidate.atom,
                ))?;
            }
        }
        sorted.sort_unstable();
        let mut candidates = Vec::new(self.alloc);
        for (_, row, atom) in &sorted {
            candidates.push(Candidate {
                row: *row,
                atom: *atom,
            })?;
        }
        Ok(candidates)
    }

    /// Leaves out a candidate, where all conditions hold without it.
    fn leave_out(&mut self, place: usize, candidate: Candidate) -> Result<(), AllocError> {
        let before = copies(self.alloc, &self.needed)?;
        let Some(needed) = self.needed.get_mut(place) else {
            return Ok(());
        };
        needed.retain(|one: &Candidate| *one != candidate);
        if let Some(alive) = self.alive.get_mut(place) {
            alive.put(candidate, false);
        }
        self.open_about(place, true);
        if self.settle_all()?.is_some() {
            self.close_all();
            return self.put_back(before);
        }
        Ok(())
    }

    /// Asks no condition.
    fn close_all(&mut self) {
        for is_open in self.is_open.iter_mut() {
            *is_open = false;
        }
        for is_loose in self.is_loose.iter_mut() {
            *is_loose = false;
        }
    }

    /// Leaves out what all conditions hold without.
    pub fn shorten(&mut self) -> Result<(), AllocError> {
        self.questions = 0;
        self.begin_again()?;
        for place in 0..self.needed.len() {
            for candidate in &self.by_cost(place)? {
                self.leave_out(place, *candidate)?;
            }
        }
        Ok(())
    }
}
