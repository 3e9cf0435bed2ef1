//! What an outline lacks, and what may stand there.

use crate::conditions::{Base, conditions_of};
use crate::elaborated::{FamilyAtoms, Tried, tried_of};
use crate::memory::Memory;
use crate::reached::{Reached, equations_in, reached_by, refute_reached};
use crate::search::Search;
use rg_complete::{Alive, Bits};
use rg_outline_reports::ReadOutline;
use rg_watch::Watcher;
use rg_words::Refusal;
use std::alloc::{AllocError, Global};

/// The conditions of an outline, and the candidates for its assertions.
#[derive(Drop)]
pub struct Subject {
    pub base: Base,
    pub tried: Tried,
    /// States that the program was seen to reach.
    pub reached: Vec<Reached>,
}

/// A search, and which formulas are true in each state that the program was seen to reach, of each instance.
#[derive(Drop)]
pub struct Begun<'a, P> {
    pub search: Search<'a, P>,
    pub met: Vec<Vec<Bits>>,
}

/// All candidates of a family.
pub fn candidates_of(alloc: Global, family: &FamilyAtoms) -> Result<Alive, AllocError> {
    let mut bits = Bits::new(alloc, family.atoms.atoms.len(), false)?;
    for (place, atom) in family.atoms.atoms.iter().enumerate() {
        bits.put(place, !atom.is_out);
    }
    Alive::new(alloc, family.premises.len().saturating_add(1), &bits)
}

impl Subject {
    /// What an outline asks; nothing where it can't be worked out.
    pub fn of<P: Watcher + Copy>(
        alloc: Global,
        source: &[u8],
        read: &ReadOutline,
        watcher: P,
    ) -> Result<Option<Subject>, Refusal> {
        let Some(mut base) = conditions_of(alloc, source, read)? else {
            return Ok(None);
        };
        if base.conditions.is_empty() {
            return Ok(None);
        }
        let mut own = watcher;
        let mut reached = reached_by(alloc, &base, &mut own)?;
        let equations = equations_in(alloc, &base, &reached)?;
        let tried = tried_of(alloc, source, read, &base, &equations)?;
        base.locate(alloc, &tried, &mut reached)?;
        Ok(Some(Subject {
            base,
            tried,
            reached,
        }))
    }

    /// A search in which nothing is refuted yet.
    fn search<P: Watcher + Copy>(
        &self,
        alloc: Global,
        watcher: P,
    ) -> Result<Search<'_, P>, AllocError> {
        let mut search = Search {
            alloc,
            watcher,
            base: &self.base,
            tried: &self.tried,
            alive: Vec::new(alloc),
            needed: Vec::new(alloc),
            is_open: Vec::new(alloc),
            is_loose: Vec::new(alloc),
            memories: Vec::new(alloc),
            questions: 0,
            is_ended: false,
            stuck_at: 0,
        };
        for slot in &self.base.slots {
            match self.tried.families.get(slot.scope) {
                Some(family) => search.alive.push(candidates_of(alloc, family)?)?,
                None => search
                    .alive
                    .push(Alive::new(alloc, 0, &Bits::new(alloc, 0, false)?)?)?,
            }
            search.needed.push(Vec::new(alloc))?;
        }
        for duty in &self.base.duties {
            search
                .memories
                .push(Memory::new(alloc, &self.base, *duty)?)?;
            search.is_open.push(true)?;
            search.is_loose.push(true)?;
        }
        Ok(search)
    }

    /// A search in which is refuted what is false in the states that a short walk reaches.
    pub fn begin<P: Watcher + Copy>(
        &self,
        alloc: Global,
        watcher: P,
    ) -> Result<Begun<'_, P>, AllocError> {
        let mut search = self.search(alloc, watcher)?;
        let met = refute_reached(alloc, self, &mut search.alive)?;
        Ok(Begun { search, met })
    }
}
