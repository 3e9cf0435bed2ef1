//! What is remembered of a condition: states at which it may fail, and with what it held.

use crate::conditions::{Base, Duty, Stand};
use crate::elaborated::Tried;
use rg_complete::{Bits, Candidate, Moment, after, holds, is_true};
use rg_outline_reports::Demand;
use rg_tree::condition::{Condition, Second};
use std::alloc::{AllocError, Global};

/// The most states of a condition.
const MOST: usize = 300;

/// A state in which all hold that a condition is given beside candidates.
#[derive(Drop)]
pub(crate) struct Met {
    pub(crate) state: Vec<u64>,
    pub(crate) next: Vec<u64>,
    /// Which formulas are true there, of each source.
    pub(crate) given: Vec<Bits>,
    /// Which formulas are true in the next state, of the part.
    pub(crate) due: Bits,
    /// Whether what the condition asks by itself is false.
    pub(crate) is_broken: bool,
}

/// What is needed of each source, and where the condition leads: of that nothing, where it is asked by itself.
#[derive(Drop)]
pub(crate) struct Asked {
    pub(crate) given: Vec<Vec<Candidate>>,
    pub(crate) due: Option<Vec<Candidate>>,
}

/// What is remembered of a condition.
#[derive(Drop)]
pub(crate) struct Memory {
    pub(crate) sources: Vec<Stand>,
    pub(crate) met: Vec<Met>,
    pub(crate) held: Vec<Asked>,
}

/// What is given to a condition.
fn sources_of(alloc: Global, base: &Base, duty: Duty) -> Result<Vec<Stand>, AllocError> {
    if duty.demand == Demand::Ended {
        return Vec::from_slice(alloc, &base.ends);
    }
    let mut sources = Vec::new(alloc);
    if let Some(stand) = duty.given {
        sources.push(stand)?;
    }
    Ok(sources)
}

/// Whether all of these are among others.
fn are_among(few: &[Candidate], many: &[Candidate]) -> bool {
    few.iter().all(|candidate| many.contains(candidate))
}

impl Asked {
    /// Whether it is given as much as another.
    fn has_given(&self, other: &Asked) -> bool {
        self.given
            .iter()
            .zip(&other.given)
            .all(|(own, others)| are_among(others, own))
    }
}

impl Memory {
    /// Nothing yet.
    pub(crate) fn new(alloc: Global, base: &Base, duty: Duty) -> Result<Memory, AllocError> {
        Ok(Memory {
            sources: sources_of(alloc, base, duty)?,
            met: Vec::new(alloc),
            held: Vec::new(alloc),
        })
    }

    /// Whether what a condition asks by itself was found to hold where it is given no more.
    pub(crate) fn holds_alone(&self, asked: &Asked) -> bool {
        self.held
            .iter()
            .any(|held| held.due.is_none() && asked.has_given(held))
    }

    /// Whether a candidate was found to hold where the condition leads, when it was given no more.
    fn is_led_to(&self, asked: &Asked, candidate: Candidate) -> bool {
        self.held.iter().any(|held| match &held.due {
            Some(due) => due.contains(&candidate) && asked.has_given(held),
            None => false,
        })
    }

    /// Those of the candidates for which nothing was found yet.
    pub(crate) fn unknown(
        &self,
        alloc: Global,
        asked: &Asked,
        due: &[Candidate],
    ) -> Result<Vec<Candidate>, AllocError> {
        let mut unknown = Vec::new(alloc);
        for candidate in due {
            if !self.is_led_to(asked, *candidate) {
                unknown.push(*candidate)?;
            }
        }
        Ok(unknown)
    }

    /// Whether all that is given holds in a state.
    fn is_given(&self, tried: &Tried, met: &Met, asked: &Asked) -> bool {
        let mut all_hold = true;
        for ((source, truth), needed) in self.sources.iter().zip(&met.given).zip(&asked.given) {
            let premises = tried.premises_of(source.instance);
            all_hold &= needed
                .iter()
                .all(|candidate| is_true(*candidate, truth, premises));
        }
        all_hold
    }

    /// Whether a question is to be answered no because of a state.
    fn refutes(&self, tried: &Tried, met: &Met, due: usize, asked: &Asked) -> bool {
        let premises = tried.premises_of(due);
        let is_false = match &asked.due {
            None => met.is_broken,
            Some(due) => !due
                .iter()
                .all(|candidate| is_true(*candidate, &met.due, premises)),
        };
        is_false && self.is_given(tried, met, asked)
    }

    /// The last state because of which a question is to be answered no.
    pub(crate) fn refuted(&self, tried: &Tried, due: usize, asked: &Asked) -> Option<usize> {
        (0..self.met.len()).rev().find(|index| match self.met.get(*index) {
            Some(met) => self.refutes(tried, met, due, asked),
            None => false,
        })
    }
}

/// Whether what a condition asks by itself is false.
fn is_broken(condition: &Condition, moment: Moment<'_>) -> bool {
    let may_stay = condition.or_no_change && moment.before == moment.after;
    let before = if condition.alone {
        moment.after
    } else {
        moment.before
    };
    let read = Moment {
        before,
        after: moment.after,
    };
    !may_stay && !holds(&condition.goal, read)
}

/// A condition whose states are looked at.
#[derive(Clone, Copy)]
pub(crate) struct Looked<'a> {
    pub(crate) alloc: Global,
    pub(crate) tried: &'a Tried,
    pub(crate) condition: &'a Condition,
    /// The formulas that are tried where it leads.
    pub(crate) due: usize,
}

impl Looked<'_> {
    /// What is so of the condition in two states.
    fn met(&self, sources: &[Stand], moment: Moment<'_>) -> Result<Met, AllocError> {
        let mut given = Vec::new(self.alloc);
        for source in sources {
            given.push(
                self.tried
                    .truth(self.alloc, source.instance, moment.before)?,
            )?;
        }
        Ok(Met {
            state: Vec::from_slice(self.alloc, moment.before)?,
            next: Vec::from_slice(self.alloc, moment.after)?,
            given,
            due: self.tried.truth(self.alloc, self.due, moment.after)?,
            is_broken: is_broken(self.condition, moment),
        })
    }

    /// Remembers two states.
    pub(crate) fn remember(
        &self,
        memory: &mut Memory,
        moment: Moment<'_>,
    ) -> Result<(), AllocError> {
        if memory.met.len() >= MOST {
            memory.met.clear();
        }
        let met = self.met(&memory.sources, moment)?;
        memory.met.push(met)?;
        Ok(())
    }

    /// Remembers two states, if they are two between which the condition is to hold, and it doesn't.
    fn remember_if(
        &self,
        memory: &mut Memory,
        moment: Moment<'_>,
        asked: &Asked,
    ) -> Result<(), AllocError> {
        let hypotheses = &self.condition.hypotheses;
        if memory.met.len() >= MOST
            || !hypotheses
                .iter()
                .all(|hypothesis| holds(hypothesis, moment))
        {
            return Ok(());
        }
        let met = self.met(&memory.sources, moment)?;
        if memory.refutes(self.tried, &met, self.due, asked) {
            memory.met.push(met)?;
        }
        Ok(())
    }

    /// Looks at two states in which a word has this value, in both or in the second one.
    fn look(
        &self,
        memory: &mut Memory,
        moment: Moment<'_>,
        word: usize,
        value: u64,
        asked: &Asked,
    ) -> Result<(), AllocError> {
        let mut first = Vec::from_slice(self.alloc, moment.before)?;
        let mut second = Vec::from_slice(self.alloc, moment.after)?;
        if let Some(place) = second.get_mut(word) {
            *place = value;
        }
        if let Second::Free = &self.condition.second {
            let changed = Moment {
                before: moment.before,
                after: &second,
            };
            self.remember_if(memory, changed, asked)?;
        }
        if let Some(place) = first.get_mut(word) {
            *place = value;
        }
        if let Second::After(_) = &self.condition.second {
            second = after(self.alloc, self.condition, &first)?;
        }
        let changed = Moment {
            before: &first,
            after: &second,
        };
        self.remember_if(memory, changed, asked)
    }

    /// Remembers states near two others at which a question is to be answered no, too.
    pub(crate) fn look_near(
        &self,
        memory: &mut Memory,
        moment: Moment<'_>,
        asked: &Asked,
    ) -> Result<(), AllocError> {
        for word in 0..self.condition.layout.len() {
            let width = self.condition.layout.width(word).min(63);
            let most = (1u64 << width).wrapping_sub(1);
            let now = moment.before.get(word).copied().unwrap_or(0);
            for value in [0, 1, now ^ 1, now.wrapping_add(1), now.wrapping_sub(1)] {
                if value & most != now && !self.condition.layout.is_fixed(word) {
                    self.look(memory, moment, word, value & most, asked)?;
                }
            }
        }
        Ok(())
    }
}
