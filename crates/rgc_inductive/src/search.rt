//! The search: which candidates are needed at which places, so that all conditions hold.

use crate::asked::{Outcome, ask};
use crate::conditions::{Base, Duty, Stand};
use crate::elaborated::{FamilyAtoms, Instance, Tried};
use crate::memory::{Asked, Looked, Memory};
use rg_complete::{Alive, Bits, Candidate, Moment};
use rg_outline_reports::Demand;
use rg_watch::Watcher;
use std::alloc::{AllocError, Global};

/// The most rounds over the conditions, the most answers to one condition in a round, and the most questions together.
const MOST_ROUNDS: usize = 3_000;

const MOST_ANSWERS: usize = 4_000;

const MOST_QUESTIONS: usize = 6_000;

/// What an implication costs beside its texts, and what a formula costs that others can make false.
const COST_OF_PREMISE: usize = 24;

const COST_OF_OTHERS: usize = 14;

/// A condition that no candidate makes hold.
#[derive(Drop)]
pub struct Failure {
    pub duty: Duty,
    /// A state in which it fails, where one is known, and that after it.
    pub state: Vec<u64>,
    pub next: Vec<u64>,
}

/// A search.
#[derive(Drop)]
pub struct Search<'a, P> {
    pub(crate) alloc: Global,
    pub(crate) watcher: P,
    pub(crate) base: &'a Base,
    pub(crate) tried: &'a Tried,
    /// What isn't refuted, at each place.
    pub(crate) alive: Vec<Alive>,
    /// What is needed, at each place.
    pub(crate) needed: Vec<Vec<Candidate>>,
    /// Whether each condition is to be asked for what is needed where it leads; and for what it asks by itself.
    pub(crate) is_open: Vec<bool>,
    pub(crate) is_loose: Vec<bool>,
    /// What is remembered of each condition.
    pub(crate) memories: Vec<Memory>,
    pub(crate) questions: usize,
    /// Whether the watcher ended it.
    pub is_ended: bool,
    /// Which of the states of a condition no candidate makes impossible.
    pub(crate) stuck_at: usize,
}

/// How it goes on after a question.
#[derive(Clone, Copy, PartialEq, Eq)]
enum Step {
    /// The condition holds.
    Done,
    /// It is to be asked again.
    Again,
    /// Nothing makes it hold.
    Stuck,
}

/// A candidate of a place that was chosen, and what it costs.
#[derive(Clone, Copy)]
pub struct Chosen {
    pub place: usize,
    pub candidate: Candidate,
    pub cost: usize,
}

/// Whether an assertion stands at a place.
fn is_at(stand: Option<Stand>, place: usize) -> bool {
    stand.is_some_and(|stand| stand.place == place)
}

/// Adds a candidate as the text of a part has it.
fn push_candidate(
    instance: &Instance,
    family: &FamilyAtoms,
    candidate: Candidate,
    text: &mut Vec<u8>,
) -> Result<(), AllocError> {
    let premise = candidate
        .row
        .checked_sub(1)
        .and_then(|row| family.premises.get(row).copied());
    let Some(premise) = premise else {
        return text.extend_from_slice(instance.texts.at(candidate.atom));
    };
    text.push(b'(')?;
    text.extend_from_slice(instance.texts.at(premise))?;
    text.extend_from_slice(b" implies ")?;
    text.extend_from_slice(instance.texts.at(candidate.atom))?;
    text.push(b')')?;
    Ok(())
}

/// Conjuncts as the text has them.
#[derive(Drop)]
struct Conjuncts {
    text: Vec<u8>,
    count: usize,
}

impl Conjuncts {
    /// None.
    fn new(alloc: Global) -> Conjuncts {
        Conjuncts {
            text: Vec::new(alloc),
            count: 0,
        }
    }

    /// Their formula, which is true where there are none.
    fn formula(self, alloc: Global) -> Result<Vec<u8>, AllocError> {
        let Conjuncts { text, count } = self;
        if count == 1 {
            return Ok(text);
        }
        if count == 0 {
            return Vec::from_slice(alloc, b"true");
        }
        let mut formula = Vec::from_slice(alloc, b"(")?;
        formula.extend_from_slice(&text)?;
        formula.push(b')')?;
        Ok(formula)
    }
}

/// What a formula costs.
fn cost_of_atom(family: &FamilyAtoms, atom: usize) -> usize {
    family.costs.get(atom).copied().unwrap_or(0)
}

/// What a candidate costs.
pub(crate) fn cost_of(family: &FamilyAtoms, candidate: Candidate) -> usize {
    let mut is_firm = family.firm.has(candidate.atom);
    let mut cost = cost_of_atom(family, candidate.atom);
    let premise = candidate
        .row
        .checked_sub(1)
        .and_then(|row| family.premises.get(row).copied());
    if let Some(premise) = premise {
        is_firm &= family.firm.has(premise);
        cost = cost
            .saturating_add(cost_of_atom(family, premise))
            .saturating_add(COST_OF_PREMISE);
    }
    if is_firm {
        cost
    } else {
        cost.saturating_add(COST_OF_OTHERS)
    }
}

/// The cheapest candidate of a place that is false where these formulas are true alone.
pub fn cheapest(alive: &Alive, family: &FamilyAtoms, truth: &Bits, place: usize) -> Option<Chosen> {
    let mut best: Option<Chosen> = None;
    for row in 0..alive.len() {
        let premise = row
            .checked_sub(1)
            .and_then(|row| family.premises.get(row).copied());
        if premise.is_some_and(|premise| !truth.has(premise)) {
            continue;
        }
        let Some(bits) = alive.row(row) else {
            continue;
        };
        for (index, (word, true_word)) in bits.words.iter().zip(&truth.words).enumerate() {
            let mut left = *word & !*true_word;
            for _ in 0..64 {
                if left == 0 {
                    break;
                }
                let atom = index
                    .saturating_mul(64)
                    .saturating_add(left.trailing_zeros() as usize);
                left &= left.wrapping_sub(1);
                let candidate = Candidate { row, atom };
                let cost = cost_of(family, candidate);
                if best.is_none_or(|best| cost < best.cost) {
                    best = Some(Chosen {
                        place,
                        candidate,
                        cost,
                    });
                }
            }
        }
    }
    best
}

impl<'a, P: Watcher + Copy> Search<'a, P> {
    /// Adds candidates, as the text of a part has them.
    fn push_all(
        &self,
        instance: usize,
        candidates: &[Candidate],
        conjuncts: &mut Conjuncts,
    ) -> Result<(), AllocError> {
        let (Some(instance), Some(family)) = (
            self.tried.instances.get(instance),
            self.tried.family_of(instance),
        ) else {
            return Ok(());
        };
        for candidate in candidates {
            if conjuncts.count > 0 {
                conjuncts.text.extend_from_slice(b" and ")?;
            }
            push_candidate(instance, family, *candidate, &mut conjuncts.text)?;
            conjuncts.count = conjuncts.count.saturating_add(1);
        }
        Ok(())
    }

    /// What is given to a condition that is asked.
    fn given(&self, index: usize, asked: &Asked) -> Result<Vec<u8>, AllocError> {
        let mut conjuncts = Conjuncts::new(self.alloc);
        if let Some(memory) = self.memories.get(index) {
            for (stand, candidates) in memory.sources.iter().zip(&asked.given) {
                self.push_all(stand.instance, candidates, &mut conjuncts)?;
            }
        }
        conjuncts.formula(self.alloc)
    }

    /// What a condition that is asked is to lead to.
    fn goal(&self, duty: Duty, due: &[Candidate]) -> Result<Vec<u8>, AllocError> {
        let mut conjuncts = Conjuncts::new(self.alloc);
        self.push_all(duty.leads_to(), due, &mut conjuncts)?;
        conjuncts.formula(self.alloc)
    }

    /// The cheapest candidate of what is given to a condition that is false in a state that was met.
    fn choose(&self, index: usize, met: usize) -> Option<Chosen> {
        let memory = self.memories.get(index)?;
        let met = memory.met.get(met)?;
        let mut best: Option<Chosen> = None;
        for (source, truth) in memory.sources.iter().zip(&met.given) {
            let (Some(alive), Some(family)) = (
                self.alive.get(source.place),
                self.tried.family_of(source.instance),
            ) else {
                continue;
            };
            if let Some(chosen) = cheapest(alive, family, truth, source.place)
                && best.is_none_or(|best| chosen.cost < best.cost)
            {
                best = Some(chosen);
            }
        }
        best
    }

    /// Opens the conditions to which a place is due, or given.
    pub(crate) fn open_about(&mut self, place: usize, is_given: bool) {
        for (index, duty) in self.base.duties.iter().enumerate() {
            let is_end = duty.demand == Demand::Ended
                && self.base.ends.iter().any(|stand| stand.place == place);
            let touches = if is_given {
                is_at(duty.given, place) || is_end
            } else {
                is_at(duty.due, place)
            };
            if touches && let Some(is_open) = self.is_open.get_mut(index) {
                *is_open = true;
            }
            if touches
                && is_given
                && let Some(is_loose) = self.is_loose.get_mut(index)
            {
                *is_loose = true;
            }
        }
    }

    /// Takes up a candidate.
    fn need(&mut self, chosen: Chosen) -> Result<(), AllocError> {
        if let Some(needed) = self.needed.get_mut(chosen.place) {
            needed.push(chosen.candidate)?;
        }
        self.open_about(chosen.place, false);
        Ok(())
    }

    /// Lets go of what is needed and refuted at a place.
    fn forget_refuted(&mut self, place: usize) {
        let (Some(needed), Some(alive)) = (self.needed.get_mut(place), self.alive.get(place)) else {
            return;
        };
        let before = needed.len();
        needed.retain(|candidate: &Candidate| alive.has(*candidate));
        if needed.len() < before {
            self.open_about(place, true);
        }
    }

    /// Takes away, where a condition leads, what is false in a state that was met.
    fn refute(&mut self, index: usize, duty: Duty, met: usize) {
        let (Some(due), Some(memory)) = (duty.due, self.memories.get(index)) else {
            return;
        };
        if let (Some(met), Some(alive)) = (memory.met.get(met), self.alive.get_mut(due.place)) {
            alive.keep_true(&met.due, self.tried.premises_of(due.instance));
        }
        self.forget_refuted(due.place);
    }

    /// Takes away a candidate at a place.
    fn give_up(&mut self, place: usize, candidate: Candidate) {
        if let Some(alive) = self.alive.get_mut(place) {
            alive.put(candidate, false);
        }
        self.forget_refuted(place);
    }

    /// What is needed at a place.
    fn copy_needed(&self, place: usize) -> Result<Vec<Candidate>, AllocError> {
        match self.needed.get(place) {
            Some(needed) => Vec::from_slice(self.alloc, needed),
            None => Ok(Vec::new(self.alloc)),
        }
    }

    /// What is to be asked of a condition: nothing where all is known that is needed.
    fn asked(&self, index: usize, duty: Duty, is_alone: bool) -> Result<Option<Asked>, AllocError> {
        let Some(memory) = self.memories.get(index) else {
            return Ok(None);
        };
        let mut given = Vec::new(self.alloc);
        for source in &memory.sources {
            given.push(self.copy_needed(source.place)?)?;
        }
        let mut asked = Asked { given, due: None };
        if is_alone {
            if memory.holds_alone(&asked) {
                return Ok(None);
            }
            return Ok(Some(asked));
        }
        let needed = self.copy_needed(duty.due.map_or(usize::MAX, |due| due.place))?;
        let due = memory.unknown(self.alloc, &asked, &needed)?;
        if due.is_empty() {
            return Ok(None);
        }
        asked.due = Some(due);
        Ok(Some(asked))
    }

    /// Goes on after a state at which a condition fails: by a candidate more, or by fewer where it leads.
    fn mend(
        &mut self,
        index: usize,
        duty: Duty,
        met: usize,
        is_alone: bool,
    ) -> Result<Step, AllocError> {
        match self.choose(index, met) {
            Some(chosen) => self.need(chosen)?,
            None if is_alone => {
                self.stuck_at = met;
                return Ok(Step::Stuck);
            }
            None => self.refute(index, duty, met),
        }
        Ok(Step::Again)
    }

    /// Remembers that a condition fails between two states, and near them.
    fn remember(
        &mut self,
        index: usize,
        duty: Duty,
        moment: Moment<'_>,
        asked: &Asked,
    ) -> Result<(), AllocError> {
        let (Some(condition), Some(memory)) = (
            self.base.conditions.get(duty.condition),
            self.memories.get_mut(index),
        ) else {
            return Ok(());
        };
        let looked = Looked {
            alloc: self.alloc,
            tried: self.tried,
            condition,
            due: duty.leads_to(),
        };
        looked.look_near(memory, moment, asked)?;
        looked.remember(memory, moment)
    }

    /// Has a condition searched.
    fn search(&mut self, index: usize, duty: Duty, asked: Asked) -> Result<Step, AllocError> {
        let base = self.base;
        let Some(condition) = base.conditions.get(duty.condition) else {
            return Ok(Step::Done);
        };
        self.questions = self.questions.saturating_add(1);
        if !self.watcher.asked(self.questions) {
            self.is_ended = true;
            return Ok(Step::Stuck);
        }
        let given = self.given(index, &asked)?;
        let outcome = match &asked.due {
            Some(due) => {
                let goal = self.goal(duty, due)?;
                ask(
                    self.alloc,
                    condition,
                    &given,
                    Some(&goal),
                    &mut self.watcher,
                )?
            }
            None => ask(self.alloc, condition, &given, None, &mut self.watcher)?,
        };
        self.go_on(index, duty, asked, outcome)
    }

    /// The last state because of which a question is to be answered no.
    fn refuted(&self, index: usize, duty: Duty, asked: &Asked) -> Option<usize> {
        let tried = self.tried;
        let memory = self.memories.get(index)?;
        memory.refuted(tried, duty.leads_to(), asked)
    }

    /// Goes on after what a search said of a condition.
    fn go_on(
        &mut self,
        index: usize,
        duty: Duty,
        asked: Asked,
        outcome: Outcome,
    ) -> Result<Step, AllocError> {
        match outcome {
            Outcome::Holds => {
                if let Some(memory) = self.memories.get_mut(index) {
                    memory.held.push(asked)?;
                }
                Ok(Step::Done)
            }
            Outcome::Fails(before, after) => {
                let moment = Moment {
                    before: &before,
                    after: &after,
                };
                self.remember(index, duty, moment, &asked)?;
                if self.refuted(index, duty, &asked).is_some() {
                    return Ok(Step::Again);
                }
                Ok(Step::Stuck)
            }
            Outcome::Unknown => {
                let last = match &asked.due {
                    Some(due) => due.last().copied(),
                    None => None,
                };
                let (Some(last), Some(due)) = (last, duty.due) else {
                    return Ok(Step::Stuck);
                };
                self.give_up(due.place, last);
                Ok(Step::Again)
            }
        }
    }

    /// Asks a condition for what is needed where it leads, or for what it asks by itself.
    fn ask_one(&mut self, index: usize, duty: Duty, is_alone: bool) -> Result<Step, AllocError> {
        let Some(asked) = self.asked(index, duty, is_alone)? else {
            return Ok(Step::Done);
        };
        if let Some(met) = self.refuted(index, duty, &asked) {
            return self.mend(index, duty, met, is_alone);
        }
        self.search(index, duty, asked)
    }

    /// Asks a condition until it holds, or nothing makes it hold; whether it holds.
    fn holds(&mut self, index: usize, duty: Duty, is_alone: bool) -> Result<bool, AllocError> {
        for _ in 0..MOST_ANSWERS {
            if self.questions > MOST_QUESTIONS {
                break;
            }
            match self.ask_one(index, duty, is_alone)? {
                Step::Done => return Ok(true),
                Step::Again => {}
                Step::Stuck => break,
            }
        }
        Ok(false)
    }

    /// A condition that fails, and the states at which it does.
    fn failure(&self, index: usize, duty: Duty) -> Result<Failure, AllocError> {
        let mut failure = Failure {
            duty,
            state: Vec::new(self.alloc),
            next: Vec::new(self.alloc),
        };
        let memory = self.memories.get(index);
        if let Some(met) = memory.and_then(|memory| memory.met.get(self.stuck_at)) {
            failure.state = Vec::from_slice(self.alloc, &met.state)?;
            failure.next = Vec::from_slice(self.alloc, &met.next)?;
        }
        Ok(failure)
    }

    /// The next condition that is to be asked, and whether for what it asks by itself, too.
    fn next(&mut self) -> Option<(usize, Duty, bool)> {
        let index = self.is_open.iter().position(|is_open| *is_open)?;
        let duty = self.base.duties.get(index).copied()?;
        if let Some(is_open) = self.is_open.get_mut(index) {
            *is_open = false;
        }
        let mut was_loose = false;
        if let Some(is_loose) = self.is_loose.get_mut(index) {
            was_loose = *is_loose;
            *is_loose = false;
        }
        Some((index, duty, was_loose))
    }

    /// Makes all conditions hold, if candidates can; else one that they don't make hold.
    pub fn settle_all(&mut self) -> Result<Option<Failure>, AllocError> {
        for _ in 0..MOST_ROUNDS {
            let Some((index, duty, is_loose)) = self.next() else {
                return Ok(None);
            };
            let holds_alone = !is_loose || self.holds(index, duty, true)?;
            if !holds_alone || !self.holds(index, duty, false)? {
                return Ok(Some(self.failure(index, duty)?));
            }
        }
        Ok(None)
    }

    /// Opens all conditions.
    pub(crate) fn open_all(&mut self) {
        for is_open in self.is_open.iter_mut() {
            *is_open = true;
        }
        for is_loose in self.is_loose.iter_mut() {
            *is_loose = true;
        }
    }
}
