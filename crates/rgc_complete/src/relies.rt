//! The search for conjuncts of relies that the parts of an outline lack. It begins with all that the steps of a short walk keep, and takes away what the steps of
//! the others don't keep in what is found of them, and then what isn't needed.

use crate::completion::{Completion, added_in};
use crate::found::{Completed, complete};
use crate::invariant::{Attempt, attempted, complete_over};
use rg_complete::{Bits, with_relies, words_of};
use rg_outline_reports::{Demand, Outlined, ReadOutline};
use rg_outline_syntax::Texts;
use rg_watch::Watcher;
use rg_words::Refusal;
use rgc_answers::Context;
use rgc_inductive::{
    Base, Failure, FamilyAtoms, Subject, Tried, fixed_words, push_atom, state_after,
};
use std::alloc::{AllocError, Global};
use std::sync::Wait;
use std::thread::Threads;

/// The most searches for assertions.
const MOST_TRIES: usize = 400;

/// The most conjuncts of a part with which a search begins, and the most premises that are tried with a word.
const MOST_CONJUNCTS: usize = 48;

const MOST_PREMISES: usize = 4;

/// The most steps of the walk that are looked at.
const MOST_STEPS: usize = 600;

/// What a conjunct costs beside its names.
const COST: usize = 20;

/// What a conjunct says of a step, by the number of a formula or of a word.
#[derive(Clone, Copy, PartialEq, Eq)]
enum Says {
    Keeps(usize),
    Unchanged(usize),
    NoLess(usize),
    NoGreater(usize),
}

/// A conjunct of the rely of a part, which has a scope: what it says where a formula is true before the step, if there is one.
#[derive(Clone, Copy, PartialEq, Eq)]
struct Conjunct {
    scope: usize,
    premise: Option<usize>,
    says: Says,
}

/// A step: of a part, where it is known of which.
#[derive(Drop)]
struct Step {
    part: Option<usize>,
    before: Vec<u64>,
    after: Vec<u64>,
    /// Which formulas of each instance are true before it, and after it.
    truths: Vec<Bits>,
    next: Vec<Bits>,
}

/// An outline, and the conjuncts that are added to the relies of its parts.
#[derive(Drop)]
struct Relying<'a, P> {
    alloc: Global,
    watcher: P,
    source: &'a [u8],
    read: &'a ReadOutline,
    subject: &'a Subject,
    chosen: Vec<Conjunct>,
}

/// A word of a state.
fn word_of(state: &[u64], word: usize) -> u64 {
    state.get(word).copied().unwrap_or(0)
}

/// Whether a bit is set of those at a place.
fn has_at(truths: &[Bits], place: usize, formula: usize) -> bool {
    truths.get(place).is_some_and(|bits| bits.has(formula))
}

impl Step {
    /// A step between two states.
    fn of(
        alloc: Global,
        tried: &Tried,
        part: Option<usize>,
        before: &[u64],
        after: &[u64],
    ) -> Result<Step, AllocError> {
        let mut step = Step {
            part,
            before: Vec::from_slice(alloc, before)?,
            after: Vec::from_slice(alloc, after)?,
            truths: Vec::new(alloc),
            next: Vec::new(alloc),
        };
        for instance in &tried.instances {
            step.truths.push(instance.truth(alloc, before)?)?;
            step.next.push(instance.truth(alloc, after)?)?;
        }
        Ok(step)
    }

    /// Whether a conjunct is true of it, as an instance has it.
    fn keeps(&self, conjunct: Conjunct, instance: usize) -> bool {
        if let Some(premise) = conjunct.premise
            && !has_at(&self.truths, instance, premise)
        {
            return true;
        }
        match conjunct.says {
            Says::Keeps(formula) => {
                !has_at(&self.truths, instance, formula) || has_at(&self.next, instance, formula)
            }
            Says::Unchanged(word) => word_of(&self.before, word) == word_of(&self.after, word),
            Says::NoLess(word) => word_of(&self.before, word) <= word_of(&self.after, word),
            Says::NoGreater(word) => word_of(&self.before, word) >= word_of(&self.after, word),
        }
    }

    /// Whether a conjunct is true of it for all whose step it isn't.
    fn is_kept(&self, tried: &Tried, conjunct: Conjunct) -> bool {
        for (place, instance) in tried.instances.iter().enumerate() {
            let is_other = self.part != Some(instance.part);
            if instance.scope == conjunct.scope && is_other && !self.keeps(conjunct, place) {
                return false;
            }
        }
        true
    }

    /// Whether a formula of a scope is true before it, for one whose step it isn't.
    fn has_before(&self, tried: &Tried, scope: usize, formula: usize) -> bool {
        let mut instances = tried.instances.iter().enumerate();
        instances.any(|(place, instance)| {
            instance.scope == scope
                && self.part != Some(instance.part)
                && has_at(&self.truths, place, formula)
        })
    }
}

/// The steps of the walk that change a word.
fn steps_of(alloc: Global, subject: &Subject) -> Result<Vec<Step>, AllocError> {
    let base = &subject.base;
    let mut steps = Vec::new(alloc);
    for reached in &subject.reached {
        for duty in &base.duties {
            if duty.demand == Demand::Leads
                && steps.len() < MOST_STEPS
                && let Some(after) = state_after(alloc, base, *duty, reached)?
                && after != reached.state
            {
                let part = Some(duty.part);
                steps.push(Step::of(alloc, &subject.tried, part, &reached.state, &after)?)?;
            }
        }
    }
    Ok(steps)
}

/// The words that the first part of a scope owns, and those that no step changes, as bits.
fn own_words(base: &Base, tried: &Tried, scope: usize) -> u64 {
    let first = tried
        .instances
        .iter()
        .find(|instance| instance.scope == scope);
    let owned = first.map_or(0, |instance| instance.owned);
    let layout = base.conditions.first().map(|condition| &condition.layout);
    owned | layout.map_or(0, |layout| fixed_words(layout))
}

/// The word as a bit.
fn bit_of(word: usize) -> u64 {
    1u64 << ((word as u64).min(63) as u32)
}

/// The conjuncts of a scope, as they are found, each with what it costs.
#[derive(Drop)]
struct Gathered<'a> {
    alloc: Global,
    subject: &'a Subject,
    family: &'a FamilyAtoms,
    steps: &'a [Step],
    scope: usize,
    /// The words that are known to be kept, as bits.
    kept: u64,
    found: Vec<(usize, Conjunct)>,
}

impl Gathered<'_> {
    /// A conjunct of the scope.
    fn conjunct(&self, premise: Option<usize>, says: Says) -> Conjunct {
        Conjunct {
            scope: self.scope,
            premise,
            says,
        }
    }

    /// Whether all steps keep a conjunct.
    fn is_kept(&self, conjunct: Conjunct) -> bool {
        let tried = &self.subject.tried;
        self.steps.iter().all(|step| step.is_kept(tried, conjunct))
    }

    /// How many steps there are before which a formula is true.
    fn count_before(&self, formula: usize) -> usize {
        let tried = &self.subject.tried;
        let has = self.steps.iter();
        has.filter(|step| step.has_before(tried, self.scope, formula))
            .count()
    }

    /// Adds a conjunct, if all steps keep it; whether they do.
    fn add(&mut self, conjunct: Conjunct, cost: usize) -> Result<bool, AllocError> {
        let is_kept = self.is_kept(conjunct);
        if is_kept {
            self.found.push((cost, conjunct))?;
        }
        Ok(is_kept)
    }

    /// Adds that a word is unchanged, after the premises that are true before most steps.
    fn add_after_premises(&mut self, word: usize, cost: usize) -> Result<(), AllocError> {
        let mut ranked = Vec::new(self.alloc);
        for premise in &self.family.premises {
            let conjunct = self.conjunct(Some(*premise), Says::Unchanged(word));
            let count = self.count_before(*premise);
            if count > 0 && self.is_kept(conjunct) {
                let own = self.family.costs.get(*premise).copied().unwrap_or(0);
                ranked.push((usize::MAX.saturating_sub(count), own, *premise))?;
            }
        }
        ranked.sort_unstable();
        ranked.dedup_by_key(|one: &mut (usize, usize, usize)| one.0);
        for (_, own, premise) in ranked.iter().take(MOST_PREMISES) {
            let conjunct = self.conjunct(Some(*premise), Says::Unchanged(word));
            let cost = cost.saturating_add(*own).saturating_add(COST);
            self.found.push((cost, conjunct))?;
        }
        Ok(())
    }

    /// Adds what is so of a word.
    fn add_word(&mut self, word: usize, name: &[u8]) -> Result<(), AllocError> {
        if self.kept & bit_of(word) != 0 {
            return Ok(());
        }
        let (same, cost) = (self.conjunct(None, Says::Unchanged(word)), name.len());
        if self.add(same, cost)? {
            self.kept |= bit_of(word);
            return Ok(());
        }
        let twice = cost.saturating_mul(2);
        self.add(self.conjunct(None, Says::NoLess(word)), twice)?;
        self.add(self.conjunct(None, Says::NoGreater(word)), twice)?;
        self.add_after_premises(word, cost)
    }

    /// Whether a formula reads a word that may change, and is true before a step, and false before or after one.
    fn is_telling(&self, formula: usize) -> bool {
        let tried = &self.subject.tried;
        let mut is_changing = false;
        for instance in &tried.instances {
            if instance.scope == self.scope
                && let Some(Some(read)) = instance.formulas.get(formula)
            {
                is_changing |= words_of(read) & !self.kept != 0;
            }
        }
        let count = self.count_before(formula);
        is_changing && count > 0 && count < self.steps.len()
    }

    /// Adds that a formula is kept.
    fn add_formula(&mut self, formula: usize) -> Result<(), AllocError> {
        if self.is_telling(formula) {
            let own = self.family.costs.get(formula).copied().unwrap_or(0);
            let conjunct = self.conjunct(None, Says::Keeps(formula));
            self.add(conjunct, own.saturating_add(COST))?;
        }
        Ok(())
    }

    /// The cheapest conjuncts.
    fn gather(&mut self, chosen: &mut Vec<Conjunct>) -> Result<(), AllocError> {
        let subject = self.subject;
        for (word, name) in subject.base.words.iter().enumerate() {
            self.add_word(word, name)?;
        }
        for (formula, atom) in self.family.atoms.atoms.iter().enumerate() {
            if !atom.is_out && !self.family.firm.has(formula) {
                self.add_formula(formula)?;
            }
        }
        self.found.sort_by_key(|one: &(usize, Conjunct)| one.0)?;
        for (_, conjunct) in self.found.iter().take(MOST_CONJUNCTS) {
            chosen.push(*conjunct)?;
        }
        Ok(())
    }
}

impl<P: Watcher + Copy> Relying<'_, P> {
    /// Takes the conjuncts of each part that all steps of the walk keep.
    fn begin(&mut self) -> Result<(), AllocError> {
        let subject = self.subject;
        let steps = steps_of(self.alloc, subject)?;
        for (scope, (known, family)) in subject
            .base
            .scopes
            .iter()
            .zip(&subject.tried.families)
            .enumerate()
        {
            if known.round.is_none() {
                let mut gathered = Gathered {
                    alloc: self.alloc,
                    subject,
                    family,
                    steps: &steps,
                    scope,
                    kept: own_words(&subject.base, &subject.tried, scope),
                    found: Vec::new(self.alloc),
                };
                gathered.gather(&mut self.chosen)?;
            }
        }
        Ok(())
    }

    /// A conjunct as it is written.
    fn text(&self, conjunct: Conjunct) -> Result<Vec<u8>, AllocError> {
        let mut text = Vec::new(self.alloc);
        let Some(family) = self.subject.tried.families.get(conjunct.scope) else {
            return Ok(text);
        };
        if let Some(premise) = conjunct.premise {
            push_atom(&mut text, family, premise, false)?;
            text.extend_from_slice(b" implies ")?;
        }
        match conjunct.says {
            Says::Keeps(formula) => {
                text.extend_from_slice(b"keeps ")?;
                push_atom(&mut text, family, formula, false)?;
            }
            Says::Unchanged(word) => {
                text.extend_from_slice(b"unchanged ")?;
                text.extend_from_slice(self.name(word))?;
            }
            Says::NoLess(word) => self.push_compared(&mut text, word, b" <= ")?,
            Says::NoGreater(word) => self.push_compared(&mut text, word, b" >= ")?,
        }
        Ok(text)
    }

    /// A word as the outline has it.
    fn name(&self, word: usize) -> &[u8] {
        match self.subject.base.words.get(word) {
            Some(name) => name,
            None => &[],
        }
    }

    /// Adds how a word compares with what it becomes.
    fn push_compared(
        &self,
        text: &mut Vec<u8>,
        word: usize,
        sign: &[u8],
    ) -> Result<(), AllocError> {
        text.extend_from_slice(self.name(word))?;
        text.extend_from_slice(sign)?;
        text.extend_from_slice(self.name(word))?;
        text.push(b'\'')?;
        Ok(())
    }

    /// The outline with the conjuncts, and these.
    fn completion(&self) -> Result<Completion, AllocError> {
        let (alloc, base) = (self.alloc, &self.subject.base);
        let mut all = Texts::new(alloc);
        let mut parts = Vec::new(alloc);
        for (part, _) in self.read.written.parts.iter().enumerate() {
            let mut texts = Texts::new(alloc);
            for conjunct in &self.chosen {
                let scope = base.scopes.get(conjunct.scope);
                if scope.is_some_and(|scope| scope.part == part) {
                    let text = self.text(*conjunct)?;
                    texts.push(&text)?;
                    all.push(&text)?;
                }
            }
            parts.push(texts)?;
        }
        let read = self.read;
        let made = with_relies(alloc, self.source, &read.tokens, &read.written, &parts)?;
        let relies = added_in(alloc, &made, &all)?;
        Ok(Completion {
            source: made.source,
            assertions: Vec::new(alloc),
            conjuncts: Vec::new(alloc),
            relies,
        })
    }

    /// Searches for assertions of the outline with the conjuncts.
    fn attempt(&self) -> Result<Attempt, Refusal> {
        let completion = self.completion()?;
        attempted(self.alloc, &completion.source, self.watcher)
    }

    /// Lets go of the conjuncts that a step doesn't keep at which a condition fails; whether there are such.
    fn weaken(&mut self, failure: &Failure) -> Result<bool, AllocError> {
        let tried = &self.subject.tried;
        let is_own = failure.duty.demand == Demand::Guaranteed;
        let part = if is_own {
            Some(failure.duty.part)
        } else {
            None
        };
        let step = Step::of(self.alloc, tried, part, &failure.state, &failure.next)?;
        let count = self.chosen.len();
        let mut kept = Vec::new(self.alloc);
        for conjunct in &self.chosen {
            if step.is_kept(tried, *conjunct) {
                kept.push(*conjunct)?;
            }
        }
        self.chosen = kept;
        Ok(self.chosen.len() < count)
    }

    /// Lets go of conjuncts until assertions make all conditions hold; whether they do.
    fn weaken_all(&mut self) -> Result<bool, Refusal> {
        for _ in 0..MOST_TRIES {
            let goes_on = match self.attempt()? {
                Attempt::Holds => return Ok(true),
                Attempt::Fails(failure) => self.weaken(&failure)?,
                Attempt::Refused => self.chosen.pop().is_some(),
                Attempt::GaveUp => false,
            };
            if !goes_on {
                return Ok(false);
            }
        }
        Ok(false)
    }

    /// Leaves out the conjuncts from a place up to another, if assertions make all conditions hold without them.
    fn leave_out(&mut self, start: usize, end: usize) -> Result<(), Refusal> {
        let before = Vec::from_slice(self.alloc, &self.chosen)?;
        let mut others = Vec::new(self.alloc);
        for (place, conjunct) in before.iter().enumerate() {
            if place < start || end <= place {
                others.push(*conjunct)?;
            }
        }
        self.chosen = others;
        if !matches!(self.attempt()?, Attempt::Holds) {
            self.chosen = before;
        }
        Ok(())
    }

    /// Leaves out conjuncts without which assertions make all conditions hold, the last first: first many together, and then one at a time.
    fn thin(&mut self) -> Result<(), Refusal> {
        let mut size = self.chosen.len();
        for _ in 0..usize::BITS {
            size = size.saturating_add(1) / 2;
            let mut end = self.chosen.len();
            for _ in 0..MOST_TRIES {
                if end == 0 {
                    break;
                }
                let start = end.saturating_sub(size);
                self.leave_out(start, end)?;
                end = start;
            }
            if size <= 1 {
                break;
            }
        }
        Ok(())
    }
}

/// The outline with conjuncts of its parts' relies; nothing where none are needed, or none make all conditions hold.
fn with_found_relies<P: Watcher + Copy>(
    alloc: Global,
    outlined: &Outlined<'_>,
    watcher: P,
) -> Result<Option<Completion>, Refusal> {
    let source = outlined.outline.source;
    if matches!(attempted(alloc, source, watcher)?, Attempt::Holds) {
        return Ok(None);
    }
    let Some(subject) = Subject::of(alloc, source, outlined.read, watcher)? else {
        return Ok(None);
    };
    let mut relying = Relying {
        alloc,
        watcher,
        source,
        read: outlined.read,
        subject: &subject,
        chosen: Vec::new(alloc),
    };
    relying.begin()?;
    if !relying.weaken_all()? {
        return Ok(None);
    }
    relying.thin()?;
    Ok(Some(relying.completion()?))
}

/// Searches for conjuncts of the parts' relies and for assertions that an outline lacks. Where none are found, what is reported is so of the outline as it stands.
///
/// # Errors
///
/// Where memory is refused, or where more decisions are asked than a search may make.
pub fn complete_with_relies<R: Threads + Wait + Sync, P: Watcher + Copy + Sync>(
    context: &Context<'_, R, P>,
    outlined: &Outlined<'_>,
    steps: u64,
) -> Result<Completed, Refusal> {
    match with_found_relies(context.alloc, outlined, *context.watcher)? {
        Some(found) => complete_over(context, outlined, found, steps),
        None => complete(context, outlined, steps),
    }
}
