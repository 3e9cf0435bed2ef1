//! The search for conjuncts of the invariant that an outline lacks.

use crate::completion::{Completion, added_in};
use crate::found::{Completed, complete};
use rg_complete::{Alive, Bits, Candidate, has_own_name, said_of_all, with_conjuncts};
use rg_outline_reports::{OutlineSource, Outlined, ReadOutline, read_outline};
use rg_outline_syntax::Texts;
use rg_watch::Watcher;
use rg_words::Refusal;
use rgc_answers::Context;
use rgc_inductive::{
    Begun, Chosen, Failure, FamilyAtoms, Subject, assertion, candidates_of, cheapest, nameless,
    unless_refused,
};
use std::alloc::{AllocError, Global};
use std::sync::Wait;
use std::thread::Threads;

/// The most searches for assertions.
const MOST_TRIES: usize = 200;

/// A conjunct: a candidate of the scope of a part.
#[derive(Clone, Copy, PartialEq, Eq)]
struct Conjunct {
    scope: usize,
    candidate: Candidate,
}

/// What a search for assertions came to.
#[derive(Drop)]
pub(crate) enum Attempt {
    Holds,
    Fails(Failure),
    /// The outline can't be worked out.
    Refused,
    /// The watcher ended the search.
    GaveUp,
}

/// An outline, and the conjuncts that are added to its invariant.
#[derive(Drop)]
struct Strengthening<'a, P> {
    alloc: Global,
    watcher: P,
    source: &'a [u8],
    read: &'a ReadOutline,
    subject: &'a Subject,
    /// What isn't refuted, of each scope.
    alive: Vec<Alive>,
    chosen: Vec<Conjunct>,
}

/// Searches for the assertions of an outline.
pub(crate) fn attempted<P: Watcher + Copy>(
    alloc: Global,
    source: &[u8],
    watcher: P,
) -> Result<Attempt, Refusal> {
    let outline = nameless(source);
    let Some(read) = unless_refused(read_outline(alloc, outline))? else {
        return Ok(Attempt::Refused);
    };
    let Some(subject) = Subject::of(alloc, source, &read, watcher)? else {
        return Ok(Attempt::Refused);
    };
    let Begun { mut search, .. } = subject.begin(alloc, watcher)?;
    let failure = search.settle_all()?;
    if search.is_ended {
        return Ok(Attempt::GaveUp);
    }
    match failure {
        Some(failure) => Ok(Attempt::Fails(failure)),
        None => Ok(Attempt::Holds),
    }
}

/// The candidates of a scope of which a conjunct may be made.
fn candidates_for(
    alloc: Global,
    source: &[u8],
    read: &ReadOutline,
    part: usize,
    family: &FamilyAtoms,
) -> Result<Alive, AllocError> {
    let mut alive = candidates_of(alloc, family)?;
    for (atom, _) in family.atoms.atoms.iter().enumerate() {
        if has_own_name(source, &read.written, part, family.atoms.texts.at(atom)) {
            alive.leave_out(atom, &family.premises);
        }
    }
    Ok(alive)
}

impl<P: Watcher + Copy> Strengthening<'_, P> {
    /// Takes the candidates of each part, but for those that are false in a state that was met.
    fn begin(&mut self, met: &[Vec<Bits>]) -> Result<(), AllocError> {
        for (scope, family) in self
            .subject
            .base
            .scopes
            .iter()
            .zip(&self.subject.tried.families)
        {
            let is_whole = scope.round.is_none();
            self.alive.push(if is_whole {
                candidates_for(self.alloc, self.source, self.read, scope.part, family)?
            } else {
                Alive::new(self.alloc, 0, &Bits::new(self.alloc, 0, false)?)?
            })?;
        }
        for truths in met {
            self.keep_true(truths);
        }
        Ok(())
    }

    /// Takes away what is false in a state.
    fn keep_true(&mut self, truths: &[Bits]) {
        for (place, (instance, truth)) in self
            .subject
            .tried
            .instances
            .iter()
            .zip(truths)
            .enumerate()
        {
            if let Some(alive) = self.alive.get_mut(instance.scope) {
                alive.keep_true(truth, self.subject.tried.premises_of(place));
            }
        }
    }

    /// The outline with the conjuncts.
    fn outline(&self) -> Result<Vec<u8>, AllocError> {
        let completion = self.completion()?;
        Ok(completion.source)
    }

    /// The outline with the conjuncts, and these.
    fn completion(&self) -> Result<Completion, AllocError> {
        let (alloc, base) = (self.alloc, &self.subject.base);
        let mut texts = Texts::new(alloc);
        for conjunct in &self.chosen {
            if let (Some(family), Some(scope)) = (
                self.subject.tried.families.get(conjunct.scope),
                base.scopes.get(conjunct.scope),
            ) {
                let formula = assertion(alloc, family, &[conjunct.candidate])?;
                let written = &self.read.written;
                let text = said_of_all(alloc, self.source, written, scope.part, &formula)?;
                texts.push(&text)?;
            }
        }
        let made = with_conjuncts(alloc, self.source, &self.read.written, &texts)?;
        let conjuncts = added_in(alloc, &made, &texts)?;
        Ok(Completion {
            source: made.source,
            assertions: Vec::new(alloc),
            conjuncts,
            relies: Vec::new(alloc),
        })
    }

    /// The cheapest candidate that is false in a state.
    fn choose(&self, state: &[u64]) -> Result<Option<Conjunct>, AllocError> {
        let mut best: Option<Chosen> = None;
        for instance in &self.subject.tried.instances {
            if let (Some(alive), Some(family)) = (
                self.alive.get(instance.scope),
                self.subject.tried.families.get(instance.scope),
            ) {
                let truth = instance.truth(self.alloc, state)?;
                if let Some(chosen) = cheapest(alive, family, &truth, instance.scope)
                    && best.is_none_or(|best| chosen.cost < best.cost)
                {
                    best = Some(chosen);
                }
            }
        }
        Ok(best.map(|chosen| Conjunct {
            scope: chosen.place,
            candidate: chosen.candidate,
        }))
    }

    /// Lets go of the conjuncts that are false in a state; whether there are such.
    fn drop_false(&mut self, state: &[u64]) -> Result<bool, AllocError> {
        let mut truths = Vec::new(self.alloc);
        for instance in &self.subject.tried.instances {
            truths.push(instance.truth(self.alloc, state)?)?;
        }
        self.keep_true(&truths);
        let count = self.chosen.len();
        let mut kept = Vec::new(self.alloc);
        for conjunct in &self.chosen {
            let alive = self.alive.get(conjunct.scope);
            if alive.is_some_and(|alive| alive.has(conjunct.candidate)) {
                kept.push(*conjunct)?;
            }
        }
        self.chosen = kept;
        Ok(self.chosen.len() < count)
    }

    /// Lets go of the last conjunct for good; whether there is one.
    fn drop_last(&mut self) -> bool {
        let Some(last) = self.chosen.pop() else {
            return false;
        };
        if let Some(alive) = self.alive.get_mut(last.scope) {
            alive.put(last.candidate, false);
        }
        true
    }

    /// Goes on after a condition that no assertion makes hold: with a conjunct more, or with fewer; whether it can.
    fn go_on(&mut self, failure: &Failure) -> Result<bool, AllocError> {
        match self.choose(&failure.state)? {
            Some(conjunct) if !self.chosen.contains(&conjunct) => {
                self.chosen.push(conjunct)?;
                Ok(true)
            }
            _ => self.drop_false(&failure.next),
        }
    }

    /// Adds conjuncts until assertions make all conditions hold; whether they do.
    fn strengthen(&mut self) -> Result<bool, Refusal> {
        for _ in 0..MOST_TRIES {
            let source = self.outline()?;
            let goes_on = match attempted(self.alloc, &source, self.watcher)? {
                Attempt::Holds => return Ok(true),
                Attempt::Fails(failure) => self.go_on(&failure)?,
                Attempt::Refused => self.drop_last(),
                Attempt::GaveUp => false,
            };
            if !goes_on {
                return Ok(false);
            }
        }
        Ok(false)
    }

    /// Leaves out each conjunct without which assertions make all conditions hold, the last first.
    fn thin(&mut self) -> Result<(), Refusal> {
        let all = Vec::from_slice(self.alloc, &self.chosen)?;
        for conjunct in all.iter().rev() {
            let before = Vec::from_slice(self.alloc, &self.chosen)?;
            self.chosen.retain(|one: &Conjunct| *one != *conjunct);
            let source = self.outline()?;
            if !matches!(
                attempted(self.alloc, &source, self.watcher)?,
                Attempt::Holds
            ) {
                self.chosen = before;
            }
        }
        Ok(())
    }
}

/// The outline with conjuncts of its invariant; nothing where none make all conditions hold.
fn strengthened<P: Watcher + Copy>(
    alloc: Global,
    outlined: &Outlined<'_>,
    watcher: P,
) -> Result<Option<Completion>, Refusal> {
    let source = outlined.outline.source;
    let Some(subject) = Subject::of(alloc, source, outlined.read, watcher)? else {
        return Ok(None);
    };
    let Begun { met, .. } = subject.begin(alloc, watcher)?;
    let mut strengthening = Strengthening {
        alloc,
        watcher,
        source,
        read: outlined.read,
        subject: &subject,
        alive: Vec::new(alloc),
        chosen: Vec::new(alloc),
    };
    strengthening.begin(&met)?;
    if !strengthening.strengthen()? {
        return Ok(None);
    }
    strengthening.thin()?;
    Ok(Some(strengthening.completion()?))
}

/// Searches for assertions that an outline lacks to which this was added; where none are found, what is reported is so of the outline as it stands.
pub(crate) fn complete_over<R: Threads + Wait + Sync, P: Watcher + Copy + Sync>(
    context: &Context<'_, R, P>,
    outlined: &Outlined<'_>,
    added: Completion,
    steps: u64,
) -> Result<Completed, Refusal> {
    let alloc = context.alloc;
    let Completion {
        source,
        conjuncts,
        relies,
        ..
    } = added;
    let outline = OutlineSource {
        source: &source,
        ..outlined.outline
    };
    let Some(read) = unless_refused(read_outline(alloc, outline))? else {
        return complete(context, outlined, steps);
    };
    let Some(made) = unless_refused(Outlined::of(alloc, outline, &read))? else {
        return complete(context, outlined, steps);
    };
    match complete(context, &made, steps)? {
        Completed::Found(found) => Ok(Completed::Found(Completion {
            source: found.source,
            assertions: found.assertions,
            conjuncts,
            relies,
        })),
        _ => complete(context, outlined, steps),
    }
}

/// Searches for conjuncts of the invariant and for assertions that an outline lacks. Where none are found, what is reported is so of the outline as it stands.
///
/// # Errors
///
/// Where memory is refused, or where more decisions are asked than a search may make.
pub fn complete_with_invariant<R: Threads + Wait + Sync, P: Watcher + Copy + Sync>(
    context: &Context<'_, R, P>,
    outlined: &Outlined<'_>,
    steps: u64,
) -> Result<Completed, Refusal> {
    match strengthened(context.alloc, outlined, *context.watcher)? {
        Some(stronger) => complete_over(context, outlined, stronger, steps),
        None => complete(context, outlined, steps),
    }
}
