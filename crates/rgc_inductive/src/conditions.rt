//! The conditions of an outline in which nothing is known at the places where no assertion is written, and what each asks of these places.

use crate::elaborated::Tried;
use crate::reached::Reached;
use rg_complete::{Filled, Scope, Slot, Slots, fill, slots_of, some_word};
use rg_outline_reports::{
    Demand, Format, Member, NoFiles, Obligation, OutlineSource, Outlined, Places, ReadOutline,
    Spot, pieces_of, read_outline,
};
use rg_outline_syntax::{Span, Texts};
use rg_tree::condition::Condition;
use rg_words::{Refusal, RefusalNumber};
use rgc::derive_program;
use std::alloc::{AllocError, Global};

/// An assertion of a part: its place, and the formulas that are tried there. At first, in their stead, the round of a `for` in which it stands.
#[derive(Clone, Copy, PartialEq, Eq)]
pub struct Stand {
    pub place: usize,
    pub instance: usize,
}

/// A condition, and what it asks: of which part, and of which assertions.
#[derive(Clone, Copy)]
pub struct Duty {
    pub condition: usize,
    pub demand: Demand,
    pub part: usize,
    pub given: Option<Stand>,
    pub due: Option<Stand>,
}

/// The conditions, and the places of which they speak: first those at which no assertion is written.
#[derive(Drop)]
pub struct Base {
    pub slots: Vec<Slot>,
    /// The byte of the outline that each place is about: of a place with an assertion, where that is written.
    pub nears: Vec<usize>,
    pub scopes: Vec<Scope>,
    pub conditions: Vec<Condition>,
    pub duties: Vec<Duty>,
    pub members: Vec<Member>,
    /// The assertion at the end of each part.
    pub ends: Vec<Stand>,
    /// The words as the outline has them.
    pub words: Vec<Vec<u8>>,
}

/// An outline without a name, whose faults nobody reads.
pub fn nameless(source: &[u8]) -> OutlineSource<'_> {
    OutlineSource {
        name: "",
        source,
        fault: None,
        format: Format::Plain,
        has_warnings: false,
    }
}

/// What was made of an outline; nothing where it is refused.
pub fn unless_refused<T>(made: Result<T, NoFiles>) -> Result<Option<T>, AllocError> {
    match made {
        Ok(made) => Ok(Some(made)),
        Err(NoFiles::Reported(_)) => Ok(None),
        Err(NoFiles::Memory) => Err(AllocError),
    }
}

/// Formulas that are true and differ from one another, one for each place.
fn true_formulas(alloc: Global, word: &[u8], count: usize) -> Result<Texts, AllocError> {
    let mut texts = Texts::new(alloc);
    let mut text = Vec::new(alloc);
    for _ in 0..count {
        if !text.is_empty() {
            text.extend_from_slice(b" or ")?;
        }
        text.extend_from_slice(word)?;
        text.extend_from_slice(b" <= ")?;
        text.extend_from_slice(word)?;
        texts.push(&text)?;
    }
    Ok(texts)
}

/// Where an assertion is, whose place is added where it is a new one.
fn stand_of(places: &mut Vec<Span>, spot: Spot) -> Result<Stand, AllocError> {
    let known = places
        .iter()
        .position(|known| known.start == spot.span.start);
    let place = known.unwrap_or(places.len());
    if known.is_none() {
        places.push(spot.span)?;
    }
    Ok(Stand {
        place,
        instance: spot.round,
    })
}

/// Where an assertion is, if there is one.
fn stand_if(places: &mut Vec<Span>, spot: Option<Spot>) -> Result<Option<Stand>, AllocError> {
    match spot {
        Some(spot) => Ok(Some(stand_of(places, spot)?)),
        None => Ok(None),
    }
}

/// Whether it is asked already that others keep what is written there.
fn is_asked(duties: &[Duty], duty: Duty) -> bool {
    duty.demand == Demand::Stable
        && duties.iter().any(|known| {
            known.demand == Demand::Stable && known.part == duty.part && known.given == duty.given
        })
}

/// What the conditions ask, by places and rounds.
fn duties_of(
    alloc: Global,
    obligations: &[Obligation],
    places: &mut Vec<Span>,
) -> Result<Vec<Duty>, AllocError> {
    let mut duties = Vec::new(alloc);
    for (condition, obligation) in obligations.iter().enumerate() {
        let duty = Duty {
            condition,
            demand: obligation.demand,
            part: obligation.part,
            given: stand_if(places, obligation.given)?,
            due: stand_if(places, obligation.due)?,
        };
        if !is_asked(&duties, duty) {
            duties.push(duty)?;
        }
    }
    Ok(duties)
}

/// The conditions of an outline that was worked out, with the formulas of these places.
fn base_of(
    alloc: Global,
    outlined: &Outlined<'_>,
    slots: Slots,
    made: &Filled,
) -> Result<Option<Base>, Refusal> {
    let pieces = pieces_of(alloc, &outlined.files)?;
    let derived = match derive_program(alloc, &outlined.files.text, &pieces) {
        Ok(derived) => derived,
        Err(refusal) if refusal.number == RefusalNumber::Memory => return Err(refusal),
        Err(_) => return Ok(None),
    };
    let conditions = derived.conditions(alloc)?;
    let mut places = Vec::from_slice(alloc, &made.spans)?;
    let duties = duties_of(alloc, &outlined.obligations()?, &mut places)?;
    let members = outlined.members()?;
    let mut ends = Vec::new(alloc);
    for member in &members {
        ends.push(stand_of(&mut places, member.end)?)?;
    }
    let Slots { slots, scopes } = slots;
    let mut nears = Vec::new(alloc);
    for (place, span) in places.iter().enumerate() {
        match slots.get(place) {
            Some(slot) => nears.push(slot.near)?,
            None => nears.push(made.origin(span.start))?,
        }
    }
    let Places { words, .. } = outlined.places()?;
    Ok(Some(Base {
        slots,
        nears,
        scopes,
        conditions,
        duties,
        members,
        ends,
        words,
    }))
}

impl Duty {
    /// The formulas that are tried where it leads; none where it leads nowhere.
    pub(crate) fn leads_to(self) -> usize {
        self.due.map_or(usize::MAX, |due| due.instance)
    }
}

/// A round: the part, the scope, and its number.
type Round = (usize, usize, usize);

impl Base {
    /// The scope of a place; none where it has no assertion to be found.
    fn scope_of(&self, stand: Stand) -> usize {
        self.slots
            .get(stand.place)
            .map_or(usize::MAX, |slot| slot.scope)
    }

    /// The rounds in which assertions stand, each once and in order.
    fn rounds(&self, alloc: Global) -> Result<Vec<Round>, AllocError> {
        let mut rounds = Vec::new(alloc);
        for duty in &self.duties {
            if let Some(stand) = duty.given {
                rounds.push((duty.part, self.scope_of(stand), stand.instance))?;
            }
            if let Some(stand) = duty.due {
                rounds.push((duty.part, self.scope_of(stand), stand.instance))?;
            }
        }
        for (part, stand) in self.ends.iter().enumerate() {
            rounds.push((part, self.scope_of(*stand), stand.instance))?;
        }
        rounds.sort_unstable();
        rounds.dedup();
        Ok(rounds)
    }

    /// An assertion of a part with its formulas in place of its round: those of its scope in the round of the same rank.
    fn located(&self, rounds: &[Round], tried: &Tried, part: usize, stand: Stand) -> Stand {
        let scope = self.scope_of(stand);
        let rank = rounds
            .iter()
            .filter(|round| round.0 == part && round.1 == scope && round.2 < stand.instance)
            .count();
        let mut before = 0usize;
        for (instance, known) in tried.instances.iter().enumerate() {
            if known.part == part && known.scope == scope {
                if before == rank {
                    return Stand { instance, ..stand };
                }
                before = before.saturating_add(1);
            }
        }
        Stand {
            instance: usize::MAX,
            ..stand
        }
    }

    /// Gives each assertion its formulas in place of its round, and those at which parts were seen to be.
    pub(crate) fn locate(
        &mut self,
        alloc: Global,
        tried: &Tried,
        reached: &mut [Reached],
    ) -> Result<(), AllocError> {
        let rounds = self.rounds(alloc)?;
        for reached in reached.iter_mut() {
            for (part, stand) in reached.places.iter_mut().enumerate() {
                *stand = self.located(&rounds, tried, part, *stand);
            }
        }
        let mut duties = Vec::new(alloc);
        for duty in &self.duties {
            let part = duty.part;
            duties.push(Duty {
                given: duty
                    .given
                    .map(|stand| self.located(&rounds, tried, part, stand)),
                due: duty
                    .due
                    .map(|stand| self.located(&rounds, tried, part, stand)),
                ..*duty
            })?;
        }
        let mut ends = Vec::new(alloc);
        for (part, stand) in self.ends.iter().enumerate() {
            ends.push(self.located(&rounds, tried, part, *stand))?;
        }
        self.duties = duties;
        self.ends = ends;
        Ok(())
    }
}

/// The conditions of an outline; nothing where it has no word, or can't be worked out.
///
/// # Errors
///
/// Only where memory is refused.
pub(crate) fn conditions_of(
    alloc: Global,
    source: &[u8],
    read: &ReadOutline,
) -> Result<Option<Base>, Refusal> {
    let slots = slots_of(alloc, source, &read.tokens, &read.written)?;
    let Some(word) = some_word(alloc, source, &read.written)? else {
        return Ok(None);
    };
    let formulas = true_formulas(alloc, &word, slots.slots.len())?;
    let made = fill(alloc, source, &slots.slots, &formulas)?;
    let outline = nameless(&made.source);
    let Some(written) = unless_refused(read_outline(alloc, outline))? else {
        return Ok(None);
    };
    match unless_refused(Outlined::of(alloc, outline, &written))? {
        Some(outlined) => base_of(alloc, &outlined, slots, &made),
        None => Ok(None),
    }
}
