//! Reports: each cause once, with its place and what is said of it.

use crate::template::{Gap, filled};
use crate::written::is_same_place;
use rg_outline::Expansion;
use rg_outline_syntax::Span;
use std::alloc::AllocError;

/// What kind of cause it is.
#[derive(Clone, Copy, PartialEq, Eq)]
pub(crate) enum Cause {
    /// A step that loses the invariant, or the assertion after it.
    Lost,
    /// A step past which an assertion is carried on that it doesn't give, as none is written after it. Often another report explains it.
    Carried,
    /// A step that isn't inside the guarantee.
    Outside,
    /// An assertion that a step of others can make false.
    Unstable,
    /// A loop whose end doesn't give the assertion after it.
    Exit,
    /// An assertion that doesn't follow from the one before it.
    Consequence,
    /// A condition of the parallel parts.
    Parallel,
    /// A condition for which there is no proof.
    Unproved,
    /// A start that isn't in the pre.
    OutsidePre,
    Warned(Warning),
}

/// What a warning is about.
#[derive(Clone, Copy, PartialEq, Eq)]
pub(crate) enum Warning {
    /// No state meets the pre.
    PreUnmet,
    /// The post is `false`.
    PostFalse,
    /// What is promised speaks of auxiliary words alone.
    AuxiliaryAlone,
    /// A rely that allows no change, although others have steps.
    NoChange,
    /// A promise that is true in all states.
    PromisesNothing,
    /// A quantifier or a sum in a promise, over no number.
    EmptyRange,
    /// A sum that can be greater than its width allows.
    SumWraps,
    /// A test that is always true or always false.
    AsksNothing,
    /// A step or a test outside `atomic` that uses words several times which others use.
    SharedWords,
    /// An index over words that can be outside its range.
    IndexOutside,
    /// A name or a word that nothing uses.
    Unused,
    /// A mark that says of no warning that it is meant.
    MarkUnmet,
    /// A run in which no part can go on, though not all have ended.
    Stuck,
}

/// What makes two conditions fail for one cause: its kind, where it is, and what is false.
#[derive(Clone, Copy)]
pub(crate) struct Key {
    pub(crate) cause: Cause,
    pub(crate) at: Span,
    pub(crate) what: Span,
}

/// Of what the values are that a report gives.
#[derive(Clone, Copy, PartialEq, Eq)]
pub(crate) enum Moved {
    /// No values are given.
    Nothing,
    State,
    Step,
    StepOfOthers,
}

/// What a detail of a report is.
#[derive(Clone, Copy, PartialEq, Eq)]
pub(crate) enum DetailKind {
    /// The first conjunct that is false.
    Conjunct,
    /// A premise that holds.
    Premise,
    /// What a name stands for that the conjunct uses.
    Meaning,
    /// A name within which the conjunct stands.
    Name,
    /// What would help.
    Hint,
}

/// What a report has besides its sentence.
#[derive(Drop)]
pub(crate) struct Detail {
    pub(crate) kind: DetailKind,
    pub(crate) text: Vec<u8>,
    /// Where what a name names stands; else nowhere.
    pub(crate) place: Span,
}

/// A word with its values.
#[derive(Clone, Copy)]
pub(crate) struct Valued {
    pub(crate) word: usize,
    pub(crate) before: u64,
    pub(crate) after: u64,
}

/// A report.
#[derive(Drop)]
pub(crate) struct Report {
    pub(crate) key: Key,
    pub(crate) place: Span,
    /// The parts that meet the cause.
    pub(crate) parts: Vec<usize>,
    /// What is wrong.
    pub(crate) sentence: Vec<u8>,
    pub(crate) details: Vec<Detail>,
    pub(crate) moved: Moved,
    pub(crate) values: Vec<Valued>,
    /// Whether a mark of the outline says that it is meant: then it isn't printed.
    pub(crate) is_meant: bool,
}

/// What a report says to be false: a formula as the text spells it, and the values of all words in the two states in which it is.
#[derive(Drop)]
pub struct Claim {
    pub formula: Vec<u8>,
    pub before: Vec<u64>,
    pub after: Vec<u64>,
}

/// The reports of an outline so far, in the order in which they were made.
#[derive(Drop)]
pub(crate) struct Reports<'e> {
    pub(crate) expansion: &'e Expansion<'e>,
    pub(crate) listed: Vec<Report>,
    /// What the reports say to be false.
    pub(crate) claims: Vec<Claim>,
}

fn is_same(first: Key, second: Key) -> bool {
    first.cause == second.cause
        && is_same_place(first.at, second.at)
        && is_same_place(first.what, second.what)
}

impl<'e> Reports<'e> {
    /// No reports.
    pub(crate) fn new(expansion: &'e Expansion<'e>) -> Reports<'e> {
        Reports {
            expansion,
            listed: Vec::new(expansion.scope.alloc),
            claims: Vec::new(expansion.scope.alloc),
        }
    }

    /// Reports a cause, or, where it is reported already, that this part meets it too. Whether it is reported for the first time: then what
    /// else there is of it comes next.
    pub(crate) fn put(
        &mut self,
        key: Key,
        place: Span,
        part: Option<usize>,
        template: &str,
        gaps: &[Gap<'_>],
    ) -> Result<bool, AllocError> {
        for report in self.listed.iter_mut() {
            if is_same(report.key, key) {
                report.add_part(part)?;
                return Ok(false);
            }
        }
        let alloc = self.expansion.scope.alloc;
        let sentence = filled(self.expansion, template, gaps)?;
        let mut report = Report {
            key,
            place,
            parts: Vec::new(alloc),
            sentence,
            details: Vec::new(alloc),
            moved: Moved::Nothing,
            values: Vec::new(alloc),
            is_meant: false,
        };
        report.add_part(part)?;
        self.listed.push(report)?;
        Ok(true)
    }

    /// Gives the last report its details, and values of words.
    pub(crate) fn explain(&mut self, details: Vec<Detail>, moved: Moved, values: Vec<Valued>) {
        if let Some(report) = self.listed.last_mut() {
            report.details = details;
            report.moved = moved;
            report.values = values;
        }
    }

    /// Adds a hint to the last report.
    pub(crate) fn hint(&mut self, template: &str, gaps: &[Gap<'_>]) -> Result<(), AllocError> {
        let text = filled(self.expansion, template, gaps)?;
        if let Some(report) = self.listed.last_mut() {
            report.details.push(Detail {
                kind: DetailKind::Hint,
                text,
                place: Span::NOWHERE,
            })?;
        }
        Ok(())
    }

    /// The reports but for those that are meant, in the order of their places, and of their making where these are the same; those of assertions that
    /// are carried on come last.
    pub(crate) fn ordered(&self) -> Result<Vec<&Report>, AllocError> {
        let mut ordered = Vec::new(self.expansion.scope.alloc);
        for report in &self.listed {
            if !report.is_meant {
                ordered.push(report)?;
            }
        }
        ordered.sort_by_key(|report: &&Report| {
            let is_last = report.key.cause == Cause::Carried;
            (is_last, report.place.start, report.place.end)
        })?;
        Ok(ordered)
    }
}

impl Report {
    /// Adds a part that meets the cause, where it isn't there.
    fn add_part(&mut self, part: Option<usize>) -> Result<(), AllocError> {
        if let Some(part) = part
            && !self.parts.iter().any(|known| *known == part)
        {
            self.parts.push(part)?;
        }
        Ok(())
    }
}
