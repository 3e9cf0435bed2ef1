//! Whose formula a step breaks, and what is false where a run breaks the specification.

use crate::falsity::Falsity;
use crate::reports::{Detail, DetailKind};
use crate::template::Gap::Part;
use crate::template::filled;
use crate::values::{Moment, first_false, is_true, values_of};
use rg_outline::Expansion;
use rg_walk::{BreakingRun, Broken};
use std::alloc::AllocError;

/// Whose formula is false.
#[derive(Clone, Copy, PartialEq, Eq)]
pub(crate) enum Owner {
    /// The program's guar or post.
    Program,
    Invariant,
    /// What this part relies on.
    Rely(usize),
    /// What this part promises by its own guar.
    Guar(usize),
    /// All that a part promises together.
    Whole,
}

/// What a step of a part breaks, and whose it is: what another part relies on, or else the program's guar, or else a promise of its own.
pub(crate) fn broken_by(
    expansion: &Expansion<'_>,
    part: usize,
    step: Moment<'_>,
) -> Result<(usize, Owner), AllocError> {
    for (index, other) in expansion.parts.iter().enumerate() {
        if index != part
            && let Some(clause) = first_false(expansion, other.relied, step)?
        {
            return Ok((clause, Owner::Rely(index)));
        }
    }
    let guar = expansion.specification.guar;
    match expansion.parts.get(part) {
        Some(own) if is_true(expansion, guar, step)? => {
            match first_false(expansion, own.promised, step)? {
                Some(clause) => Ok((clause, Owner::Guar(part))),
                None => Ok((own.guar, Owner::Whole)),
            }
        }
        _ => Ok((guar, Owner::Program)),
    }
}

/// What a run breaks, and what is false there: a conjunct, the premises that hold, the names within which it stands, and then whose formula it is,
/// where that isn't said before.
#[derive(Drop)]
pub(crate) struct Breach {
    pub(crate) breaks: Breaks,
    pub(crate) details: Vec<Detail>,
}

/// What a run breaks.
#[derive(Clone, Copy)]
pub(crate) enum Breaks {
    /// The program's guar or post.
    Specification,
    /// The invariant, and not the specification.
    Invariant,
    /// What a part promises to the others or by its own guar, and neither the specification nor the invariant.
    Part,
}

/// What a run breaks whose last step is this one, by which formula, whose that is, and the states in which it is false: the last step, or the state after
/// that.
fn due_of<'m>(
    expansion: &Expansion<'_>,
    run: &BreakingRun,
    step: Moment<'m>,
) -> Result<(Breaks, usize, Owner, Moment<'m>), AllocError> {
    let specification = expansion.specification;
    let state = Moment::at(step.after);
    let invariant = specification.invariant;
    match run.broken {
        Broken::Post => Ok((
            Breaks::Specification,
            specification.post,
            Owner::Program,
            state,
        )),
        Broken::Guarantee => Ok((
            Breaks::Specification,
            specification.guar,
            Owner::Program,
            step,
        )),
        Broken::OwnGuarantee if is_true(expansion, invariant, state)? => {
            let who = run.steps.last().map_or(0, |step| step.who);
            let (formula, owner) = broken_by(expansion, who.saturating_sub(1), step)?;
            Ok((Breaks::Part, formula, owner, step))
        }
        Broken::OwnGuarantee => Ok((Breaks::Invariant, invariant, Owner::Invariant, state)),
    }
}

impl Breach {
    /// What a run breaks in its last step.
    fn at(
        expansion: &Expansion<'_>,
        run: &BreakingRun,
        step: Moment<'_>,
    ) -> Result<Breach, AllocError> {
        let (breaks, formula, owner, moment) = due_of(expansion, run, step)?;
        let falsity = Falsity::of(expansion, formula, moment)?;
        let mut details = falsity.details(expansion)?;
        let (template, part) = match owner {
            Owner::Program | Owner::Whole => return Ok(Breach { breaks, details }),
            Owner::Invariant => ("the invariant", 0),
            Owner::Rely(part) => ("the rely of $0", part),
            Owner::Guar(part) => ("the own guar of $0", part),
        };
        // (a formula that is made of several has no place of its own)
        let mut place = expansion.scope.forest.span(formula);
        if place.start == place.end {
            place = falsity.outermost(expansion);
        }
        details.push(Detail {
            kind: DetailKind::Name,
            text: filled(expansion, template, &[Part(part)])?,
            place,
        })?;
        Ok(Breach { breaks, details })
    }

    /// What a run breaks.
    pub(crate) fn of(expansion: &Expansion<'_>, run: &BreakingRun) -> Result<Breach, AllocError> {
        let alloc = expansion.scope.alloc;
        let last = run.steps.len().saturating_sub(1);
        let first = last.checked_sub(1).and_then(|place| run.steps.get(place));
        let before = values_of(alloc, first.map_or(&run.start, |step| &step.after))?;
        let after = run.steps.get(last).map_or(&run.start, |step| &step.after);
        let after = values_of(alloc, after)?;
        Breach::at(expansion, run, Moment::between(&before, &after))
    }
}
