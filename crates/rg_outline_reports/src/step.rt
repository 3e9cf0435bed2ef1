//! What is reported of a step that loses an assertion, or that isn't inside the guarantee.

use crate::broken::{Owner, broken_by};
use crate::falsity::{Falsity, Finding};
use crate::reports::{Cause, Moved, Reports};
use crate::show::{assigned_index, push_shown};
use crate::template::Gap::{Clipped, LineOf, Part};
use crate::values::{Moment, Values, is_true};
use crate::words::Words;
use rg_outline::{Assertion, Expansion, Line, Origin, Statement};
use rg_outline_syntax::Span;
use std::alloc::AllocError;

/// A step of a line's statement from a state.
#[derive(Clone, Copy)]
struct Step<'s> {
    line: &'s Line,
    statement: Statement,
    moment: Moment<'s>,
}

/// The state after a step's assignments.
fn after(
    expansion: &Expansion<'_>,
    statement: Statement,
    before: &[u64],
) -> Result<Vec<u64>, AllocError> {
    let mut now = Vec::from_slice(expansion.scope.alloc, before)?;
    for update in expansion.updates_of(statement.updates) {
        let values = Values::of(expansion, update.value, Moment::at(&now))?;
        let value = values.value(&expansion.scope.forest, update.value);
        if let Some(slot) = now.get_mut(update.word) {
            *slot = value;
        }
    }
    Ok(now)
}

impl<'s> Step<'s> {
    /// Adds the words that it assigns; of members of which an index chooses one, the words of the index and those that change.
    fn add_words(self, expansion: &Expansion<'_>, words: &mut Words) -> Result<(), AllocError> {
        for update in expansion.updates_of(self.statement.updates) {
            let (before, after) = self.moment.of(update.word);
            let index = assigned_index(expansion, update.value);
            if let Some(index) = index {
                words.add_tree(expansion, index)?;
            }
            if index.is_none() || before != after {
                words.add(update.word)?;
            }
        }
        Ok(())
    }

    /// What is false of it.
    fn finding(self, cause: Cause, what: Span) -> Finding<'s> {
        let at = self.statement.span;
        Finding {
            cause,
            at,
            what,
            place: at,
            line: Some(self.line),
            moved: Moved::Step,
            moment: self.moment,
        }
    }
}

/// Reports a step that loses the invariant, or else the assertion after it, if that is given.
fn report_lost(
    reports: &mut Reports<'_>,
    step: Step<'_>,
    due: Option<Assertion>,
) -> Result<bool, AllocError> {
    let expansion = reports.expansion;
    let formula = due.map_or(expansion.specification.invariant, |due| due.full);
    let mut falsity = Falsity::of(expansion, formula, Moment::at(step.moment.after))?;
    step.add_words(expansion, &mut falsity.words)?;
    let mut shown = Vec::new(expansion.scope.alloc);
    let (cause, template, place) = match due {
        None => (
            Cause::Lost,
            "this step can lose the invariant, line $0",
            falsity.outermost(expansion),
        ),
        Some(due) if due.origin == Origin::Written => {
            push_shown(expansion, &mut shown, due.own, 0, true)?;
            let template = "after this step the assertion of line $0 can be false: { $1 }";
            (Cause::Lost, template, due.span)
        }
        Some(due) => (
            Cause::Carried,
            "no assertion stands after this step, and the one of line $0 can be false then",
            due.span,
        ),
    };
    let finding = step.finding(cause, falsity.span(expansion));
    falsity.report(
        reports,
        finding,
        template,
        &[LineOf(place), Clipped(&shown)],
    )
}

/// Reports a step that isn't inside the guarantee.
fn report_outside(reports: &mut Reports<'_>, step: Step<'_>) -> Result<bool, AllocError> {
    let expansion = reports.expansion;
    let (formula, owner) = broken_by(expansion, step.line.part, step.moment)?;
    let mut falsity = Falsity::of(expansion, formula, step.moment)?;
    step.add_words(expansion, &mut falsity.words)?;
    let mut place = expansion.scope.forest.span(formula);
    if place.start == place.end {
        place = falsity.span(expansion);
    }
    let (template, part) = match owner {
        Owner::Rely(part) => ("this step can break the rely of $1, line $0", part),
        Owner::Guar(part) => ("this step can break $1's own guar, line $0", part),
        Owner::Whole => ("this step can break the guarantee, line $0", 0),
        Owner::Program | Owner::Invariant => {
            ("this step can break the program's guar, line $0", 0)
        }
    };
    let finding = step.finding(Cause::Outside, place);
    falsity.report(reports, finding, template, &[LineOf(place), Part(part)])
}

/// Reports a step from this state that doesn't lead to the assertion after it, or isn't inside the guarantee.
pub(crate) fn report_step<'s>(
    reports: &mut Reports<'_>,
    line: &'s Line,
    before: &'s [u64],
    is_reach: bool,
) -> Result<bool, AllocError> {
    let expansion = reports.expansion;
    let statement = expansion.statement(line.statement);
    let after = after(expansion, statement, before)?;
    let step = Step {
        line,
        statement,
        moment: Moment::between(before, &after),
    };
    let invariant = expansion.specification.invariant;
    if !is_true(expansion, invariant, Moment::at(&after))? {
        return report_lost(reports, step, None);
    }
    if is_reach {
        return report_lost(reports, step, Some(line.after));
    }
    report_outside(reports, step)
}
