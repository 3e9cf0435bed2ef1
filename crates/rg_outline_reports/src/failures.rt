//! Conditions that aren't proved, each in the terms of the outline.

use crate::asked::{Asked, OfLine, OfParts, conditions_of};
use crate::conditions::{asked_of_parts, condition_sentence, given_and_due, place_of};
use crate::draw::{push_reports, push_sentence_of};
use crate::falsity::{Falsity, Finding};
use crate::files::Format;
use crate::json::JsonObject;
use crate::reports::{Cause, Claim, Key, Moved, Reports};
use crate::steady::report_unstable;
use crate::step::report_step;
use crate::template::Gap::{Counted, LineOf, Text};
use crate::template::fill;
use crate::values::{Moment, values_of};
use rg_outline::{Action, BlockRow, Expansion, Line, Origin};
use rg_outline_syntax::Span;
use rg_words::State;
use std::alloc::AllocError;

/// What is known of a condition that isn't proved.
#[derive(Clone, Copy)]
pub enum Failing<'s> {
    /// It is false in these states; there is a second one where it speaks of two.
    At(&'s State, Option<&'s State>),
    /// It is false; in which states isn't said.
    False,
    /// The search gave up.
    Unproved,
    /// Its proof doesn't fit into a proofs file.
    TooLarge,
}

/// A condition that isn't proved.
#[derive(Clone, Copy)]
pub struct Failed<'s> {
    /// Its number, from 1.
    pub number: usize,
    pub failing: Failing<'s>,
}

/// Reports a loop that ends in a state in which the assertion after it is false.
fn report_exit(
    reports: &mut Reports<'_>,
    line: &Line,
    moment: Moment<'_>,
) -> Result<bool, AllocError> {
    let expansion = reports.expansion;
    let statement = expansion.statement(line.statement);
    let mut falsity = Falsity::of(expansion, line.post, moment)?;
    falsity.words.add_tree(expansion, statement.test)?;
    let finding = Finding {
        cause: Cause::Exit,
        at: statement.span,
        what: falsity.span(expansion),
        place: statement.span,
        line: Some(line),
        moved: Moved::State,
        moment,
    };
    let template = "where this loop ends, the assertion of line $0 can be false";
    falsity.report(reports, finding, template, &[LineOf(line.after.span)])
}

/// Whether a statement stands in a block, not deeper.
fn has_statement(expansion: &Expansion<'_>, block: usize, statement: usize) -> bool {
    let rows = expansion.rows_of(expansion.block(block).rows);
    rows.iter().any(|row| matches!(*row, BlockRow::Statement(index) if index == statement))
}

/// The `if` in one of whose branches a statement stands, not deeper.
fn if_around(expansion: &Expansion<'_>, inner: usize) -> Option<Span> {
    for statement in &expansion.statements {
        let (yes, no) = statement.blocks;
        if statement.action == Action::If
            && (has_statement(expansion, yes, inner) || has_statement(expansion, no, inner))
        {
            return Some(statement.span);
        }
    }
    None
}

/// Reports an assertion that doesn't follow from what holds before it. Where none is written after an `if`, it is the one that is carried on past it,
/// and doesn't hold at the end of a branch.
fn report_consequence(
    reports: &mut Reports<'_>,
    line: &Line,
    moment: Moment<'_>,
    is_before: bool,
) -> Result<bool, AllocError> {
    let expansion = reports.expansion;
    let (given, due) = given_and_due(expansion, line, is_before);
    let falsity = Falsity::of(expansion, due.full, moment)?;
    let inner = falsity.place(expansion, due.span);
    let (place, template) = match if_around(expansion, line.statement) {
        Some(choice) if !is_before && due.origin == Origin::Carried => (
            choice,
            "no assertion stands after this `if`, and the one of line $1, which is carried on, can be false then",
        ),
        _ if given.origin == Origin::Carried => (
            inner,
            "this assertion doesn't follow from what holds before it (line $0, carried on)",
        ),
        _ => (
            inner,
            "this assertion doesn't follow from what holds before it (line $0)",
        ),
    };
    let finding = Finding {
        cause: Cause::Consequence,
        at: due.span,
        what: falsity.span(expansion),
        place,
        line: Some(line),
        moved: Moved::State,
        moment,
    };
    let gaps = [LineOf(given.span), LineOf(due.span)];
    falsity.report(reports, finding, template, &gaps)
}

/// Reports a condition of the parts that is false.
fn report_parts(
    reports: &mut Reports<'_>,
    asks: OfParts,
    moment: Moment<'_>,
    moved: Moved,
) -> Result<bool, AllocError> {
    let expansion = reports.expansion;
    let (due, kind, around) = asked_of_parts(expansion, asks);
    let falsity = Falsity::of(expansion, due, moment)?;
    let what = falsity.span(expansion);
    let finding = Finding {
        cause: Cause::Parallel,
        at: numbered(kind),
        what,
        place: if what.start < what.end { what } else { around },
        line: None,
        moved,
        moment,
    };
    let sentence = condition_sentence(expansion, Asked::Parts(asks))?;
    falsity.report(
        reports,
        finding,
        "this doesn't hold: $0",
        &[Text(&sentence)],
    )
}

/// A place that stands for a number, where causes are kept apart by numbers.
fn numbered(number: usize) -> Span {
    Span {
        start: number,
        end: number,
    }
}

/// Reports a condition that is false in these states.
fn report_false(
    reports: &mut Reports<'_>,
    asked: Asked<'_>,
    first: &State,
    second: Option<&State>,
) -> Result<bool, AllocError> {
    let alloc = reports.expansion.scope.alloc;
    let before = values_of(alloc, first)?;
    let after = values_of(alloc, second.unwrap_or(first))?;
    let moment = Moment::between(&before, &after);
    let (asks, line) = match asked {
        Asked::Line(asks, _, line) => (asks, line),
        Asked::Parts(asks) if second.is_some() => {
            return report_parts(reports, asks, moment, Moved::Step);
        }
        Asked::Parts(asks) => return report_parts(reports, asks, moment, Moved::State),
    };
    match asks {
        OfLine::Reach => report_step(reports, line, moment.before, true),
        OfLine::Step => report_step(reports, line, moment.before, false),
        OfLine::PreStable => report_unstable(reports, line, moment, true),
        OfLine::PostStable => report_unstable(reports, line, moment, false),
        OfLine::Exit => report_exit(reports, line, moment),
        OfLine::PreFollows => report_consequence(reports, line, moment, true),
        _ => report_consequence(reports, line, moment, false),
    }
}

/// Reports a condition for which there is no proof, or which is false in states that aren't given. What it says is at the template's gap.
fn report_alone(
    reports: &mut Reports<'_>,
    asked: Asked<'_>,
    number: usize,
    template: &str,
) -> Result<bool, AllocError> {
    let key = Key {
        cause: Cause::Unproved,
        at: numbered(number),
        what: numbered(number),
    };
    let place = place_of(reports.expansion, asked);
    let sentence = condition_sentence(reports.expansion, asked)?;
    reports.put(key, place, None, template, &[Text(&sentence)])
}

/// What is reported of conditions that aren't proved: of those that are false each place once, and those for which there is no proof.
#[derive(Drop)]
pub(crate) struct FailureReports<'e> {
    untrue: Reports<'e>,
    unproved: Reports<'e>,
    /// How many conditions are false.
    count: usize,
    /// How many conditions are proved.
    proved: usize,
}

impl<'e> FailureReports<'e> {
    /// What is reported of these conditions.
    pub(crate) fn of(
        expansion: &'e Expansion<'e>,
        failed: &[Failed<'_>],
    ) -> Result<FailureReports<'e>, AllocError> {
        let asked = conditions_of(expansion)?;
        let mut reports = FailureReports {
            untrue: Reports::new(expansion),
            unproved: Reports::new(expansion),
            count: 0,
            proved: asked.len().saturating_sub(failed.len()),
        };
        for one in failed {
            if let Some(asked) = asked.get(one.number.saturating_sub(1)) {
                reports.report(*asked, *one)?;
            }
        }
        Ok(reports)
    }

    /// Reports a condition.
    fn report(&mut self, asked: Asked<'_>, failed: Failed<'_>) -> Result<bool, AllocError> {
        let number = failed.number;
        let template = match failed.failing {
            Failing::At(first, second) => {
                self.count = self.count.saturating_add(1);
                return report_false(&mut self.untrue, asked, first, second);
            }
            Failing::False => {
                self.count = self.count.saturating_add(1);
                return report_alone(&mut self.untrue, asked, number, "this doesn't hold: $0");
            }
            Failing::Unproved => "no proof found within the bounds of the search: $0",
            Failing::TooLarge => {
                "its proof has more than 16777216 bytes, the most of one condition: $0"
            }
        };
        report_alone(&mut self.unproved, asked, number, template)
    }

    /// What it says to be false, and in which states.
    pub(crate) fn into_claims(self) -> Vec<Claim> {
        let FailureReports { untrue, .. } = self;
        let Reports { claims, .. } = untrue;
        claims
    }

    /// Adds it: what is false, in the order of the places; then the conditions for which there is no proof; and the counts. `own` is the name of the
    /// outline's own file.
    pub(crate) fn push(
        &self,
        text: &mut Vec<u8>,
        format: Format,
        own: &[u8],
    ) -> Result<(), AllocError> {
        push_reports(text, format, &self.untrue, own)?;
        if format == Format::Plain {
            for report in &self.unproved.listed {
                push_sentence_of(self.unproved.expansion, text, report, own)?;
            }
            return self.push_counts(text);
        }
        push_reports(text, format, &self.unproved, own)?;
        let alloc = self.untrue.expansion.scope.alloc;
        let mut object = JsonObject::of_kind(alloc, b"not verified");
        object.put_text("file", own);
        object.put_count("untrue", self.count as u64);
        object.put_count("unproved", self.unproved.listed.len() as u64);
        object.push_to(text)
    }

    /// Adds the last line: how many conditions hold, how many don't, and for how many no proof was found.
    fn push_counts(&self, text: &mut Vec<u8>) -> Result<(), AllocError> {
        let open = self.unproved.listed.len();
        let gaps = [
            Counted(self.proved as u64, "condition holds", "conditions hold"),
            Counted(self.count as u64, "does not", "do not"),
            Counted(open as u64, "is open", "are open"),
        ];
        let untrue = if self.count > 0 { ", $1" } else { "" };
        let unproved = if open > 0 { ", $2" } else { "" };
        for template in ["\nnot verified: $0", untrue, unproved, "\n"] {
            fill(self.untrue.expansion, text, template, &gaps)?;
        }
        Ok(())
    }
}
