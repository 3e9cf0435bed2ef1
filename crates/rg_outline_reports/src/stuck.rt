//! The warning of a run that gets stuck.

use crate::places::statement_of;
use crate::reports::{Reports, Warning};
use crate::run::push_start;
use crate::run_rows::{Steps, rows_of};
use crate::template::Gap::{Code, Formula, LineOf, Part, Text};
use crate::warnings::warn;
use rg_outline_syntax::Span;
use rg_walk::{StuckRun, Waiting};
use std::alloc::AllocError;

/// Adds what a part waits for: the line, the statement and its guard.
fn hint_wait(reports: &mut Reports<'_>, waiting: Waiting) -> Result<(), AllocError> {
    let part = Part(waiting.who.saturating_sub(1));
    match statement_of(reports.expansion, waiting.who, waiting.place)? {
        None => reports.hint("$0", &[part]),
        Some(statement) => {
            let (line, code) = (LineOf(statement.span), Code(statement.span));
            let gaps = [part, line, code, Formula(statement.test)];
            reports.hint("$0, line $1, $2: waits for $3", &gaps)
        }
    }
}

/// Reports a run that gets stuck: its steps, and what each part waits for that hasn't ended.
pub(crate) fn report_stuck(reports: &mut Reports<'_>, run: &StuckRun) -> Result<(), AllocError> {
    let expansion = reports.expansion;
    let mut place = Span::NOWHERE;
    if let Some(first) = run.waiting.first()
        && let Some(statement) = statement_of(expansion, first.who, first.place)?
    {
        place = statement.span;
    }
    let template = "a run gets stuck: no part can go on, and not all have ended";
    warn(reports, Warning::Stuck, place, None, template, &[])?;
    let mut start = Vec::new(expansion.scope.alloc);
    push_start(expansion, &mut start, &run.start)?;
    reports.hint("start: $0", &[Text(&start)])?;
    let steps = Steps {
        start: &run.start,
        steps: &run.steps,
    };
    let rows = rows_of(expansion, steps)?;
    for row in 0..rows.texts.len() {
        reports.hint("$0", &[Text(rows.texts.at(row))])?;
    }
    for waiting in &run.waiting {
        hint_wait(reports, *waiting)?;
    }
    Ok(())
}
