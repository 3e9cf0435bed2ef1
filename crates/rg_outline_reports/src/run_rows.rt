//! The steps of a run in rows: each step that changes a word is one, and so is a loop that was gone round many times; steps without a change share
//! a row.

use crate::places::{own_line, statement_of};
use crate::run::{push_changes, push_step, shown_values};
use crate::template::Gap::{Code, Count, LineOf, Part, Text};
use crate::template::fill;
use crate::written::is_same_place;
use rg_outline::{Action, Expansion};
use rg_outline_syntax::{Span, Texts};
use rg_walk::RunStep;
use rg_words::State;
use std::alloc::AllocError;

/// The most steps of a loop that is shown in one row.
const MOST_IN_LOOP: usize = 32;

/// The fewest rounds of a loop that are shown in one row.
const FEWEST_ROUNDS: usize = 3;

/// The fewest steps without a change that are only counted.
const FEWEST_COUNTED: usize = 6;

/// The most bytes of a row with several steps without a change.
const WIDTH: usize = 110;

/// A start, and the steps from there.
#[derive(Clone, Copy)]
pub(crate) struct Steps<'r> {
    pub(crate) start: &'r State,
    pub(crate) steps: &'r [RunStep],
}

/// The rows of a run.
#[derive(Drop)]
pub(crate) struct RunRows {
    pub(crate) texts: Texts,
    /// How many steps each row stands for.
    pub(crate) counts: Vec<usize>,
}

/// A step that is shown.
#[derive(Clone, Copy)]
struct Shown {
    /// Its index among the steps of the run.
    index: usize,
    who: usize,
    /// Its statement; nowhere for the environment.
    span: Span,
    /// The line of that in the outline's own file.
    line: u64,
    is_quiet: bool,
}

/// A loop that was gone round: how many steps it has, and how often they were made.
#[derive(Clone, Copy)]
struct Loop {
    steps: usize,
    rounds: usize,
}

impl<'r> Steps<'r> {
    /// The state before a step.
    fn before(self, index: usize) -> &'r State {
        let earlier = index.checked_sub(1).and_then(|index| self.steps.get(index));
        earlier.map_or(self.start, |step| &step.after)
    }
}

/// The steps that are shown: all but those of the `skip` that stands for a missing `else`.
fn shown_of(expansion: &Expansion<'_>, run: Steps<'_>) -> Result<Vec<Shown>, AllocError> {
    let alloc = expansion.scope.alloc;
    let mut shown = Vec::new(alloc);
    for (index, step) in run.steps.iter().enumerate() {
        let (mut span, mut line) = (Span::NOWHERE, 1);
        if let Some(statement) = statement_of(expansion, step.who, step.place)? {
            let written = statement.span.of(expansion.scope.source);
            if statement.action == Action::Skip && !written.starts_with(b"skip") {
                continue;
            }
            span = statement.span;
            line = own_line(expansion, statement);
        }
        let changes = shown_values(alloc, run.before(index), &step.after, false)?;
        shown.push(Shown {
            index,
            who: step.who,
            span,
            line,
            is_quiet: changes.is_empty(),
        })?;
    }
    Ok(shown)
}

/// How often these first steps are made one after the other.
fn rounds_of(shown: &[Shown], steps: usize) -> usize {
    let mut again = 0usize;
    let next = shown.get(steps..).unwrap_or(&[]);
    for (first, second) in shown.iter().zip(next) {
        // (of one part and one statement, which may be in several rounds of a `for`)
        let is_same = first.who != 0 && first.who == second.who;
        if !is_same || !is_same_place(first.span, second.span) {
            break;
        }
        again = again.saturating_add(1);
    }
    again.checked_div(steps).unwrap_or(0).saturating_add(1)
}

/// The loop with which these steps begin, if they were gone round often: the one that takes up most of them. The last step of a run, which breaks
/// something, is in none.
fn loop_in(shown: &[Shown]) -> Option<Loop> {
    let inner = shown.get(..shown.len().saturating_sub(1)).unwrap_or(&[]);
    let mut found = None;
    let mut most = 0usize;
    for steps in 1..MOST_IN_LOOP {
        let rounds = rounds_of(inner, steps);
        let all = rounds.saturating_mul(steps);
        if rounds >= FEWEST_ROUNDS && all > most {
            found = Some(Loop { steps, rounds });
            most = all;
        }
    }
    found
}

/// How many of these steps, from the first on, change no word and are in no loop that is shown in one row.
fn quiet_in(shown: &[Shown]) -> usize {
    for (index, step) in shown.iter().enumerate() {
        let rest = shown.get(index..).unwrap_or(&[]);
        if !step.is_quiet || loop_in(rest).is_some() {
            return index;
        }
    }
    shown.len()
}

/// Adds the first and the last line of the steps of a part among these, and the part before them; whether it makes any.
fn push_lines_of_part(
    expansion: &Expansion<'_>,
    text: &mut Vec<u8>,
    shown: &[Shown],
    part: usize,
    between: &[u8],
) -> Result<bool, AllocError> {
    let mut first = u64::MAX;
    let mut last = 0u64;
    for step in shown {
        if step.who.checked_sub(1) == Some(part) {
            first = first.min(step.line);
            last = last.max(step.line);
        }
    }
    if first > last {
        return Ok(false);
    }
    let template = if first == last {
        "$0$1, line $2"
    } else {
        "$0$1, lines $2 to $3"
    };
    let gaps = [Text(between), Part(part), Count(first), Count(last)];
    fill(expansion, text, template, &gaps)?;
    Ok(true)
}

/// Adds the parts that make these steps, each with its lines.
fn push_lines(
    expansion: &Expansion<'_>,
    text: &mut Vec<u8>,
    shown: &[Shown],
) -> Result<(), AllocError> {
    let mut between: &[u8] = b"";
    for part in 0..expansion.parts.len() {
        if push_lines_of_part(expansion, text, shown, part, between)? {
            between = b"; ";
        }
    }
    Ok(())
}

/// Adds a loop that was gone round: the parts with their lines, how often, and the words that it changes in all.
fn push_loop(
    expansion: &Expansion<'_>,
    text: &mut Vec<u8>,
    run: Steps<'_>,
    shown: &[Shown],
    rounds: usize,
) -> Result<(), AllocError> {
    push_lines(expansion, text, shown)?;
    fill(expansion, text, ", $0 times", &[Count(rounds as u64)])?;
    let first = shown.first().map_or(0, |step| step.index);
    let end = shown.last().map_or(0, |step| step.index.saturating_add(1));
    push_changes(expansion, text, run.before(first), run.before(end))
}

/// Adds steps of one part that change no word, as many as a row has room for; how many.
fn push_quiet(
    expansion: &Expansion<'_>,
    text: &mut Vec<u8>,
    shown: &[Shown],
) -> Result<usize, AllocError> {
    let start = text.len();
    let who = shown.first().map_or(0, |step| step.who);
    let source = expansion.scope.source;
    let mut row = None;
    let mut count = 0usize;
    text.extend_from_slice(expansion.part_names.at(who.saturating_sub(1)))?;
    for step in shown {
        let end = text.len();
        let between: &[u8] = if count == 0 { b", " } else { b"; " };
        let template = if row == Some(step.span.row_start(source)) {
            "$0$2"
        } else {
            "$0line $1, $2"
        };
        let gaps = [Text(between), LineOf(step.span), Code(step.span)];
        fill(expansion, text, template, &gaps)?;
        let is_wide = count > 0 && text.len().saturating_sub(start) > WIDTH;
        if step.who != who || is_wide {
            text.truncate(end);
            break;
        }
        row = Some(step.span.row_start(source));
        count = count.saturating_add(1);
    }
    text.extend_from_slice(b": no word changes")?;
    Ok(count)
}

impl RunRows {
    /// Ends a row that stands for so many steps.
    fn end(&mut self, count: usize) -> Result<(), AllocError> {
        self.counts.push(count)?;
        self.texts.end()
    }

    /// Adds a row for the first of these steps, and for those after it that it stands for; how many there are.
    fn push_row(
        &mut self,
        expansion: &Expansion<'_>,
        run: Steps<'_>,
        shown: &[Shown],
    ) -> Result<usize, AllocError> {
        if let Some(found) = loop_in(shown) {
            let count = found.steps.saturating_mul(found.rounds);
            let all = shown.get(..count).unwrap_or(shown);
            push_loop(expansion, self.texts.unended(), run, all, found.rounds)?;
            self.end(count)?;
            return Ok(count);
        }
        let quiet = shown.get(..quiet_in(shown)).unwrap_or(&[]);
        let mut count = quiet.len();
        if count >= FEWEST_COUNTED {
            let text = self.texts.unended();
            let template = "and $0 steps that change nothing: ";
            fill(expansion, text, template, &[Count(count as u64)])?;
            push_lines(expansion, text, quiet)?;
        } else if count > 0 {
            count = push_quiet(expansion, self.texts.unended(), quiet)?;
        } else if let Some(first) = shown.first()
            && let Some(step) = run.steps.get(first.index)
        {
            let before = run.before(first.index);
            push_step(expansion, self.texts.unended(), before, step)?;
            count = 1;
        }
        self.end(count)?;
        Ok(count)
    }
}

/// The rows of a run.
pub(crate) fn rows_of(expansion: &Expansion<'_>, run: Steps<'_>) -> Result<RunRows, AllocError> {
    let alloc = expansion.scope.alloc;
    let shown = shown_of(expansion, run)?;
    let mut rows = RunRows {
        texts: Texts::new(alloc),
        counts: Vec::new(alloc),
    };
    let mut place = 0usize;
    for _ in 0..shown.len() {
        let rest = shown.get(place..).unwrap_or(&[]);
        if rest.is_empty() {
            break;
        }
        let count = rows.push_row(expansion, run, rest)?;
        place = place.saturating_add(count);
    }
    Ok(rows)
}
