//! What a walk of an outline's text found: a run, or how far was looked.

use crate::broken::{Breach, Breaks};
use crate::draw::push_details;
use crate::files::{Format, OutlineSource};
use crate::json::{push_json_of_not_found, push_json_of_run};
use crate::places::statement_of;
use crate::reports::Valued;
use crate::run_rows::{RunRows, Steps, rows_of};
use crate::template::Gap::{Code, Count, Counted, LineOf, Part, Text, WithValues};
use crate::template::fill;
use rg_outline::Expansion;
use rg_outline_syntax::Span;
use rg_walk::{Bound, BreakingRun, Broken, RunStep, Unbroken, Walked};
use rg_words::State;
use std::alloc::{AllocError, Global};

/// The most rows of a run that are shown.
const MOST_ROWS: usize = 200;

/// The words that differ in two states, with their values; of a start those that aren't 0.
pub(crate) fn shown_values(
    alloc: Global,
    before: &State,
    after: &State,
    is_start: bool,
) -> Result<Vec<Valued>, AllocError> {
    let mut values = Vec::new(alloc);
    for word in 0..before.len().min(after.len()) {
        let valued = Valued {
            word,
            before: before.get(word),
            after: after.get(word),
        };
        let other = if is_start { 0 } else { valued.after };
        if valued.before != other {
            values.push(valued)?;
        }
    }
    Ok(values)
}

/// Adds the words that aren't 0 at the start.
pub(crate) fn push_start(
    expansion: &Expansion<'_>,
    text: &mut Vec<u8>,
    start: &State,
) -> Result<(), AllocError> {
    let values = shown_values(expansion.scope.alloc, start, start, true)?;
    let template = if values.is_empty() {
        "all words are 0"
    } else {
        "$0, and all other words are 0"
    };
    fill(expansion, text, template, &[WithValues(&values)])
}

/// Adds the words that differ in two states.
pub(crate) fn push_changes(
    expansion: &Expansion<'_>,
    text: &mut Vec<u8>,
    before: &State,
    after: &State,
) -> Result<(), AllocError> {
    let values = shown_values(expansion.scope.alloc, before, after, false)?;
    let template = if values.is_empty() {
        ": no word changes"
    } else {
        ": $0"
    };
    fill(expansion, text, template, &[WithValues(&values)])
}

/// Adds a step: who makes it, at which line, and the words that it changes from those before it.
pub(crate) fn push_step(
    expansion: &Expansion<'_>,
    text: &mut Vec<u8>,
    before: &State,
    step: &RunStep,
) -> Result<(), AllocError> {
    let (template, span) = match statement_of(expansion, step.who, step.place)? {
        Some(statement) => ("$0, line $1, $2", statement.span),
        None if step.who == 0 => ("env", Span::NOWHERE),
        None => ("$0", Span::NOWHERE),
    };
    let part = Part(step.who.saturating_sub(1));
    fill(expansion, text, template, &[part, LineOf(span), Code(span)])?;
    push_changes(expansion, text, before, &step.after)
}

/// How many steps the first rows stand for, which are not shown.
fn hidden_steps(rows: &RunRows, hidden: usize) -> usize {
    let mut steps = 0usize;
    for count in rows.counts.iter().take(hidden) {
        steps = steps.saturating_add(*count);
    }
    steps
}

/// Adds the steps of a run, in rows.
fn push_steps(
    expansion: &Expansion<'_>,
    text: &mut Vec<u8>,
    run: &BreakingRun,
) -> Result<(), AllocError> {
    let steps = Steps {
        start: &run.start,
        steps: &run.steps,
    };
    let rows = rows_of(expansion, steps)?;
    let hidden = rows.texts.len().saturating_sub(MOST_ROWS);
    let count = hidden_steps(&rows, hidden);
    if count > 0 {
        let template = "    $0 steps that are not shown\n";
        fill(expansion, text, template, &[Count(count as u64)])?;
    }
    for row in hidden..rows.texts.len() {
        fill(expansion, text, "    $0\n", &[Text(rows.texts.at(row))])?;
    }
    Ok(())
}

/// Adds what a run breaks: `template` has the part that makes its last step at its gap.
fn push_of_last_part(
    expansion: &Expansion<'_>,
    text: &mut Vec<u8>,
    run: &BreakingRun,
    template: &str,
) -> Result<(), AllocError> {
    let who = run.steps.last().map_or(0, |step| step.who);
    fill(expansion, text, template, &[Part(who.saturating_sub(1))])
}

/// Adds what a run breaks.
pub(crate) fn push_broken(
    expansion: &Expansion<'_>,
    text: &mut Vec<u8>,
    run: &BreakingRun,
) -> Result<(), AllocError> {
    let template = match run.broken {
        Broken::Guarantee => "the last step is outside the program's guar",
        Broken::OwnGuarantee => {
            "the last step is outside what $0 promises: the invariant, what others rely on, or its own guar"
        }
        Broken::Post => "all parts have ended, and the program's post is false",
    };
    push_of_last_part(expansion, text, run, template)
}

/// Adds a run that breaks the specification, the invariant or what a part promises, its steps in rows: who makes them, the lines and the
/// statements, and the words that they change; and then what is broken, with its first conjunct that is false and where that stands.
fn push_run(
    expansion: &Expansion<'_>,
    text: &mut Vec<u8>,
    run: &BreakingRun,
) -> Result<(), AllocError> {
    let breach = Breach::of(expansion, run)?;
    let template = match breach.breaks {
        Breaks::Specification => "this run breaks it:\n    start: ",
        Breaks::Invariant => "your invariant isn't one: this run leaves it:\n    start: ",
        Breaks::Part => "this run breaks a promise of $0, and none of the program:\n    start: ",
    };
    push_of_last_part(expansion, text, run, template)?;
    push_start(expansion, text, &run.start)?;
    text.push(b'\n')?;
    push_steps(expansion, text, run)?;
    text.extend_from_slice(b"    ")?;
    push_broken(expansion, text, run)?;
    text.push(b'\n')?;
    push_details(expansion, text, &breach.details)
}

/// Adds that no run was found that breaks the specification, how far was looked, and which bound ended the search, with the option that raises it.
fn push_not_found(
    expansion: &Expansion<'_>,
    text: &mut Vec<u8>,
    unbroken: Unbroken,
) -> Result<(), AllocError> {
    let gaps = [
        Counted(unbroken.steps, "step", "steps"),
        Counted(unbroken.states, "state", "states"),
        Count(unbroken.depth),
        Counted(
            unbroken.starts,
            "of the states in the pre was tried as a start",
            "of the states in the pre were tried as starts",
        ),
    ];
    let found = if unbroken.is_all {
        "no run breaks it: all were followed, $0, $1, depth $2"
    } else {
        "no run that breaks it was found within $0, $1, depth $2"
    };
    let starts = if unbroken.are_all_starts { "" } else { "; $3" };
    let others = if unbroken.is_without_others {
        "; not all steps of the environment were tried"
    } else {
        ""
    };
    let bound = match unbroken.ended_by {
        None => "\n",
        Some(Bound::Steps) => "; the steps are used up, and --steps N makes up to N\n",
        Some(Bound::Bytes) => "; the memory for states is used up, which no option raises\n",
        Some(Bound::Seconds) => "; the seconds are used up, and --seconds N allows up to N\n",
    };
    for template in [found, starts, others, bound] {
        fill(expansion, text, template, &gaps)?;
    }
    Ok(())
}

/// Adds a run, as the outline's reports are printed.
pub(crate) fn push_breaking(
    expansion: &Expansion<'_>,
    text: &mut Vec<u8>,
    outline: OutlineSource<'_>,
    run: &BreakingRun,
) -> Result<(), AllocError> {
    match outline.format {
        Format::Plain => push_run(expansion, text, run),
        Format::Json => push_json_of_run(expansion, text, outline.name.as_bytes(), run),
    }
}

/// Adds what a walk found, as the outline's reports are printed.
pub(crate) fn push_walked(
    expansion: &Expansion<'_>,
    text: &mut Vec<u8>,
    outline: OutlineSource<'_>,
    walked: &Walked,
) -> Result<(), AllocError> {
    match walked {
        Walked::Breaks(run) => push_breaking(expansion, text, outline, run),
        Walked::NotFound(found) => match outline.format {
            Format::Plain => push_not_found(expansion, text, found.unbroken()),
            Format::Json => {
                let file = outline.name.as_bytes();
                push_json_of_not_found(text, expansion.scope.alloc, file, found.unbroken())
            }
        },
    }
}
