//! Reports as lines, or each as a JSON value in a line of its own.

use crate::files::Format;
use crate::json::push_json;
use crate::reports::{Cause, Detail, DetailKind, Moved, Report, Reports};
use crate::template::Gap::{LineOf, Part, Parts, Text, WithValues};
use crate::template::fill;
use rg_outline::Expansion;
use rg_outline_syntax::{push_carets, push_position};
use std::alloc::AllocError;

/// Adds all reports, in the order of their places: as lines with an empty line between two, or as JSON. `own` is the name of the outline's own file; so it is
/// below.
pub(crate) fn push_reports(
    text: &mut Vec<u8>,
    format: Format,
    reports: &Reports<'_>,
    own: &[u8],
) -> Result<(), AllocError> {
    let ordered = reports.ordered()?;
    let mut between: &[u8] = b"";
    for report in &ordered {
        match format {
            Format::Plain => {
                text.extend_from_slice(between)?;
                push_report(reports.expansion, text, *report, own)?;
                between = b"\n";
            }
            Format::Json => push_json(reports.expansion, text, *report, own)?,
        }
    }
    Ok(())
}

/// Adds the first line of a report: its place, and what is wrong, with the first part that meets the cause before it, and the others after it.
pub(crate) fn push_sentence_of(
    expansion: &Expansion<'_>,
    text: &mut Vec<u8>,
    report: &Report,
    own: &[u8],
) -> Result<(), AllocError> {
    push_position(text, own, expansion.scope.source, report.place)?;
    if matches!(report.key.cause, Cause::Warned(_)) {
        text.extend_from_slice(b": warning")?;
    }
    let first = report.parts.first().copied().unwrap_or(0);
    let others = report.parts.get(1..).unwrap_or(&[]);
    let template = match report.parts.len() {
        0 => ": $0\n",
        1 => ": $1: $0\n",
        _ => ": $1: $0 (so for $2)\n",
    };
    let gaps = [Text(&report.sentence), Part(first), Parts(others)];
    fill(expansion, text, template, &gaps)
}

/// Adds a report: its first line, the line of its place, and what else there is of it.
fn push_report(
    expansion: &Expansion<'_>,
    text: &mut Vec<u8>,
    report: &Report,
    own: &[u8],
) -> Result<(), AllocError> {
    push_sentence_of(expansion, text, report, own)?;
    push_carets(text, expansion.scope.source, report.place)?;
    push_details(expansion, text, &report.details)?;
    let template = match report.moved {
        Moved::Nothing => "",
        Moved::State => "    state: $0\n",
        Moved::Step => "    step:  $0\n",
        Moved::StepOfOthers => "    a step of others:  $0\n",
    };
    fill(expansion, text, template, &[WithValues(&report.values)])?;
    for detail in &report.details {
        if detail.kind == DetailKind::Hint {
            fill(expansion, text, "    $0\n", &[Text(&detail.text)])?;
        }
    }
    Ok(())
}

/// Adds rows with the conjunct that is false, the premises that hold, and the names within which it stands.
pub(crate) fn push_details(
    expansion: &Expansion<'_>,
    text: &mut Vec<u8>,
    details: &[Detail],
) -> Result<(), AllocError> {
    let mut last = DetailKind::Hint;
    for detail in details {
        let is_further = detail.kind == last;
        let template = match detail.kind {
            DetailKind::Conjunct => "    false: $0",
            DetailKind::Premise if is_further => " and $0",
            DetailKind::Premise => "   where $0",
            DetailKind::Meaning => "\n    $0",
            DetailKind::Name if is_further => ", in $0 (line $1)",
            DetailKind::Name => "\n    it stands in $0 (line $1)",
            DetailKind::Hint => continue,
        };
        let gaps = [Text(&detail.text), LineOf(detail.place)];
        fill(expansion, text, template, &gaps)?;
        last = detail.kind;
    }
    if last != DetailKind::Hint {
        text.push(b'\n')?;
    }
    Ok(())
}
