//! Marks in an outline's comments, which say that a warning is meant.

use crate::reports::{Reports, Warning};
use crate::warnings::warn;
use rg_outline_syntax::{Span, file_of};
use std::alloc::{AllocError, Global};

/// What a comment that is a mark begins with, after blanks.
const MARK: &[u8] = b"meant:";

/// A mark.
#[derive(Clone, Copy)]
struct Mark {
    span: Span,
    /// Where the line begins whose warnings are meant; none where there is no such line.
    line: Option<usize>,
}

/// The bytes after the blanks at the front.
fn without_blanks(bytes: &[u8]) -> &[u8] {
    let blanks = bytes
        .iter()
        .take_while(|byte| b" \t\r".contains(*byte))
        .count();
    bytes.get(blanks..).unwrap_or(&[])
}

/// How many bytes of a line stand before its comment, where that is a mark.
fn before_mark(line: &[u8]) -> Option<usize> {
    let before = line.iter().take_while(|byte| **byte != b'#').count();
    let comment = line.get(before.saturating_add(1)..).unwrap_or(&[]);
    if without_blanks(comment).starts_with(MARK) {
        return Some(before);
    }
    None
}

/// The marks of an outline, the last one first. One at the end of a line is about that line, and one in a line of its own about the next line that has more
/// than blanks and a comment.
fn marks_of(alloc: Global, source: &[u8]) -> Result<Vec<Mark>, AllocError> {
    let mut marks = Vec::new(alloc);
    let mut about = None;
    let mut end = source.len();
    for _ in 0..=source.len() {
        let before = source.get(..end).unwrap_or(source);
        let length = before
            .iter()
            .rev()
            .take_while(|byte| **byte != b'\n')
            .count();
        let start = end.saturating_sub(length);
        let line = before.get(start..).unwrap_or(&[]);
        if !matches!(without_blanks(line), [] | [b'#', ..]) {
            about = Some(Span { start: end, end });
        }
        if let Some(before) = before_mark(line) {
            let start = start.saturating_add(before);
            marks.push(Mark {
                span: Span { start, end },
                line: about.map(|line| line.row_start(source)),
            })?;
        }
        let Some(next) = start.checked_sub(1) else {
            break;
        };
        end = next;
    }
    Ok(marks)
}

/// Where the lines of the reports' places begin, in their order.
fn lines_of(reports: &Reports<'_>) -> Result<Vec<usize>, AllocError> {
    let expansion = reports.expansion;
    let mut lines = Vec::new(expansion.scope.alloc);
    for report in &reports.listed {
        lines.push(report.place.row_start(expansion.scope.source))?;
    }
    Ok(lines)
}

/// Notes which warnings are at a line, as they are meant; whether there is one.
fn mean(reports: &mut Reports<'_>, lines: &[usize], line: Option<usize>) -> bool {
    let mut is_met = false;
    for (report, place) in reports.listed.iter_mut().zip(lines) {
        if Some(*place) == line {
            report.is_meant = true;
            is_met = true;
        }
    }
    is_met
}

/// Takes the marks of an outline with the warnings that are reported: those at a mark's line aren't printed, and a mark that meets none is warned of; but
/// not in a used file, of which another outline may use more.
pub(crate) fn take_marks(reports: &mut Reports<'_>) -> Result<(), AllocError> {
    let expansion = reports.expansion;
    let source = expansion.scope.source;
    let marks = marks_of(expansion.scope.alloc, source)?;
    let lines = lines_of(reports)?;
    for mark in &marks {
        let is_met = mean(reports, &lines, mark.line);
        if !is_met && file_of(source, mark.span).is_empty() {
            let template = "this mark meets no warning: take it out";
            warn(reports, Warning::MarkUnmet, mark.span, None, template, &[])?;
        }
    }
    Ok(())
}
