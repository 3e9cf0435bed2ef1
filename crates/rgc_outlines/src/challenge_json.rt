//! What a challenge found, as JSON.

use crate::answers::{Answer, Answered};
use rg_outline_challenge::{ChangeGroup, Counts, push_change_alone};
use rg_outline_reports::{
    ChangeCounts, ChangeEntry, OutlineSource, push_json_of_change, push_json_of_changes,
};
use rg_outline_syntax::Span;
use std::alloc::{AllocError, Global};

/// The word for what is known of a changed program.
fn answer_word(answer: Answer) -> &'static str {
    match answer {
        Answer::Survives => "survives",
        Answer::Breaks => "breaks",
        Answer::Undecided => "undecided",
    }
}

/// The word for the words that a change touches.
fn group_word(group: ChangeGroup) -> &'static str {
    match group {
        ChangeGroup::Specification => "specification",
        ChangeGroup::Others => "others",
        ChangeGroup::Waits => "waits",
        ChangeGroup::Proof => "proof",
    }
}

/// Adds a change with what is known of it.
fn push_answered(
    alloc: Global,
    lines: &mut Vec<u8>,
    outline: OutlineSource<'_>,
    answered: &Answered,
) -> Result<(), AllocError> {
    let mut change = Vec::new(alloc);
    push_change_alone(alloc, &mut change, outline.source, &answered.change)?;
    let entry = ChangeEntry {
        place: answered.change.place,
        change: &change,
        group: group_word(answered.change.group),
        answer: answer_word(answered.answer),
        run: &answered.reported,
    };
    push_json_of_change(lines, alloc, outline, entry)
}

/// A line for each change, in their order, and then one for all.
pub(crate) fn json_lines_of(
    alloc: Global,
    outline: OutlineSource<'_>,
    counts: Counts,
    unspoken: &[Span],
    answers: &[Answered],
) -> Result<Vec<u8>, AllocError> {
    let mut lines = Vec::new(alloc);
    for answered in answers {
        push_answered(alloc, &mut lines, outline, answered)?;
    }
    let counts = ChangeCounts {
        surviving: counts.surviving as u64,
        breaking: counts.breaking as u64,
        undecided: counts.undecided as u64,
    };
    push_json_of_changes(&mut lines, alloc, outline, counts, unspoken)?;
    Ok(lines)
}
