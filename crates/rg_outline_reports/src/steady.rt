//! What is reported of an assertion that a step of others can make false.

use crate::falsity::{Falsity, Finding};
use crate::reports::{Cause, Moved, Reports};
use crate::template::Gap::{Part, Parts, WordsIn};
use crate::values::{Moment, is_true, zeros};
use rg_outline::{Expansion, Line, Origin};
use rg_outline_terms::bit_of;
use std::alloc::{AllocError, Global};

/// The other parts that assign a word.
fn writers_of(
    expansion: &Expansion<'_>,
    part: usize,
    word: usize,
) -> Result<Vec<usize>, AllocError> {
    let mut writers = Vec::new(expansion.scope.alloc);
    for other in 0..expansion.parts.len() {
        let mut assigned = expansion.assigned.iter();
        if other != part && assigned.any(|it| it.part == other && it.word == word) {
            writers.push(other)?;
        }
    }
    Ok(writers)
}

/// A state with another value of one word.
fn with_value(
    alloc: Global,
    state: &[u64],
    word: usize,
    value: u64,
) -> Result<Vec<u64>, AllocError> {
    let mut values = Vec::from_slice(alloc, state)?;
    if let Some(slot) = values.get_mut(word) {
        *slot = value;
    }
    Ok(values)
}

/// Whether the environment may change a word that moved: whether the program's rely allows a step that changes this word alone, between the two values, there
/// or back, in one of these states or where all words are 0.
fn is_left_to_environment(
    expansion: &Expansion<'_>,
    word: usize,
    moment: Moment<'_>,
) -> Result<bool, AllocError> {
    let alloc = expansion.scope.alloc;
    let rely = expansion.specification.rely;
    let (first, second) = moment.of(word);
    let zeros = zeros(expansion)?;
    for state in [moment.before, moment.after, zeros.as_slice()] {
        let before = with_value(alloc, state, word, first)?;
        let after = with_value(alloc, state, word, second)?;
        let there = Moment::between(&before, &after);
        let back = Moment::between(&after, &before);
        if is_true(expansion, rely, there)? || is_true(expansion, rely, back)? {
            return Ok(true);
        }
    }
    Ok(false)
}

/// Adds a hint who changes a word that moved: the other parts that assign it, or else the environment; or nobody, and then the part may own it.
fn hint_cause(
    reports: &mut Reports<'_>,
    part: usize,
    word: usize,
    moment: Moment<'_>,
) -> Result<(), AllocError> {
    let expansion = reports.expansion;
    let bit = bit_of(word);
    let owned = expansion.parts.get(part).map_or(0, |part| part.owned_bits);
    let writers = writers_of(expansion, part, word)?;
    let template = if !writers.is_empty() {
        "$0 is assigned by $1; $2's rely doesn't exclude this"
    } else if is_left_to_environment(expansion, word, moment)? {
        "$0 may be changed by the environment; $2's rely doesn't exclude this"
    } else if owned & bit == 0 {
        "no other part assigns $0: `owns` in $2 would say so"
    } else {
        return Ok(());
    };
    reports.hint(template, &[WordsIn(bit), Parts(&writers), Part(part)])
}

/// Reports that a step of others from the one state to the other makes the assertion before a line's statement, or after it, false.
pub(crate) fn report_unstable(
    reports: &mut Reports<'_>,
    line: &Line,
    moment: Moment<'_>,
    is_before: bool,
) -> Result<bool, AllocError> {
    let expansion = reports.expansion;
    let (assertion, formula) = if is_before {
        (line.before, line.pre)
    } else {
        (line.after, line.post)
    };
    let falsity = Falsity::of(expansion, formula, Moment::at(moment.after))?;
    let template = if assertion.origin == Origin::Written {
        "this assertion isn't stable: a step inside the rely can make it false"
    } else {
        "this assertion isn't stable (nothing is written here; it is carried on): a step inside the rely can make it false"
    };
    let finding = Finding {
        cause: Cause::Unstable,
        at: assertion.span,
        what: falsity.span(expansion),
        place: falsity.place(expansion, assertion.span),
        line: Some(line),
        moved: Moved::StepOfOthers,
        moment,
    };
    let is_new = falsity.report(reports, finding, template, &[])?;
    if is_new {
        for valued in &falsity.words.values(expansion, moment)? {
            if valued.before != valued.after {
                hint_cause(reports, line.part, valued.word, moment)?;
            }
        }
    }
    Ok(is_new)
}
