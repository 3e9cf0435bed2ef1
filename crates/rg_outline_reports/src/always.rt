//! Warnings of promises that are true in all states, so that they say nothing.

use crate::empty::report_empty_ranges;
use crate::questions::Asks;
use crate::reports::{Reports, Warning};
use crate::warnings::warn;
use crate::written::{expression_span, is_written_true};
use rg_outline::Expansion;
use rg_outline_syntax::{Clause, HeadKind, List, Span};
use std::alloc::AllocError;

/// A `guar` or a `post` that is written: of a part that is a member of a family, as it is for this member.
#[derive(Clone, Copy)]
pub(crate) struct Promise {
    clause: Clause,
    /// The formula as it is written.
    formula: usize,
    place: Span,
    pub(crate) tree: usize,
    /// Whose it is, if it is no promise of the program.
    part: Option<usize>,
}

/// Adds the `guar` items of these heads, whose trees are these clauses, in their order, and the program's `post`.
fn push_promises(
    expansion: &Expansion<'_>,
    promises: &mut Vec<Promise>,
    heads: List,
    trees: List,
    part: Option<usize>,
) -> Result<(), AllocError> {
    let written = expansion.scope.written;
    let mut next = trees.start;
    for head in written.heads(heads) {
        let HeadKind::Clause(clause, formula) = head.kind else {
            continue;
        };
        let mut tree = expansion.specification.post;
        if clause == Clause::Guar {
            tree = expansion.clauses.get(next).copied().unwrap_or(usize::MAX);
            next = next.saturating_add(1);
        } else if clause != Clause::Post || part.is_some() {
            continue;
        }
        if !is_written_true(written, formula) {
            promises.push(Promise {
                clause,
                formula,
                place: expression_span(written, formula),
                tree,
                part,
            })?;
        }
    }
    Ok(())
}

/// The heads of a part, as they are written.
fn heads_of(expansion: &Expansion<'_>, part: usize) -> List {
    let name = expansion.parts.get(part).map_or(0, |part| part.span.start);
    for written in &expansion.scope.written.parts {
        if written.name.start == name {
            return written.heads;
        }
    }
    List::EMPTY
}

/// What the program and its parts promise, but for what is written as `true`: that says nothing, and is meant.
pub(crate) fn promises_of(expansion: &Expansion<'_>) -> Result<Vec<Promise>, AllocError> {
    let mut promises = Vec::new(expansion.scope.alloc);
    let program = expansion.scope.written.following_words;
    let promised = expansion.specification.promised;
    push_promises(expansion, &mut promises, program, promised, None)?;
    for (index, part) in expansion.parts.iter().enumerate() {
        let heads = heads_of(expansion, index);
        push_promises(expansion, &mut promises, heads, part.promised, Some(index))?;
    }
    Ok(promises)
}

/// Whether a promise is true in all states, for each member where it is one of a family's parts. `shown` are the questions to which the answer is yes.
fn is_empty(
    expansion: &Expansion<'_>,
    promises: &[Promise],
    promise: Promise,
    shown: &[Asks],
) -> bool {
    for (place, other) in promises.iter().enumerate() {
        let is_true = expansion.scope.forest.is_truth(other.tree, true)
            || shown.iter().any(|asks| *asks == Asks::PromiseTrue(place));
        if other.formula == promise.formula && !is_true {
            return false;
        }
    }
    true
}

/// What is said of a promise that is true in all states.
fn sentence_of(promise: Promise) -> &'static str {
    match promise.clause {
        Clause::Post => {
            "this post is true in all states, so it promises nothing: say what holds where all parts have ended, or leave it out"
        }
        _ if promise.part.is_some() => {
            "this guar is true of all steps, so the part promises nothing by it: say what its steps keep, or leave it out"
        }
        _ => {
            "this guar is true of all steps, so it promises nothing: say what each step keeps, or leave it out"
        }
    }
}

/// Reports each `guar` and each `post` that says nothing: a range in it is empty, or else it is true in all states. `shown` are the questions to
/// which the answer is yes.
pub(crate) fn report_empty_promises(
    reports: &mut Reports<'_>,
    shown: &[Asks],
) -> Result<(), AllocError> {
    let expansion = reports.expansion;
    let promises = promises_of(expansion)?;
    for promise in &promises {
        let (place, part) = (promise.place, promise.part);
        let has_empty_range = report_empty_ranges(reports, promise.formula, part)?;
        if !has_empty_range && is_empty(expansion, &promises, *promise, shown) {
            let template = sentence_of(*promise);
            warn(
                reports,
                Warning::PromisesNothing,
                place,
                part,
                template,
                &[],
            )?;
        }
    }
    Ok(())
}
