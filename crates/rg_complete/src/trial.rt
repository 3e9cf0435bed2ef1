//! An outline in whose bodies formulas stand that are to be read.

use crate::atoms::Atoms;
use crate::brackets::{body_of, brackets_of};
use crate::slots::Scope;
use rg_outline_syntax::{ItemKind, Span, Tokens, Written};
use std::alloc::{AllocError, Global};

/// An outline in whose bodies formulas stand that are to be read.
#[derive(Drop)]
pub struct Trial {
    pub source: Vec<u8>,
    /// Where the formulas of each scope stand; nowhere, where they are out.
    pub spans: Vec<Vec<Span>>,
    /// The byte of the statement before which those of each scope stand.
    pub nears: Vec<usize>,
}

/// The `for` around a scope, as items, the innermost first.
pub(crate) fn rounds_of(
    alloc: Global,
    scopes: &[Scope],
    scope: Scope,
) -> Result<Vec<usize>, AllocError> {
    let mut rounds = Vec::new(alloc);
    let mut now = scope.round;
    for _ in 0..scopes.len() {
        let Some((item, around)) = now else {
            break;
        };
        rounds.push(item)?;
        now = scopes.get(around).and_then(|around| around.round);
    }
    Ok(rounds)
}

/// Adds the formulas of a scope as assertions before a `skip`.
fn push_all(alloc: Global, trial: &mut Trial, formulas: &Atoms) -> Result<(), AllocError> {
    let mut spans = Vec::new(alloc);
    for (index, atom) in formulas.atoms.iter().enumerate() {
        if atom.is_out {
            spans.push(Span::NOWHERE)?;
            continue;
        }
        let start = trial.source.len();
        trial.source.extend_from_slice(b"{ ")?;
        trial.source.extend_from_slice(formulas.texts.at(index))?;
        trial.source.extend_from_slice(b" }\n")?;
        let end = trial.source.len();
        spans.push(Span { start, end })?;
    }
    trial.spans.push(spans)?;
    trial.nears.push(trial.source.len())?;
    trial.source.extend_from_slice(b"skip\n")?;
    Ok(())
}

/// Adds the formulas of a scope within its `for`.
fn push_rounds(
    alloc: Global,
    trial: &mut Trial,
    source: &[u8],
    written: &Written,
    rounds: &[usize],
    formulas: &Atoms,
) -> Result<(), AllocError> {
    trial.source.extend_from_slice(b";\n")?;
    for item in rounds.iter().rev() {
        let kind = written.items.get(*item).map(|item| item.kind);
        if let Some(ItemKind::For { index, range, .. }) = kind {
            let range = written
                .ranges
                .get(range)
                .map_or(Span::NOWHERE, |range| range.span);
            trial.source.extend_from_slice(b"for ")?;
            trial.source.extend_from_slice(index.of(source))?;
            trial.source.extend_from_slice(b" in ")?;
            trial.source.extend_from_slice(range.of(source))?;
            trial.source.extend_from_slice(b" do\n")?;
        }
    }
    push_all(alloc, trial, formulas)?;
    for _ in rounds {
        trial.source.extend_from_slice(b"end\n")?;
    }
    Ok(())
}

/// The outline with the formulas of each scope, in order, as assertions before a `skip`; these stand in the places of the bodies. Those that are out are left
/// out.
///
/// # Errors
///
/// Only where memory is refused.
pub fn trial_of(
    alloc: Global,
    source: &[u8],
    tokens: &Tokens,
    written: &Written,
    scopes: &[Scope],
    formulas: &[Atoms],
) -> Result<Trial, AllocError> {
    let brackets = brackets_of(alloc, tokens)?;
    let mut trial = Trial {
        source: Vec::new(alloc),
        spans: Vec::new(alloc),
        nears: Vec::new(alloc),
    };
    let mut done = 0usize;
    for (scope, atoms) in scopes.iter().zip(formulas) {
        let rounds = rounds_of(alloc, scopes, *scope)?;
        if !rounds.is_empty() {
            push_rounds(alloc, &mut trial, source, written, &rounds, atoms)?;
            continue;
        }
        let part = written
            .parts
            .get(scope.part)
            .map_or(Span::NOWHERE, |part| part.span);
        if let Some(body) = body_of(&brackets, part) {
            let until = source.get(done..body.opener.end).unwrap_or(&[]);
            trial.source.extend_from_slice(until)?;
            trial.source.push(b'\n')?;
            done = body.end.start;
            push_all(alloc, &mut trial, atoms)?;
        }
    }
    trial
        .source
        .extend_from_slice(source.get(done..).unwrap_or(&[]))?;
    Ok(trial)
}
