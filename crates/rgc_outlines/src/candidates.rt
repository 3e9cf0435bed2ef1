//! The changed programs that are asked: each of them once.

ghost use Rattle.std.specs.Prelude.{◌<◌, length};

use rg_outline_challenge::{Between, Change, changed_outline};
use rg_outline_reports::{Format, NoFiles, OutlineFiles, OutlineSource, Outlined, read_outline};
use rg_pool::deal;
use rgc_answers::Context;
use std::alloc::{AllocError, Global};
use std::thread::Threads;

/// A change with which an outline can be read.
#[derive(Drop)]
pub(crate) struct Candidate {
    pub(crate) change: Change,
    /// The first assertion with which the changed outline can be read, at the place that the change makes.
    pub(crate) between: Between,
    /// The text of the changed program.
    pub(crate) text: Vec<u8>,
}

/// The outline that is changed.
#[derive(Clone, Copy)]
pub(crate) struct Original<'a> {
    pub(crate) source: &'a [u8],
    /// The text that it stands for.
    pub(crate) text: &'a [u8],
}

/// What was read of a change: nothing where the outline can't be changed so.
type Reading = Result<Option<Candidate>, AllocError>;

/// An outline without a name, whose faults nobody reads.
pub(crate) fn nameless(source: &[u8], format: Format) -> OutlineSource<'_> {
    OutlineSource {
        name: "",
        source,
        fault: None,
        format,
        has_warnings: false,
    }
}

/// What was made of an outline; nothing where it is refused.
pub(crate) fn unless_refused<T>(made: Result<T, NoFiles>) -> Result<Option<T>, AllocError> {
    match made {
        Ok(made) => Ok(Some(made)),
        Err(NoFiles::Reported(_)) => Ok(None),
        Err(NoFiles::Memory) => Err(AllocError),
    }
}

/// The files of an outline; nothing where it is refused.
fn files_of(alloc: Global, source: &[u8]) -> Result<Option<OutlineFiles>, AllocError> {
    let outline = nameless(source, Format::Plain);
    let Some(written) = unless_refused(read_outline(alloc, outline))? else {
        return Ok(None);
    };
    match unless_refused(Outlined::of(alloc, outline, &written))? {
        Some(outlined) => Ok(Some(outlined.into_files())),
        None => Ok(None),
    }
}

/// The files of a changed outline; nothing where there is no such one, or where it is refused.
pub(crate) fn files_with(
    alloc: Global,
    source: &[u8],
    change: &Change,
    between: Between,
) -> Result<Option<OutlineFiles>, AllocError> {
    if !change.may_have(between) {
        return Ok(None);
    }
    let source = changed_outline(alloc, source, change, between)?;
    files_of(alloc, &source)
}

/// A change with the first assertion with which the changed outline can be read; nothing where it can't be read with any.
fn candidate_of(alloc: Global, source: &[u8], change: &Change) -> Reading {
    for between in Between::ALL {
        if let Some(files) = files_with(alloc, source, change, between)? {
            return Ok(Some(Candidate {
                change: *change,
                between,
                text: files.text,
            }));
        }
    }
    Ok(None)
}

/// What is read of each change, at its place, in threads.
fn read_all<R: Threads + Sync, P>(
    context: &Context<'_, R, P>,
    source: &[u8],
    changes: &[Change],
) -> Result<Vec<Option<Reading>>, AllocError> {
    let alloc = context.alloc;
    deal(
        context.rt,
        alloc,
        context.threads,
        changes.len(),
        &|index: usize| -> Option<Reading>
            requires { index < length changes.now }
        { Some(candidate_of(alloc, source, &changes[index])) },
    )
}

/// What is read of the change at a place: what was read of it before, which is taken, or what is read now.
fn read_at(
    alloc: Global,
    source: &[u8],
    change: &Change,
    readings: &mut [Option<Reading>],
    index: usize,
) -> Reading {
    if index < readings.len() {
        if let Some(reading) = readings[index].take() {
            return reading;
        }
    }
    candidate_of(alloc, source, change)
}

/// Adds a candidate, unless its program is that of the outline, or stands there already.
fn add_new(
    original: Original<'_>,
    candidates: &mut Vec<Candidate>,
    candidate: Candidate,
) -> Result<(), AllocError> {
    let text = candidate.text.as_slice();
    let is_there = candidates.iter().any(|one| one.text.as_slice() == text);
    if !is_there && original.text != text {
        candidates.push(candidate)?;
    }
    Ok(())
}

/// The changes with which an outline can be read, in their order, but those whose program is that of the outline, or of an earlier change.
pub(crate) fn candidates_of<R: Threads + Sync, P>(
    context: &Context<'_, R, P>,
    original: Original<'_>,
    changes: &[Change],
) -> Result<Vec<Candidate>, AllocError> {
    let mut readings = read_all(context, original.source, changes)?;
    let read = readings.as_mut_slice();
    let mut candidates = Vec::new(context.alloc);
    for (index, change) in changes.iter().enumerate() {
        if let Some(candidate) = read_at(context.alloc, original.source, change, read, index)? {
            add_new(original, &mut candidates, candidate)?;
        }
    }
    Ok(candidates)
}
