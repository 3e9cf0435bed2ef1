//! What an outline is perhaps not meant to say.

use rg_find::Judged;
use rg_outline_reports::{Asks, Outlined, Outside, Question, values_of};
use rg_watch::Watcher;
use rg_words::RefusalNumber;
use rgc::find;
use std::alloc::{AllocError, Global};

/// The most decisions of a search for a warning.
const MOST_STEPS: u64 = 1_000;

/// What short searches found for the warnings of an outline.
#[derive(Drop)]
struct Found {
    /// The questions to which the answer is yes.
    shown: Vec<Asks>,
    outside: Vec<Outside>,
}

/// Adds what a short search finds for a question.
fn push_found<W: Watcher>(
    alloc: Global,
    question: &Question,
    found: &mut Found,
    watcher: &mut W,
) -> Result<(), AllocError> {
    let judged = match find(alloc, &question.text, MOST_STEPS, watcher) {
        Ok((_asked, judged)) => judged,
        Err(refusal) if refusal.number == RefusalNumber::Memory => return Err(AllocError),
        Err(_) => return Ok(()),
    };
    match (&judged, question.asks) {
        (Judged::Holds(_), asks) => found.shown.push(asks)?,
        (Judged::Fails(state, _), Asks::IndexInside(place)) => {
            let state = values_of(alloc, state)?;
            found.outside.push(Outside { place, state })?;
        }
        _ => {}
    }
    Ok(())
}

/// The warnings of an outline, of which some are found by a short search.
/// An error comes only where memory is refused.
pub fn warnings_of<W: Watcher>(
    alloc: Global,
    outlined: &Outlined<'_>,
    watcher: &mut W,
) -> Result<Vec<u8>, AllocError> {
    let questions = outlined.questions()?;
    let mut found = Found {
        shown: Vec::new(alloc),
        outside: Vec::new(alloc),
    };
    for question in &questions {
        push_found(alloc, question, &mut found, watcher)?;
    }
    outlined.warnings(&found.shown, &found.outside)
}
