//! The challenge of an outline: what is known of each small change of its program.

ghost use Rattle.std.specs.Prelude.{All, IfOk};
ghost use Rattle.rgc_outlines.specs.Changed.{IsAnswered};

use crate::answers::{Answer, Answered, Subject, answers_of};
use crate::candidates::{Original, candidates_of};
use crate::challenge_json::json_lines_of;
use crate::known::Known;
use crate::proved::Proved;
use rg_outline_challenge::{
    Change, Counts, changes_of, push_change, push_counts, push_survivors, push_unspoken,
};
use rg_outline_reports::{Format, OutlineSource, Outlined};
use rg_outline_syntax::Span;
use rg_watch::Watcher;
use rg_words::Refusal;
use rgc_answers::Context;
use std::alloc::{AllocError, Global};
use std::sync::Wait;
use std::thread::Threads;

/// How an outline is challenged.
#[derive(Clone, Copy)]
pub struct Options {
    /// The most decisions of each search for a changed program.
    pub steps_for_changes: u64,
    /// Whether the changes that don't survive are reported, too, each with a run that breaks the specification, if one was found.
    pub with_refused: bool,
}

/// What is known of the changes of an outline's program.
#[derive(Drop)]
pub struct Challenge {
    /// Each change with what is known of it, in the order of the changes.
    pub answers: Vec<Answered>,
    /// What is reported of them.
    pub lines: Vec<u8>,
}

/// How many have this answer.
fn count(answers: &[Answered], answer: Answer) -> usize {
    answers
        .iter()
        .filter(|answered| answered.answer == answer)
        .count()
}

/// Adds the changes that don't survive, each with the run that breaks the specification, if there is one.
fn push_refused(
    alloc: Global,
    lines: &mut Vec<u8>,
    outline: OutlineSource<'_>,
    answers: &[Answered],
) -> Result<(), AllocError> {
    for answered in answers {
        let what: &[u8] = match answered.answer {
            Answer::Survives => continue,
            Answer::Breaks => b": breaks the specification\n",
            Answer::Undecided => b": undecided\n",
        };
        push_change(alloc, lines, outline.name, outline.source, &answered.change)?;
        lines.extend_from_slice(what)?;
        lines.extend_from_slice(&answered.reported)?;
        lines.push(b'\n')?;
    }
    Ok(())
}

/// The changes that survive.
fn survivors(alloc: Global, answers: &[Answered]) -> Result<Vec<Change>, AllocError> {
    let mut changes = Vec::new(alloc);
    for answered in answers {
        if answered.answer == Answer::Survives {
            changes.push(answered.change)?;
        }
    }
    Ok(changes)
}

/// What is reported of the changes.
fn lines_of(
    alloc: Global,
    outline: OutlineSource<'_>,
    options: Options,
    unspoken: &[Span],
    answers: &[Answered],
) -> Result<Vec<u8>, AllocError> {
    let counts = Counts {
        surviving: count(answers, Answer::Survives),
        breaking: count(answers, Answer::Breaks),
        undecided: count(answers, Answer::Undecided),
    };
    if outline.format == Format::Json {
        return json_lines_of(alloc, outline, counts, unspoken, answers);
    }
    let mut lines = Vec::new(alloc);
    if options.with_refused {
        push_refused(alloc, &mut lines, outline, answers)?;
    }
    push_counts(&mut lines, counts)?;
    push_unspoken(&mut lines, outline.source, unspoken)?;
    let surviving = survivors(alloc, answers)?;
    push_survivors(alloc, &mut lines, outline.name, outline.source, &surviving)?;
    Ok(lines)
}

/// Asks of each of these changes of an outline's program whether its specification still holds.
fn answers_in<R: Threads + Wait + Sync, P: Watcher + Copy + Sync>(
    context: &Context<'_, R, P>,
    outlined: &Outlined<'_>,
    proved: &Proved,
    changes: &[Change],
    steps: u64,
) -> Result<Vec<Answered>, Refusal>
    ensures { IfOk result (λ answers. All IsAnswered answers.items) }
{
    let alloc = context.alloc;
    let source = outlined.outline.source;
    let conditions = proved.derived.conditions(alloc)?;
    let known = Known::of(alloc, &conditions, &proved.proofs)?;
    let original = Original {
        source,
        text: &outlined.files.text,
    };
    let candidates = candidates_of(context, original, changes)?;
    let subject = Subject {
        source,
        known: &known,
        steps,
        format: outlined.outline.format,
    };
    answers_of(context, subject, &candidates)
}

/// Changes the program of an outline that is proved in each small way, and asks of each changed program whether the same specification still holds, by the
/// proofs of the outline and by searches of its own. The report has, where it is wanted, the changes that don't survive; then how
/// many changes there are of each kind; then those that survive, with their lines, first those that touch words of the specification.
/// As JSON it has all changes, a line each, and then how many there are of each kind.
/// The changed programs are asked side by side, in threads; the answers are the same for any count of threads.
///
/// # Errors
///
/// Where the files of a changed outline are too deep, where more decisions are asked than a search may make, or where memory is refused.
pub fn challenge_changes<R: Threads + Wait + Sync, P: Watcher + Copy + Sync>(
    context: &Context<'_, R, P>,
    outlined: &Outlined<'_>,
    proved: &Proved,
    options: Options,
) -> Result<Challenge, Refusal>
    // A change is said to survive only where its text, the pieces of a derivation and proofs are accepted; and to break the specification only where
    // its text's program doesn't satisfy it.
    ensures { IfOk result (λ found. All IsAnswered found.answers.items) }
{
    let (outline, read) = (outlined.outline, outlined.read);
    let found = changes_of(context.alloc, outline.source, &read.tokens, &read.written)?;
    let steps = options.steps_for_changes;
    let answers = answers_in(context, outlined, proved, &found.changes, steps)?;
    let lines = lines_of(context.alloc, outline, options, &found.unspoken, &answers)?;
    Ok(Challenge { answers, lines })
}
