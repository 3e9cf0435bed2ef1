//! What is known of a changed program.

ghost use Rattle.std.specs.Prelude.{◌<◌, IfOk, IfSome, OnOk, All, length};
ghost use Rattle.rgc_outlines.specs.Changed.{IsAnswered};
ghost use Rattle.rgc_outlines.specs.Inner.Answers.{AreAnswered};

use crate::asked::is_proved;
use crate::candidates::{Candidate, files_with, nameless, unless_refused};
use crate::known::Known;
use crate::walk_text;
use rg_outline_challenge::{Between, Change, changed_outline};
use rg_outline_reports::{Format, OutlineFiles, Outlined, read_outline};
use rg_pool::deal;
use rg_walk::{Bounds, BreakingRun, Walked};
use rg_watch::Watcher;
use rg_words::Refusal;
use rgc_answers::Context;
use std::alloc::{AllocError, Global};
use std::sync::Wait;
use std::thread::Threads;

/// How far the walk of a changed program goes.
const BOUNDS: Bounds = Bounds {
    steps: 60_000,
    bytes: 100_000_000,
    with_parts: false,
};

/// What is known of a changed program.
#[derive(Clone, Copy, PartialEq, Eq)]
pub enum Answer {
    /// It is proved all the same.
    Survives,
    /// A run of it breaks the specification.
    Breaks,
    /// It isn't proved with these assertions, and no run was found that breaks the specification.
    Undecided,
}

/// A change, and what is known of the changed program.
#[derive(Drop)]
pub struct Answered {
    pub change: Change,
    pub answer: Answer,
    /// The text of the changed program.
    pub text: Vec<u8>,
    /// The lines that report the run that breaks it, or the line that does as JSON, if there is one.
    pub reported: Vec<u8>,
}

/// The outline that is changed, and how its changes are asked.
#[derive(Clone, Copy)]
pub(crate) struct Subject<'s, 'k, 'p> {
    pub(crate) source: &'s [u8],
    /// What is proved of the outline as it is written.
    pub(crate) known: &'k Known<'p>,
    /// The most decisions of each search.
    pub(crate) steps: u64,
    /// How runs are reported.
    pub(crate) format: Format,
}

/// A change that survives with these files, if it does.
fn proved_with<R: Threads + Wait + Sync, P: Watcher + Copy>(
    context: &Context<'_, R, P>,
    subject: Subject<'_, '_, '_>,
    change: &Change,
    files: OutlineFiles,
) -> Result<Option<Answered>, Refusal>
    ensures { IfOk result (λ found. IfSome found IsAnswered) }
{
    let (known, steps) = (subject.known, subject.steps);
    if !is_proved(context, &files, known, steps)? {
        return Ok(None);
    }
    Ok(Some(Answered {
        change: *change,
        answer: Answer::Survives,
        text: files.text,
        reported: Vec::new(context.alloc),
    }))
}

/// A change that survives with one of the assertions, if it does.
fn proved<R: Threads + Wait + Sync, P: Watcher + Copy>(
    context: &Context<'_, R, P>,
    subject: Subject<'_, '_, '_>,
    change: &Change,
) -> Result<Option<Answered>, Refusal>
    ensures { IfOk result (λ found. IfSome found IsAnswered) }
{
    for between in Between::ALL {
        if let Some(files) = files_with(context.alloc, subject.source, change, between)? {
            let found = proved_with(context, subject, change, files)?;
            if found.is_some() {
                return Ok(found);
            }
        }
    }
    Ok(None)
}

/// The lines that report a run of the program of an outline; none where the outline is refused.
fn run_lines(
    alloc: Global,
    source: &[u8],
    format: Format,
    run: &BreakingRun,
) -> Result<Vec<u8>, AllocError> {
    let outline = nameless(source, format);
    let Some(written) = unless_refused(read_outline(alloc, outline))? else {
        return Ok(Vec::new(alloc));
    };
    match unless_refused(Outlined::of(alloc, outline, &written))? {
        Some(outlined) => outlined.run_lines(run),
        None => Ok(Vec::new(alloc)),
    }
}

/// A change that isn't proved, with what a walk finds of it.
fn walked<R, P: Watcher + Copy>(
    context: &Context<'_, R, P>,
    source: &[u8],
    format: Format,
    candidate: &Candidate,
) -> Result<Answered, Refusal>
    ensures { IfOk result IsAnswered }
{
    let alloc = context.alloc;
    let mut own = *context.watcher;
    let change = candidate.change;
    let text = Vec::from_slice(alloc, &candidate.text)?;
    match walk_text(alloc, &text, &[], BOUNDS, &mut own)? {
        Walked::Breaks(run) => {
            let changed = changed_outline(alloc, source, &change, candidate.between)?;
            let reported = run_lines(alloc, &changed, format, &run)?;
            Ok(Answered {
                change,
                answer: Answer::Breaks,
                text,
                reported,
            })
        }
        Walked::NotFound(_) => Ok(Answered {
            change,
            answer: Answer::Undecided,
            text,
            reported: Vec::new(alloc),
        }),
    }
}

/// What is known of a changed program.
fn answer_of<R: Threads + Wait + Sync, P: Watcher + Copy>(
    context: &Context<'_, R, P>,
    subject: Subject<'_, '_, '_>,
    candidate: &Candidate,
) -> Result<Answered, Refusal>
    ensures { IfOk result IsAnswered }
{
    match proved(context, subject, &candidate.change)? {
        Some(answered) => Ok(answered),
        None => walked(context, subject.source, subject.format, candidate),
    }
}

/// What is known of each changed program, at its place, found in threads.
fn answer_all<R: Threads + Wait + Sync, P: Watcher + Copy + Sync>(
    context: &Context<'_, R, P>,
    subject: Subject<'_, '_, '_>,
    candidates: &[Candidate],
) -> Result<Vec<Option<Result<Answered, Refusal>>>, AllocError>
    ensures { IfOk result (λ found. AreAnswered found.items) }
{
    deal(
        context.rt,
        context.alloc,
        context.threads,
        candidates.len(),
        &|index: usize| -> Option<Result<Answered, Refusal>>
            requires { index < length candidates.now }
            ensures { IfSome result (λ r. IfOk r IsAnswered) }
        { Some(answer_of(context, subject, &candidates[index])) },
    )
}

/// What is known of the changed program at a place: what was found of it before, which is taken, or what is found now.
fn answer_at<R: Threads + Wait + Sync, P: Watcher + Copy>(
    context: &Context<'_, R, P>,
    subject: Subject<'_, '_, '_>,
    candidates: &[Candidate],
    found: &mut [Option<Result<Answered, Refusal>>],
    index: usize,
) -> Result<Answered, Refusal>
    requires place { index < length candidates.now }
    requires found { AreAnswered found.old }
    ensures answered { IfOk result IsAnswered }
    ensures found { AreAnswered found.new }
{
    if index < found.len() {
        if let Some(answered) = found[index].take() {
            return answered;
        }
    }
    answer_of(context, subject, &candidates[index])
}

/// Adds what is known of a changed program.
fn add_answer(answers: &mut Vec<Answered>, answered: Answered) -> Result<(), AllocError>
    requires before { All IsAnswered answers.old.items }
    requires one { IsAnswered answered }
    ensures { OnOk result (All IsAnswered answers.new.items) }
{
    answers.push(answered)?;
    Ok(())
}

/// What is known of each changed program, in the order of the candidates. They are asked side by side, in threads; the answers are
/// the same for any count of threads.
pub(crate) fn answers_of<R: Threads + Wait + Sync, P: Watcher + Copy + Sync>(
    context: &Context<'_, R, P>,
    subject: Subject<'_, '_, '_>,
    candidates: &[Candidate],
) -> Result<Vec<Answered>, Refusal>
    ensures { IfOk result (λ answers. All IsAnswered answers.items) }
{
    let mut found = answer_all(context, subject, candidates)?;
    let places = found.as_mut_slice();
    let mut answers = Vec::new(context.alloc);
    for index in 0..candidates.len() {
        let answered = answer_at(context, subject, candidates, places, index)?;
        add_answer(&mut answers, answered)?;
    }
    Ok(answers)
}
