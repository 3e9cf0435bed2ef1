//! A line that is carried out over files in memory, and the status and the faults that report how that went.

ghost use Rattle.std.specs.Prelude.{◌≡◌, ◌≤◌, ◌++◌, [], Some, string_bytes, IfOk, IfErr, OnOk};
ghost use Rattle.rg_words.specs.Written.{CanCount};
ghost use Rattle.rgc_answers.specs.Failures.{NoFailure};
ghost use Rattle.rgc_answers.specs.Output.{output};
ghost use Rattle.rgc_commands.specs.Delivered.{IsDelivered, IsCutOff};
ghost use Rattle.rgc_commands.specs.Of.{IsOutlineOf};
ghost use Rattle.rgc_commands.specs.Performed.{HasPerformed, IsBelow, IsDone, IsFirst, IsPerformed, IsReported, IsUnverifiedReported, ReportsRefusal, Writes, answer_status, refusal_status, reported_line};
ghost use Rattle.rgc_commands.specs.Put.{ArePut};
ghost use Rattle.rgc_commands.specs.Inner.Reported.{IsPassed};
ghost use Rattle.rgc_commands.specs.declared.files.Files.{Files as AllFiles};
ghost use Rattle.rgc_commands.specs.declared.sides.Sides.{Sides as AllSides};

use crate::answered::answer;
use crate::answers::{Answer, has_succeeded};
use crate::explained::explained;
use crate::given::{Given, Taken, files_with};
use crate::meaning::unmeant;
use crate::rendered::render;
use crate::runs::print_ready;
use crate::sides::Sides;
use crate::{Files, Stop};
use rg_outline_reports::{Reading, WorkedOut};
use rg_watch::Watcher;
use rg_words::{Out, Refusal, RefusalNumber, write_all};
use rgc_answers::{Context, reason, refusal_json};
use rgc_line::{Command, Format, Line, Settings};
use std::alloc::{AllocError, Global};
use std::sync::Wait;
use std::thread::Threads;

/// The line that reports a refusal.
fn line_of(alloc: Global, format: Format, refusal: Refusal) -> Result<String, AllocError>
    ensures { IfOk result (λ line. string_bytes line ≡ reported_line format refusal) }
{
    match format {
        Format::Plain => format!(in alloc; "{refusal}\n"),
        Format::Json => {
            let mut line = refusal_json(alloc, &refusal)?;
            line.push_str("\n")?;
            Ok(line)
        }
    }
}

/// The status of a refusal.
fn status_of(refusal: Refusal) -> u8
    ensures low { 1 ≤ result }
    ensures high { result ≤ 3 }
    ensures number { result ≡ refusal_status refusal.number }
{
    match refusal.number {
        RefusalNumber::Write | RefusalNumber::Memory => 3,
        _ => 1,
    }
}

/// Reports a text. A failing write is passed over.
fn report_text<F: Out>(text: &[u8], faults: &mut F)
    requires { CanCount (F.failures faults.old) }
    ensures { Writes (output F.contents F.failures faults.old faults.new) text.now }
{
    let _ = write_all(faults, text);
}

/// Reports a line, and what explains it below. A failing write is passed over.
fn report_both<F: Out>(line: &[u8], below: &[u8], faults: &mut F)
    requires { CanCount (F.failures faults.old) }
    ensures { Writes (output F.contents F.failures faults.old faults.new) (line.now ++ below.now) }
{
    if write_all(faults, line).is_ok() {
        let _ = write_all(faults, below);
    }
}

/// Reports a refusal in a line of its own, and what explains it below; the status. Where there is no memory for the line, that is reported.
fn report_refusal<F: Out>(
    alloc: Global,
    settings: &Settings<'_>,
    refusal: Refusal,
    below: &[u8],
    faults: &mut F,
) -> u8
    requires count { CanCount (F.failures faults.old) }
    requires below { IsBelow settings.now below.now }
    ensures low { 1 ≤ result }
    ensures high { result ≤ 3 }
    ensures reported { ReportsRefusal settings.now refusal result (output F.contents F.failures faults.old faults.new) }
{
    let Ok(line) = line_of(alloc, settings.format, refusal) else {
        report_text(b"refused 99\n", faults);
        return 3;
    };
    report_both(line.as_bytes(), below, faults);
    status_of(refusal)
}

/// What explains a refusal below its line.
fn below_of(
    alloc: Global,
    line: &Line<'_>,
    files: &Files<'_>,
    refusal: Refusal,
) -> Result<Vec<u8>, AllocError>
    ensures { IfOk result (λ below. IsBelow line.now.settings below.items) }
{
    match line.settings.format {
        Format::Plain if line.settings.is_explained => explained(alloc, files, &refusal),
        _ => Ok(Vec::new(alloc)),
    }
}

/// Reports a refusal, and what explains it where that is asked; the status. Where there is no memory for that, it is reported.
fn report_explained<F: Out>(
    alloc: Global,
    line: &Line<'_>,
    files: &Files<'_>,
    refusal: Refusal,
    faults: &mut F,
) -> u8
    requires { CanCount (F.failures faults.old) }
    ensures low { 1 ≤ result }
    ensures high { result ≤ 3 }
    ensures reported { ReportsRefusal line.now.settings refusal result (output F.contents F.failures faults.old faults.new) }
{
    let Ok(below) = below_of(alloc, line, files, refusal) else {
        report_text(b"refused 99\n", faults);
        return 3;
    };
    report_refusal(alloc, &line.settings, refusal, &below, faults)
}

/// Prints an answer; the lines that report moves of a run that were passed over.
fn deliver<R: Threads + Wait + Sync, P, W: Out>(
    context: &Context<'_, R, P>,
    format: Format,
    answer: &Answer<'_>,
    out: &mut W,
    picture: &mut Vec<u8>,
) -> Result<String, Refusal>
    requires { CanCount (W.failures out.old) }
    ensures delivered { OnOk result (IsDelivered format answer.now (W.contents out.old) (W.contents out.new)) }
    ensures passed { IfOk result (λ passed. IsPassed answer.now (string_bytes passed)) }
    ensures failures { NoFailure result (W.failures out.old) (W.failures out.new) }
    ensures stopped { IfErr result (IsCutOff answer.now (output W.contents W.failures out.old out.new)) }
{
    match answer {
        Answer::Clauses(clauses) => clauses.write_cnf(out)?,
        Answer::Run(ready) => return print_ready(context, format, ready, out, picture),
        _ => {
            let text = render(context.alloc, format, answer)?;
            write_all(out, &text)?;
        }
    }
    Ok(String::new(context.alloc))
}

/// What is reported of an answer before its notes: why a search gave up, or the moves of a run that were passed over.
fn first_of<'a>(answer: &'a Answer<'_>, passed: &'a str) -> &'a str
    requires { IsPassed answer.now passed.now }
    ensures { IsFirst answer.now result.now }
{
    match answer {
        Answer::Found(_, judged) => reason(judged),
        _ => passed,
    }
}

/// Puts the pieces of proofs beside the output of `prove`, on which they stand one after another.
fn put_proofs(command: Command<'_>, answer: Answer<'_>, sides: &mut Sides)
    ensures { (files : AllFiles) → (before : AllSides) →
        ArePut command.entry files before sides.old → ArePut command.entry files before sides.new }
{
    match answer {
        Answer::Proved(_, pieces) => {
            if matches!(command, Command::Prove { .. }) {
                sides.proofs = pieces;
            }
        }
        other => drop(other),
    }
}

/// The status of an answer that went out.
fn answer_status(answer: &Answer<'_>) -> u8
    ensures high { result ≤ 1 }
    ensures is { result ≡ answer_status answer.now }
{
    if has_succeeded(answer) { 0 } else { 1 }
}

/// Prints what is found of conditions that have no proof, and reports what is noted of it, or that it didn't go out whole; the status.
fn report_unverified<W: Out, F: Out>(
    settings: &Settings<'_>,
    report: &[u8],
    notes: &Vec<u8>,
    out: &mut W,
    faults: &mut F,
) -> u8
    requires out { CanCount (W.failures out.old) }
    requires faults { CanCount (F.failures faults.old) }
    ensures low { 1 ≤ result }
    ensures high { result ≤ 3 }
    ensures reported { IsUnverifiedReported settings.now report.now result
        (output W.contents W.failures out.old out.new) (output F.contents F.failures faults.old faults.new) }
{
    match write_all(out, report) {
        Ok(()) => {
            report_text(notes, faults);
            1
        }
        Err(fault) => {
            report_refusal(
                *notes.allocator(),
                settings,
                Refusal::from(fault),
                &[],
                faults,
            )
        }
    }
}

/// Reports why a command has no answer; the status. What is found of an outline that isn't verified goes out.
fn report_stop<W: Out, F: Out>(
    line: &Line<'_>,
    files: &Files<'_>,
    stop: &Stop,
    notes: &Vec<u8>,
    out: &mut W,
    faults: &mut F,
) -> u8
    requires out { CanCount (W.failures out.old) }
    requires faults { CanCount (F.failures faults.old) }
    ensures low { 1 ≤ result }
    ensures high { result ≤ 3 }
    ensures reported { IsReported line.now.settings stop.now result
        (output W.contents W.failures out.old out.new) (output F.contents F.failures faults.old faults.new) }
{
    let alloc = *notes.allocator();
    match stop {
        Stop::Device(words) => {
            report_text(words.as_bytes(), faults);
            3
        }
        Stop::Fault(lines) => {
            report_text(lines, faults);
            1
        }
        Stop::Usage(words) => {
            report_text(words.as_bytes(), faults);
            2
        }
        Stop::Unverified(report) => report_unverified(&line.settings, report, notes, out, faults),
        Stop::Refused(refusal) => report_explained(alloc, line, files, *refusal, faults),
    }
}

/// Does the command over the bytes of its files, the outline among them worked out.
fn carry_out<R: Threads + Wait + Sync, W: Out, F: Out, P: Watcher + Copy + Sync>(
    context: &Context<'_, R, P>,
    line: &Line<'_>,
    files: &Files<'_>,
    out: &mut W,
    faults: &mut F,
    sides: &mut Sides,
) -> u8
    requires out { CanCount (W.failures out.old) }
    requires faults { CanCount (F.failures faults.old) }
    ensures status { result ≤ 3 }
    ensures failures { result ≡ 0 → W.failures out.new ≡ W.failures out.old }

    // What is said to be so is so of the files, and went out; what is wanted beside it was put.
    ensures done { result ≡ 0 → IsDone line.now files.now (W.contents out.old) (W.contents out.new) }
    ensures sides { result ≡ 0 → ArePut line.now.command files.now sides.old sides.new }

    // By the status: what went out and what is reported, and why.
    ensures performed { IsPerformed result line.now files.now (output W.contents W.failures out.old out.new)
        (output F.contents F.failures faults.old faults.new) }
{
    let alloc = context.alloc;
    let mut notes = Vec::new(alloc);
    let answer = match answer(context, line, files, &mut notes, sides) {
        Ok(answer) => answer,
        Err(stop) => {
            let status = report_stop(line, files, &stop, &notes, out, faults);
            drop(stop);
            return status;
        }
    };
    match deliver(
        context,
        line.settings.format,
        &answer,
        out,
        &mut sides.picture,
    ) {
        Ok(passed) => {
            report_both(first_of(&answer, &passed).as_bytes(), &notes, faults);
            let status = answer_status(&answer);
            put_proofs(line.command, answer, sides);
            status
        }
        Err(refusal) => {
            drop(answer);
            report_refusal(alloc, &line.settings, refusal, &[], faults)
        }
    }
}

/// Does the command over the bytes of its files, the outline among them taken so.
fn carry_out_taken<R: Threads + Wait + Sync, W: Out, F: Out, P: Watcher + Copy + Sync>(
    context: &Context<'_, R, P>,
    line: &Line<'_>,
    taken: Taken<'_, '_>,
    out: &mut W,
    faults: &mut F,
    sides: &mut Sides,
) -> u8
    requires out { CanCount (W.failures out.old) }
    requires faults { CanCount (F.failures faults.old) }
    requires taken { IsOutlineOf taken.given.outline (Some taken.expanded) }
    ensures status { result ≤ 3 }
    ensures failures { result ≡ 0 → W.failures out.new ≡ W.failures out.old }
    ensures performed { HasPerformed result line.now taken.entry.given sides.old sides.new
        (output W.contents W.failures out.old out.new) (output F.contents F.failures faults.old faults.new) }
{
    let files = files_with(taken.given, Some(taken.expanded));
    carry_out(context, line, &files, out, faults, sides)
}

/// Does the command over the bytes of its files in the threads of the context (a run has one for each part besides), and answers the program's
/// status: 0 done, 1 refused or no proof found, 2 where the words don't fit (a range of conditions that isn't one, no refusal of the number to
/// explain), 3 where a file can't be read, where the output can't be written, or where memory is refused. A refusal is one line on `faults`,
/// and what explains it below, where that is asked; why the search of `find` gave up is one line there. Warnings, what is lost where words are erased, and
/// moves of a run that were passed over are reported there too, and change no status. Each search has a copy of the watcher, which hears of a long one.
/// What is written beside the output is put into `sides`.
#[tactic(auto, using(crate::proofs::Meant::rules))]
pub fn perform<R: Threads + Wait + Sync, W: Out, F: Out, P: Watcher + Copy + Sync>(
    context: &Context<'_, R, P>,
    line: &Line<'_>,
    given: &Given<'_>,
    out: &mut W,
    faults: &mut F,
    sides: &mut Sides,
) -> u8
    requires out { CanCount (W.failures out.old) }
    requires faults { CanCount (F.failures faults.old) }
    ensures status { result ≤ 3 }
    ensures failures { result ≡ 0 → W.failures out.new ≡ W.failures out.old }

    // All that is said is said of the files that are given, and of one expansion, of just the outline that is given, which stands for the program of its text:
    // what went out, what was put beside it, and what is reported, and why.
    ensures performed { HasPerformed result line.now given.now sides.old sides.new
        (output W.contents W.failures out.old out.new) (output F.contents F.failures faults.old faults.new) }
{
    let Some(outline) = given.outline else {
        let files = files_with(*given, None);
        return carry_out(context, line, &files, out, faults, sides);
    };
    let reading = Reading::of(context.alloc, outline);
    let worked = WorkedOut::of(context.alloc, &reading);
    let Some(none) = unmeant(context.alloc, outline, worked.expanded()) else {
        let taken = Taken::new(*given, worked.expanded());
        return carry_out_taken(context, line, taken, out, faults, sides);
    };
    let refused = Err(none);
    let taken = Taken::new(*given, &refused);
    carry_out_taken(context, line, taken, out, faults, sides)
}
