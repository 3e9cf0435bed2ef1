//! A run, whose lines go out as its steps are made.

ghost use Rattle.std.specs.Prelude.{◌≡◌, ◌++◌, IfOk, IfErr, OnOk};
ghost use Rattle.std.specs.Io.KnownBytes.{Appends};
ghost use Rattle.rg_words.specs.Stopped.{IsFailure};
ghost use Rattle.rg_words.specs.Written.{CanCount};
ghost use Rattle.rg_tree.specs.ProgramTrees.{program as program_tree};
ghost use Rattle.rg_code.specs.CodeTrees.{code_blocks};
ghost use Rattle.rgc_answers.specs.Failures.{NoFailure};
ghost use Rattle.rgc_answers.specs.Output.{output};
ghost use Rattle.rgc_answers.specs.Refused.{IsUnbegun, IsRunStopped};
ghost use Rattle.rgc_answers.specs.Running.{IsRunLeft, why_text};
ghost use Rattle.rgc_outlines.specs.Reported.{reported_lines};
ghost use Rattle.rgc_commands.specs.Code.{coded_program, coded_blocks};
ghost use Rattle.rgc_commands.specs.Delivered.{HasRun};
ghost use Rattle.rgc_commands.specs.Inner.Wordings.{live_text, rest_text, HasPlayed, IsWording};

use crate::code::{Coded, Ready};
use rg_code::checked::Checked;
use rg_floor::closed::Closed;
use rg_tree::program::Program;
use rg_words::{Out, Refusal, write_all};
use rgc_answers::{Context, Run, Unread, draw_run, passed_lines, play_run, why_line, write_run};
use rgc_line::Format;
use rgc_outlines::{Naming, draw_reported, push_reported};
use std::alloc::{AllocError, Global};
use std::sync::Wait;
use std::thread::Threads;

/// How the steps of a run are reported.
#[derive(Clone, Copy)]
enum Wording<'a> {
    /// A line for each, as it is made.
    Plain,
    /// A JSON value for each, after the run.
    Json,
    /// A line for each as an outline names what it speaks of, after the run.
    Named(&'a Naming),
}

/// Plays code, and prints the lines that go out as its steps are made.
fn played<'e, R: Threads + Wait + Sync, P, E: Checked, W: Out>(
    context: &Context<'_, R, P>,
    checked: &'e E,
    run: Run<'_>,
    wording: Wording<'_>,
    out: &mut W,
) -> Result<Closed<'e>, Refusal>
    requires { CanCount (W.failures out.old) }
    ensures run { IfOk result (λ c. IsRunLeft (program_tree (E.program_of checked.now)) (code_blocks (E.code_of checked.now)) run.entry c) }
    ensures printed { IfOk result (λ c. Appends (W.contents out.old) (W.contents out.new)
        (live_text wording.entry (program_tree (E.program_of checked.now)) c)) }
    ensures failures { NoFailure result (W.failures out.old) (W.failures out.new) }
    ensures stopped { IfErr result (IsRunStopped (IsUnbegun (program_tree (E.program_of checked.now)) run.entry)
        (output W.contents W.failures out.old out.new)) }
{
    match wording {
        Wording::Plain => play_run(context.rt, context.alloc, checked, run, out),
        _ => play_run(context.rt, context.alloc, checked, run, &mut Unread),
    }
}

/// What goes out of a run in the words of an outline: a line for each step, and why it is over.
fn named_text(
    alloc: Global,
    program: &Program,
    closed: &Closed<'_>,
    naming: &Naming,
) -> Result<Vec<u8>, AllocError>
    ensures { IfOk result (λ text. text.items ≡ reported_lines naming.now (program_tree program.now) closed.now.history ++ why_text closed.now.why) }
{
    let records = closed.records_from(alloc, 1)?;
    let mut text = Vec::new(alloc);
    push_reported(&mut text, naming, program, &records)?;
    text.extend_from_slice(why_line(closed.why()).as_bytes())?;
    Ok(text)
}

/// Writes what goes out after the steps of a run.
fn write_rest<W: Out>(
    alloc: Global,
    program: &Program,
    closed: &Closed<'_>,
    wording: Wording<'_>,
    out: &mut W,
) -> Result<(), Refusal>
    requires { CanCount (W.failures out.old) }
    ensures printed { OnOk result (Appends (W.contents out.old) (W.contents out.new) (rest_text wording.entry (program_tree program.now) closed.now)) }
    ensures failures { NoFailure result (W.failures out.old) (W.failures out.new) }
    ensures stopped { IfErr result (IsFailure (W.failures out.old) (W.failures out.new)) }
{
    match wording {
        Wording::Plain => write_all(out, why_line(closed.why()).as_bytes())?,
        Wording::Json => write_run(alloc, program, closed, out)?,
        Wording::Named(naming) => {
            let text = named_text(alloc, program, closed, naming)?;
            write_all(out, &text)?;
        }
    }
    Ok(())
}

/// The lines that report the moves that were passed over; none where they are among what goes out.
fn passed_of(
    alloc: Global,
    closed: &Closed<'_>,
    wording: Wording<'_>,
) -> Result<String, AllocError> {
    match wording {
        Wording::Json => Ok(String::new(alloc)),
        _ => passed_lines(alloc, closed.refused()),
    }
}

/// The picture of a run where it is drawn; else nothing.
fn picture_of(
    alloc: Global,
    closed: &Closed<'_>,
    wording: Wording<'_>,
    is_drawn: bool,
) -> Result<Vec<u8>, AllocError> {
    let mut picture = Vec::new(alloc);
    if !is_drawn {
        return Ok(picture);
    }
    if let Wording::Named(naming) = wording {
        return draw_reported(alloc, naming, closed);
    }
    draw_run(alloc, closed, &mut picture)?;
    Ok(picture)
}

/// How code is run, and how that is reported.
#[derive(Clone, Copy)]
struct How<'a> {
    run: Run<'a>,
    wording: Wording<'a>,
    is_drawn: bool,
}

/// Plays code, and prints all of its run; the lines that report the moves that were passed over. What can be refused comes first, so that of a run that
/// is refused no move is reported.
fn print_run<R: Threads + Wait + Sync, P, E: Checked, W: Out>(
    context: &Context<'_, R, P>,
    checked: &E,
    how: How<'_>,
    out: &mut W,
    picture: &mut Vec<u8>,
) -> Result<String, Refusal>
    requires { CanCount (W.failures out.old) }
    ensures printed { OnOk result (HasPlayed how.entry.wording (program_tree (E.program_of checked.now)) (code_blocks (E.code_of checked.now))
        how.entry.run (W.contents out.old) (W.contents out.new)) }
    ensures failures { NoFailure result (W.failures out.old) (W.failures out.new) }
    ensures stopped { IfErr result (IsRunStopped (IsUnbegun (program_tree (E.program_of checked.now)) how.entry.run)
        (output W.contents W.failures out.old out.new)) }
{
    let How {
        run,
        wording,
        is_drawn,
    } = how;
    let closed = played(context, checked, run, wording, out)?;
    let passed = passed_of(context.alloc, &closed, wording)?;
    *picture = picture_of(context.alloc, &closed, wording, is_drawn)?;
    write_rest(context.alloc, checked.program(), &closed, wording, out)?;
    Ok(passed)
}

/// How the steps of a run are reported in a format, and in the words of an outline where one names what its records speak of.
fn wording_of<'a>(format: Format, naming: &'a Option<Naming>) -> Wording<'a>
    ensures { IsWording format naming.now result }
{
    match naming {
        Some(naming) => Wording::Named(naming),
        None if format == Format::Json => Wording::Json,
        None => Wording::Plain,
    }
}

/// Runs code that is ready, and prints its run in a format; the lines that report the moves that were passed over.
pub(crate) fn print_ready<R: Threads + Wait + Sync, P, W: Out>(
    context: &Context<'_, R, P>,
    format: Format,
    ready: &Ready<'_>,
    out: &mut W,
    picture: &mut Vec<u8>,
) -> Result<String, Refusal>
    requires { CanCount (W.failures out.old) }
    ensures printed { OnOk result (HasRun format ready.now (W.contents out.old) (W.contents out.new)) }
    ensures failures { NoFailure result (W.failures out.old) (W.failures out.new) }
    ensures stopped { IfErr result (IsRunStopped (IsUnbegun (coded_program ready.now.code) ready.now.run) (output W.contents W.failures out.old out.new)) }
{
    let how = How {
        run: ready.run,
        wording: wording_of(format, &ready.naming),
        is_drawn: ready.is_drawn,
    };
    match &ready.code {
        Coded::Whole(emitted) => print_run(context, emitted, how, out, picture),
        Coded::Left(erased) => print_run(context, erased, how, out, picture),
    }
}
