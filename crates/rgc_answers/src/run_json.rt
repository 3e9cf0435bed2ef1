//! A run as JSON.

ghost use Rattle.std.specs.Prelude.{◌≡◌, string_bytes, IfOk, IfErr, OnOk};
ghost use Rattle.std.specs.Io.KnownBytes.{Appends};
ghost use Rattle.rg_words.specs.Stopped.{IsFailure};
ghost use Rattle.rg_words.specs.Written.{CanCount};
ghost use Rattle.rg_tree.specs.ProgramTrees.{program as program_tree};
ghost use Rattle.rgc_answers.specs.Failures.{NoFailure};
ghost use Rattle.rgc_answers.specs.Records.{records_text, passed_text, ending_text, run_text};

use crate::ends::{end_line, passed_line};
use crate::records::record_line;
use rg_floor::closed::{Closed, Passed};
use rg_monitor::record::Record;
use rg_tree::program::Program;
use rg_words::{Out, Refusal, write_all};
use std::alloc::{AllocError, Global};

/// Writes records, a line each.
fn write_records<W: Out>(
    alloc: Global,
    program: &Program,
    records: &[Record],
    out: &mut W,
) -> Result<(), Refusal>
    requires { CanCount (W.failures out.old) }
    ensures printed { OnOk result (Appends (W.contents out.old) (W.contents out.new) (records_text (program_tree program.now) records.now)) }
    ensures failures { NoFailure result (W.failures out.old) (W.failures out.new) }
    ensures stopped { IfErr result (IsFailure (W.failures out.old) (W.failures out.new)) }
{
    for step in records {
        let line = record_line(alloc, program, step)?;
        write_all(out, line.as_bytes())?;
    }
    Ok(())
}

/// The moves that were passed over, a line each.
fn passed_text(alloc: Global, passed: &[Passed]) -> Result<String, AllocError>
    ensures { IfOk result (λ text. string_bytes text ≡ passed_text passed.now) }
{
    let mut text = String::new(alloc);
    for each in passed {
        let line = passed_line(alloc, *each)?;
        text.push_str(&line)?;
    }
    Ok(text)
}

/// What stands after the records of a run: the moves that were passed over, and why it is over.
fn ending_text(alloc: Global, closed: &Closed<'_>) -> Result<String, AllocError>
    ensures { IfOk result (λ text. string_bytes text ≡ ending_text closed.now) }
{
    let mut text = passed_text(alloc, closed.refused())?;
    let end = end_line(alloc, closed.why())?;
    text.push_str(&end)?;
    Ok(text)
}

/// Writes what is left of a run of this program: a value of kind `record` for each step, one of kind `passed` for each move that was passed over, and
/// one of kind `run`, which says why the run is over, a line each. The records are made again from the changes, all at once; of their lines no more
/// than one is in memory.
///
/// # Errors
///
/// `Write`, without a file and a place, where the writer failed; `Memory` where memory was refused.
pub fn write_run<W: Out>(
    alloc: Global,
    program: &Program,
    closed: &Closed<'_>,
    out: &mut W,
) -> Result<(), Refusal>
    requires { CanCount (W.failures out.old) }
    ensures printed { OnOk result (Appends (W.contents out.old) (W.contents out.new) (run_text (program_tree program.now) closed.now)) }
    ensures failures { NoFailure result (W.failures out.old) (W.failures out.new) }
    ensures stopped { IfErr result (IsFailure (W.failures out.old) (W.failures out.new)) }
{
    let ending = ending_text(alloc, closed)?;
    let records = closed.records_from(alloc, 1)?;
    write_records(alloc, program, &records, out)?;
    write_all(out, ending.as_bytes())?;
    Ok(())
}
