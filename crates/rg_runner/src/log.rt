//! The log: the records' lines, which go out while the run goes on.

ghost use Rattle.std.specs.Prelude.{◌≡◌, ◌+◌, ℕ, List, [], Option, IfOk, IfErr, OnOk};
ghost use Rattle.std.specs.Io.KnownBytes.{Appends};
ghost use Rattle.rg_words.specs.Written.{CanCount};
ghost use Rattle.rg_tree.specs.Statements.{ProgramTree};
ghost use Rattle.rg_tree.specs.ProgramTrees.{program as program_tree};
ghost use Rattle.rg_monitor.specs.Lines.{lines_of};
ghost use Rattle.rg_runner.specs.Faults.{IsRunFault, failures_in};
ghost use Rattle.rg_runner.specs.Inner.Printing.{Prints};

use crossbeam_channel::{Receiver, TryRecvError};
use rg_monitor::fits::fits;
use rg_monitor::gather::{Gather, Untaken};
use rg_monitor::lines::push_line;
use rg_monitor::record::Record;
use rg_tree::program::Program;
use rg_words::limits::BUFFER_BYTES;
use rg_words::{Out, Refusal, RefusalNumber, write_all};
use std::alloc::Global;
use std::sync::Wait;

/// The text that isn't out yet, and all records whose lines were made.
#[derive(Drop)]
struct Log {
    waiting: Vec<u8>,
    printed: Vec<Record>,
}

/// Writes the text that waits.
fn flush<W: Out>(writer: &mut W, log: &mut Log) -> Result<(), Refusal>
    requires { CanCount (W.failures writer.old) }
    ensures prints { (p : ProgramTree) → OnOk result (Prints p (W.contents writer.old) log.old (W.contents writer.new) log.new) }
    ensures nothing { OnOk result (log.new.waiting.items ≡ []) }
    ensures failures { W.failures writer.new ≡ W.failures writer.old + failures_in result }
    ensures faults { IfErr result IsRunFault }
{
    write_all(writer, &log.waiting)?;
    log.waiting.clear();
    Ok(())
}

/// Puts the line of a record after the text that waits, and writes that where it is long.
fn print<W: Out>(
    program: &Program,
    step: Record,
    writer: &mut W,
    log: &mut Log,
) -> Result<(), Refusal>
    requires { CanCount (W.failures writer.old) }
    ensures prints { OnOk result (Prints (program_tree program.now) (W.contents writer.old) log.old (W.contents writer.new) log.new) }
    ensures failures { W.failures writer.new ≡ W.failures writer.old + failures_in result }
    ensures faults { IfErr result IsRunFault }
{
    add(program, step, log)?;
    if log.waiting.len() >= BUFFER_BYTES {
        flush(writer, log)?;
    }
    Ok(())
}

/// Puts the line of a record after the text that waits.
fn add(program: &Program, step: Record, log: &mut Log) -> Result<(), Refusal>
    ensures prints { OnOk result ((taken : Option (List ℕ)) → Prints (program_tree program.now) taken log.old taken log.new) }
    ensures quiet { failures_in result ≡ 0 }
    ensures faults { IfErr result IsRunFault }
{
    if !fits(program, &step) {
        return Err(Refusal::new(RefusalNumber::Mismatch));
    }
    push_line(&mut log.waiting, program, &step)?;
    log.printed.push(step)?;
    Ok(())
}

/// Prints all records that are next.
fn print_ready<W: Out>(
    program: &Program,
    gather: &mut Gather,
    writer: &mut W,
    log: &mut Log,
) -> Result<(), Refusal>
    requires { CanCount (W.failures writer.old) }
    ensures prints { OnOk result (Prints (program_tree program.now) (W.contents writer.old) log.old (W.contents writer.new) log.new) }
    ensures failures { W.failures writer.new ≡ W.failures writer.old + failures_in result }
    ensures faults { IfErr result IsRunFault }
{
    for _ in 0..u64::MAX {
        let Some(step) = gather.ready() else {
            break;
        };
        print(program, step, writer, log)?;
    }
    Ok(())
}

/// The next record that a thread sends. The text that waits goes out before the call waits for one.
fn next<W: Out, R: Wait>(
    rt: &R,
    from: &Receiver<Record>,
    writer: &mut W,
    log: &mut Log,
) -> Result<Option<Record>, Refusal>
    requires { CanCount (W.failures writer.old) }
    ensures prints { (p : ProgramTree) → OnOk result (Prints p (W.contents writer.old) log.old (W.contents writer.new) log.new) }
    ensures failures { W.failures writer.new ≡ W.failures writer.old + failures_in result }
    ensures faults { IfErr result IsRunFault }
{
    match from.try_recv(rt) {
        Ok(step) => return Ok(Some(step)),
        Err(TryRecvError::Disconnected) => return Ok(None),
        Err(TryRecvError::Empty) => {}
    }
    flush(writer, log)?;
    Ok(from.recv(rt).ok())
}

fn take(gather: &mut Gather, step: Record) -> Result<(), Refusal>
    ensures quiet { failures_in result ≡ 0 }
    ensures faults { IfErr result IsRunFault }
{
    match gather.take(step) {
        Ok(()) => Ok(()),
        Err(Untaken::Stranger) => Err(Refusal::new(RefusalNumber::Stranger)),
        Err(Untaken::Memory) => Err(Refusal::new(RefusalNumber::Memory)),
    }
}

/// Prints the records in the order of their numbers, until no thread sends any more. A line goes out at the latest when no further
/// record waits.
pub fn print_all<W: Out, R: Wait>(
    rt: &R,
    alloc: Global,
    program: &Program,
    from: &Receiver<Record>,
    writer: &mut W,
) -> Result<Vec<Record>, Refusal>
    requires { CanCount (W.failures writer.old) }
    ensures text { IfOk result (λ steps. Appends (W.contents writer.old) (W.contents writer.new) (lines_of (program_tree program.now) steps.items)) }
    ensures failures { W.failures writer.new ≡ W.failures writer.old + failures_in result }
    ensures faults { IfErr result IsRunFault }
{
    let mut gather = Gather::new(alloc);
    let mut log = Log {
        waiting: Vec::new(alloc),
        printed: Vec::new(alloc),
    };
    for _ in rt.forever() {
        let Some(step) = next(rt, from, writer, &mut log)? else {
            break;
        };
        take(&mut gather, step)?;
        print_ready(program, &mut gather, writer, &mut log)?;
    }
    flush(writer, &mut log)?;
    Ok(log.printed)
}
