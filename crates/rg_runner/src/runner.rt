//! A whole run.

ghost use Rattle.std.specs.Prelude.{◌≡◌, ◌≢◌, ◌+◌, ◌<◌, map, vec_len, Ok, OnOk, IfOk, IfErr};
ghost use Rattle.std.specs.Io.KnownBytes.{Appends};
ghost use Rattle.rg_words.specs.Layout.{widths_of};
ghost use Rattle.rg_words.specs.Written.{CanCount};
ghost use Rattle.rg_tree.specs.Moves.{move as move_tree, AreMoves};
ghost use Rattle.rg_tree.specs.ProgramTrees.{program as program_tree};
ghost use Rattle.rg_code.specs.CodeTrees.{code_blocks};
ghost use Rattle.rg_monitor.specs.Lines.{lines_of};
ghost use Rattle.rg_runner.specs.Faults.{IsRunFault, failures_in};
ghost use Rattle.rg_floor.specs.declared.turn.Why.TheVariants.{Stopped};
ghost use Rattle.rg_floor.specs.Moves.{first_place, MovesStand};
ghost use Rattle.rg_runner.specs.Running.{IsLeftOf, IsRunOf};

use crate::gate::Gate;
use crate::log::print_all;
use crate::stage::Stage;
use crate::table::{Table, stop};
use crate::threads::{Played, Shared, play_beside};
use crossbeam_channel::Receiver;
use rg_floor::closed::{Closed, Passed};
use rg_floor::floor::Floor;
use rg_floor::round::Round;
use rg_floor::seat::Seat;
use rg_floor::turn::Why;
use rg_floor::walk::{Origin, moves_stand};
use rg_monitor::record::Record;
use rg_tree::moves::Move;
use rg_tree::program::Program;
use rg_words::{Out, Refusal, RefusalNumber};
use std::alloc::{AllocError, Global};
use std::sync::{Condvar, Mutex, Wait};
use std::thread::Threads;

/// Prints what comes, and ends the run where that fails.
fn print_or_stop<L: Round, W: Out, R: Wait>(
    rt: &R,
    alloc: Global,
    program: &Program,
    table: &Table<'_, L>,
    from: &Receiver<Record>,
    writer: &mut W,
) -> Result<Vec<Record>, Refusal>
    requires program { program_tree program.now ≡ L.program }
    requires writer { CanCount (W.failures writer.old) }
    ensures text { IfOk result (λ steps. Appends (W.contents writer.old) (W.contents writer.new) (lines_of L.program steps.items)) }
    ensures failures { W.failures writer.new ≡ W.failures writer.old + failures_in result }
    ensures faults { IfErr result IsRunFault }
{
    let printed = print_all(rt, alloc, program, from, writer);
    if printed.is_err() {
        stop(rt, table);
    }
    printed
}

/// What the threads left and what was printed, where neither failed.
fn both<L: Round>(
    played: Result<Played<L>, AllocError>,
    printed: Result<Vec<Record>, Refusal>,
) -> Result<(Played<L>, Vec<Record>), Refusal>
    ensures played { IfOk result (λ r. played ≡ Ok r.0) }
    ensures printed { IfOk result (λ r. printed ≡ Ok r.1) }
    ensures failures { failures_in result ≡ failures_in printed }
    ensures faults { IfErr printed IsRunFault → IfErr result IsRunFault }
{
    let printed = printed?;
    let played = played?;
    Ok((played, printed))
}

/// The threads play, and the calling thread prints.
fn play_and_print<L: Round + Send + Sync, G: Gate + Sync, W: Out, R: Threads + Wait + Sync>(
    shared: &Shared<'_, '_, L, G, R>,
    seats: Vec<Seat<L>>,
    writer: &mut W,
) -> Result<(Played<L>, Vec<Record>), Refusal>
    requires program { program_tree shared.now.program.now ≡ L.program }
    requires moves { AreMoves L.program.words (map move_tree shared.now.moves.now) }
    requires writer { CanCount (W.failures writer.old) }
    ensures seats { IfOk result (λ r. vec_len r.0.seats ≡ vec_len seats) }
    ensures text { IfOk result (λ r. Appends (W.contents writer.old) (W.contents writer.new) (lines_of L.program r.1.items)) }
    ensures failures { W.failures writer.new ≡ W.failures writer.old + failures_in result }
    ensures faults { IfErr result IsRunFault }
{
    let Shared {
        rt,
        alloc,
        program,
        table,
        ..
    } = *shared;
    let (to, from) = crossbeam_channel::unbounded(alloc)?;
    let (played, printed) = play_beside(
        shared,
        seats,
        to,
        &mut || print_or_stop(rt, alloc, program, table, &from, writer),
    );
    both(played, printed)
}

/// Whether what is left of a run is as promised: it wasn't stopped, and the moves stand in its history.
fn check_moves(
    alloc: Global,
    origin: &Origin<'_>,
    closed: &Closed<'_>,
    printed: &[Record],
    moves: &[Move],
    passed: &[Passed],
) -> Result<(), Refusal>
    requires start { origin.now.start.now.widths ≡ widths_of (program_tree origin.now.program.now).words }
    requires moves { AreMoves (program_tree origin.now.program.now).words (map move_tree moves.now) }
    ensures over { OnOk result (closed.now.why ≢ Stopped) }
    ensures moves { OnOk result (MovesStand (program_tree origin.now.program.now).spec.rely origin.now.limit
        (first_place (program_tree origin.now.program.now).words (code_blocks origin.now.code.now) origin.now.start.now.values)
        1 (map move_tree moves.now) passed.now printed.now) }
    ensures quiet { failures_in result ≡ 0 }
    ensures faults { IfErr result IsRunFault }
{
    if matches!(closed.why(), Why::Stopped) {
        return Err(Refusal::new(RefusalNumber::Mismatch));
    }
    if !moves_stand(alloc, origin, printed, moves, passed)? {
        return Err(Refusal::new(RefusalNumber::Mismatch));
    }
    Ok(())
}

/// Ends a run whose threads are joined: the floor is closed, and its history is walked once for the moves.
fn finish<'e, L: Round>(
    alloc: Global,
    program: &'e Program,
    floor: Floor<'e, L>,
    moves: &[Move],
    played: Played<L>,
    printed: &[Record],
) -> Result<Closed<'e>, Refusal>
    requires program { program_tree program.now ≡ L.program }
    requires seats { (vec_len played.seats ≡ L.parts) × (0 < L.parts) }
    requires moves { AreMoves L.program.words (map move_tree moves.now) }
    ensures left { IfOk result (λ c. IsLeftOf L.program L.code L.start L.limit (map move_tree moves.now) c) }
    ensures history { IfOk result (λ c. c.history ≡ printed.now) }
    ensures quiet { failures_in result ≡ 0 }
    ensures faults { IfErr result IsRunFault }
{
    let start = floor.start().copy()?;
    let code = floor.code();
    let limit = floor.limit();
    let Played { seats, passed } = played;
    let closed = floor.close(alloc, program, seats, printed)?;
    let origin = Origin {
        program,
        code,
        start: &start,
        limit,
    };
    check_moves(alloc, &origin, &closed, printed, moves, &passed)?;
    Ok(closed.with_refused(passed))
}

/// Plays a run to its end, from a floor and its seats as `Floor::open` gives them. Each part works in a thread of its own, one more
/// makes the moves in their order, and the calling thread writes the line of each record, in order, as the records come.
///
/// A move `at N` waits until N records stand before it, or no part can step, or the run is over. One that is refused is passed over, and
/// listed with its number, its refusal, and the count of records before it.
///
/// Refused, each once all threads were joined: `Write` exactly where the writer failed, once, and then a beginning of the text is out;
/// `Memory` where memory or a thread was refused in any of them; `Mismatch` and `Stranger` where the records that came aren't those of the
/// history, or the history isn't as promised, which no test has seen.
pub fn run<'e, L: Round + Send + Sync, G: Gate + Sync, W: Out, R: Threads + Wait + Sync>(
    stage: &Stage<'_, G, R>,
    program: &'e Program,
    floor: Floor<'e, L>,
    seats: Vec<Seat<L>>,
    writer: &mut W,
) -> Result<Closed<'e>, Refusal>
    requires program { program_tree program.now ≡ L.program }
    requires seats { (vec_len seats ≡ L.parts) × (0 < L.parts) }
    requires moves { AreMoves L.program.words (map move_tree stage.now.moves.now) }
    requires writer { CanCount (W.failures writer.old) }
    ensures run { IfOk result (λ c. IsRunOf L.program L.code L.start L.limit (map move_tree stage.now.moves.now) (W.contents writer.old)
        (W.contents writer.new) c) }
    ensures failures { W.failures writer.new ≡ W.failures writer.old + failures_in result }
    ensures faults { IfErr result IsRunFault }
{
    let Stage {
        rt,
        alloc,
        gate,
        moves,
    } = *stage;
    let table = Table {
        floor: Mutex::new(floor),
        changed: Condvar::new(),
    };
    let shared = Shared {
        rt,
        alloc,
        program,
        table: &table,
        gate,
        moves,
    };
    let (played, printed) = play_and_print(&shared, seats, writer)?;
    let Table { floor, changed: _ } = table;
    let floor = floor.into_inner();
    finish(alloc, program, floor, moves, played, &printed)
}
