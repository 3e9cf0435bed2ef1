//! The floor after its lock, and what threads do with it.

ghost use Rattle.std.specs.Prelude.{◌≡◌, map};
ghost use Rattle.rg_tree.specs.Moves.{move as move_tree, AreMoves, IsChange};
ghost use Rattle.rg_tree.specs.ProgramTrees.{program as program_tree};

use crate::gate::Gate;
use crossbeam_channel::{SendError, Sender};
use rg_floor::closed::Passed;
use rg_floor::floor::Floor;
use rg_floor::round::Round;
use rg_floor::seat::Seat;
use rg_floor::turn::Turn;
use rg_monitor::record::Record;
use rg_tree::moves::Move;
use rg_tree::program::Program;
use rg_words::RefusalNumber;
use std::alloc::{AllocError, Global};
use std::sync::{Condvar, Mutex, Wait};

/// The floor under its lock. Every change of the floor wakes all that wait.
#[derive(Drop)]
pub struct Table<'e, L: Round> {
    pub floor: Mutex<Floor<'e, L>>,
    pub changed: Condvar,
}

/// What a worker leaves: its seat, and whether memory was refused.
#[derive(Drop)]
pub(crate) struct Left<L: Round> {
    pub(crate) seat: Seat<L>,
    pub(crate) out_of_memory: bool,
}

/// What the mover leaves: the moves that were refused, and whether memory was refused.
#[derive(Drop)]
pub(crate) struct Moved {
    pub(crate) passed: Vec<Passed>,
    pub(crate) out_of_memory: bool,
}

/// Ends the run, from any thread.
pub(crate) fn stop<L: Round>(rt: &impl Wait, table: &Table<'_, L>) {
    table.floor.lock(rt).stop();
    table.changed.notify_all();
}

/// One turn. A part that is blocked waits here until the floor changes.
fn take_turn<L: Round, G: Gate>(
    rt: &impl Wait,
    program: &Program,
    table: &Table<'_, L>,
    gate: &G,
    seat: &mut Seat<L>,
) -> Result<Turn, AllocError>
    requires { program_tree program.now ≡ L.program }
{
    let mut floor = table.floor.lock(rt);
    let turn = floor.turn(program, seat)?;
    match &turn {
        Turn::Did(_) => {
            table.changed.notify_all();
            gate.stepped();
        }
        Turn::Blocked => {
            gate.rests(seat.part(), false);
            let _floor = table.changed.wait(rt, floor);
        }
        Turn::Ended | Turn::Over(_) => gate.rests(seat.part(), true),
    }
    Ok(turn)
}

/// Sends a record. Where nobody listens any more, the run was stopped.
fn send_record<R: Wait>(rt: &R, to: &Sender<Record>, step: Record) -> Result<(), AllocError> {
    match to.send(rt, step) {
        Ok(()) | Err(SendError::Disconnected(_)) => Ok(()),
        Err(SendError::OutOfMemory(_)) => Err(AllocError),
    }
}

fn take_turns<L: Round, G: Gate, R: Wait>(
    rt: &R,
    program: &Program,
    table: &Table<'_, L>,
    gate: &G,
    seat: &mut Seat<L>,
    to: &Sender<Record>,
) -> Result<(), AllocError>
    requires { program_tree program.now ≡ L.program }
{
    let mut nth = 0u64;
    for _ in rt.forever() {
        nth = nth.saturating_add(1);
        gate.before(rt, seat.part(), nth);
        match take_turn(rt, program, table, gate, seat)? {
            Turn::Did(step) => send_record(rt, to, step)?,
            Turn::Blocked => {}
            Turn::Ended | Turn::Over(_) => break,
        }
    }
    Ok(())
}

/// A part's worker: it takes turns until its part or the run is over.
pub(crate) fn work<L: Round, G: Gate, R: Wait>(
    rt: &R,
    program: &Program,
    table: &Table<'_, L>,
    gate: &G,
    seat: Seat<L>,
    to: Sender<Record>,
) -> Left<L>
    requires { program_tree program.now ≡ L.program }
{
    let mut seat = seat;
    let out_of_memory = take_turns(rt, program, table, gate, &mut seat, &to).is_err();
    if out_of_memory {
        stop(rt, table);
    }
    Left {
        seat,
        out_of_memory,
    }
}

/// What became of a move.
#[derive(Drop)]
enum Made {
    /// It was made, and this is its record.
    Did(Record),
    /// It was refused, after so many records.
    Refused(RefusalNumber, u64),
    /// The run was stopped before.
    Stopped,
}

/// Makes a move, or says why it isn't made.
fn move_once<L: Round>(
    program: &Program,
    floor: &mut Floor<'_, L>,
    each: &Move,
) -> Result<Made, AllocError>
    requires program { program_tree program.now ≡ L.program }
    requires values { IsChange L.program.words each.now.values.items }
{
    match floor.make(program, &each.values) {
        Ok(step) => Ok(Made::Did(step)),
        Err(why) => match why.number {
            RefusalNumber::Memory => Err(AllocError),
            number => Ok(Made::Refused(number, floor.last())),
        },
    }
}

/// Waits until a move is due, and makes it.
fn make_move<L: Round, R: Wait>(
    rt: &R,
    program: &Program,
    table: &Table<'_, L>,
    each: &Move,
) -> Result<Made, AllocError>
    requires program { program_tree program.now ≡ L.program }
    requires values { IsChange L.program.words each.now.values.items }
{
    let mut floor = table.floor.lock(rt);
    for _ in rt.forever() {
        if floor.last() >= each.at || floor.is_idle() {
            break;
        }
        floor = table.changed.wait(rt, floor);
    }
    if floor.is_stopped() {
        return Ok(Made::Stopped);
    }
    let made = move_once(program, &mut floor, each)?;
    table.changed.notify_all();
    Ok(made)
}

/// Makes the moves in their order, up to a stop, and lists those that are refused.
fn make_each<L: Round, R: Wait>(
    rt: &R,
    program: &Program,
    table: &Table<'_, L>,
    moves: &[Move],
    to: &Sender<Record>,
    passed: &mut Vec<Passed>,
) -> Result<(), AllocError>
    requires program { program_tree program.now ≡ L.program }
    requires moves { AreMoves L.program.words (map move_tree moves.now) }
{
    for (i, each) in moves.iter().enumerate() {
        match make_move(rt, program, table, each)? {
            Made::Did(step) => send_record(rt, to, step)?,
            Made::Refused(refusal, records) => passed.push(Passed {
                number: i as u64 + 1,
                refusal,
                records,
            })?,
            Made::Stopped => break,
        }
    }
    Ok(())
}

/// The mover: it makes all moves, and then says that no more come.
pub(crate) fn make_moves<L: Round, R: Wait>(
    rt: &R,
    alloc: Global,
    program: &Program,
    table: &Table<'_, L>,
    moves: &[Move],
    to: Sender<Record>,
) -> Moved
    requires program { program_tree program.now ≡ L.program }
    requires moves { AreMoves L.program.words (map move_tree moves.now) }
{
    let mut passed = Vec::new(alloc);
    let out_of_memory = make_each(rt, program, table, moves, &to, &mut passed).is_err();
    if out_of_memory {
        stop(rt, table);
    } else {
        table.floor.lock(rt).no_more_moves();
        table.changed.notify_all();
    }
    Moved {
        passed,
        out_of_memory,
    }
}
