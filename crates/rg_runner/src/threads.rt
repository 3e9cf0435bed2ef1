//! The threads of a run: a worker for each part, and the mover.

ghost use Rattle.std.specs.Prelude.{◌≡◌, map, vec_len, IfOk};
ghost use Rattle.rg_tree.specs.Moves.{move as move_tree, AreMoves};
ghost use Rattle.rg_tree.specs.ProgramTrees.{program as program_tree};

use crate::gate::Gate;
use crate::table::{Left, Moved, Table, make_moves, stop, work};
use crate::task::{Lent, Task, take_back};
use crossbeam_channel::Sender;
use rg_floor::closed::Passed;
use rg_floor::round::Round;
use rg_floor::seat::Seat;
use rg_monitor::record::Record;
use rg_tree::moves::Move;
use rg_tree::program::Program;
use std::alloc::{AllocError, Global};
use std::sync::Wait;
use std::thread;
use std::thread::{JoinHandle, Scope, Threads};

/// What all threads leave.
#[derive(Drop)]
pub struct Played<L: Round> {
    pub seats: Vec<Seat<L>>,
    pub passed: Vec<Passed>,
}

/// What the threads of a run share.
#[derive(Drop)]
pub struct Shared<'s, 'e, L: Round, G, R> {
    pub rt: &'s R,
    pub alloc: Global,
    pub program: &'s Program,
    pub table: &'s Table<'e, L>,
    /// It is called before each turn.
    pub gate: &'s G,
    /// The moves of the environment, in their order.
    pub moves: &'s [Move],
}

/// Starts a worker for each seat.
fn start_workers<'s, 'e, E, L: Round + Send + Sync, G: Gate + Sync, R: Threads + Wait + Sync>(
    scope: &Scope<'s, E>,
    shared: &Shared<'s, 'e, L, G, R>,
    seats: &mut Vec<Seat<L>>,
    to: &Sender<Record>,
) -> Result<Vec<JoinHandle<Left<L>>>, AllocError>
    requires { program_tree shared.now.program.now ≡ L.program }
    ensures { IfOk result (λ v. vec_len v ≡ vec_len seats.old) }
{
    let Shared {
        rt,
        alloc,
        program,
        table,
        gate,
        ..
    } = *shared;
    let mut workers = Vec::new(alloc);
    while let Some(seat) = seats.pop() {
        let to = to.clone()?;
        let worker = scope.spawn(
            move || -> Left<L>
                requires { program_tree program.now ≡ L.program }
            { work(rt, program, table, gate, seat, to) },
        );
        match worker {
            Ok(worker) => workers.push(worker)?,
            Err(_) => return Err(AllocError),
        }
    }
    Ok(workers)
}

/// Waits for all workers, and takes their seats.
fn join_workers<L: Round, R: Threads>(
    rt: &R,
    alloc: Global,
    workers: Vec<JoinHandle<Left<L>>>,
) -> Result<Vec<Seat<L>>, AllocError>
    ensures { IfOk result (λ v. vec_len v ≡ vec_len workers) }
{
    let mut workers = workers;
    let mut seats = Vec::new(alloc);
    while let Some(worker) = workers.pop() {
        let Left {
            seat,
            out_of_memory,
        } = worker.join(rt);
        if out_of_memory {
            return Err(AllocError);
        }
        seats.push(seat)?;
    }
    Ok(seats)
}

/// Starts a worker for each seat, and the mover. All senders are theirs then.
fn start_all<'s, 'e, E, L: Round + Send + Sync, G: Gate + Sync, R: Threads + Wait + Sync>(
    scope: &Scope<'s, E>,
    shared: &Shared<'s, 'e, L, G, R>,
    seats: Vec<Seat<L>>,
    to: Sender<Record>,
) -> Result<(Vec<JoinHandle<Left<L>>>, JoinHandle<Moved>), AllocError>
    requires program { program_tree shared.now.program.now ≡ L.program }
    requires moves { AreMoves L.program.words (map move_tree shared.now.moves.now) }
    ensures { IfOk result (λ r. vec_len r.0 ≡ vec_len seats) }
{
    let mut seats = seats;
    let workers = start_workers(scope, shared, &mut seats, &to)?;
    let Shared {
        rt,
        alloc,
        program,
        table,
        moves,
        ..
    } = *shared;
    let mover = scope.spawn(
        move || -> Moved
            requires { (program_tree program.now ≡ L.program) × AreMoves L.program.words (map move_tree moves.now) }
        { make_moves(rt, alloc, program, table, moves, to) },
    );
    match mover {
        Ok(mover) => Ok((workers, mover)),
        Err(_) => Err(AllocError),
    }
}

/// Waits for all workers and the mover.
fn join_all<L: Round, R: Threads>(
    rt: &R,
    alloc: Global,
    workers: Vec<JoinHandle<Left<L>>>,
    mover: JoinHandle<Moved>,
) -> Result<Played<L>, AllocError>
    ensures { IfOk result (λ p. vec_len p.seats ≡ vec_len workers) }
{
    let seats = join_workers(rt, alloc, workers)?;
    let Moved {
        passed,
        out_of_memory,
    } = mover.join(rt);
    if out_of_memory {
        return Err(AllocError);
    }
    Ok(Played { seats, passed })
}

/// Starts all threads, does the task in this one, and waits for all of them. Where a thread can't be had the run is stopped, and the
/// task is done all the same.
fn play_in<'s, 'e, E, L: Round + Send + Sync, G: Gate + Sync, T: Task, R: Threads + Wait + Sync>(
    scope: &Scope<'s, E>,
    shared: &Shared<'s, 'e, L, G, R>,
    seats: Vec<Seat<L>>,
    to: Sender<Record>,
    task: T,
) -> (Result<Played<L>, AllocError>, T::Output)
    requires program { program_tree shared.now.program.now ≡ L.program }
    requires moves { AreMoves L.program.words (map move_tree shared.now.moves.now) }
    requires task { T.can_run task }
    ensures played { IfOk result.0 (λ p. vec_len p.seats ≡ vec_len seats) }
    ensures ran { T.run_gives task result.1 }
{
    let started = start_all(scope, shared, seats, to);
    if started.is_err() {
        stop(shared.rt, shared.table);
    }
    let done = task.run();
    let played = match started {
        Ok((workers, mover)) => join_all(shared.rt, shared.alloc, workers, mover),
        Err(error) => Err(error),
    };
    (played, done)
}

/// Plays all seats in a scope of its own: all threads are joined when it returns.
fn play_all<L: Round + Send + Sync, G: Gate + Sync, T: Task + Drop, R: Threads + Wait + Sync>(
    shared: &Shared<'_, '_, L, G, R>,
    seats: Vec<Seat<L>>,
    to: Sender<Record>,
    task: T,
) -> (Result<Played<L>, AllocError>, T::Output)
    requires program { program_tree shared.now.program.now ≡ L.program }
    requires moves { AreMoves L.program.words (map move_tree shared.now.moves.now) }
    requires task { T.can_run task }
    ensures played { IfOk result.0 (λ p. vec_len p.seats ≡ vec_len seats) }
    ensures ran { T.run_gives task result.1 }
{
    let Shared {
        rt,
        alloc,
        program,
        table,
        gate,
        moves,
    } = *shared;
    thread::scope(
        thread::scope_env(),
        rt,
        |scope| -> (Result<Played<L>, AllocError>, T::Output)
            requires { (program_tree program.now ≡ L.program) × AreMoves L.program.words (map move_tree moves.now) × T.can_run task }
            ensures { IfOk result.0 (λ p. vec_len p.seats ≡ vec_len seats) × T.run_gives task result.1 }
        {
            let shared = Shared {
                rt,
                alloc,
                program,
                table,
                gate,
                moves,
            };
            play_in(scope, &shared, seats, to, task)
        },
    )
}

/// Starts a worker for each seat, and the mover, does other work in this thread meanwhile, and joins all of them. Where a thread can't be
/// had, or memory was refused in one, the run is stopped, and what is left of it is an error; the work is done all the same.
pub fn play_beside<
    L: Round + Send + Sync,
    G: Gate + Sync,
    F: FnMut() -> A,
    A,
    R: Threads + Wait + Sync,
>(
    shared: &Shared<'_, '_, L, G, R>,
    seats: Vec<Seat<L>>,
    to: Sender<Record>,
    work: &mut F,
) -> (Result<Played<L>, AllocError>, A)
    requires program { program_tree shared.now.program.now ≡ L.program }
    requires moves { AreMoves L.program.words (map move_tree shared.now.moves.now) }
    requires work { F.pre work.old }
    ensures played { IfOk result.0 (λ p. vec_len p.seats ≡ vec_len seats) }
    ensures worked { F.step work.old result.1 work.new }
{
    let (played, (work, done)) = play_all(shared, seats, to, Lent { work });
    take_back(work);
    (played, done)
}
