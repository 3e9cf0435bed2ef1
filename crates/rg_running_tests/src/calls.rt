//! Calls of a floor one by one: what each answers, and what the floor shows after it.

ghost use Rattle.std.specs.Prelude.{◌≡◌, vec_len};
ghost use Rattle.rg_tree.specs.ProgramTrees.{program as program_tree};

use rg_floor::floor::Floor;
use rg_floor::round::Round;
use rg_floor::seat::Seat;
use rg_floor::turn::{Turn, Why};
use rg_monitor::record::Record;
use rg_parse::start;
use rg_tree::program::Program;
use rg_words::{Refusal, RefusalNumber};
use std::alloc::{AllocError, Global};

/// A call of a floor.
#[derive(Clone, Copy)]
pub(crate) enum Call<'a> {
    /// A move of the environment to these values, which are written as a start is.
    Move(&'a str),
    NoMoreMoves,
    Stop,
    /// The turn of the part with this number, from 1.
    Turn(usize),
}

/// What a call answers.
#[derive(Clone, Copy, PartialEq, Eq)]
pub(crate) enum Answer {
    Nothing,
    /// The record of a step.
    Recorded,
    Blocked,
    Ended,
    Over(Why),
    Refused(RefusalNumber),
}

/// A call, its answer, and the words and the number of the last record after it.
pub(crate) type AnsweredCall<'a> = (Call<'a>, Answer, &'a str, u64);

fn keep(records: &mut Vec<Record>, record: Record) -> Result<Answer, AllocError> {
    records.push(record)?;
    Ok(Answer::Recorded)
}

/// The turn of the part with this number; nothing where there is none.
fn turn_of<L: Round>(
    program: &Program,
    floor: &mut Floor<'_, L>,
    seats: &mut Vec<Seat<L>>,
    part: usize,
    records: &mut Vec<Record>,
) -> Result<Answer, AllocError>
    requires { program_tree program.now ≡ L.program }
    ensures { vec_len seats.new ≡ vec_len seats.old }
{
    if part == 0 || part > seats.len() {
        return Ok(Answer::Nothing);
    }
    match floor.turn(program, &mut seats[part - 1])? {
        Turn::Did(record) => keep(records, record),
        Turn::Blocked => Ok(Answer::Blocked),
        Turn::Ended => Ok(Answer::Ended),
        Turn::Over(why) => Ok(Answer::Over(why)),
    }
}

fn move_to<L: Round>(
    alloc: Global,
    program: &Program,
    floor: &mut Floor<'_, L>,
    words: &str,
    records: &mut Vec<Record>,
) -> Result<Answer, Refusal>
    requires { program_tree program.now ≡ L.program }
{
    let state = start(alloc, &program.layout, words.as_bytes())?;
    match floor.environment(program, state) {
        Ok(record) => Ok(keep(records, record)?),
        Err(refusal) => Ok(Answer::Refused(refusal.number)),
    }
}

fn ask<L: Round>(
    alloc: Global,
    program: &Program,
    floor: &mut Floor<'_, L>,
    seats: &mut Vec<Seat<L>>,
    call: Call<'_>,
    records: &mut Vec<Record>,
) -> Result<Answer, Refusal>
    requires { program_tree program.now ≡ L.program }
    ensures { vec_len seats.new ≡ vec_len seats.old }
{
    match call {
        Call::Move(words) => move_to(alloc, program, floor, words, records),
        Call::NoMoreMoves => {
            floor.no_more_moves();
            Ok(Answer::Nothing)
        }
        Call::Stop => {
            floor.stop();
            Ok(Answer::Nothing)
        }
        Call::Turn(part) => Ok(turn_of(program, floor, seats, part, records)?),
    }
}

/// Whether the floor has these words, and a last record of this number.
fn shows<L: Round>(
    alloc: Global,
    program: &Program,
    floor: &Floor<'_, L>,
    words: &str,
    last: u64,
) -> Result<bool, Refusal> {
    let state = start(alloc, &program.layout, words.as_bytes())?;
    Ok(floor.words().same(&state) && floor.last() == last)
}

/// Whether each call has its answer, and the floor shows after it what it should. The records that come are kept.
pub(crate) fn answers<L: Round>(
    alloc: Global,
    program: &Program,
    floor: &mut Floor<'_, L>,
    seats: &mut Vec<Seat<L>>,
    calls: &[AnsweredCall<'_>],
    records: &mut Vec<Record>,
) -> Result<bool, Refusal>
    requires { program_tree program.now ≡ L.program }
    ensures { vec_len seats.new ≡ vec_len seats.old }
{
    let mut all = true;
    for (call, wanted, words, last) in calls {
        let found = ask(alloc, program, floor, seats, *call, records)?;
        all = all && found == *wanted && shows(alloc, program, floor, words, *last)?;
    }
    Ok(all)
}
