//! What is left of a run of two parts, the first of which stepped first; and lists of records that aren't its history.

ghost use Rattle.std.specs.Prelude.{◌≡◌, vec_len};
ghost use Rattle.rg_tree.specs.ProgramTrees.{program as program_tree};

use crate::records::{Step, record_of};
use rg_floor::change::Change;
use rg_floor::closed::Closed;
use rg_floor::floor::Floor;
use rg_floor::round::Round;
use rg_floor::seat::Seat;
use rg_floor::turn::Why;
use rg_monitor::record::Record;
use rg_tree::moves::WordValue;
use rg_tree::program::Program;
use rg_words::{Refusal, RefusalNumber};
use std::alloc::{AllocError, Global};

/// What is printed of the two records that came.
#[derive(Clone, Copy, PartialEq, Eq)]
pub(crate) enum Printed {
    Both,
    First,
    SecondTwice,
    SecondWithOtherLine,
    Exchanged,
}

/// The first part's step, and the second part's after it.
const FIRST: Step<'static> = (1, 1, 8, "", "x = 1");

const SECOND: Step<'static> = (2, 2, 11, "x = 1", "x = 1 y = 1");

/// Puts the record of a step after those that are there.
fn put(
    alloc: Global,
    program: &Program,
    records: &mut Vec<Record>,
    step: Step,
) -> Result<(), Refusal> {
    let record = record_of(alloc, program, step)?;
    records.push(record)?;
    Ok(())
}

/// Makes of the records that came what is printed.
pub(crate) fn print_so(
    alloc: Global,
    program: &Program,
    records: &mut Vec<Record>,
    printed: Printed,
) -> Result<(), Refusal> {
    if matches!(printed, Printed::First | Printed::SecondWithOtherLine) {
        let _ = records.pop();
    }
    match printed {
        Printed::Both | Printed::First => {}
        Printed::SecondTwice => put(alloc, program, records, SECOND)?,
        Printed::SecondWithOtherLine => {
            put(alloc, program, records, (2, 2, 8, "x = 1", "x = 1 y = 1"))?;
        }
        Printed::Exchanged => records.reverse(),
    }
    Ok(())
}

/// Whether a record is that of a step.
fn is_of(alloc: Global, program: &Program, record: &Record, step: Step) -> Result<bool, Refusal> {
    Ok(record_of(alloc, program, step)?.same(record))
}

/// Whether all records are made again as they came, and there is none before and after them.
fn are_made_again(alloc: Global, closed: &Closed<'_>, came: &[Record]) -> Result<bool, AllocError> {
    let before = closed.record(alloc, 0)?;
    let mut all = before.is_none() && closed.record(alloc, came.len() + 1)?.is_none();
    for (i, record) in came.iter().enumerate() {
        let made = closed.record(alloc, i + 1)?;
        all = all && matches!(&made, Some(made) if made.same(record));
    }
    Ok(all)
}

/// Whether a change is of one word, which a step sets to 1.
fn is_change(change: &Change, step: Step, word: usize) -> bool {
    let (_, who, line, _, _) = step;
    change.who() == who
        && change.line() == line
        && change.values() == [WordValue { word, value: 1 }].as_slice()
}

/// Whether each part made a step, the first part first, and the environment none, to the end.
fn has_ended(closed: &Closed<'_>) -> bool {
    let changes = closed.changes();
    closed.why() == Why::Ended
        && closed.len() == 2
        && [closed.steps_of(0), closed.steps_of(1), closed.steps_of(2)] == [0, 1, 1]
        && closed.refused().is_empty()
        && changes.len() == 2
        && is_change(&changes[0], FIRST, 0)
        && is_change(&changes[1], SECOND, 1)
}

/// Whether all that is left of the run is that of a step of each part, the first part first.
fn is_left(
    alloc: Global,
    program: &Program,
    closed: &Closed<'_>,
    came: &[Record],
) -> Result<bool, Refusal> {
    Ok(
        has_ended(closed)
            && came.len() == 2
            && is_of(alloc, program, &came[0], FIRST)?
            && is_of(alloc, program, &came[1], SECOND)?
            && are_made_again(alloc, closed, came)?,
    )
}

/// Whether the floor closes with what is printed where that is both records, and else is refused for it.
pub(crate) fn is_closed<'e, L: Round>(
    alloc: Global,
    program: &'e Program,
    floor: Floor<'e, L>,
    seats: Vec<Seat<L>>,
    records: &[Record],
    printed: Printed,
) -> Result<bool, Refusal>
    requires program { program_tree program.now ≡ L.program }
    requires seats { vec_len seats ≡ L.parts }
{
    if seats.is_empty() {
        return Ok(false);
    }
    match floor.close(alloc, program, seats, records) {
        Ok(closed) => Ok(printed == Printed::Both && is_left(alloc, program, &closed, records)?),
        Err(refusal) => Ok(
            printed != Printed::Both && refusal == Refusal::new(RefusalNumber::Mismatch),
        ),
    }
}
