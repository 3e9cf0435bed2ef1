//! Floors of two parts, by their calls alone.

ghost use Rattle.std.specs.Prelude.{◌≡◌, length};
ghost use Rattle.rg_words.specs.Layout.{widths_of};
ghost use Rattle.rg_tree.specs.ProgramTrees.{program as program_tree};
ghost use Rattle.rg_code.specs.CodeTrees.{code_blocks};

use crate::calls::{Answer, AnsweredCall, Call, answers};
use crate::left::{Printed, is_closed, print_so};
use crate::programs::{TWO_PARTS, built};
use rg_code::checked::Checked;
use rg_floor::floor::Floor;
use rg_floor::round::Round;
use rg_floor::turn::Why;
use rg_words::{Refusal, RefusalNumber, State};
use std::alloc::Global;
use std::marker::Brand;
use std::sync::ledger::{Blank, Ledger};
use std::test::Fail;

/// A floor by its limit, the calls on it with their answers, and what is printed of its records where it is closed.
#[derive(Clone, Copy)]
struct Trial<'a> {
    limit: u64,
    calls: &'a [AnsweredCall<'a>],
    printed: Option<Printed>,
}

/// Whether a floor of this name answers the calls so, and closes as it should with what is printed of its records, if that is asked.
fn tries<L: Round, E: Checked>(
    alloc: Global,
    checked: &E,
    first: State,
    blank: Blank,
    trial: &Trial<'_>,
) -> Result<bool, Refusal>
    requires program { program_tree (E.program_of checked.now) ≡ L.program }
    requires code { code_blocks (E.code_of checked.now) ≡ L.code }
    requires widths { first.widths ≡ widths_of L.program.words }
    requires start { first.values ≡ L.start }
    requires limit { trial.now.limit ≡ L.limit }
    requires blank { (blank.name ≡ L.name) × (blank.parts ≡ L.parts) × (L.parts ≡ length L.code) }
{
    let program = checked.program();
    let (mut floor, mut seats) = Floor::<L>::open(alloc, checked, first, trial.limit, blank)?;
    let mut records = Vec::new(alloc);
    let all = answers(
        alloc,
        program,
        &mut floor,
        &mut seats,
        trial.calls,
        &mut records,
    )?;
    let Some(printed) = trial.printed else {
        return Ok(all);
    };
    print_so(alloc, program, &mut records, printed)?;
    Ok(is_closed(alloc, program, floor, seats, &records, printed)? && all)
}

/// Tries a fresh floor of a checked program.
fn begins<E: Checked>(
    alloc: Global,
    checked: &E,
    first: State,
    trial: &Trial<'_>,
) -> Result<bool, Refusal>
    requires { first.widths ≡ widths_of (program_tree (E.program_of checked.now)).words }
{
    let blank = Blank::new(checked.code().parts.len() as u64);
    tries::<Brand, E>(alloc, checked, first, blank, trial)
}

/// Tries a fresh floor of the two parts, whose words are 0.
fn holds(alloc: Global, trial: &Trial<'_>) -> Result<bool, Refusal> {
    let emitted = built(alloc, TWO_PARTS)?;
    let first = State::zero(alloc, &emitted.program().layout)?;
    begins(alloc, &emitted, first, trial)
}

const OUTSIDE: Answer = Answer::Refused(RefusalNumber::OutsideRely);

const MOVES_ENDED: Answer = Answer::Refused(RefusalNumber::MovesEnded);

/// A step of each part, the first part first.
const BOTH_STEP: &[AnsweredCall<'static>] = &[
    (Call::Turn(1), Answer::Recorded, "x = 1", 1),
    (Call::Turn(2), Answer::Recorded, "x = 1 y = 1", 2),
];

/// Floors, each with its calls and what is printed of its records where it is closed.
const FLOORS: &[Trial<'static>] = &[
    // A move outside the rely changes nothing.
    Trial {
        limit: 2,
        calls: &[
            (Call::Move("x = 1"), OUTSIDE, "", 0),
            (Call::NoMoreMoves, Answer::Nothing, "", 0),
            (Call::Turn(1), Answer::Recorded, "x = 1", 1),
            (Call::Turn(2), Answer::Recorded, "x = 1 y = 1", 2),
            (Call::Turn(1), Answer::Over(Why::Ended), "x = 1 y = 1", 2),
            (Call::Turn(2), Answer::Over(Why::Ended), "x = 1 y = 1", 2),
        ],
        printed: Some(Printed::Both),
    },
    // No move comes when no more come, also none outside the rely.
    Trial {
        limit: 2,
        calls: &[
            (Call::Move(""), Answer::Recorded, "", 1),
            (Call::NoMoreMoves, Answer::Nothing, "", 1),
            (Call::Move(""), MOVES_ENDED, "", 1),
            (Call::Move("x = 1"), MOVES_ENDED, "", 1),
            (Call::Turn(2), Answer::Recorded, "y = 1", 2),
            (Call::Turn(2), Answer::Ended, "y = 1", 2),
        ],
        printed: None,
    },
    // A floor is over at its limit and where it is stopped.
    Trial {
        limit: 1,
        calls: &[
            (Call::Turn(2), Answer::Recorded, "y = 1", 1),
            (Call::Turn(1), Answer::Over(Why::Limit), "y = 1", 1),
            (Call::Turn(2), Answer::Over(Why::Limit), "y = 1", 1),
            (Call::Move("y = 1"), Answer::Recorded, "y = 1", 2),
            (Call::Stop, Answer::Nothing, "y = 1", 2),
            (Call::Turn(1), Answer::Over(Why::Stopped), "y = 1", 2),
        ],
        printed: None,
    },
];

/// What may be printed of the records of a floor; only its history closes it.
const PRINTED: &[Printed] = &[
    Printed::Both,
    Printed::First,
    Printed::SecondTwice,
    Printed::SecondWithOtherLine,
    Printed::Exchanged,
];

#[test]
fn floors_answer_record_by_record_and_close_with_their_history(
    rt: HostRuntime,
) -> Result<(), Fail> {
    for trial in FLOORS {
        assert!(rt; holds(rt.alloc(), trial)?);
    }
    for printed in PRINTED {
        let trial = Trial {
            limit: 2,
            calls: BOTH_STEP,
            printed: Some(*printed),
        };
        assert!(rt; holds(rt.alloc(), &trial)?);
    }
    Ok(())
}
