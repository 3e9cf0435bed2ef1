//! Runs that are refused a move, or whose writer fails.

use crate::programs::{ENDLESS, TWO_PARTS, built};
use rg_code::checked::Checked;
use rg_floor::closed::{Closed, Passed};
use rg_floor::turn::Why;
use rg_parse::moves;
use rg_runner::gate::Open;
use rg_runner::player::play;
use rg_runner::stage::Stage;
use rg_words::{Fuse, Refusal, RefusalNumber, State, Taker};
use std::alloc::Global;
use std::sync::Wait;
use std::test::Fail;
use std::thread::Threads;

/// Whether nothing is left of a run but a move that was passed over before all records, since it is outside the rely: (1, 62, 0).
fn lists_one(closed: &Closed<'_>) -> bool {
    let passed = Passed {
        number: 1,
        refusal: RefusalNumber::OutsideRely,
        records: 0,
    };
    closed.why() == Why::Limit
        && closed.refused() == [passed].as_slice()
        && closed.changes().is_empty()
        && closed.steps_of(1) == 0
}

/// Whether a run of no step lists its only move, which is outside the rely.
fn lists_its_move<R: Threads + Wait + Sync>(rt: &R, alloc: Global) -> Result<bool, Refusal> {
    let emitted = built(alloc, TWO_PARTS)?;
    let first = State::zero(alloc, &emitted.program().layout)?;
    let moves = moves(alloc, &emitted.program().layout, b"at 0 x = 1")?;
    let mut out = Taker::new(alloc, 100);
    let stage = Stage {
        rt,
        alloc,
        gate: &Open,
        moves: &moves,
    };
    let closed = play(&stage, &emitted, first, 0, &mut out)?;
    Ok(lists_one(&closed) && out.bytes().is_empty())
}

#[test]
fn a_refused_move_is_listed(rt: HostRuntime) -> Result<(), Fail> {
    let listed = lists_its_move(&rt, rt.alloc())?;
    assert!(rt; listed);
    Ok(())
}

/// Whether a run that would be long is refused, and no byte goes out, where its writer fails at its first call.
fn fails_at_once<R: Threads + Wait + Sync>(rt: &R, alloc: Global) -> Result<bool, Refusal> {
    let emitted = built(alloc, ENDLESS)?;
    let first = State::zero(alloc, &emitted.program().layout)?;
    let mut out = Fuse::new(Taker::new(alloc, 1), 0);
    let stage = Stage {
        rt,
        alloc,
        gate: &Open,
        moves: &[],
    };
    let fault = play(&stage, &emitted, first, 1_000_000, &mut out).err();
    Ok(fault == Some(Refusal::new(RefusalNumber::Write)) && out.inner().bytes().is_empty())
}

#[test]
fn a_run_ends_where_its_writer_fails(rt: HostRuntime) -> Result<(), Fail> {
    let fails = fails_at_once(&rt, rt.alloc())?;
    assert!(rt; fails);
    Ok(())
}
