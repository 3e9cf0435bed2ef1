//! Runs whose parts are held at gates: that each part runs in a thread of its own, and that a part that waits at its gate waits alone.

use crate::program::{DERIVATION, PROOFS, TEXT};
use rg_code::checked::Checked;
use rg_floor::turn::Why;
use rg_runner::gate::Gate;
use rg_runner::player::play;
use rg_runner::stage::Stage;
use rg_words::{Refusal, State, Taker};
use rgc::build;
use std::alloc::Global;
use std::sync::Wait;
use std::sync::atomic::{AtomicBool, AtomicU64, Ordering};
use std::test::Fail;
use std::thread::{Threads, yield_now};

/// How often a gate looks for what it waits for; only a run that is wrong gets there.
const MOST_LOOKS: u32 = 10_000_000;

/// Whether a part comes to a turn, at the latest after so many looks.
fn comes_in_time(came: &AtomicU64, turn: u64) -> bool {
    for _ in 0..MOST_LOOKS {
        if came.load(Ordering::SeqCst) >= turn {
            return true;
        }
        yield_now();
    }
    false
}

/// Holds some of two parts before their first turn until the other part comes to this turn.
#[derive(Drop)]
struct Held {
    first_is_held: bool,
    second_is_held: bool,
    turn: u64,
    /// The turns to which the two parts came.
    first: AtomicU64,
    second: AtomicU64,
    /// Whether a part that was held waited in vain.
    missed: AtomicBool,
}

impl Gate for Held {
    fn before<R: Wait>(&self, _rt: &R, part: usize, nth: u64) {
        let (own, other, is_held) = if part == 1 {
            (&self.first, &self.second, self.first_is_held)
        } else {
            (&self.second, &self.first, self.second_is_held)
        };
        own.store(nth, Ordering::SeqCst);
        if is_held && nth == 1 && !comes_in_time(other, self.turn) {
            self.missed.store(true, Ordering::SeqCst);
        }
    }
}

/// Whether the two parts, held at a gate, come to their end, and which lines are printed then.
fn lines_of_run<R: Threads + Wait + Sync>(
    rt: &R,
    alloc: Global,
    gate: &Held,
) -> Result<Option<Taker>, Refusal> {
    let emitted = build(alloc, TEXT, DERIVATION, PROOFS)?;
    let start = State::zero(alloc, &emitted.program().layout)?;
    let mut out = Taker::new(alloc, 100);
    let stage = Stage {
        rt,
        alloc,
        gate,
        moves: &[],
    };
    let closed = play(&stage, &emitted, start, 10, &mut out)?;
    Ok(if closed.why() == Why::Ended && closed.len() == 2 {
        Some(out)
    } else {
        None
    })
}

/// Whether the run at a gate ends, and one of these is what it prints.
fn prints_one_of<R: Threads + Wait + Sync>(
    rt: &R,
    alloc: Global,
    gate: &Held,
    texts: &[&str],
) -> bool {
    match lines_of_run(rt, alloc, gate) {
        Ok(Some(out)) => texts.iter().any(|text| out.bytes() == text.as_bytes()),
        _ => false,
    }
}

const FIRST_THEN_SECOND: &str = "1 a 8 x=0>1 in a\n2 b 11 y=0>1 in b\n";

const SECOND_THEN_FIRST: &str = "1 b 11 y=0>1 in b\n2 a 8 x=0>1 in a\n";

/// All parts are in threads of their own at once: each waits for the other's first turn. A part that is held until the other's second
/// turn steps last.
#[test]
fn parts_that_are_held_wait_alone(rt: HostRuntime) -> Result<(), Fail> {
    for (first_is_held, second_is_held, turn, texts) in [
        (true, true, 1, [FIRST_THEN_SECOND, SECOND_THEN_FIRST]),
        (true, false, 2, [SECOND_THEN_FIRST; 2]),
        (false, true, 2, [FIRST_THEN_SECOND; 2]),
    ] {
        let gate = Held {
            first_is_held,
            second_is_held,
            turn,
            first: AtomicU64::new(0),
            second: AtomicU64::new(0),
            missed: AtomicBool::new(false),
        };
        assert!(rt; prints_one_of(&rt, rt.alloc(), &gate, &texts));
        assert!(rt; !gate.missed.load(Ordering::SeqCst));
    }
    Ok(())
}
