//! Pieces that wait for one another: that all four are checked at once, each in a thread of its own.

use crate::files::{implication, lines_of};
use rg_pool::{Pieces, check_all};
use rg_words::Refusal;
use std::alloc::Global;
use std::sync::Wait;
use std::sync::atomic::{AtomicU64, Ordering};
use std::test::Fail;
use std::thread::{Threads, yield_now};

/// How often a piece looks for the others; only a check that is wrong gets there.
const MOST_LOOKS: u32 = 10_000_000;

/// The flag of each piece, at the piece's number.
const FLAGS: [u64; 5] = [0, 1, 2, 4, 8];

/// The flags of all four.
const ALL: u64 = 15;

/// Holds each piece until all four are there.
#[derive(Drop)]
struct Meeting {
    /// The flags of the pieces that came.
    here: AtomicU64,
    /// How often a piece saw all four.
    met: AtomicU64,
}

/// Whether the pieces that came are all four, at the latest after so many looks.
fn all_come_in_time(here: &AtomicU64) -> bool {
    for _ in 0..MOST_LOOKS {
        if here.load(Ordering::SeqCst) == ALL {
            return true;
        }
        yield_now();
    }
    false
}

impl Pieces for Meeting {
    fn before(&self, piece: usize) {
        let flag = FLAGS.get(piece).copied().unwrap_or(0);
        self.here.fetch_or(flag, Ordering::SeqCst);
        if all_come_in_time(&self.here) {
            self.met.fetch_add(1, Ordering::SeqCst);
        }
    }
}

/// Whether so many lines are found to follow, where each piece waits at the meeting.
fn follows_at<R: Threads + Wait + Sync>(
    rt: &R,
    alloc: Global,
    meeting: &Meeting,
    count: u32,
) -> Result<bool, Refusal> {
    let clauses = implication(alloc)?;
    let lines = lines_of(alloc, &clauses, count, &[])?;
    Ok(check_all(rt, alloc, 1, &clauses, &lines, meeting).is_ok())
}

/// Four pieces see one another, and a shorter section has no pieces: counts of lines, with the flags that come and how often all are seen.
#[test]
fn four_pieces_see_one_another(rt: HostRuntime) -> Result<(), Fail> {
    for (count, flags, met) in [(5_000, ALL, 4), (511, 0, 0)] {
        let meeting = Meeting {
            here: AtomicU64::new(0),
            met: AtomicU64::new(0),
        };
        let follows = follows_at(&rt, rt.alloc(), &meeting, count)?;
        let here = meeting.here.load(Ordering::SeqCst);
        assert!(rt; follows && here == flags && meeting.met.load(Ordering::SeqCst) == met);
    }
    Ok(())
}
