//! Writers that take one byte a call, and that fail.

ghost use Rattle.rg_words.specs.Written.{CanCount};

use crate::commands::{COMMANDS, Printed, Texts};
use rg_watch::Unwatched;
use rg_words::{Fuse, Out, Taker};
use rgc_commands::{Context, Sides, perform};
use rgc_line::{Command, Line, PLAIN};
use std::alloc::Global;
use std::sync::Wait;
use std::test::Fail;
use std::thread::Threads;

/// The status of a command in so many threads.
pub(crate) fn status_of<R: Threads + Wait + Sync, W: Out, F: Out>(
    rt: &R,
    alloc: Global,
    threads: usize,
    row: &Printed,
    out: &mut W,
    faults: &mut F,
) -> u8
    requires out { CanCount (W.failures out.old) }
    requires faults { CanCount (F.failures faults.old) }
{
    let line = Line {
        command: row.command,
        settings: PLAIN,
    };
    let watcher = Unwatched;
    let context = Context {
        rt,
        alloc,
        threads,
        watcher: &watcher,
    };
    let mut sides = Sides::new(alloc);
    perform(&context, &line, &row.files.files(), out, faults, &mut sides)
}

/// A beginning of the text of this length went out, and the status and the faults say whether that is all.
fn tells_what_went_out(text: &str, kept: usize, status: u8, out: &[u8], faults: &[u8]) -> bool {
    let reported = if kept < text.len() {
        status == 3 && faults == b"refused 63\n".as_slice()
    } else {
        status == 0 && faults.is_empty()
    };
    reported && out.len() == kept && text.as_bytes().starts_with(out)
}

/// A command tells its output's failure after so many bytes.
fn tells_a_failure<R: Threads + Wait + Sync>(
    rt: &R,
    alloc: Global,
    row: &Printed,
    kept: usize,
) -> bool {
    let mut out = Fuse::new(Taker::new(alloc, 1), kept as u64);
    let mut faults = Taker::new(alloc, 1);
    let status = status_of(rt, alloc, 1, row, &mut out, &mut faults);
    tells_what_went_out(row.text, kept, status, out.inner().bytes(), faults.bytes())
}

#[test]
fn tells_a_failing_output(rt: HostRuntime) -> Result<(), Fail> {
    for row in COMMANDS {
        for kept in 0..=row.text.len() {
            assert!(rt; tells_a_failure(&rt, rt.alloc(), row, kept));
        }
    }
    Ok(())
}

/// The clauses of a text alone.
fn clauses_of(text: Option<&'static [u8]>) -> Printed {
    Printed {
        command: Command::Clauses {
            text: "text",
            chosen: None,
        },
        files: Texts {
            text,
            derivation: None,
            proofs: None,
            start: None,
            moves: None,
        },
        text: "",
    }
}

/// The status of a command whose writer of faults fails after four bytes; none where other bytes went out.
fn status_past_faults<R: Threads + Wait + Sync>(
    rt: &R,
    alloc: Global,
    row: &Printed,
) -> Option<u8> {
    let mut out = Taker::new(alloc, 1);
    let mut faults = Fuse::new(Taker::new(alloc, 1), 4);
    let status = status_of(rt, alloc, 1, row, &mut out, &mut faults);
    if out.bytes().is_empty() && faults.inner().bytes().len() == 4 {
        return Some(status);
    }
    None
}

#[test]
fn passes_over_failing_faults(rt: HostRuntime) -> Result<(), Fail> {
    for (text, status) in [(Some(b")".as_slice()), 1), (None, 3)] {
        assert!(rt; status_past_faults(&rt, rt.alloc(), &clauses_of(text)) == Some(status));
    }
    Ok(())
}
