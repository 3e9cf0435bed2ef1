//! What is said of long searches where a person waits, and when they are given up.

use crate::paint::painted;
use crate::screen::Screen;
use itoa::Buffer;
use rg_watch::Watcher;
use rg_words::{Device, write_all};
use std::alloc::AllocError;
use std::env;
use std::env::VarError;
use std::io::IsTerminal;
use std::sync::atomic::{AtomicBool, AtomicU64, Ordering};
use std::time::Instant;

/// The seconds between two reports of searches.
const SECONDS_BETWEEN: u64 = 2;

/// How many calls of a search for a proof come to one look at the clock.
const CALLS: u32 = 64;

/// Whether the environment wants no colours: `NO_COLOR` is set, and isn't empty.
fn wants_no_colours(rt: &HostRuntime) -> bool {
    match env::var(rt, "NO_COLOR") {
        Ok(value) => !value.is_empty(),
        Err(VarError::NotPresent) => false,
        Err(_) => true,
    }
}

/// Whether standard output is a terminal that is to be coloured.
pub fn is_coloured(rt: &HostRuntime) -> bool {
    rt.stdout().is_terminal() && !wants_no_colours(rt)
}

/// Prints reports in colour on standard output; whether all of them went out.
///
/// # Errors
///
/// `AllocError` where memory is refused; nothing went out then.
pub fn print_painted(rt: &HostRuntime, lines: &[u8]) -> Result<bool, AllocError> {
    let text = painted(rt.alloc(), lines)?;
    Ok(write_all(&mut Device::new(rt.stdout()), &text).is_ok())
}

/// The time of a call of the program.
#[derive(Drop)]
pub struct Time {
    /// When it began, where the clock says it.
    start: Option<Instant>,
    /// The most seconds of its searches.
    most: Option<u64>,
    /// In which second it was reported of a search last.
    reported: AtomicU64,
    /// Whether the most seconds are over.
    is_over: AtomicBool,
}

impl Time {
    /// That of a call that begins now.
    pub fn begin(rt: &HostRuntime, most: Option<u64>) -> Time {
        Time {
            start: Instant::now(rt).ok(),
            most,
            reported: AtomicU64::new(0),
            is_over: AtomicBool::new(false),
        }
    }

    /// The most seconds, where they are over.
    pub fn over(&self) -> Option<u64> {
        if self.is_over.load(Ordering::SeqCst) {
            self.most
        } else {
            None
        }
    }

    /// The seconds since it began, where the clock says them.
    fn seconds(&self, rt: &HostRuntime) -> Option<u64> {
        let start = self.start?;
        match start.elapsed(rt) {
            Ok(time) => Some(time.as_secs()),
            Err(_) => None,
        }
    }
}

/// What hears of searches: it reports long ones on standard error, if that is a terminal, and gives them up when the time is over.
#[derive(Clone, Copy)]
pub struct Terminal<'a> {
    rt: &'a HostRuntime,
    time: &'a Time,
    /// Whether long searches are reported.
    reports: bool,
    /// Whether what is found is printed before a walk.
    shows: bool,
    calls: u32,
}

impl<'a> Terminal<'a> {
    /// That of a call; `shows`: what is found is printed before a walk, where standard output is a terminal.
    pub fn new(rt: &'a HostRuntime, time: &'a Time, shows: bool) -> Terminal<'a> {
        Terminal {
            rt,
            time,
            reports: rt.stderr().is_terminal(),
            shows: shows && rt.stdout().is_terminal(),
            calls: 0,
        }
    }

    /// Whether it is time for a report; looks at the clock.
    fn is_due(&self) -> bool {
        let Some(now) = self.time.seconds(self.rt) else {
            return false;
        };
        if self.time.most.is_some_and(|most| now >= most) {
            self.time.is_over.store(true, Ordering::SeqCst);
            return false;
        }
        let last = self.time.reported.load(Ordering::SeqCst);
        if !self.reports || now < last.saturating_add(SECONDS_BETWEEN) {
            return false;
        }
        self.time.reported.store(now, Ordering::SeqCst);
        true
    }

    /// Whether there is time left.
    fn goes_on(&self) -> bool {
        self.time.over().is_none()
    }
}

impl Watcher for Terminal<'_> {
    fn searched(&mut self, conflicts: u64, learned: usize) -> bool {
        let is_looked = self.calls == 0;
        self.calls = if self.calls == CALLS {
            0
        } else {
            self.calls.saturating_add(1)
        };
        if is_looked && self.is_due() {
            let (mut of_conflicts, mut of_learned) = (Buffer::new(), Buffer::new());
            let conflicts = of_conflicts.format(conflicts);
            let learned = of_learned.format(learned);
            let _ = eprintln!(self.rt; "{conflicts} conflicts, {learned} learned clauses");
        }
        self.goes_on()
    }

    fn walked(&mut self, steps: u64, states: usize) -> bool {
        if self.is_due() {
            let (mut of_steps, mut of_states) = (Buffer::new(), Buffer::new());
            let steps = of_steps.format(steps);
            let states = of_states.format(states);
            let _ = eprintln!(self.rt; "{steps} steps of runs, {states} states");
        }
        self.goes_on()
    }

    fn asked(&mut self, questions: usize) -> bool {
        if self.is_due() {
            let mut digits = Buffer::new();
            let questions = digits.format(questions);
            let _ = eprintln!(self.rt; "{questions} questions to find assertions");
        }
        self.goes_on()
    }

    fn found(&mut self, lines: &[u8]) -> bool {
        if !self.shows {
            return false;
        }
        if !is_coloured(self.rt) {
            return write_all(&mut Screen::new(self.rt.stdout()), lines).is_ok();
        }
        print_painted(self.rt, lines).unwrap_or(false)
    }
}

/// Reports that the time was over, where it was.
pub fn report_over(rt: &HostRuntime, time: &Time) {
    if let Some(most) = time.over() {
        let mut digits = Buffer::new();
        let most = digits.format(most);
        let _ = eprintln!(rt;
            "the {most} seconds of --seconds are over: what has no answer was given up"
        );
    }
}
