//! A gate that lets another part go first, as a word says.

ghost use Rattle.std.specs.Prelude.{◌≡◌, is_some};

use crate::gate::Gate;
use std::hint::spin_loop;
use std::sync::Wait;
use std::sync::atomic::{AtomicU64, Ordering};
use std::time::Duration;

/// How often a worker looks whether another part is let go, before it sleeps.
const LOOKS: u32 = 200;

/// How often a worker sleeps before its turn, before it goes all the same.
const MOST_SLEEPS: u32 = 400;

/// The longest sleep, in microseconds. The part that is let go comes much earlier, unless its thread isn't let run.
const LONGEST_SLEEP: u64 = 10_000;

/// How long a worker gives way before its turn where the environment has moves, so that these come in time, in microseconds.
const GIVEN_WAY: u64 = 200;

/// A gate at which one part after another is let go, in an order that follows from a word; without a word it lets each turn through at once. A worker
/// waits there for a while at most, so nothing is promised of who comes first. Of a part that waits for others nobody waits here.
#[derive(Drop)]
pub struct Seeded {
    /// What the word stands for; none without a word.
    seed: Option<u64>,
    parts: u64,
    has_moves: bool,
    /// How many times a part was let go, or was one that doesn't come.
    drawn: AtomicU64,
    /// The parts that wait for others, and those that take no turn any more, as bits. They change while the floor is locked.
    waiting: AtomicU64,
    over: AtomicU64,
    /// It stays 0: whoever sleeps on it is woken by nobody.
    still: AtomicU64,
}

/// What a word stands for.
fn seed_of(word: &str) -> u64 {
    let mut seed = 0xcbf2_9ce4_8422_2325u64;
    for byte in word.as_bytes() {
        seed = (seed ^ u64::from(*byte)).wrapping_mul(0x0000_0100_0000_01b3);
    }
    seed
}

/// A number whose bits follow from all bits of another one.
fn mixed(number: u64) -> u64 {
    let first = (number ^ (number >> 30)).wrapping_mul(0xbf58_476d_1ce4_e5b9);
    let second = (first ^ (first >> 27)).wrapping_mul(0x94d0_49bb_1331_11eb);
    second ^ (second >> 31)
}

/// A part, by its number from 1, as a bit.
fn bit_of(part: u64) -> u64 {
    let count = part.min(63) as u32;
    1u64 << count
}

impl Seeded {
    /// A gate for so many parts, and for an environment that has moves or not.
    pub fn new(word: Option<&str>, parts: usize, has_moves: bool) -> Seeded
        // It lets one part after another go where there is a word, of so many.
        ensures word { is_some result.seed ≡ is_some word.entry }
        ensures parts { result.parts ≡ parts }
        ensures moves { result.has_moves ≡ has_moves }
    {
        Seeded {
            seed: word.map(|word| seed_of(word)),
            parts: parts as u64,
            has_moves,
            drawn: AtomicU64::new(0),
            waiting: AtomicU64::new(0),
            over: AtomicU64::new(0),
            still: AtomicU64::new(0),
        }
    }

    /// Whether a part takes turns, and doesn't wait for others.
    fn comes(&self, part: u64) -> bool {
        let away = self.waiting.load(Ordering::SeqCst) | self.over.load(Ordering::SeqCst);
        away & bit_of(part) == 0
    }

    /// How many parts come.
    fn coming(&self) -> u64 {
        let mut count: u64 = 0;
        for part in 0..self.parts {
            if self.comes(part.saturating_add(1)) {
                count = count.saturating_add(1);
            }
        }
        count
    }

    /// The part that is let go after so many, by its number from 1; 0 where none comes.
    fn chosen(&self, seed: u64, drawn: u64) -> u64 {
        let number = mixed(seed.wrapping_add(drawn.wrapping_mul(0x9e37_79b9_7f4a_7c15)));
        let mut left = number.checked_rem(self.coming()).unwrap_or(0);
        for place in 0..self.parts {
            let part = place.saturating_add(1);
            if self.comes(part) {
                if left == 0 {
                    return part;
                }
                left = left.saturating_sub(1);
            }
        }
        0
    }

    /// Lets the next part go: wakes those that wait for that.
    fn draw(&self) {
        self.drawn.fetch_add(1, Ordering::SeqCst);
        self.drawn.wake_all();
    }

    /// Waits until another part is let go, at the latest until it is clear that this one doesn't come soon.
    fn wait<R: Wait>(&self, rt: &R, drawn: u64) {
        for _ in 0..LOOKS {
            if self.drawn.load(Ordering::SeqCst) != drawn {
                return;
            }
            spin_loop();
        }
        let low = (drawn % 0x1_0000_0000) as u32;
        let longest = Duration::from_micros(LONGEST_SLEEP);
        self.drawn.park_timeout(rt, low, longest);
        let next = drawn.wrapping_add(1);
        let is_over = self
            .drawn
            .compare_exchange(drawn, next, Ordering::SeqCst, Ordering::SeqCst);
        if is_over.is_ok() {
            self.drawn.wake_all();
        }
    }
}

impl Gate for Seeded {
    fn before<R: Wait>(&self, rt: &R, part: usize, _nth: u64) {
        let Some(seed) = self.seed else {
            return;
        };
        if self.has_moves {
            let way = Duration::from_micros(GIVEN_WAY);
            self.still.park_timeout(rt, 0, way);
        }
        for _ in 0..MOST_SLEEPS {
            let drawn = self.drawn.load(Ordering::SeqCst);
            let chosen = self.chosen(seed, drawn);
            if chosen == 0 || chosen == part as u64 {
                break;
            }
            self.wait(rt, drawn);
        }
        self.draw();
    }

    fn rests(&self, part: usize, is_over: bool) {
        if self.seed.is_none() {
            return;
        }
        let resting = if is_over { &self.over } else { &self.waiting };
        let others = resting.load(Ordering::SeqCst);
        resting.store(others | bit_of(part as u64), Ordering::SeqCst);
        self.draw();
    }

    fn stepped(&self) {
        if self.seed.is_some() {
            self.waiting.store(0, Ordering::SeqCst);
        }
    }
}
