//! The stacks of threads: of the one that does the command, and of those that help it.

use std::fs::File;
use std::io;
use std::io::Read;
use std::path::Path;

/// The bytes of the stack on which a command is done, several times as many as the deepest file takes.
pub const STACK_BYTES: usize = 0x400_0000;

/// The least limit of the process's stacks, in bytes, with which other threads hold the deepest condition: that is the size of theirs.
const LEAST_BYTES: u64 = 0x40_0000;

/// The file in which Linux says the limits of the process, the most bytes that are read of it, and how the line begins that has the limit of stacks.
const LIMITS: &str = "/proc/self/limits";

const MOST_BYTES: u64 = 10_000;

const HEAD: &[u8] = b"Max stack size";

/// What the system says of the process's limits.
fn limits(rt: &HostRuntime) -> io::Result<Vec<u8>> {
    let mut file = File::open(rt, Path::new(LIMITS))?.take(MOST_BYTES);
    let mut bytes = Vec::new(rt.alloc());
    file.read_to_end(&mut bytes)?;
    Ok(bytes)
}

/// The first number in a line, if it has one.
fn number_in(line: &[u8]) -> Option<u64> {
    let mut number = None;
    for byte in line {
        if byte.is_ascii_digit() {
            let digit = u64::from(*byte - b'0');
            number = Some(
                number
                    .unwrap_or(0u64)
                    .saturating_mul(10)
                    .saturating_add(digit),
            );
        } else if number.is_some() {
            break;
        }
    }
    number
}

/// Whether other threads have stacks that are too small for the deepest condition. Where the system doesn't say it, they haven't.
pub fn has_small_stacks(rt: &HostRuntime) -> bool {
    let Ok(said) = limits(rt) else {
        return false;
    };
    for line in said.split(|byte| *byte == b'\n') {
        if line.starts_with(HEAD) {
            return number_in(line).is_some_and(|most| most < LEAST_BYTES);
        }
    }
    false
}
