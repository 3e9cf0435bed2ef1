//! What is reported on standard error.

use crate::screen::Screen;
use rg_words::write_all;

/// Prints a line on standard error; the status of a device or of memory.
pub fn report_failure(rt: &HostRuntime, text: &str) -> u8 {
    let _ = eprintln!(rt; "{text}");
    3
}

/// Writes bytes to standard error, where they can be written.
pub fn report(rt: &HostRuntime, bytes: &[u8]) {
    let mut faults = Screen::new(rt.stderr());
    let _ = write_all(&mut faults, bytes);
}
