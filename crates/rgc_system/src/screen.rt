//! Standard output and standard error as a person sees them: what a file or a name holds does nothing to the terminal.

ghost use Rattle.std.specs.Prelude.{◌≡◌, None};

use rg_words::{Out, WriteFault};
use std::alloc::{AllocError, Global};
use std::io;
use std::io::{IsTerminal, Write};

/// What is shown in place of a byte that a terminal would obey.
const SHOWN: u8 = b'?';

/// The byte before the last one of a control character from U+0080 on, in UTF-8.
const LEAD: u8 = 0xc2;

/// Whether a byte ends a control character, if this one stands before it. The ends of lines and tabs are none.
fn is_control(before: u8, byte: u8) -> bool {
    match byte {
        0..=8 | 11..=31 | 127 => true,
        0x80..=0x9f => before == LEAD,
        _ => false,
    }
}

/// How many bytes stand before the first one that a terminal would obey. (What stands before them all isn't known.)
fn harmless(bytes: &[u8]) -> usize {
    let mut before = LEAD;
    let mut count = 0usize;
    for byte in bytes {
        if is_control(before, *byte) {
            return count;
        }
        before = *byte;
        count = count.saturating_add(1);
    }
    count
}

/// The bytes with a question mark for each one that a terminal would obey.
///
/// # Errors
///
/// `AllocError` where memory is refused.
pub fn cleaned(alloc: Global, bytes: &[u8]) -> Result<Vec<u8>, AllocError> {
    let mut clean = Vec::new(alloc);
    let mut before = 0;
    for byte in bytes {
        clean.push(if is_control(before, *byte) {
            SHOWN
        } else {
            *byte
        })?;
        before = *byte;
    }
    Ok(clean)
}

/// A writer over a stream. Where that is a terminal, a question mark is written for each byte that the terminal would obey; elsewhere all bytes go out as
/// they are.
#[derive(Drop)]
pub struct Screen<W> {
    inner: W,
    is_terminal: bool,
    failures: u64,
}

impl<W: Write + IsTerminal> Screen<W> {
    /// A writer with no failure so far.
    pub fn new(inner: W) -> Screen<W>
        ensures { ⟦<Screen<W> as Out>⟧.failures result ≡ 0 }
    {
        let is_terminal = inner.is_terminal();
        Screen {
            inner,
            is_terminal,
            failures: 0,
        }
    }
}

impl<W: Write> Screen<W> {
    /// Writes some of the bytes from the front, or the mark for the first one: how many were written.
    fn write(&mut self, bytes: &[u8]) -> io::Result<usize>
        ensures { self.new.failures ≡ self.old.failures }
    {
        if !self.is_terminal {
            return self.inner.write(bytes);
        }
        match harmless(bytes) {
            0 if !bytes.is_empty() => self.inner.write(&[SHOWN]),
            count => self.inner.write(bytes.get(..count).unwrap_or(&[])),
        }
    }
}

impl<W: Write> Out for Screen<W> {
    ghost contents = { λ s. None };

    ghost failures = { λ s. s.failures };

    fn put(&mut self, bytes: &[u8]) -> Result<usize, WriteFault> {
        match self.write(bytes) {
            Ok(count) => {
                let count = count.min(bytes.len());
                if count == 0 && !bytes.is_empty() {
                    self.failures += 1;
                }
                Ok(count)
            }
            Err(_) => {
                self.failures += 1;
                Err(WriteFault)
            }
        }
    }
}
