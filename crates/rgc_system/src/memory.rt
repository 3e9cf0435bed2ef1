//! A writer over memory that notes whether memory was refused.

ghost use Rattle.std.specs.Prelude.{◌≡◌, Some};

use rg_words::{Out, Taker, WriteFault};
use std::alloc::Global;

/// A writer over memory.
#[derive(Drop)]
pub struct Memory {
    taker: Taker,
    is_refused: bool,
}

impl Memory {
    /// A writer that has taken nothing.
    pub fn new(alloc: Global) -> Memory
        ensures { ⟦<Memory as Out>⟧.failures result ≡ 0 }
    {
        Memory {
            taker: Taker::new(alloc, usize::MAX),
            is_refused: false,
        }
    }

    /// The bytes that it has taken.
    pub fn bytes(&self) -> &[u8] {
        self.taker.bytes()
    }

    /// Whether memory was refused for some that it was to take.
    pub fn is_refused(&self) -> bool {
        self.is_refused
    }
}

impl Out for Memory {
    ghost contents = { λ m. Some m.taker.bytes };

    ghost failures = { λ m. m.taker.failures };

    fn put(&mut self, bytes: &[u8]) -> Result<usize, WriteFault> {
        let result = self.taker.put(bytes);
        self.is_refused = self.is_refused || result.is_err();
        result
    }
}
