//! A writer that passes bytes on in larger pieces.

ghost use Rattle.std.specs.Prelude.{◌≡◌, ◌≤◌, ◌<◌, ◌-◌, ◌^◌, [], IfOk, OnOk, vec_len};
ghost use Rattle.std.specs.Vec.{vec_capacity};
ghost use Rattle.rg_words.specs.declared.limits.TheConstants.{BUFFER_BYTES};

use crate::limits::BUFFER_BYTES;
use crate::sink::{Out, WriteFault, send};
use std::alloc::{AllocError, Global};

/// A writer that gathers bytes and passes them on in larger pieces.
///
/// What it took is out only after a `flush` that is Ok: call it once the last text is written. Nothing is passed on when
/// it is dropped. A failure of the writer below is reported by the call in which it came; the bytes that aren't out then wait.
#[derive(Drop)]
pub struct Buffered<W> {
    inner: W,
    pending: Vec<u8>,
    sent: usize,
    ghost sent_within: { sent ≤ vec_len pending },
    ghost bounded: { vec_len pending ≤ BUFFER_BYTES },
    ghost room: { BUFFER_BYTES ≤ vec_capacity pending },
}

impl<W: Out> Buffered<W> {
    ghost use Rattle.rg_words.specs.Buffers.{inner_of, waiting_in};
    ghost use Rattle.std.specs.Io.KnownBytes.{Keeps, append_known};
    ghost use Rattle.rg_words.specs.Written.{CanCount, IsWritten};

    /// A buffer before this writer. All of its memory is taken here.
    pub fn new(alloc: Global, inner: W) -> Result<Buffered<W>, AllocError>
    where
        W: Drop,
        ensures inner { IfOk result (λ b. inner_of b ≡ inner) }
        ensures waiting { IfOk result (λ b. waiting_in b ≡ []) }
    {
        let pending = Vec::with_capacity(alloc, BUFFER_BYTES)?;
        Ok(Buffered {
            inner,
            pending,
            sent: 0,
        })
    }

    /// The writer below.
    pub fn inner(&self) -> &W
        ensures { result.now ≡ inner_of self.now }
    {
        &self.inner
    }

    /// Passes on all that waits. It stops at the first failure, and the rest then waits.
    pub fn flush(&mut self) -> Result<(), WriteFault>
        requires { CanCount (W.failures (inner_of self.old)) }

        // What waited goes out whole, or a beginning of it and one failure more.
        ensures written { IsWritten (W.contents (inner_of self.old)) (W.contents (inner_of self.new)) (W.failures (inner_of self.old)) (W.failures (inner_of self.new)) (waiting_in self.old) result }
        ensures waiting { OnOk result (waiting_in self.new ≡ []) }
        ensures kept { Keeps (append_known (W.contents (inner_of self.old)) (waiting_in self.old)) (append_known (W.contents (inner_of self.new)) (waiting_in self.new)) }
    {
        let (count, result) = send(&mut self.inner, &self.pending[self.sent..]);
        self.sent += count;
        if result.is_err() {
            return result;
        }
        self.pending.clear();
        self.sent = 0;
        Ok(())
    }
}

impl<W: Out> Out for Buffered<W> {
    ghost use Rattle.rg_words.specs.Buffers.{inner_of, waiting_in};
    ghost use Rattle.std.specs.Io.KnownBytes.{Keeps, append_known};

    ghost contents = { λ b. append_known (W.contents (inner_of b)) (waiting_in b) };

    ghost failures = { λ b. W.failures (inner_of b) };

    fn put(&mut self, bytes: &[u8]) -> Result<usize, WriteFault> {
        if bytes.len() > BUFFER_BYTES - self.pending.len() {
            self.flush()?;
            if bytes.len() > BUFFER_BYTES - self.pending.len() {
                return self.inner.put(bytes);
            }
        }
        self.pending.extend_from_slice(bytes).unwrap();
        Ok(bytes.len())
    }
}
