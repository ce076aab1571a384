// What the program reads: a buffer that is filled again and again.
ghost use Rattle.std.specs.Prelude.{◌≡◌, ◌≤◌, ◌<◌, eqb, min, length, take, IfOk, OnOk};
ghost use Rattle.std.specs.Io.KnownBytes.{Consumes, IsAtEnd};

use std::io;
use std::io::{ErrorKind, Read};

// A reader, and the bytes at the buffer's start that the last read got.
// Kept: a fixed buffer with a length beside it, since the program has no heap.
#[derive(Drop)]
pub(crate) struct Input<R> {
    from: R,
    buffer: [u8; 2313],
    got: usize,
    ghost within: { got ≤ length buffer },
}

impl<R: Read> Input<R> {
    pub(crate) fn new(from: R) -> Self {
        Input {
            from,
            buffer: [0; 2313],
            got: 0,
        }
    }

    // The bytes that the last read got.
    pub(crate) fn bytes(&self) -> &[u8]
        ensures { result.now ≡ take self.now.got self.now.buffer }
    {
        &self.buffer[..self.got]
    }

    // Reads the next `want` bytes, or as many as the buffer holds or the input still has, over the
    // last ones, and answers whether there may be more. Where a read fails, what the input gave
    // before it stands there all the same.
    pub(crate) fn read(&mut self, want: usize) -> io::Result<bool>
        ensures most { self.new.got ≤ want }
        ensures bytes { Consumes (R.remaining self.old.from) (R.remaining self.new.from) (take self.new.got self.new.buffer) }
        ensures more { IfOk result (λ more. more ≡ eqb self.new.got (min want 2313)) }
        ensures end { OnOk result (self.new.got < min want 2313 → IsAtEnd (R.remaining self.new.from)) }
    {
        let end = want.min(self.buffer.len());
        self.got = 0;
        // Kept: a loop over reads, since `read_exact` loses what came before a failure or the end,
        // which the clause `bytes` says; counted, so that it ends whatever interrupts them.
        for _ in 0..u64::MAX {
            if self.got == end {
                return Ok(true);
            }
            match self.from.read(&mut self.buffer[self.got..end]) {
                Ok(0) => return Ok(false),
                Ok(more) => self.got += more,
                Err(error) => {
                    if error.kind() != ErrorKind::Interrupted {
                        return Err(error);
                    }
                }
            }
        }
        Err(io::Error::new(ErrorKind::TimedOut, "too many reads"))
    }
}
