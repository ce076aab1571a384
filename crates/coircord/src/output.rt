// What the program prints: lines are put behind those that wait in a buffer, and these are written
// out when no further line may fit.
ghost use Rattle.std.specs.Prelude.{◌≡◌, ◌≤◌, length, take, OnErr, OnOk};
ghost use Rattle.std.specs.Io.KnownBytes.{Appends};

use answer::Refusal;
use std::io;
use std::io::Write;

// A line is lent so many bytes at least, and none is longer.
const LINE: usize = 80;

// A writer, and the bytes at the buffer's start that wait for it.
// Kept: a fixed buffer with a length beside it, since the program has no heap.
#[derive(Drop)]
pub(crate) struct Output<W> {
    to: W,
    buffer: [u8; 2048],
    waiting: usize,
    ghost within: { waiting ≤ length buffer },
}

impl<W: Write> Output<W> {
    pub(crate) fn new(to: W) -> Self {
        Output {
            to,
            buffer: [0; 2048],
            waiting: 0,
        }
    }

    // Puts a line behind what waits, which is written out first if the line may not fit.
    pub(crate) fn put<F: FnOnce(&mut [u8]) -> Result<usize, Refusal>>(
        &mut self,
        line: F,
    ) -> io::Result<()>
        requires { F.IsAlwaysCallable line }
        ensures buffer { OnErr result (self.new.buffer ≡ self.old.buffer) }
        ensures waiting { OnErr result (self.new.waiting ≡ self.old.waiting) }
    {
        if self.buffer.len() - self.waiting < LINE {
            self.flush()?;
        }
        let free = &mut self.buffer[self.waiting..];
        if let Ok(length) = line(free) {
            self.waiting += length.min(free.len());
        }
        Ok(())
    }

    // Writes out what waits. Where a write fails, a part of it may have been written, and all of it
    // waits still.
    pub(crate) fn flush(&mut self) -> io::Result<()>
        ensures written { OnOk result (Appends (W.contents self.old.to) (W.contents self.new.to) (take self.old.waiting self.old.buffer)) }
        ensures emptied { OnOk result (self.new.waiting ≡ 0) }
        ensures buffer { self.new.buffer ≡ self.old.buffer }
        ensures waiting { OnErr result (self.new.waiting ≡ self.old.waiting) }
    {
        self.to.write_all(&self.buffer[..self.waiting])?;
        self.waiting = 0;
        Ok(())
    }
}
