ghost use Rattle.std.specs.Prelude.{ℕ, IsTrue, not, take};
ghost use Rattle.std.specs.Io.KnownBytes.{Appends};

use outside::{Failed, PutFault, Sink, Source};
use std::io::{Read, Write};

/// A reader of the system as a source. Its bytes are told where the reader tells them.
#[derive(Drop)]
pub struct Input<R: Read> {
    reader: R,
    faults: u64,
}

impl<R: Read> Input<R> {
    /// A source over the reader, with no fault counted.
    pub fn new(reader: R) -> Input<R> {
        Input { reader, faults: 0 }
    }
}

impl<R: Read> Source for Input<R> {
    ghost left = { λ s. R.remaining s.reader };

    ghost fault_count = { λ s. s.faults };

    fn faults(&self) -> u64 {
        self.faults
    }

    fn read(&mut self, buf: &mut [u8]) -> Result<usize, Failed> {
        match self.reader.read(buf) {
            Ok(count) => Ok(count),
            Err(_) => {
                self.faults = self.faults.saturating_add(1);
                Err(Failed)
            }
        }
    }
}

/// A writer of the system as a sink. What was put is told where the writer tells it.
#[derive(Drop)]
pub struct Output<W: Write> {
    writer: W,
    faults: u64,
}

impl<W: Write> Output<W> {
    /// A sink over the writer, with no fault counted.
    pub fn new(writer: W) -> Output<W> {
        Output { writer, faults: 0 }
    }
}

/// Writes the whole piece; a write that takes nothing, or an error, ends it.
pub(crate) fn write_whole<W: Write>(writer: &mut W, piece: &[u8]) -> bool
    ensures whole { IsTrue result → Appends (W.contents writer.old)
        (W.contents writer.new) piece.now }
    ensures front { IsTrue (not result) → (n : ℕ)
        × Appends (W.contents writer.old) (W.contents writer.new) (take n piece.now) }
{
    let mut written = 0;
    while written < piece.len() {
        match writer.write(&piece[written..]) {
            Ok(0) => return false,
            Ok(count) => written += count,
            Err(_) => return false,
        }
    }
    true
}

impl<W: Write> Sink for Output<W> {
    ghost use Rattle.std.specs.Prelude.{◌≢◌, Err};
    ghost use Rattle.outside.specs.Causes.{HasPutCause, PutAppends};

    ghost put_so_far = { λ s. W.contents s.writer };

    ghost fault_count = { λ s. s.faults };

    fn faults(&self) -> u64 {
        self.faults
    }

    /// Appends the whole piece.
    ///
    /// # Errors
    ///
    /// [`PutFault::Failed`] where a write failed or took nothing; a front of the piece was appended.
    fn put(&mut self, piece: &[u8]) -> Result<(), PutFault>
        ensures bytes { PutAppends (W.contents self.old.writer)
            (W.contents self.new.writer) result piece.now }
        ensures cause { HasPutCause self.old.faults self.new.faults result }
        ensures never { result ≢ Err PutFault.Memory }
    {
        if write_whole(&mut self.writer, piece) {
            return Ok(());
        }
        self.faults = self.faults.saturating_add(1);
        Err(PutFault::Failed)
    }
}
