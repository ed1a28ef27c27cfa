ghost use Rattle.std.specs.Prelude.{◌≡◌, ◌++◌, [], Some, Err, IsOk, IfOk, OnOk, OnErr, min, length};
ghost use Rattle.std.specs.Prelude.{drop};
ghost use Rattle.std.specs.Io.{ReadsAtMost};
ghost use Rattle.std.specs.Io.KnownBytes.{ReadConsumes};
ghost use Rattle.outside.specs.declared.fault.PutFault.TheVariants as fault;

use crate::fault::{Failed, PutFault};
use crate::link::Link;
use crate::sink::append;
use crate::unread::Unread;
use std::alloc::Global;
use std::marker::Model;

/// A link in memory that never fails. Contracts see the bytes left, and what was put.
#[derive(Debug, Drop)]
pub struct SureLink {
    bytes: Unread,
    written: Vec<u8>,
}

impl Model for SureLink {
    ghost use Rattle.outside.specs.Memory.{SureLinkParts};

    ghost Value = { SureLinkParts };

    ghost view = { λ l. record { left = l.bytes; written = l.written.items } };
}

impl SureLink {
    /// A link that gives these bytes. Takes no memory.
    pub fn new(alloc: Global, bytes: Vec<u8>) -> SureLink
        ensures left { result.left ≡ bytes.items }
        ensures written { result.written ≡ [] }
    {
        SureLink {
            bytes: Unread::new(bytes),
            written: Vec::new(alloc),
        }
    }

    /// What was put. Takes no memory.
    pub fn written(&self) -> &[u8]
        ensures written { result.now ≡ self.now.written }
    {
        &self.written
    }
}

impl Link for SureLink {
    ghost left = { λ l. Some l.left };

    ghost put_so_far = { λ l. Some l.written };

    ghost fault_count = { λ _. 0 };

    fn faults(&self) -> u64 {
        0
    }

    /// Moves the first bytes left into the buffer, as many as there is room for. Never fails.
    fn take(&mut self, buf: &mut [u8]) -> Result<usize, Failed>
        ensures bound { ReadsAtMost result buf.new }
        ensures bytes { ReadConsumes (Some self.old.left) (Some self.new.left) result buf.new }
        ensures count { IfOk result (λ n. n ≡ min (length self.old.left) (length buf.old)) }
        ensures rest { IfOk result (λ n. drop n buf.new ≡ drop n buf.old) }
        ensures kept { self.new.written ≡ self.old.written }
        ensures sure { IsOk result }
    {
        Ok(self.bytes.move_into(buf))
    }

    /// Appends the whole piece.
    ///
    /// # Errors
    ///
    /// [`PutFault::Memory`] for want of memory alone, and then nothing was appended.
    fn put(&mut self, piece: &[u8]) -> Result<(), PutFault>
        ensures bytes { OnOk result (self.new.written ≡ self.old.written ++ piece.now) }
        ensures stays { OnErr result (self.new.written ≡ self.old.written) }
        ensures kept { self.new.left ≡ self.old.left }
        ensures memory { OnErr result (result ≡ Err fault.Memory) }
    {
        append(&mut self.written, piece)
    }
}
