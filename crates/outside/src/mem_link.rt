ghost use Rattle.std.specs.Prelude.{◌≡◌, ◌↔◌, [], Some, Err, IsErr, IfOk, OnErr, is_err, min};
ghost use Rattle.std.specs.Prelude.{length, drop};
ghost use Rattle.std.specs.Io.{ReadsAtMost};
ghost use Rattle.std.specs.Io.KnownBytes.{ReadConsumes};
ghost use Rattle.outside.specs.Causes.{HasCause, HasPutCause, PutAppends, has_failed};
ghost use Rattle.outside.specs.Tally.{IsToFail, no_calls, tally_after};
ghost use Rattle.outside.specs.declared.fault.PutFault.TheVariants as fault;

use crate::calls::Calls;
use crate::fault::{Failed, PutFault};
use crate::link::Link;
use crate::sink::append;
use crate::unread::Unread;
use std::alloc::Global;
use std::marker::Model;

/// A link in memory, some of whose calls fail. Contracts see the bytes left, what was put, and the calls.
#[derive(Debug, Drop)]
pub struct MemLink {
    bytes: Unread,
    written: Vec<u8>,
    calls: Calls,
}

impl Model for MemLink {
    ghost use Rattle.outside.specs.Memory.{LinkParts};

    ghost Value = { LinkParts };

    ghost view = { λ l. record { left = l.bytes; written = l.written.items; calls = l.calls } };
}

impl MemLink {
    /// A link that gives these bytes. Takes and puts are numbered together from 1; those whose numbers
    /// are listed fail. Takes no memory.
    pub fn new(alloc: Global, bytes: Vec<u8>, failing: Vec<u64>) -> MemLink
        ensures left { result.left ≡ bytes.items }
        ensures written { result.written ≡ [] }
        ensures calls { result.calls ≡ no_calls failing.items }
    {
        MemLink {
            bytes: Unread::new(bytes),
            written: Vec::new(alloc),
            calls: Calls::new(failing),
        }
    }

    /// What was put. Takes no memory.
    pub fn written(&self) -> &[u8]
        ensures written { result.now ≡ self.now.written }
    {
        &self.written
    }
}

impl Link for MemLink {
    ghost left = { λ l. Some l.left };

    ghost put_so_far = { λ l. Some l.written };

    ghost fault_count = { λ l. l.calls.faults };

    fn faults(&self) -> u64 {
        self.calls.faults()
    }

    /// Moves the first bytes left into the buffer, as many as there is room for.
    ///
    /// # Errors
    ///
    /// [`Failed`] exactly where the number of this call is listed or above
    /// 18,446,744,073,709,551,615; the bytes left stay.
    fn take(&mut self, buf: &mut [u8]) -> Result<usize, Failed>
        ensures bound { ReadsAtMost result buf.new }
        ensures count { IfOk result (λ n. n ≡ min (length self.old.left) (length buf.old)) }
        ensures bytes { ReadConsumes (Some self.old.left) (Some self.new.left) result buf.new }
        ensures kept { self.new.written ≡ self.old.written }
        ensures cause { HasCause self.old.calls.faults self.new.calls.faults result }
        ensures fails { IsErr result ↔ IsToFail self.old.calls }
        ensures counted { self.new.calls ≡ tally_after (is_err result) self.old.calls }
        ensures rest { IfOk result (λ n. drop n buf.new ≡ drop n buf.old) }
        ensures untouched { OnErr result (buf.new ≡ buf.old) }
    {
        self.calls.count()?;
        Ok(self.bytes.move_into(buf))
    }

    /// Appends the whole piece.
    ///
    /// # Errors
    ///
    /// [`PutFault::Failed`] exactly where the number of this call is listed or above
    /// 18,446,744,073,709,551,615, and [`PutFault::Memory`] for want of memory. After either
    /// nothing was appended.
    fn put(&mut self, piece: &[u8]) -> Result<(), PutFault>
        ensures bytes { PutAppends (Some self.old.written)
            (Some self.new.written) result piece.now }
        ensures kept { self.new.left ≡ self.old.left }
        ensures cause { HasPutCause self.old.calls.faults self.new.calls.faults result }
        ensures fails { (result ≡ Err fault.Failed) ↔ IsToFail self.old.calls }
        ensures counted { self.new.calls ≡ tally_after (has_failed result) self.old.calls }
        ensures stays { OnErr result (self.new.written ≡ self.old.written) }
    {
        self.calls.count()?;
        append(&mut self.written, piece)
    }
}
