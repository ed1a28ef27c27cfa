ghost use Rattle.std.specs.Prelude.{◌≡◌, ◌↔◌, List, ℕ, Option, Some, IsOk, IsErr, IfOk, OnErr};
ghost use Rattle.std.specs.Prelude.{is_err, ◌<◌, ◌≤◌, ◌+◌, ◌-◌, ◌++◌, [], min, length, take, drop};
ghost use Rattle.std.specs.Io.{ReadsAtMost};
ghost use Rattle.std.specs.Io.KnownBytes.{ReadConsumes};
ghost use Rattle.outside.specs.Causes.{HasCause};
ghost use Rattle.outside.specs.Tally.{IsToFail, no_calls, tally_after};

use crate::calls::Calls;
use crate::fault::Failed;
use crate::unread::Unread;
use std::marker::Model;

/// Where bytes are read.
pub trait Source {
    /// The bytes that are left, where that is told.
    ghost left: { Self → Option (List ℕ) };

    /// How often the outside has failed.
    ghost fault_count: { Self → ℕ };

    /// How often the outside has failed. The count never falls; one that stands at
    /// 18,446,744,073,709,551,615 stands still.
    fn faults(&self) -> u64
        ensures count { result ≡ fault_count self.now };

    /// Takes bytes off the front and writes them to the start of the buffer; answers how many. A
    /// buffer with room gets 0 bytes if no byte is left, and in no other case.
    ///
    /// # Errors
    ///
    /// [`Failed`] only where the count of faults rose in this call; the bytes left stay.
    fn read(&mut self, buf: &mut [u8]) -> Result<usize, Failed>
        ensures bound { ReadsAtMost result buf.new }
        ensures bytes { ReadConsumes (left self.old) (left self.new) result buf.new }
        ensures cause { HasCause (fault_count self.old) (fault_count self.new) result };
}

/// A source in memory, some of whose calls fail. Contracts see the bytes left, and the calls.
#[derive(Debug, Drop)]
pub struct MemSource {
    bytes: Unread,
    calls: Calls,
}

impl Model for MemSource {
    ghost use Rattle.outside.specs.Memory.{SourceParts};

    ghost Value = { SourceParts };

    ghost view = { λ s. record { left = s.bytes; calls = s.calls } };
}

impl MemSource {
    /// A source of these bytes. The reads are numbered from 1; those whose numbers are listed fail.
    /// Takes no memory.
    pub fn new(bytes: Vec<u8>, failing: Vec<u64>) -> MemSource
        ensures left { result.left ≡ bytes.items }
        ensures calls { result.calls ≡ no_calls failing.items }
    {
        MemSource {
            bytes: Unread::new(bytes),
            calls: Calls::new(failing),
        }
    }
}

impl Source for MemSource {
    ghost left = { λ s. Some s.left };

    ghost fault_count = { λ s. s.calls.faults };

    fn faults(&self) -> u64 {
        self.calls.faults()
    }

    /// Moves the first bytes left into the buffer, as many as there is room for.
    ///
    /// # Errors
    ///
    /// [`Failed`] exactly where the number of this call is listed or above
    /// 18,446,744,073,709,551,615; the bytes left stay.
    fn read(&mut self, buf: &mut [u8]) -> Result<usize, Failed>
        ensures bound { ReadsAtMost result buf.new }
        ensures count { IfOk result (λ n. n ≡ min (length self.old.left) (length buf.old)) }
        ensures bytes { ReadConsumes (Some self.old.left) (Some self.new.left) result buf.new }
        ensures cause { HasCause self.old.calls.faults self.new.calls.faults result }
        ensures fails { IsErr result ↔ IsToFail self.old.calls }
        ensures counted { self.new.calls ≡ tally_after (is_err result) self.old.calls }
        ensures rest { IfOk result (λ n. drop n buf.new ≡ drop n buf.old) }
        ensures untouched { OnErr result (buf.new ≡ buf.old) }
    {
        self.calls.count()?;
        Ok(self.bytes.move_into(buf))
    }
}

/// A source in memory that never fails. Contracts see the bytes left.
#[derive(Debug, Drop)]
pub struct SureSource {
    bytes: Unread,
}

impl Model for SureSource {
    ghost Value = { List ℕ };

    ghost view = { λ s. s.bytes };
}

impl SureSource {
    /// A source of these bytes. Takes no memory.
    pub fn new(bytes: Vec<u8>) -> SureSource
        ensures left { result ≡ bytes.items }
    {
        SureSource {
            bytes: Unread::new(bytes),
        }
    }
}

impl Source for SureSource {
    ghost left = { λ s. Some s };

    ghost fault_count = { λ _. 0 };

    fn faults(&self) -> u64 {
        0
    }

    /// Moves the first bytes left into the buffer, as many as there is room for. Never fails.
    fn read(&mut self, buf: &mut [u8]) -> Result<usize, Failed>
        ensures bound { ReadsAtMost result buf.new }
        ensures bytes { ReadConsumes (Some self.old) (Some self.new) result buf.new }
        ensures count { IfOk result (λ n. n ≡ min (length self.old) (length buf.old)) }
        ensures rest { IfOk result (λ n. drop n buf.new ≡ drop n buf.old) }
        ensures sure { IsOk result }
    {
        Ok(self.bytes.move_into(buf))
    }
}
