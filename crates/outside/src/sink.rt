ghost use Rattle.std.specs.Prelude.{◌≡◌, ◌↔◌, ◌++◌, List, ℕ, [], Option, Some, Err, OnOk, OnErr};
ghost use Rattle.outside.specs.Causes.{HasPutCause, PutAppends, has_failed};
ghost use Rattle.outside.specs.Tally.{IsToFail, no_calls, tally_after};
ghost use Rattle.outside.specs.declared.fault.PutFault.TheVariants as fault;

use crate::calls::Calls;
use crate::fault::PutFault;
use std::alloc::Global;
use std::marker::Model;

/// Where bytes are put.
pub trait Sink {
    /// What was put, where that is told.
    ghost put_so_far: { Self → Option (List ℕ) };

    /// How often the outside has failed.
    ghost fault_count: { Self → ℕ };

    /// How often the outside has failed. The count never falls; one that stands at
    /// 18,446,744,073,709,551,615 stands still.
    fn faults(&self) -> u64
        ensures count { result ≡ fault_count self.now };

    /// Appends the whole piece.
    ///
    /// # Errors
    ///
    /// [`PutFault::Failed`] only where the count of faults rose in this call, and
    /// [`PutFault::Memory`] for want of memory. After either a front of the piece was appended.
    fn put(&mut self, piece: &[u8]) -> Result<(), PutFault>
        ensures bytes { PutAppends (put_so_far self.old) (put_so_far self.new) result piece.now }
        ensures cause { HasPutCause (fault_count self.old) (fault_count self.new) result };
}

/// Appends the whole piece, or nothing for want of memory.
pub(crate) fn append(bytes: &mut Vec<u8>, piece: &[u8]) -> Result<(), PutFault>
    ensures bytes { PutAppends (Some bytes.old.items) (Some bytes.new.items) result piece.now }
    ensures stays { OnErr result (bytes.new.items ≡ bytes.old.items) }
    ensures memory { OnErr result (result ≡ Err fault.Memory) }
{
    if bytes.extend_from_slice(piece).is_err() {
        return Err(PutFault::Memory);
    }
    Ok(())
}

/// A sink in memory, some of whose calls fail. Contracts see what was put, and the calls.
#[derive(Debug, Drop)]
pub struct MemSink {
    bytes: Vec<u8>,
    calls: Calls,
}

impl Model for MemSink {
    ghost use Rattle.outside.specs.Memory.{SinkParts};

    ghost Value = { SinkParts };

    ghost view = { λ s. record { written = s.bytes.items; calls = s.calls } };
}

impl MemSink {
    /// An empty sink. The puts are numbered from 1; those whose numbers are listed fail. Takes no
    /// memory.
    pub fn new(alloc: Global, failing: Vec<u64>) -> MemSink
        ensures written { result.written ≡ [] }
        ensures calls { result.calls ≡ no_calls failing.items }
    {
        MemSink {
            bytes: Vec::new(alloc),
            calls: Calls::new(failing),
        }
    }

    /// What was put. Takes no memory.
    pub fn written(&self) -> &[u8]
        ensures written { result.now ≡ self.now.written }
    {
        &self.bytes
    }
}

impl Sink for MemSink {
    ghost put_so_far = { λ s. Some s.written };

    ghost fault_count = { λ s. s.calls.faults };

    fn faults(&self) -> u64 {
        self.calls.faults()
    }

    /// Appends the whole piece.
    ///
    /// # Errors
    ///
    /// [`PutFault::Failed`] exactly where the number of this call is listed or above
    /// 18,446,744,073,709,551,615, and [`PutFault::Memory`] for want of memory. After either
    /// nothing was appended.
    fn put(&mut self, piece: &[u8]) -> Result<(), PutFault>
        ensures bytes { PutAppends (Some self.old.written)
            (Some self.new.written) result piece.now }
        ensures cause { HasPutCause self.old.calls.faults self.new.calls.faults result }
        ensures fails { (result ≡ Err fault.Failed) ↔ IsToFail self.old.calls }
        ensures counted { self.new.calls ≡ tally_after (has_failed result) self.old.calls }
        ensures stays { OnErr result (self.new.written ≡ self.old.written) }
    {
        self.calls.count()?;
        append(&mut self.bytes, piece)
    }
}

/// A sink in memory that never fails. Contracts see what was put.
#[derive(Debug, Drop)]
pub struct SureSink {
    bytes: Vec<u8>,
}

impl Model for SureSink {
    ghost Value = { List ℕ };

    ghost view = { λ s. s.bytes.items };
}

impl SureSink {
    /// An empty sink. Takes no memory.
    pub fn new(alloc: Global) -> SureSink
        ensures written { result ≡ [] }
    {
        SureSink {
            bytes: Vec::new(alloc),
        }
    }

    /// What was put. Takes no memory.
    pub fn written(&self) -> &[u8]
        ensures written { result.now ≡ self.now }
    {
        &self.bytes
    }
}

impl Sink for SureSink {
    ghost put_so_far = { λ s. Some s };

    ghost fault_count = { λ _. 0 };

    fn faults(&self) -> u64 {
        0
    }

    /// Appends the whole piece.
    ///
    /// # Errors
    ///
    /// [`PutFault::Memory`] for want of memory alone, and then nothing was appended.
    fn put(&mut self, piece: &[u8]) -> Result<(), PutFault>
        ensures bytes { OnOk result (self.new ≡ self.old ++ piece.now) }
        ensures stays { OnErr result (self.new ≡ self.old) }
        ensures memory { OnErr result (result ≡ Err fault.Memory) }
    {
        append(&mut self.bytes, piece)
    }
}
