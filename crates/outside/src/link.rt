ghost use Rattle.std.specs.Prelude.{◌≡◌, List, ℕ, Option};
ghost use Rattle.std.specs.Io.{ReadsAtMost};
ghost use Rattle.std.specs.Io.KnownBytes.{ReadConsumes};
ghost use Rattle.outside.specs.Causes.{HasCause, HasPutCause, PutAppends};

use crate::fault::{Failed, PutFault};

/// A connection to a peer: where bytes are taken and put.
pub trait Link {
    /// The bytes that are left to take, where that is told.
    ghost left: { Self → Option (List ℕ) };

    /// What was put, where that is told.
    ghost put_so_far: { Self → Option (List ℕ) };

    /// How often the outside has failed.
    ghost fault_count: { Self → ℕ };

    /// How often the outside has failed. The count never falls; one that stands at
    /// 18,446,744,073,709,551,615 stands still.
    fn faults(&self) -> u64
        ensures count { result ≡ fault_count self.now };

    /// Takes bytes off the front and writes them to the start of the buffer; answers how many. A
    /// buffer with room gets 0 bytes if no byte is left, and in no other case.
    ///
    /// # Errors
    ///
    /// [`Failed`] only where the count of faults rose in this call; the bytes left stay.
    fn take(&mut self, buf: &mut [u8]) -> Result<usize, Failed>
        ensures bound { ReadsAtMost result buf.new }
        ensures bytes { ReadConsumes (left self.old) (left self.new) result buf.new }
        ensures kept { put_so_far self.new ≡ put_so_far self.old }
        ensures cause { HasCause (fault_count self.old) (fault_count self.new) result };

    /// Appends the whole piece.
    ///
    /// # Errors
    ///
    /// [`PutFault::Failed`] only where the count of faults rose in this call, and
    /// [`PutFault::Memory`] for want of memory. After either a front of the piece was appended.
    fn put(&mut self, piece: &[u8]) -> Result<(), PutFault>
        ensures bytes { PutAppends (put_so_far self.old) (put_so_far self.new) result piece.now }
        ensures kept { left self.new ≡ left self.old }
        ensures cause { HasPutCause (fault_count self.old) (fault_count self.new) result };
}
