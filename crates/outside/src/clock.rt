ghost use Rattle.std.specs.Prelude.{◌≡◌, ◌∷◌, [], List, ℕ, Option, IfOk, OnErr};
ghost use Rattle.std.specs.Io.KnownBytes.{Appends};
ghost use Rattle.outside.specs.Causes.{HasCause};

use crate::fault::Failed;

/// What tells the time.
pub trait Clock {
    /// The answers so far, where they are told.
    ghost answers: { Self → Option (List ℕ) };

    /// How often the outside has failed.
    ghost fault_count: { Self → ℕ };

    /// How often the outside has failed. The count never falls; one that stands at
    /// 18,446,744,073,709,551,615 stands still.
    fn faults(&self) -> u64
        ensures count { result ≡ fault_count self.now };

    /// The time in milliseconds.
    ///
    /// # Errors
    ///
    /// [`Failed`] only where the count of faults rose in this call; the list of answers stays.
    fn now_ms(&mut self) -> Result<u64, Failed>
        ensures told { IfOk result (λ ms. Appends (answers self.old) (answers self.new) (ms ∷ [])) }
        ensures stays { OnErr result (answers self.new ≡ answers self.old) }
        ensures cause { HasCause (fault_count self.old) (fault_count self.new) result };
}
