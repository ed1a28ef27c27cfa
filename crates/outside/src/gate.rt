ghost use Rattle.std.specs.Prelude.{◌≡◌, ◌+◌, ◌<◌, ℕ, Option, IfOk, OnErr, ◌∷◌, []};
ghost use Rattle.outside.specs.Causes.{HasCause};
ghost use Rattle.outside.specs.Gates.{Gated, Admits, Leaves, Tells, after_return, out_after};
ghost use Rattle.outside.specs.Gates.{out_dialed};

use crate::fault::Failed;
use crate::link::Link;

/// Where connections come from, and where they go when their sessions have ended.
pub trait Gate {
    /// A connection.
    type Line: Link + Drop;

    /// The lines to come, the lines given back and the ports dialed, where these are told.
    ghost told: { Self → Option (Gated Self.Line) };

    /// How many lines are out: they came or were dialed, and were not given back.
    ghost lines_out: { Self → ℕ };

    /// How often the outside has failed.
    ghost fault_count: { Self → ℕ };

    /// How often the outside has failed. The count never falls; one that stands at
    /// 18,446,744,073,709,551,615 stands still.
    fn faults(&self) -> u64
        ensures count { result ≡ fault_count self.now };

    /// The next connection to serve; None where no more come, and in no other case.
    ///
    /// # Errors
    ///
    /// [`Failed`] only where the count of faults rose in this call; the lists stay.
    fn admit(&mut self) -> Result<Option<Self::Line>, Failed>
        ensures admits { IfOk result (λ line.
            Tells (λ old new. Admits old new line) (told self.old) (told self.new)) }
        ensures stays { OnErr result (told self.new ≡ told self.old) }
        ensures out { lines_out self.new ≡ out_after result (lines_out self.old) }
        ensures cause { HasCause (fault_count self.old) (fault_count self.new) result };

    /// A connection to this port.
    ///
    /// # Errors
    ///
    /// [`Failed`] only where the count of faults rose in this call; the lists stay.
    fn dial(&mut self, port: u16) -> Result<Self::Line, Failed>
        ensures dials { IfOk result (λ line.
            Tells (λ old new. Leaves old new line (port ∷ [])) (told self.old) (told self.new)) }
        ensures stays { OnErr result (told self.new ≡ told self.old) }
        ensures out { lines_out self.new ≡ out_dialed result (lines_out self.old) }
        ensures cause { HasCause (fault_count self.old) (fault_count self.new) result };

    /// Takes back a line whose session has ended. Takes no memory.
    fn give_back(&mut self, line: Self::Line)
        requires { 0 < lines_out self.old }
        ensures returned { Tells (λ old new. new ≡ after_return line old) (told self.old)
            (told self.new) }
        ensures out { lines_out self.new + 1 ≡ lines_out self.old }
        ensures count { fault_count self.new ≡ fault_count self.old };
}
