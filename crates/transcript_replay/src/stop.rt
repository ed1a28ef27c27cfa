use crate::reason::Reason;
use outside::{Failed, PutFault};
use std::alloc::{AllocError, AllocFailed};

/// Why the reading of the input ended without it.
#[derive(Clone, Copy, Debug, PartialEq, Eq)]
pub(crate) enum InputFault {
    /// A read failed.
    Failed,
    /// The input is longer than a script may be.
    Long,
    /// Want of memory.
    Memory,
}

impl From<Failed> for InputFault {
    ghost use Rattle.transcript_replay.specs.declared.stop.InputFault.TheVariants as fault;
    ghost use Rattle.std.specs.Prelude.{◌≡◌};

    ghost from_gives = { λ _ e. e ≡ fault.Failed };

    fn from(_: Failed) -> InputFault {
        InputFault::Failed
    }
}

impl From<AllocError> for InputFault {
    ghost use Rattle.transcript_replay.specs.declared.stop.InputFault.TheVariants as fault;
    ghost use Rattle.std.specs.Prelude.{◌≡◌};

    ghost from_gives = { λ _ e. e ≡ fault.Memory };

    fn from(_: AllocError) -> InputFault {
        InputFault::Memory
    }
}

/// Why a line has no answer.
#[derive(Clone, Copy, Debug, PartialEq, Eq)]
pub(crate) enum LineFault {
    /// The line is bad.
    Bad(Reason),
    /// Want of memory.
    Memory,
}

impl From<AllocError> for LineFault {
    ghost use Rattle.transcript_replay.specs.declared.stop.LineFault.TheVariants as fault;
    ghost use Rattle.std.specs.Prelude.{◌≡◌};

    ghost from_gives = { λ _ e. e ≡ fault.Memory };

    fn from(_: AllocError) -> LineFault {
        LineFault::Memory
    }
}

impl<T: Drop> From<AllocFailed<T>> for LineFault {
    ghost use Rattle.transcript_replay.specs.declared.stop.LineFault.TheVariants as fault;
    ghost use Rattle.std.specs.Prelude.{◌≡◌};

    ghost from_gives = { λ _ e. e ≡ fault.Memory };

    fn from(_: AllocFailed<T>) -> LineFault {
        LineFault::Memory
    }
}

/// Why a script was not played to its end.
#[derive(Clone, Copy, Debug, PartialEq, Eq)]
pub(crate) enum Stop {
    /// A line is bad.
    Bad,
    /// A write failed.
    Failed,
    /// Want of memory.
    Memory,
}

impl From<PutFault> for Stop {
    ghost use Rattle.transcript_replay.specs.Stops.{stop_of};
    ghost use Rattle.std.specs.Prelude.{◌≡◌};

    ghost from_gives = { λ f e. e ≡ stop_of f };

    fn from(fault: PutFault) -> Stop {
        match fault {
            PutFault::Failed => Stop::Failed,
            PutFault::Memory => Stop::Memory,
        }
    }
}

impl From<AllocError> for Stop {
    ghost use Rattle.transcript_replay.specs.declared.stop.Stop.TheVariants as stop;
    ghost use Rattle.std.specs.Prelude.{◌≡◌};

    ghost from_gives = { λ _ e. e ≡ stop.Memory };

    fn from(_: AllocError) -> Stop {
        Stop::Memory
    }
}

impl<T: Drop> From<AllocFailed<T>> for Stop {
    ghost use Rattle.transcript_replay.specs.declared.stop.Stop.TheVariants as stop;
    ghost use Rattle.std.specs.Prelude.{◌≡◌};

    ghost from_gives = { λ _ e. e ≡ stop.Memory };

    fn from(_: AllocFailed<T>) -> Stop {
        Stop::Memory
    }
}
