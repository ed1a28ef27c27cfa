use std::alloc::AllocError;

/// The outside failed.
#[derive(Clone, Copy, Debug, PartialEq, Eq)]
pub struct Failed;

/// Why a put did not take its whole piece.
#[derive(Clone, Copy, Debug, PartialEq, Eq)]
pub enum PutFault {
    /// The outside failed; only where the count of faults rose.
    Failed,
    /// Want of memory.
    Memory,
}

impl From<Failed> for PutFault {
    ghost use Rattle.outside.specs.declared.fault.PutFault.TheVariants as fault;
    ghost use Rattle.std.specs.Prelude.{◌≡◌};

    ghost from_gives = { λ _ e. e ≡ fault.Failed };

    fn from(_: Failed) -> PutFault {
        PutFault::Failed
    }
}

impl From<AllocError> for PutFault {
    ghost use Rattle.outside.specs.declared.fault.PutFault.TheVariants as fault;
    ghost use Rattle.std.specs.Prelude.{◌≡◌};

    ghost from_gives = { λ _ e. e ≡ fault.Memory };

    fn from(_: AllocError) -> PutFault {
        PutFault::Memory
    }
}

/// Why a keeper did not do what was asked.
#[derive(Clone, Copy, Debug, PartialEq, Eq)]
pub enum KeepFault {
    /// The outside failed; only where the count of faults rose.
    Failed,
    /// Want of memory.
    Memory,
}

impl From<Failed> for KeepFault {
    ghost use Rattle.outside.specs.declared.fault.KeepFault.TheVariants as fault;
    ghost use Rattle.std.specs.Prelude.{◌≡◌};

    ghost from_gives = { λ _ e. e ≡ fault.Failed };

    fn from(_: Failed) -> KeepFault {
        KeepFault::Failed
    }
}

impl From<AllocError> for KeepFault {
    ghost use Rattle.outside.specs.declared.fault.KeepFault.TheVariants as fault;
    ghost use Rattle.std.specs.Prelude.{◌≡◌};

    ghost from_gives = { λ _ e. e ≡ fault.Memory };

    fn from(_: AllocError) -> KeepFault {
        KeepFault::Memory
    }
}
