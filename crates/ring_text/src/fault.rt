use std::alloc::{AllocError, AllocFailed};

/// Why a key ring was not read.
#[derive(Clone, Copy, Debug, PartialEq, Eq)]
pub enum RingFault {
    /// The bytes are no JSON, or what they say breaks a rule of key rings.
    Bad,
    /// Want of memory.
    Memory,
}

impl From<AllocError> for RingFault {
    ghost use Rattle.ring_text.specs.declared.fault.RingFault.TheVariants.{Memory};
    ghost use Rattle.std.specs.Prelude.{◌≡◌};

    ghost from_gives = { λ _ e. e ≡ Memory };

    fn from(_: AllocError) -> RingFault {
        RingFault::Memory
    }
}

impl<T: Drop> From<AllocFailed<T>> for RingFault {
    ghost use Rattle.ring_text.specs.declared.fault.RingFault.TheVariants.{Memory};
    ghost use Rattle.std.specs.Prelude.{◌≡◌};

    ghost from_gives = { λ _ e. e ≡ Memory };

    fn from(_: AllocFailed<T>) -> RingFault {
        RingFault::Memory
    }
}
