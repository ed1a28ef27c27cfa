use crate::reading::{Malformed, ReadFault};
use std::alloc::{AllocError, AllocFailed};

/// Why a line, or a term, was not read.
#[derive(Clone, Copy, Debug, PartialEq, Eq)]
pub enum BadLine {
    /// What is written says nothing: it breaks the notation, or says a term that has no spelling.
    Grammar,
    /// Only the messages that it points to are at fault: an `@` points past those sent, or past an item's tuple.
    Reference,
    /// Want of memory.
    Memory,
}

impl From<AllocError> for BadLine {
    ghost use Rattle.script_text.specs.declared.bad.BadLine.TheVariants.{Memory};
    ghost use Rattle.std.specs.Prelude.{◌≡◌};

    ghost from_gives = { λ _ e. e ≡ Memory };

    fn from(_: AllocError) -> BadLine {
        BadLine::Memory
    }
}

impl<T: Drop> From<AllocFailed<T>> for BadLine {
    ghost use Rattle.script_text.specs.declared.bad.BadLine.TheVariants.{Memory};
    ghost use Rattle.std.specs.Prelude.{◌≡◌};

    ghost from_gives = { λ _ e. e ≡ Memory };

    fn from(_: AllocFailed<T>) -> BadLine {
        BadLine::Memory
    }
}

impl From<Malformed> for BadLine {
    ghost use Rattle.script_text.specs.declared.bad.BadLine.TheVariants.{Grammar};
    ghost use Rattle.std.specs.Prelude.{◌≡◌};

    ghost from_gives = { λ _ e. e ≡ Grammar };

    fn from(_: Malformed) -> BadLine {
        BadLine::Grammar
    }
}

impl From<ReadFault> for BadLine {
    ghost use Rattle.script_text.specs.Faults.{bad_of};
    ghost use Rattle.std.specs.Prelude.{◌≡◌};

    ghost from_gives = { λ f e. e ≡ bad_of f };

    fn from(fault: ReadFault) -> BadLine {
        match fault {
            ReadFault::Memory => BadLine::Memory,
            ReadFault::Malformed => BadLine::Grammar,
        }
    }
}
