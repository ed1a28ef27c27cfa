ghost use Rattle.std.specs.Prelude.{◌≡◌};
ghost use Rattle.mech_rows.specs.Codes.{code_of};
ghost use Rattle.mech_rows.specs.declared.refusal.Refusal.TheVariants.{Memory};

use crate::kinds::Slot;
use std::alloc::AllocFailed;
use term_values::{OutOfMemory, Stamp, Why};

/// Why a delivery, an opening or another call of the product was refused.
///
/// A `part` is 0 where the clear items of a message are at fault, and otherwise counts its protected items from 1.
#[derive(Clone, Copy, Debug, PartialEq, Eq)]
pub enum Refusal {
    /// There never was a run of that number.
    UnknownRun,
    /// The run is over: done, dropped, or ended by a restart.
    EndedRun,
    /// The bytes are no spelling of one term.
    Malformed { place: usize, why: Why },
    /// The message has another clear tag than the pass that the run waits for, or the run waits for none.
    WrongPass,
    /// A protected item that doesn't open under the key of its row, or a check that fails.
    Unopened { part: u8 },
    /// Too many or too few items, another body tag, an item of another kind, or an item to hand on that is spelled in more than 4,096 bytes.
    WrongShape { part: u8 },
    /// Another name than the run's.
    WrongNames { part: u8 },
    /// A slot shows another value than the run knows; the first such slot in the order of the message.
    WrongValue { part: u8, slot: Slot },
    /// The stamp isn't of the kind that this party takes.
    WrongStampKind { slot: Slot },
    /// The time stamp lies more than the window ahead of `at`, in milliseconds.
    Early { slot: Slot, at: u64 },
    /// The time stamp lies more than the window behind `at`, in milliseconds; or the sequence number 64 or more behind the greatest accepted one, `at`.
    Late { slot: Slot, at: u64 },
    /// The stamp was accepted before.
    Repeated { stamp: Stamp },
    /// Of that sender and tag `count` time stamps are live already, 4,096 or more.
    StoreFull { count: u32 },
    /// The text rules refuse the text of the slot.
    TextRefused { slot: Slot },
    /// In a script: a term that the attacker has no derivation for.
    NotDerivable,
    /// In a script: a nonce or a part of the term isn't drawn yet.
    Unborn,
    /// The run isn't done, or has no key to reveal.
    NoSecret,
    /// A name of the head isn't known.
    UnknownParty,
    /// A or B is a third party, or the third party is none.
    WrongKind,
    /// A is B.
    SelfPeer,
    /// The node shares no long-term part with a party whose part this role needs.
    NoKey,
    /// The node has 1,024 open runs, or has opened 4,294,967,295.
    TableFull,
    /// The issuer has no further stamp.
    StampsSpent,
    /// A draw failed.
    DrawFault,
    /// The run has moved on since the step was made; the next pass that the step was made for, and the one that holds.
    Moved { made: u8, held: u8 },
    /// The keeper of stamps failed.
    KeeperFault,
    /// Want of memory.
    Memory,
}

impl Refusal {
    /// The number by which it is printed. Takes no memory.
    pub fn code(&self) -> u8
        ensures code { result ≡ code_of self.now }
    {
        match self {
            Refusal::UnknownRun => 1,
            Refusal::EndedRun => 2,
            Refusal::Malformed { .. } => 3,
            Refusal::WrongPass => 4,
            Refusal::Unopened { .. } => 5,
            Refusal::WrongShape { .. } => 6,
            Refusal::WrongNames { .. } => 7,
            Refusal::WrongValue { .. } => 8,
            Refusal::WrongStampKind { .. } => 9,
            Refusal::Early { .. } => 10,
            Refusal::Late { .. } => 11,
            Refusal::Repeated { .. } => 12,
            Refusal::StoreFull { .. } => 13,
            Refusal::TextRefused { .. } => 14,
            Refusal::NotDerivable => 20,
            Refusal::Unborn => 21,
            Refusal::NoSecret => 22,
            Refusal::UnknownParty => 30,
            Refusal::WrongKind => 31,
            Refusal::SelfPeer => 32,
            Refusal::NoKey => 33,
            Refusal::TableFull => 34,
            Refusal::StampsSpent => 35,
            Refusal::DrawFault => 36,
            Refusal::Moved { .. } => 37,
            Refusal::KeeperFault => 38,
            Refusal::Memory => 40,
        }
    }
}

impl From<OutOfMemory> for Refusal {
    ghost from_gives = { λ _ e. e ≡ Memory };

    fn from(_e: OutOfMemory) -> Refusal {
        Refusal::Memory
    }
}

impl<T: Drop> From<AllocFailed<T>> for Refusal {
    ghost from_gives = { λ _ e. e ≡ Memory };

    fn from(_e: AllocFailed<T>) -> Refusal {
        Refusal::Memory
    }
}
