ghost use Rattle.std.specs.Prelude.{◌≡◌};
ghost use Rattle.third_party.specs.PStates.{plays_p, state_of};

use crate::nonces::NoncesP;
use crate::stamps::StampsP;
use mech_rows::{Mech, Refusal, Ring, RunHead, Stated, Texts};
use outside::Draws;
use seal_trait::Sealer;
use std::alloc::Global;
use term_values::{OutOfMemory, Stamp};
use text_hooks::{Delivery, NoteList, Phase, Reply, RoleState, Taken};

/// A state of the third party.
#[derive(Clone, PartialEq, Eq, Drop)]
pub enum PState {
    /// In E5 or K8.
    ByStamps(StampsP),
    /// In E6 or K9.
    ByNonces(NoncesP),
}

impl Stated for PState {
    ghost use Rattle.third_party.specs.PStates.{state_of as state_of_p};

    ghost state_of = { state_of_p };
}

/// The same call of whichever shape's state it is.
macro_rules! each {
    ($value:expr, $state:ident => $call:expr) => {
        match $value {
            PState::ByStamps($state) => $call,
            PState::ByNonces($state) => $call,
        }
    };
}

/// A state of one shape among those of both.
trait OneOf: RoleState {
    /// The same run. Takes no memory.
    fn among(self) -> PState
        ensures same { state_of result ≡ Self.state_of self };
}

impl OneOf for StampsP {
    fn among(self) -> PState {
        PState::ByStamps(self)
    }
}

impl OneOf for NoncesP {
    fn among(self) -> PState {
        PState::ByNonces(self)
    }
}

/// What a state of one shape took.
fn taken<T: OneOf>(taken: Taken<T>) -> Taken<PState>
    ensures after { state_of result.after ≡ T.state_of taken.after }
    ensures opened { result.opened ≡ taken.opened }
    ensures got { result.got ≡ taken.got }
{
    Taken {
        after: taken.after.among(),
        opened: taken.opened,
        got: taken.got,
    }
}

/// What a state of one shape says.
fn replied<T: OneOf>(reply: Reply<T>) -> Reply<PState>
    ensures after { state_of result.after ≡ T.state_of reply.after }
    ensures message { result.message ≡ reply.message }
    ensures sealed { result.sealed ≡ reply.sealed }
{
    Reply {
        after: reply.after.among(),
        message: reply.message,
        sealed: reply.sealed,
    }
}

impl RoleState for PState {
    ghost plays = { plays_p };

    fn begin(alloc: Global, head: &RunHead, texts: &Texts) -> Result<PState, OutOfMemory> {
        match head.mech {
            Mech::E5 | Mech::K8 => Ok(StampsP::begin(alloc, head, texts)?.among()),
            Mech::E6 | Mech::K9 => Ok(NoncesP::begin(alloc, head, texts)?.among()),
            _ => unreachable!(),
        }
    }

    fn head(&self) -> RunHead {
        each!(self, state => state.head())
    }

    fn copy(&self, alloc: Global) -> Result<PState, OutOfMemory> {
        each!(self, state => Ok(state.copy(alloc)?.among()))
    }

    fn same(&self, other: &PState) -> bool {
        match (self, other) {
            (PState::ByStamps(one), PState::ByStamps(two)) => one.same(two),
            (PState::ByNonces(one), PState::ByNonces(two)) => one.same(two),
            _ => false,
        }
    }

    fn note(&self, alloc: Global, notes: &mut NoteList) -> Result<(), OutOfMemory> {
        each!(self, state => state.note(alloc, notes))
    }

    fn phase(&self) -> Phase {
        each!(self, state => state.phase())
    }

    fn read<S: Sealer>(&self, delivery: &Delivery<S>) -> Result<Taken<PState>, Refusal> {
        each!(self, state => Ok(taken(state.read(delivery)?)))
    }

    fn speak<S: Sealer, D: Draws>(
        &self,
        alloc: Global,
        sealer: &S,
        ring: &Ring,
        draws: &mut D,
        stamp: Option<Stamp>,
    ) -> Result<Reply<PState>, Refusal> {
        each!(self, state => Ok(replied(state.speak(alloc, sealer, ring, draws, stamp)?)))
    }
}
