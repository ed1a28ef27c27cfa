ghost use Rattle.std.specs.Prelude.{◌≡◌};
ghost use Rattle.trio_roles.specs.TrioStates.{plays_in_trio, state_of};

use crate::nonces_a::NoncesA;
use crate::nonces_b::NoncesB;
use crate::stamps_a::StampsA;
use crate::stamps_b::StampsB;
use mech_rows::{Mech, Refusal, Ring, Role, RunHead, Stated, Texts};
use outside::Draws;
use seal_trait::Sealer;
use std::alloc::Global;
use term_values::{OutOfMemory, Stamp};
use text_hooks::{Delivery, NoteList, Phase, Reply, RoleState, Taken};

/// A state of A or B in a mechanism with a third party.
#[derive(Clone, Drop)]
pub enum TrioState {
    /// A in E5 or K8.
    StampsA(StampsA),
    /// B in E5 or K8.
    StampsB(StampsB),
    /// A in E6 or K9.
    NoncesA(NoncesA),
    /// B in E6 or K9.
    NoncesB(NoncesB),
}

impl Stated for TrioState {
    ghost use Rattle.trio_roles.specs.TrioStates.{state_of as state_of_trio};

    ghost state_of = { state_of_trio };
}

/// The same call of whichever role's state it is.
macro_rules! each {
    ($value:expr, $state:ident => $call:expr) => {
        match $value {
            TrioState::StampsA($state) => $call,
            TrioState::StampsB($state) => $call,
            TrioState::NoncesA($state) => $call,
            TrioState::NoncesB($state) => $call,
        }
    };
}

/// A state of one role among those of all four.
trait OneOf: RoleState {
    /// The same run. Takes no memory.
    fn among(self) -> TrioState
        ensures same { state_of result ≡ Self.state_of self };
}

impl OneOf for StampsA {
    fn among(self) -> TrioState {
        TrioState::StampsA(self)
    }
}

impl OneOf for StampsB {
    fn among(self) -> TrioState {
        TrioState::StampsB(self)
    }
}

impl OneOf for NoncesA {
    fn among(self) -> TrioState {
        TrioState::NoncesA(self)
    }
}

impl OneOf for NoncesB {
    fn among(self) -> TrioState {
        TrioState::NoncesB(self)
    }
}

/// What a state of one role took.
fn taken<T: OneOf>(taken: Taken<T>) -> Taken<TrioState>
    ensures after { state_of result.after ≡ T.state_of taken.after }
    ensures opened { result.opened ≡ taken.opened }
    ensures got { result.got ≡ taken.got }
{
    Taken {
        after: taken.after.among(),
        opened: taken.opened,
        got: taken.got,
    }
}

/// What a state of one role says.
fn replied<T: OneOf>(reply: Reply<T>) -> Reply<TrioState>
    ensures after { state_of result.after ≡ T.state_of reply.after }
    ensures message { result.message ≡ reply.message }
    ensures sealed { result.sealed ≡ reply.sealed }
{
    Reply {
        after: reply.after.among(),
        message: reply.message,
        sealed: reply.sealed,
    }
}

impl RoleState for TrioState {
    ghost plays = { plays_in_trio };

    fn begin(alloc: Global, head: &RunHead, texts: &Texts) -> Result<TrioState, OutOfMemory> {
        match (head.mech, head.role) {
            (Mech::E5 | Mech::K8, Role::A) => Ok(StampsA::begin(alloc, head, texts)?.among()),
            (Mech::E5 | Mech::K8, Role::B) => Ok(StampsB::begin(alloc, head, texts)?.among()),
            (Mech::E6 | Mech::K9, Role::A) => Ok(NoncesA::begin(alloc, head, texts)?.among()),
            (Mech::E6 | Mech::K9, Role::B) => Ok(NoncesB::begin(alloc, head, texts)?.among()),
            _ => unreachable!(),
        }
    }

    fn head(&self) -> RunHead {
        each!(self, state => state.head())
    }

    fn copy(&self, alloc: Global) -> Result<TrioState, OutOfMemory> {
        each!(self, state => Ok(state.copy(alloc)?.among()))
    }

    fn same(&self, other: &TrioState) -> bool {
        match (self, other) {
            (TrioState::StampsA(one), TrioState::StampsA(two)) => one.same(two),
            (TrioState::StampsB(one), TrioState::StampsB(two)) => one.same(two),
            (TrioState::NoncesA(one), TrioState::NoncesA(two)) => one.same(two),
            (TrioState::NoncesB(one), TrioState::NoncesB(two)) => one.same(two),
            _ => false,
        }
    }

    fn note(&self, alloc: Global, notes: &mut NoteList) -> Result<(), OutOfMemory> {
        each!(self, state => state.note(alloc, notes))
    }

    fn phase(&self) -> Phase {
        each!(self, state => state.phase())
    }

    fn read<S: Sealer>(&self, delivery: &Delivery<S>) -> Result<Taken<TrioState>, Refusal> {
        each!(self, state => Ok(taken(state.read(delivery)?)))
    }

    fn speak<S: Sealer, D: Draws>(
        &self,
        alloc: Global,
        sealer: &S,
        ring: &Ring,
        draws: &mut D,
        stamp: Option<Stamp>,
    ) -> Result<Reply<TrioState>, Refusal> {
        each!(self, state => Ok(replied(state.speak(alloc, sealer, ring, draws, stamp)?)))
    }
}
