ghost use Rattle.std.specs.Prelude.{◌≡◌};
ghost use Rattle.keys_11770_2.specs.KStates.{plays_k, state_of};

use crate::k3::{K3A, K3B};
use crate::k4::{K4A, K4B};
use crate::k5::{K5A, K5B};
use crate::k6::{K6A, K6B};
use mech_rows::{Mech, Refusal, Ring, Role, RunHead, Stated, Texts};
use outside::Draws;
use seal_trait::Sealer;
use std::alloc::Global;
use term_values::{OutOfMemory, Stamp};
use text_hooks::{Delivery, NoteList, Phase, Reply, RoleState, Taken};

/// A state of A or B in a key mechanism.
#[derive(Clone, PartialEq, Eq, Drop)]
pub enum KState {
    /// A in K3.
    K3A(K3A),
    /// B in K3.
    K3B(K3B),
    /// A in K4.
    K4A(K4A),
    /// B in K4.
    K4B(K4B),
    /// A in K5.
    K5A(K5A),
    /// B in K5.
    K5B(K5B),
    /// A in K6.
    K6A(K6A),
    /// B in K6.
    K6B(K6B),
}

impl Stated for KState {
    ghost use Rattle.keys_11770_2.specs.KStates.{state_of as state_of_k};

    ghost state_of = { state_of_k };
}

/// The same call of whichever role's state it is.
macro_rules! each {
    ($value:expr, $state:ident => $call:expr) => {
        match $value {
            KState::K3A($state) => $call,
            KState::K3B($state) => $call,
            KState::K4A($state) => $call,
            KState::K4B($state) => $call,
            KState::K5A($state) => $call,
            KState::K5B($state) => $call,
            KState::K6A($state) => $call,
            KState::K6B($state) => $call,
        }
    };
}

/// A state of one role among those of all roles.
trait OneOf: RoleState {
    /// The same run. Takes no memory.
    fn among(self) -> KState
        ensures same { state_of result ≡ Self.state_of self };
}

impl OneOf for K3A {
    fn among(self) -> KState {
        KState::K3A(self)
    }
}

impl OneOf for K3B {
    fn among(self) -> KState {
        KState::K3B(self)
    }
}

impl OneOf for K4A {
    fn among(self) -> KState {
        KState::K4A(self)
    }
}

impl OneOf for K4B {
    fn among(self) -> KState {
        KState::K4B(self)
    }
}

impl OneOf for K5A {
    fn among(self) -> KState {
        KState::K5A(self)
    }
}

impl OneOf for K5B {
    fn among(self) -> KState {
        KState::K5B(self)
    }
}

impl OneOf for K6A {
    fn among(self) -> KState {
        KState::K6A(self)
    }
}

impl OneOf for K6B {
    fn among(self) -> KState {
        KState::K6B(self)
    }
}

/// What a state of one role took.
fn taken<T: OneOf>(taken: Taken<T>) -> Taken<KState>
    ensures after { state_of result.after ≡ T.state_of taken.after }
    ensures opened { result.opened ≡ taken.opened }
    ensures got { result.got ≡ taken.got }
{
    Taken {
        after: taken.after.among(),
        opened: taken.opened,
        got: taken.got,
    }
}

/// What a state of one role says.
fn replied<T: OneOf>(reply: Reply<T>) -> Reply<KState>
    ensures after { state_of result.after ≡ T.state_of reply.after }
    ensures message { result.message ≡ reply.message }
    ensures sealed { result.sealed ≡ reply.sealed }
{
    Reply {
        after: reply.after.among(),
        message: reply.message,
        sealed: reply.sealed,
    }
}

impl RoleState for KState {
    ghost plays = { plays_k };

    fn begin(alloc: Global, head: &RunHead, texts: &Texts) -> Result<KState, OutOfMemory> {
        match (head.mech, head.role) {
            (Mech::K3, Role::A) => Ok(K3A::begin(alloc, head, texts)?.among()),
            (Mech::K3, Role::B) => Ok(K3B::begin(alloc, head, texts)?.among()),
            (Mech::K4, Role::A) => Ok(K4A::begin(alloc, head, texts)?.among()),
            (Mech::K4, Role::B) => Ok(K4B::begin(alloc, head, texts)?.among()),
            (Mech::K5, Role::A) => Ok(K5A::begin(alloc, head, texts)?.among()),
            (Mech::K5, Role::B) => Ok(K5B::begin(alloc, head, texts)?.among()),
            (Mech::K6, Role::A) => Ok(K6A::begin(alloc, head, texts)?.among()),
            (Mech::K6, Role::B) => Ok(K6B::begin(alloc, head, texts)?.among()),
            _ => unreachable!(),
        }
    }

    fn head(&self) -> RunHead {
        each!(self, state => state.head())
    }

    fn copy(&self, alloc: Global) -> Result<KState, OutOfMemory> {
        each!(self, state => Ok(state.copy(alloc)?.among()))
    }

    fn same(&self, other: &KState) -> bool {
        match (self, other) {
            (KState::K3A(one), KState::K3A(two)) => one.same(two),
            (KState::K3B(one), KState::K3B(two)) => one.same(two),
            (KState::K4A(one), KState::K4A(two)) => one.same(two),
            (KState::K4B(one), KState::K4B(two)) => one.same(two),
            (KState::K5A(one), KState::K5A(two)) => one.same(two),
            (KState::K5B(one), KState::K5B(two)) => one.same(two),
            (KState::K6A(one), KState::K6A(two)) => one.same(two),
            (KState::K6B(one), KState::K6B(two)) => one.same(two),
            _ => false,
        }
    }

    fn note(&self, alloc: Global, notes: &mut NoteList) -> Result<(), OutOfMemory> {
        each!(self, state => state.note(alloc, notes))
    }

    fn phase(&self) -> Phase {
        each!(self, state => state.phase())
    }

    fn read<S: Sealer>(&self, delivery: &Delivery<S>) -> Result<Taken<KState>, Refusal> {
        each!(self, state => Ok(taken(state.read(delivery)?)))
    }

    fn speak<S: Sealer, D: Draws>(
        &self,
        alloc: Global,
        sealer: &S,
        ring: &Ring,
        draws: &mut D,
        stamp: Option<Stamp>,
    ) -> Result<Reply<KState>, Refusal> {
        each!(self, state => Ok(replied(state.speak(alloc, sealer, ring, draws, stamp)?)))
    }
}
