ghost use Rattle.std.specs.Prelude.{◌≡◌};
ghost use Rattle.roles_9798_2.specs.EStates.{plays_e, state_of};

use crate::e1::{E1A, E1B};
use crate::e2::{E2A, E2B};
use crate::e3::{E3A, E3B};
use crate::e4::{E4A, E4B};
use mech_rows::{Mech, Refusal, Ring, Role, RunHead, Stated, Texts};
use outside::Draws;
use seal_trait::Sealer;
use std::alloc::Global;
use term_values::{OutOfMemory, Stamp};
use text_hooks::{Delivery, NoteList, Phase, Reply, RoleState, Taken};

/// A state of A or B in a mechanism by encipherment.
#[derive(Clone, PartialEq, Eq, Drop)]
pub enum EState {
    /// A in E1.
    E1A(E1A),
    /// B in E1.
    E1B(E1B),
    /// A in E2.
    E2A(E2A),
    /// B in E2.
    E2B(E2B),
    /// A in E3.
    E3A(E3A),
    /// B in E3.
    E3B(E3B),
    /// A in E4.
    E4A(E4A),
    /// B in E4.
    E4B(E4B),
}

impl Stated for EState {
    ghost use Rattle.roles_9798_2.specs.EStates.{state_of as state_of_e};

    ghost state_of = { state_of_e };
}

/// The same call of whichever role's state it is.
macro_rules! each {
    ($value:expr, $state:ident => $call:expr) => {
        match $value {
            EState::E1A($state) => $call,
            EState::E1B($state) => $call,
            EState::E2A($state) => $call,
            EState::E2B($state) => $call,
            EState::E3A($state) => $call,
            EState::E3B($state) => $call,
            EState::E4A($state) => $call,
            EState::E4B($state) => $call,
        }
    };
}

/// A state of one role among those of all roles.
trait OneOf: RoleState {
    /// The same run. Takes no memory.
    fn among(self) -> EState
        ensures same { state_of result ≡ Self.state_of self };
}

impl OneOf for E1A {
    fn among(self) -> EState {
        EState::E1A(self)
    }
}

impl OneOf for E1B {
    fn among(self) -> EState {
        EState::E1B(self)
    }
}

impl OneOf for E2A {
    fn among(self) -> EState {
        EState::E2A(self)
    }
}

impl OneOf for E2B {
    fn among(self) -> EState {
        EState::E2B(self)
    }
}

impl OneOf for E3A {
    fn among(self) -> EState {
        EState::E3A(self)
    }
}

impl OneOf for E3B {
    fn among(self) -> EState {
        EState::E3B(self)
    }
}

impl OneOf for E4A {
    fn among(self) -> EState {
        EState::E4A(self)
    }
}

impl OneOf for E4B {
    fn among(self) -> EState {
        EState::E4B(self)
    }
}

/// What a state of one role took.
fn taken<T: OneOf>(taken: Taken<T>) -> Taken<EState>
    ensures after { state_of result.after ≡ T.state_of taken.after }
    ensures opened { result.opened ≡ taken.opened }
    ensures got { result.got ≡ taken.got }
{
    Taken {
        after: taken.after.among(),
        opened: taken.opened,
        got: taken.got,
    }
}

/// What a state of one role says.
fn replied<T: OneOf>(reply: Reply<T>) -> Reply<EState>
    ensures after { state_of result.after ≡ T.state_of reply.after }
    ensures message { result.message ≡ reply.message }
    ensures sealed { result.sealed ≡ reply.sealed }
{
    Reply {
        after: reply.after.among(),
        message: reply.message,
        sealed: reply.sealed,
    }
}

impl RoleState for EState {
    ghost plays = { plays_e };

    fn begin(alloc: Global, head: &RunHead, texts: &Texts) -> Result<EState, OutOfMemory> {
        match (head.mech, head.role) {
            (Mech::E1, Role::A) => Ok(E1A::begin(alloc, head, texts)?.among()),
            (Mech::E1, Role::B) => Ok(E1B::begin(alloc, head, texts)?.among()),
            (Mech::E2, Role::A) => Ok(E2A::begin(alloc, head, texts)?.among()),
            (Mech::E2, Role::B) => Ok(E2B::begin(alloc, head, texts)?.among()),
            (Mech::E3, Role::A) => Ok(E3A::begin(alloc, head, texts)?.among()),
            (Mech::E3, Role::B) => Ok(E3B::begin(alloc, head, texts)?.among()),
            (Mech::E4, Role::A) => Ok(E4A::begin(alloc, head, texts)?.among()),
            (Mech::E4, Role::B) => Ok(E4B::begin(alloc, head, texts)?.among()),
            _ => unreachable!(),
        }
    }

    fn head(&self) -> RunHead {
        each!(self, state => state.head())
    }

    fn copy(&self, alloc: Global) -> Result<EState, OutOfMemory> {
        each!(self, state => Ok(state.copy(alloc)?.among()))
    }

    fn same(&self, other: &EState) -> bool {
        match (self, other) {
            (EState::E1A(one), EState::E1A(two)) => one.same(two),
            (EState::E1B(one), EState::E1B(two)) => one.same(two),
            (EState::E2A(one), EState::E2A(two)) => one.same(two),
            (EState::E2B(one), EState::E2B(two)) => one.same(two),
            (EState::E3A(one), EState::E3A(two)) => one.same(two),
            (EState::E3B(one), EState::E3B(two)) => one.same(two),
            (EState::E4A(one), EState::E4A(two)) => one.same(two),
            (EState::E4B(one), EState::E4B(two)) => one.same(two),
            _ => false,
        }
    }

    fn note(&self, alloc: Global, notes: &mut NoteList) -> Result<(), OutOfMemory> {
        each!(self, state => state.note(alloc, notes))
    }

    fn phase(&self) -> Phase {
        each!(self, state => state.phase())
    }

    fn read<S: Sealer>(&self, delivery: &Delivery<S>) -> Result<Taken<EState>, Refusal> {
        each!(self, state => Ok(taken(state.read(delivery)?)))
    }

    fn speak<S: Sealer, D: Draws>(
        &self,
        alloc: Global,
        sealer: &S,
        ring: &Ring,
        draws: &mut D,
        stamp: Option<Stamp>,
    ) -> Result<Reply<EState>, Refusal> {
        each!(self, state => Ok(replied(state.speak(alloc, sealer, ring, draws, stamp)?)))
    }
}
