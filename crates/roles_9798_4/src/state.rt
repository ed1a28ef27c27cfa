ghost use Rattle.std.specs.Prelude.{◌≡◌};
ghost use Rattle.roles_9798_4.specs.CStates.{plays_c, state_of};

use crate::c1::{C1A, C1B};
use crate::c2::{C2A, C2B};
use crate::c3::{C3A, C3B};
use crate::c4::{C4A, C4B};
use mech_rows::{Mech, Refusal, Ring, Role, RunHead, Stated, Texts};
use outside::Draws;
use seal_trait::Sealer;
use std::alloc::Global;
use term_values::{OutOfMemory, Stamp};
use text_hooks::{Delivery, NoteList, Phase, Reply, RoleState, Taken};

/// A state of A or B in a mechanism by checks.
#[derive(Clone, PartialEq, Eq, Drop)]
pub enum CState {
    /// A in C1.
    C1A(C1A),
    /// B in C1.
    C1B(C1B),
    /// A in C2.
    C2A(C2A),
    /// B in C2.
    C2B(C2B),
    /// A in C3.
    C3A(C3A),
    /// B in C3.
    C3B(C3B),
    /// A in C4.
    C4A(C4A),
    /// B in C4.
    C4B(C4B),
}

impl Stated for CState {
    ghost use Rattle.roles_9798_4.specs.CStates.{state_of as state_of_c};

    ghost state_of = { state_of_c };
}

/// The same call of whichever role's state it is.
macro_rules! each {
    ($value:expr, $state:ident => $call:expr) => {
        match $value {
            CState::C1A($state) => $call,
            CState::C1B($state) => $call,
            CState::C2A($state) => $call,
            CState::C2B($state) => $call,
            CState::C3A($state) => $call,
            CState::C3B($state) => $call,
            CState::C4A($state) => $call,
            CState::C4B($state) => $call,
        }
    };
}

/// A state of one role among those of all roles.
trait OneOf: RoleState {
    /// The same run. Takes no memory.
    fn among(self) -> CState
        ensures same { state_of result ≡ Self.state_of self };
}

impl OneOf for C1A {
    fn among(self) -> CState {
        CState::C1A(self)
    }
}

impl OneOf for C1B {
    fn among(self) -> CState {
        CState::C1B(self)
    }
}

impl OneOf for C2A {
    fn among(self) -> CState {
        CState::C2A(self)
    }
}

impl OneOf for C2B {
    fn among(self) -> CState {
        CState::C2B(self)
    }
}

impl OneOf for C3A {
    fn among(self) -> CState {
        CState::C3A(self)
    }
}

impl OneOf for C3B {
    fn among(self) -> CState {
        CState::C3B(self)
    }
}

impl OneOf for C4A {
    fn among(self) -> CState {
        CState::C4A(self)
    }
}

impl OneOf for C4B {
    fn among(self) -> CState {
        CState::C4B(self)
    }
}

/// What a state of one role took.
fn taken<T: OneOf>(taken: Taken<T>) -> Taken<CState>
    ensures after { state_of result.after ≡ T.state_of taken.after }
    ensures opened { result.opened ≡ taken.opened }
    ensures got { result.got ≡ taken.got }
{
    Taken {
        after: taken.after.among(),
        opened: taken.opened,
        got: taken.got,
    }
}

/// What a state of one role says.
fn replied<T: OneOf>(reply: Reply<T>) -> Reply<CState>
    ensures after { state_of result.after ≡ T.state_of reply.after }
    ensures message { result.message ≡ reply.message }
    ensures sealed { result.sealed ≡ reply.sealed }
{
    Reply {
        after: reply.after.among(),
        message: reply.message,
        sealed: reply.sealed,
    }
}

impl RoleState for CState {
    ghost plays = { plays_c };

    fn begin(alloc: Global, head: &RunHead, texts: &Texts) -> Result<CState, OutOfMemory> {
        match (head.mech, head.role) {
            (Mech::C1, Role::A) => Ok(C1A::begin(alloc, head, texts)?.among()),
            (Mech::C1, Role::B) => Ok(C1B::begin(alloc, head, texts)?.among()),
            (Mech::C2, Role::A) => Ok(C2A::begin(alloc, head, texts)?.among()),
            (Mech::C2, Role::B) => Ok(C2B::begin(alloc, head, texts)?.among()),
            (Mech::C3, Role::A) => Ok(C3A::begin(alloc, head, texts)?.among()),
            (Mech::C3, Role::B) => Ok(C3B::begin(alloc, head, texts)?.among()),
            (Mech::C4, Role::A) => Ok(C4A::begin(alloc, head, texts)?.among()),
            (Mech::C4, Role::B) => Ok(C4B::begin(alloc, head, texts)?.among()),
            _ => unreachable!(),
        }
    }

    fn head(&self) -> RunHead {
        each!(self, state => state.head())
    }

    fn copy(&self, alloc: Global) -> Result<CState, OutOfMemory> {
        each!(self, state => Ok(state.copy(alloc)?.among()))
    }

    fn same(&self, other: &CState) -> bool {
        match (self, other) {
            (CState::C1A(one), CState::C1A(two)) => one.same(two),
            (CState::C1B(one), CState::C1B(two)) => one.same(two),
            (CState::C2A(one), CState::C2A(two)) => one.same(two),
            (CState::C2B(one), CState::C2B(two)) => one.same(two),
            (CState::C3A(one), CState::C3A(two)) => one.same(two),
            (CState::C3B(one), CState::C3B(two)) => one.same(two),
            (CState::C4A(one), CState::C4A(two)) => one.same(two),
            (CState::C4B(one), CState::C4B(two)) => one.same(two),
            _ => false,
        }
    }

    fn note(&self, alloc: Global, notes: &mut NoteList) -> Result<(), OutOfMemory> {
        each!(self, state => state.note(alloc, notes))
    }

    fn phase(&self) -> Phase {
        each!(self, state => state.phase())
    }

    fn read<S: Sealer>(&self, delivery: &Delivery<S>) -> Result<Taken<CState>, Refusal> {
        each!(self, state => Ok(taken(state.read(delivery)?)))
    }

    fn speak<S: Sealer, D: Draws>(
        &self,
        alloc: Global,
        sealer: &S,
        ring: &Ring,
        draws: &mut D,
        stamp: Option<Stamp>,
    ) -> Result<Reply<CState>, Refusal> {
        each!(self, state => Ok(replied(state.speak(alloc, sealer, ring, draws, stamp)?)))
    }
}
