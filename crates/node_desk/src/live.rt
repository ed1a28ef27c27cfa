ghost use Rattle.node_desk.specs.Lives.{plays_live};

use mech_rows::{Mech, Refusal, Ring, RunHead, Stated, Texts};
use outside::Draws;
use roles_9798_2::EState;
use roles_9798_4::CState;
use seal_trait::Sealer;
use std::alloc::Global;
use term_values::{OutOfMemory, Stamp};
use text_hooks::{Delivery, NoteList, Phase, Reply, RoleState, Taken};

/// A state of a run that a node may have.
#[derive(Drop)]
pub enum Live {
    /// A run of a mechanism by encipherment.
    E(EState),
    /// A run of a mechanism by checks.
    C(CState),
}

impl Stated for Live {
    ghost use Rattle.node_desk.specs.Lives.{live_state};

    ghost state_of = { live_state };
}

impl RoleState for Live {
    ghost plays = { plays_live };

    fn begin(alloc: Global, head: &RunHead, texts: &Texts) -> Result<Live, OutOfMemory> {
        match head.mech {
            Mech::E1 | Mech::E2 | Mech::E3 | Mech::E4 => {
                Ok(Live::E(EState::begin(alloc, head, texts)?))
            }
            _ => Ok(Live::C(CState::begin(alloc, head, texts)?)),
        }
    }

    fn head(&self) -> RunHead {
        match self {
            Live::E(state) => state.head(),
            Live::C(state) => state.head(),
        }
    }

    fn copy(&self, alloc: Global) -> Result<Live, OutOfMemory> {
        match self {
            Live::E(state) => Ok(Live::E(state.copy(alloc)?)),
            Live::C(state) => Ok(Live::C(state.copy(alloc)?)),
        }
    }

    fn same(&self, other: &Live) -> bool {
        match (self, other) {
            (Live::E(one), Live::E(two)) => one.same(two),
            (Live::C(one), Live::C(two)) => one.same(two),
            _ => false,
        }
    }

    fn note(&self, alloc: Global, notes: &mut NoteList) -> Result<(), OutOfMemory> {
        match self {
            Live::E(state) => state.note(alloc, notes),
            Live::C(state) => state.note(alloc, notes),
        }
    }

    fn phase(&self) -> Phase {
        match self {
            Live::E(state) => state.phase(),
            Live::C(state) => state.phase(),
        }
    }

    fn read<S: Sealer>(&self, delivery: &Delivery<S>) -> Result<Taken<Live>, Refusal> {
        match self {
            Live::E(state) => {
                let taken = state.read(delivery)?;
                Ok(Taken {
                    after: Live::E(taken.after),
                    opened: taken.opened,
                    got: taken.got,
                })
            }
            Live::C(state) => {
                let taken = state.read(delivery)?;
                Ok(Taken {
                    after: Live::C(taken.after),
                    opened: taken.opened,
                    got: taken.got,
                })
            }
        }
    }

    fn speak<S: Sealer, D: Draws>(
        &self,
        alloc: Global,
        sealer: &S,
        ring: &Ring,
        draws: &mut D,
        stamp: Option<Stamp>,
    ) -> Result<Reply<Live>, Refusal> {
        match self {
            Live::E(state) => {
                let reply = state.speak(alloc, sealer, ring, draws, stamp)?;
                Ok(Reply {
                    after: Live::E(reply.after),
                    message: reply.message,
                    sealed: reply.sealed,
                })
            }
            Live::C(state) => {
                let reply = state.speak(alloc, sealer, ring, draws, stamp)?;
                Ok(Reply {
                    after: Live::C(reply.after),
                    message: reply.message,
                    sealed: reply.sealed,
                })
            }
        }
    }
}
