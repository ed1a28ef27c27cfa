ghost use Rattle.std.specs.Prelude.{[], IfOk, IfErr};
ghost use Rattle.text_hooks.specs.Leading.{Leads, Refuses};
ghost use Rattle.third_party.specs.StampsP.{is_stamps_p, run};
ghost use Rattle.third_party.specs.declared.stamps.Stage.TheVariants.{Start, Heard};

// In E5 and K8.
// Pass 1, A to P: Ra, the name of B, X1.
// Pass 2, P to A: X4, a seal for A of Ra, Fa, X3, a seal for B of Tp, Fa, X2.

use crate::family::in_both;
use crate::pieces::{Share, two_shares};
use crate::words::say_two;
use mech_rows::{Clear, Refusal, Ring, Role, RunHead, Slot, Stated, Texts, Value};
use outside::Draws;
use seal_trait::Sealer;
use std::alloc::Global;
use term_values::{Nonce, OutOfMemory, Part, Stamp, Text};
use text_hooks::{
    Delivery, NoteList, Phase, Reply, RoleState, Shown, SlotValue, Taken, Trio, add, by_stamps,
    draw_part, grown, nonce_at, own_text, read_message, said_with, stamps_tag, take_text, text_at,
    trio_by_stamps,
};

/// The texts that it sends.
#[derive(Clone, PartialEq, Eq, Drop)]
pub struct GivenTexts {
    x2: Text,
    x3: Text,
    x4: Text,
}

impl Shown for GivenTexts {
    ghost use Rattle.third_party.specs.StampsP.{given_texts};

    ghost notes_of = { given_texts };

    fn note(&self, alloc: Global, notes: &mut NoteList) -> Result<(), OutOfMemory> {
        add(notes, Slot::X2, Value::Text(self.x2.copy(alloc)?))?;
        add(notes, Slot::X3, Value::Text(self.x3.copy(alloc)?))?;
        add(notes, Slot::X4, Value::Text(self.x4.copy(alloc)?))
    }
}

/// What the request of A shows.
#[derive(Clone, PartialEq, Eq, Drop)]
pub struct Request {
    ra: Nonce,
    x1: Text,
}

impl Shown for Request {
    ghost use Rattle.third_party.specs.StampsP.{request};

    ghost notes_of = { request };

    fn note(&self, alloc: Global, notes: &mut NoteList) -> Result<(), OutOfMemory> {
        add(notes, Slot::Ra, Value::Nonce(self.ra))?;
        add(notes, Slot::X1, Value::Text(self.x1.copy(alloc)?))
    }
}

/// It has heard the request.
#[derive(Clone, PartialEq, Eq, Drop)]
pub struct RequestHeard {
    own: GivenTexts,
    request: Request,
}

impl Shown for RequestHeard {
    ghost use Rattle.third_party.specs.StampsP.{request_heard};

    ghost notes_of = { request_heard };

    fn note(&self, alloc: Global, notes: &mut NoteList) -> Result<(), OutOfMemory> {
        self.own.note(alloc, notes)?;
        self.request.note(alloc, notes)
    }
}

/// It has given a part of a key to both, with a stamp.
#[derive(Clone, PartialEq, Eq, Drop)]
pub struct PartGiven {
    heard: RequestHeard,
    fa: Part,
    tp: Stamp,
}

impl Shown for PartGiven {
    ghost use Rattle.third_party.specs.StampsP.{part_given};

    ghost notes_of = { part_given };

    fn note(&self, alloc: Global, notes: &mut NoteList) -> Result<(), OutOfMemory> {
        self.heard.note(alloc, notes)?;
        add(notes, Slot::Fa, Value::Part(self.fa))?;
        add(notes, Slot::Tp, Value::Stamp(self.tp))
    }
}

/// How far the third party is.
#[derive(Clone, PartialEq, Eq, Drop)]
pub enum Stage {
    /// It waits for the request.
    Start(GivenTexts),
    /// It has heard the request.
    Heard(RequestHeard),
    /// It has given the part to both.
    Done(PartGiven),
}

/// The third party in E5 and K8.
#[derive(Clone, PartialEq, Eq, Drop)]
pub struct StampsP {
    trio: Trio,
    stage: Stage,
}

impl Stated for StampsP {
    ghost use Rattle.third_party.specs.StampsP.{state_of as state_of_stamps_p};

    ghost state_of = { state_of_stamps_p };
}

/// What the request shows, where it fits.
fn read_request<S: Sealer>(
    delivery: &Delivery<S>,
    trio: &Trio,
    own: &GivenTexts,
) -> Result<Request, Refusal>
    ensures fit { IfOk result (λ r. Leads S.opens S.checks delivery.now
        (run trio.now (Start own.now))
        (run trio.now (Heard (record { own = own.now; request = r }))) [] []) }
    ensures refused { IfErr result
        (Refuses S.opens S.checks delivery.now (run trio.now (Start own.now))) }
{
    in_both!(
        trio.family,
        {
            let clear = [Clear::Slot(Slot::Ra), Clear::NameOfB, Clear::Slot(Slot::X1)];
            let tag = stamps_tag(trio.family, 1, 0);
            let items = read_message(delivery.term, &tag, trio.names.b, &clear, &[])?;
            let x1 = text_at(items, 3);
            let mech = by_stamps(trio.family);
            let x1 = take_text(delivery.alloc, delivery.hook, mech, Slot::X1, x1)?;
            let ra = nonce_at(items, 1);
            Ok(Request { ra, x1 })
        }
    )
}

impl RoleState for StampsP {
    ghost plays = { is_stamps_p };

    fn begin(alloc: Global, head: &RunHead, texts: &Texts) -> Result<StampsP, OutOfMemory> {
        let x2 = own_text(alloc, texts, Slot::X2)?;
        let x3 = own_text(alloc, texts, Slot::X3)?;
        let x4 = own_text(alloc, texts, Slot::X4)?;
        Ok(StampsP {
            trio: trio_by_stamps(head),
            stage: Stage::Start(GivenTexts { x2, x3, x4 }),
        })
    }

    fn head(&self) -> RunHead {
        self.trio.names.head(by_stamps(self.trio.family), Role::P)
    }

    fn copy(&self, _alloc: Global) -> Result<StampsP, OutOfMemory> {
        self.clone()
    }

    fn same(&self, other: &StampsP) -> bool {
        self.trio == other.trio && self.stage == other.stage
    }

    fn note(&self, alloc: Global, notes: &mut NoteList) -> Result<(), OutOfMemory> {
        match &self.stage {
            Stage::Start(own) => own.note(alloc, notes),
            Stage::Heard(known) => known.note(alloc, notes),
            Stage::Done(known) => known.note(alloc, notes),
        }
    }

    fn phase(&self) -> Phase {
        in_both!(
            self.trio.family,
            match &self.stage {
                Stage::Start(_) => Phase::receives(0).with_stamp(),
                Stage::Heard(_) => Phase::sends(1).with_stamp(),
                Stage::Done(_) => Phase::done(4),
            }
        )
    }

    fn read<S: Sealer>(&self, delivery: &Delivery<S>) -> Result<Taken<StampsP>, Refusal> {
        in_both!(
            self.trio.family,
            {
                let Stage::Start(own) = &self.stage else {
                    return Err(Refusal::WrongPass);
                };
                let request = read_request(delivery, &self.trio, own);
                let (own, request) = grown(own, request)?;
                Ok(Taken {
                    after: StampsP {
                        trio: self.trio,
                        stage: Stage::Heard(RequestHeard { own, request }),
                    },
                    opened: Vec::new(delivery.alloc),
                    got: Vec::new(delivery.alloc),
                })
            }
        )
    }

    fn speak<S: Sealer, D: Draws>(
        &self,
        alloc: Global,
        sealer: &S,
        ring: &Ring,
        draws: &mut D,
        stamp: Option<Stamp>,
    ) -> Result<Reply<StampsP>, Refusal> {
        let trio = &self.trio;
        in_both!(
            trio.family,
            {
                let Stage::Heard(known) = &self.stage else {
                    return Err(Refusal::WrongPass);
                };
                let Some(tp) = stamp else { unreachable!() };
                let fa = draw_part(draws)?;
                let for_a = Share {
                    tag: stamps_tag(trio.family, 2, 1),
                    fresh: SlotValue::Nonce(known.request.ra),
                    text: &known.own.x3,
                };
                let for_b = Share {
                    tag: stamps_tag(trio.family, 2, 2),
                    fresh: SlotValue::Stamp(tp),
                    text: &known.own.x2,
                };
                let bodies = two_shares(alloc, ring, &trio.names, fa, &for_a, &for_b)?;
                let head = stamps_tag(trio.family, 2, 0);
                let said = say_two(alloc, sealer, draws, bodies, head, &known.own.x4)?;
                let Reply {
                    after: heard,
                    message,
                    sealed,
                } = said_with(known, said)?;
                Ok(Reply {
                    after: StampsP {
                        trio: *trio,
                        stage: Stage::Done(PartGiven { heard, fa, tp }),
                    },
                    message,
                    sealed,
                })
            }
        )
    }
}
