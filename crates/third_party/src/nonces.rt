ghost use Rattle.std.specs.Prelude.{[], IfOk, IfErr};
ghost use Rattle.text_hooks.specs.Leading.{Leads, Refuses};
ghost use Rattle.third_party.specs.NoncesP.{is_nonces_p, run};
ghost use Rattle.third_party.specs.declared.nonces.Stage.TheVariants.{Start, Heard};

// In E6 and K9.
// Pass 2, A to P: Ra2, Rb, the name of B, X2.
// Pass 3, P to A: X5, a seal for A of Ra2, Fa, X4, a seal for B of Rb, Fa, X3.

use crate::family::in_both;
use crate::pieces::{Share, two_shares};
use crate::words::say_two;
use mech_rows::{Clear, Refusal, Ring, Role, RunHead, Slot, Stated, Texts, Value};
use outside::Draws;
use seal_trait::Sealer;
use std::alloc::Global;
use term_values::{Nonce, OutOfMemory, Part, Stamp, Text};
use text_hooks::{
    Delivery, NoteList, Phase, Reply, RoleState, Shown, SlotValue, Taken, Trio, add, by_nonces,
    draw_part, grown, nonce_at, nonces_tag, own_text, read_message, said_with, take_text, text_at,
    trio_by_nonces,
};

/// The texts that it sends.
#[derive(Clone, PartialEq, Eq, Drop)]
pub struct GivenTexts {
    x3: Text,
    x4: Text,
    x5: Text,
}

impl Shown for GivenTexts {
    ghost use Rattle.third_party.specs.NoncesP.{given_texts};

    ghost notes_of = { given_texts };

    fn note(&self, alloc: Global, notes: &mut NoteList) -> Result<(), OutOfMemory> {
        add(notes, Slot::X3, Value::Text(self.x3.copy(alloc)?))?;
        add(notes, Slot::X4, Value::Text(self.x4.copy(alloc)?))?;
        add(notes, Slot::X5, Value::Text(self.x5.copy(alloc)?))
    }
}

/// What the request of A shows.
#[derive(Clone, PartialEq, Eq, Drop)]
pub struct Request {
    ra2: Nonce,
    rb: Nonce,
    x2: Text,
}

impl Shown for Request {
    ghost use Rattle.third_party.specs.NoncesP.{request};

    ghost notes_of = { request };

    fn note(&self, alloc: Global, notes: &mut NoteList) -> Result<(), OutOfMemory> {
        add(notes, Slot::Ra2, Value::Nonce(self.ra2))?;
        add(notes, Slot::Rb, Value::Nonce(self.rb))?;
        add(notes, Slot::X2, Value::Text(self.x2.copy(alloc)?))
    }
}

/// It has heard the request.
#[derive(Clone, PartialEq, Eq, Drop)]
pub struct RequestHeard {
    own: GivenTexts,
    request: Request,
}

impl Shown for RequestHeard {
    ghost use Rattle.third_party.specs.NoncesP.{request_heard};

    ghost notes_of = { request_heard };

    fn note(&self, alloc: Global, notes: &mut NoteList) -> Result<(), OutOfMemory> {
        self.own.note(alloc, notes)?;
        self.request.note(alloc, notes)
    }
}

/// It has given a part of a key to both.
#[derive(Clone, PartialEq, Eq, Drop)]
pub struct PartGiven {
    heard: RequestHeard,
    fa: Part,
}

impl Shown for PartGiven {
    ghost use Rattle.third_party.specs.NoncesP.{part_given};

    ghost notes_of = { part_given };

    fn note(&self, alloc: Global, notes: &mut NoteList) -> Result<(), OutOfMemory> {
        self.heard.note(alloc, notes)?;
        add(notes, Slot::Fa, Value::Part(self.fa))
    }
}

/// How far the third party is.
#[derive(Clone, PartialEq, Eq, Drop)]
pub enum Stage {
    /// It waits for the request.
    Start(GivenTexts),
    /// It has heard the request.
    Heard(RequestHeard),
    /// It has given the part to both.
    Done(PartGiven),
}

/// The third party in E6 and K9.
#[derive(Clone, PartialEq, Eq, Drop)]
pub struct NoncesP {
    trio: Trio,
    stage: Stage,
}

impl Stated for NoncesP {
    ghost use Rattle.third_party.specs.NoncesP.{state_of as state_of_nonces_p};

    ghost state_of = { state_of_nonces_p };
}

/// What the request shows, where it fits.
fn read_request<S: Sealer>(
    delivery: &Delivery<S>,
    trio: &Trio,
    own: &GivenTexts,
) -> Result<Request, Refusal>
    ensures fit { IfOk result (λ r. Leads S.opens S.checks delivery.now
        (run trio.now (Start own.now))
        (run trio.now (Heard (record { own = own.now; request = r }))) [] []) }
    ensures refused { IfErr result
        (Refuses S.opens S.checks delivery.now (run trio.now (Start own.now))) }
{
    in_both!(
        trio.family,
        {
            let clear = [
                Clear::Slot(Slot::Ra2),
                Clear::Slot(Slot::Rb),
                Clear::NameOfB,
                Clear::Slot(Slot::X2)
            ];
            let tag = nonces_tag(trio.family, 2, 0);
            let items = read_message(delivery.term, &tag, trio.names.b, &clear, &[])?;
            let x2 = text_at(items, 4);
            let mech = by_nonces(trio.family);
            let x2 = take_text(delivery.alloc, delivery.hook, mech, Slot::X2, x2)?;
            let ra2 = nonce_at(items, 1);
            let rb = nonce_at(items, 2);
            Ok(Request { ra2, rb, x2 })
        }
    )
}

impl RoleState for NoncesP {
    ghost plays = { is_nonces_p };

    fn begin(alloc: Global, head: &RunHead, texts: &Texts) -> Result<NoncesP, OutOfMemory> {
        let x3 = own_text(alloc, texts, Slot::X3)?;
        let x4 = own_text(alloc, texts, Slot::X4)?;
        let x5 = own_text(alloc, texts, Slot::X5)?;
        Ok(NoncesP {
            trio: trio_by_nonces(head),
            stage: Stage::Start(GivenTexts { x3, x4, x5 }),
        })
    }

    fn head(&self) -> RunHead {
        self.trio.names.head(by_nonces(self.trio.family), Role::P)
    }

    fn copy(&self, _alloc: Global) -> Result<NoncesP, OutOfMemory> {
        self.clone()
    }

    fn same(&self, other: &NoncesP) -> bool {
        self.trio == other.trio && self.stage == other.stage
    }

    fn note(&self, alloc: Global, notes: &mut NoteList) -> Result<(), OutOfMemory> {
        match &self.stage {
            Stage::Start(own) => own.note(alloc, notes),
            Stage::Heard(known) => known.note(alloc, notes),
            Stage::Done(known) => known.note(alloc, notes),
        }
    }

    fn phase(&self) -> Phase {
        in_both!(
            self.trio.family,
            match &self.stage {
                Stage::Start(_) => Phase::receives(1),
                Stage::Heard(_) => Phase::sends(2),
                Stage::Done(_) => Phase::done(5),
            }
        )
    }

    fn read<S: Sealer>(&self, delivery: &Delivery<S>) -> Result<Taken<NoncesP>, Refusal> {
        in_both!(
            self.trio.family,
            {
                let Stage::Start(own) = &self.stage else {
                    return Err(Refusal::WrongPass);
                };
                let request = read_request(delivery, &self.trio, own);
                let (own, request) = grown(own, request)?;
                Ok(Taken {
                    after: NoncesP {
                        trio: self.trio,
                        stage: Stage::Heard(RequestHeard { own, request }),
                    },
                    opened: Vec::new(delivery.alloc),
                    got: Vec::new(delivery.alloc),
                })
            }
        )
    }

    fn speak<S: Sealer, D: Draws>(
        &self,
        alloc: Global,
        sealer: &S,
        ring: &Ring,
        draws: &mut D,
        _stamp: Option<Stamp>,
    ) -> Result<Reply<NoncesP>, Refusal> {
        let trio = &self.trio;
        in_both!(
            trio.family,
            {
                let Stage::Heard(known) = &self.stage else {
                    return Err(Refusal::WrongPass);
                };
                let fa = draw_part(draws)?;
                let for_a = Share {
                    tag: nonces_tag(trio.family, 3, 1),
                    fresh: SlotValue::Nonce(known.request.ra2),
                    text: &known.own.x4,
                };
                let for_b = Share {
                    tag: nonces_tag(trio.family, 3, 2),
                    fresh: SlotValue::Nonce(known.request.rb),
                    text: &known.own.x3,
                };
                let bodies = two_shares(alloc, ring, &trio.names, fa, &for_a, &for_b)?;
                let head = nonces_tag(trio.family, 3, 0);
                let said = say_two(alloc, sealer, draws, bodies, head, &known.own.x5)?;
                let Reply {
                    after: heard,
                    message,
                    sealed,
                } = said_with(known, said)?;
                Ok(Reply {
                    after: NoncesP {
                        trio: *trio,
                        stage: Stage::Done(PartGiven { heard, fa }),
                    },
                    message,
                    sealed,
                })
            }
        )
    }
}
