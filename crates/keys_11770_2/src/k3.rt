ghost use Rattle.std.specs.Prelude.{◌≡◌, ◌≢◌, ◌∷◌, [], true, length, Some, Ok, Err, IfOk, IfErr};
ghost use Rattle.mech_rows.specs.declared.refusal.Refusal.TheVariants.{Memory};
ghost use Rattle.mech_rows.specs.Openings.{has_parts};
ghost use Rattle.mech_rows.specs.Verdict.{at, message_items};
ghost use Rattle.text_hooks.specs.Leading.{Leads, Refuses};
ghost use Rattle.text_hooks.specs.Names.{key_of, opened_by};
ghost use Rattle.keys_11770_2.specs.K3A.{is_k3a};
ghost use Rattle.keys_11770_2.specs.K3B.{is_k3b, run as run_b};
ghost use Rattle.keys_11770_2.specs.declared.k3.StageB.TheVariants.{Start as StartB, Done as DoneB};

// Pass 1, A to B: a seal of Ta, Fa, X1.

use crate::shown::PartText;
use mech_rows::{Got, Mech, Opening, Refusal, Ring, Role, RunHead, Slot, Stated, Texts, Value};
use outside::Draws;
use seal_trait::Sealer;
use std::alloc::Global;
use term_values::{OutOfMemory, Part, Stamp, Tag, Term, Text};
use text_hooks::{
    Delivery, NoteList, Pair, Phase, Reply, RoleState, Shown, SlotValue, Taken, add, draw_part,
    item_at, judged_by, key_between, open_item, own_text, part_at, read_body, read_message,
    said_with, say_item, stamp_at, take_text, text_at, two_values,
};

/// It has sent its part of the key, with a stamp.
#[derive(Clone, PartialEq, Eq, Drop)]
pub struct PartSent {
    own: PartText,
    ta: Stamp,
    fa: Part,
}

impl Shown for PartSent {
    ghost use Rattle.keys_11770_2.specs.K3A.{part_sent};

    ghost notes_of = { part_sent };

    fn note(&self, alloc: Global, notes: &mut NoteList) -> Result<(), OutOfMemory> {
        self.own.note(alloc, notes)?;
        add(notes, Slot::Ta, Value::Stamp(self.ta))?;
        add(notes, Slot::Fa, Value::Part(self.fa))
    }
}

/// How far A is.
#[derive(Clone, PartialEq, Eq, Drop)]
pub enum StageA {
    /// It sends the message.
    Start(PartText),
    /// It has sent the message.
    Done(PartSent),
}

/// A in K3.
#[derive(Clone, PartialEq, Eq, Drop)]
pub struct K3A {
    names: Pair,
    stage: StageA,
}

impl Stated for K3A {
    ghost use Rattle.keys_11770_2.specs.K3A.{state_of as state_of_k3a};

    ghost state_of = { state_of_k3a };
}

impl RoleState for K3A {
    ghost plays = { is_k3a };

    fn begin(alloc: Global, head: &RunHead, texts: &Texts) -> Result<K3A, OutOfMemory> {
        let x1 = own_text(alloc, texts, Slot::X1)?;
        Ok(K3A {
            names: Pair {
                a: head.a,
                b: head.b,
            },
            stage: StageA::Start(PartText { x1 }),
        })
    }

    fn head(&self) -> RunHead {
        self.names.head(Mech::K3, Role::A)
    }

    fn copy(&self, _alloc: Global) -> Result<K3A, OutOfMemory> {
        self.clone()
    }

    fn same(&self, other: &K3A) -> bool {
        self.names == other.names && self.stage == other.stage
    }

    fn note(&self, alloc: Global, notes: &mut NoteList) -> Result<(), OutOfMemory> {
        match &self.stage {
            StageA::Start(own) => own.note(alloc, notes),
            StageA::Done(known) => known.note(alloc, notes),
        }
    }

    fn phase(&self) -> Phase {
        match &self.stage {
            StageA::Start(_) => Phase::sends(0).with_stamp(),
            StageA::Done(_) => Phase::done(1),
        }
    }

    fn read<S: Sealer>(&self, _delivery: &Delivery<S>) -> Result<Taken<K3A>, Refusal> {
        Err(Refusal::WrongPass)
    }

    fn speak<S: Sealer, D: Draws>(
        &self,
        alloc: Global,
        sealer: &S,
        ring: &Ring,
        draws: &mut D,
        stamp: Option<Stamp>,
    ) -> Result<Reply<K3A>, Refusal> {
        let names = &self.names;
        let StageA::Start(own) = &self.stage else {
            return Err(Refusal::WrongPass);
        };
        let Some(ta) = stamp else { unreachable!() };
        let fa = draw_part(draws)?;
        let key = key_between(ring, names.a, names.b);
        let body = two_values(
            alloc,
            Tag([3, 3, 1, 1]),
            names.a,
            names.b,
            SlotValue::Stamp(ta),
            SlotValue::Part(fa),
            &own.x1,
        )?;
        let said = say_item(alloc, sealer, draws, key, body, Tag([3, 3, 1, 0]))?;
        let Reply {
            after: own,
            message,
            sealed,
        } = said_with(own, said)?;
        Ok(Reply {
            after: K3A {
                names: *names,
                stage: StageA::Done(PartSent { own, ta, fa }),
            },
            message,
            sealed,
        })
    }
}

/// What the message shows.
#[derive(Clone, PartialEq, Eq, Drop)]
pub struct StampedPart {
    ta: Stamp,
    fa: Part,
    x1: Text,
}

impl Shown for StampedPart {
    ghost use Rattle.keys_11770_2.specs.K3B.{stamped_part};

    ghost notes_of = { stamped_part };

    fn note(&self, alloc: Global, notes: &mut NoteList) -> Result<(), OutOfMemory> {
        add(notes, Slot::Ta, Value::Stamp(self.ta))?;
        add(notes, Slot::Fa, Value::Part(self.fa))?;
        add(notes, Slot::X1, Value::Text(self.x1.copy(alloc)?))
    }
}

/// How far B is.
#[derive(Clone, PartialEq, Eq, Drop)]
pub enum StageB {
    /// It waits for the message.
    Start,
    /// It has taken the message.
    Done(StampedPart),
}

/// B in K3.
#[derive(Clone, PartialEq, Eq, Drop)]
pub struct K3B {
    names: Pair,
    stage: StageB,
}

impl Stated for K3B {
    ghost use Rattle.keys_11770_2.specs.K3B.{state_of as state_of_k3b};

    ghost state_of = { state_of_k3b };
}

/// What the message shows, by its items and its opened body, where it fits.
fn first_of<S: Sealer>(
    delivery: &Delivery<S>,
    names: &Pair,
    items: &[Term],
    body: &Term,
) -> Result<(StampedPart, Got), Refusal>
    requires length { length items.now ≡ 2 }
    requires items { message_items (3 ∷ 3 ∷ 1 ∷ 0 ∷ []) names.now.b [] (true ∷ [])
        delivery.now.term.now ≡ Ok items.now }
    requires opened { S.opens (key_of delivery.now.ring.now names.now) (at items.now 1)
        ≡ Some body.now }
    ensures fit { IfOk result (λ v. Leads S.opens S.checks delivery.now
        (run_b names.now StartB) (run_b names.now (DoneB v.0))
        (opened_by delivery.now.ring.now names.now (at items.now 1) body.now) (v.1 ∷ [])) }
    ensures refused { IfErr result
        (Refuses S.opens S.checks delivery.now (run_b names.now StartB)) }
{
    let (a, b) = (names.a, names.b);
    let slots = read_body(
        body,
        &Tag([3, 3, 1, 1]),
        &[a, b],
        &[Slot::Ta, Slot::Fa, Slot::X1],
        1,
    )?;
    let x1 = text_at(slots, 5);
    let x1 = take_text(delivery.alloc, delivery.hook, Mech::K3, Slot::X1, x1)?;
    let (ta, fa) = (stamp_at(slots, 3), part_at(slots, 4));
    let got = Got {
        slot: Slot::Ta,
        sender: a,
        tag: Tag([3, 3, 1, 1]),
        stamp: ta,
    };
    Ok((StampedPart { ta, fa, x1 }, got))
}

/// What the message shows, with what was opened and the stamp to judge.
fn read_first<S: Sealer>(
    delivery: &Delivery<S>,
    names: &Pair,
) -> Result<(StampedPart, Vec<Opening>, Vec<Got>), Refusal>
    requires parts { has_parts delivery.now.ring.now (run_b names.now StartB).head ≡ true }
    ensures fit { IfOk result (λ p. Leads S.opens S.checks delivery.now
        (run_b names.now StartB)
        (run_b names.now (DoneB p.0)) p.1.items p.2.items) }
    ensures refused { IfErr result
        (Refuses S.opens S.checks delivery.now (run_b names.now StartB)) }
{
    let alloc = delivery.alloc;
    let items = read_message(delivery.term, &Tag([3, 3, 1, 0]), names.b, &[], &[true])?;
    let key = key_between(delivery.ring, names.a, names.b);
    let item = open_item(alloc, delivery.sealer, key, item_at(items, 1), 1)?;
    let first = first_of(delivery, names, items, &item.body);
    judged_by(alloc, first, item)
}

impl RoleState for K3B {
    ghost plays = { is_k3b };

    fn begin(_alloc: Global, head: &RunHead, _texts: &Texts) -> Result<K3B, OutOfMemory> {
        Ok(K3B {
            names: Pair {
                a: head.a,
                b: head.b,
            },
            stage: StageB::Start,
        })
    }

    fn head(&self) -> RunHead {
        self.names.head(Mech::K3, Role::B)
    }

    fn copy(&self, _alloc: Global) -> Result<K3B, OutOfMemory> {
        self.clone()
    }

    fn same(&self, other: &K3B) -> bool {
        self.names == other.names && self.stage == other.stage
    }

    fn note(&self, alloc: Global, notes: &mut NoteList) -> Result<(), OutOfMemory> {
        match &self.stage {
            StageB::Start => Ok(()),
            StageB::Done(shown) => shown.note(alloc, notes),
        }
    }

    fn phase(&self) -> Phase {
        match &self.stage {
            StageB::Start => Phase::receives(0),
            StageB::Done(_) => Phase::done(1),
        }
    }

    fn read<S: Sealer>(&self, delivery: &Delivery<S>) -> Result<Taken<K3B>, Refusal> {
        let names = &self.names;
        let StageB::Start = &self.stage else {
            return Err(Refusal::WrongPass);
        };
        let (shown, opened, got) = read_first(delivery, names)?;
        Ok(Taken {
            after: K3B {
                names: *names,
                stage: StageB::Done(shown),
            },
            opened,
            got,
        })
    }

    fn speak<S: Sealer, D: Draws>(
        &self,
        _alloc: Global,
        _sealer: &S,
        _ring: &Ring,
        _draws: &mut D,
        _stamp: Option<Stamp>,
    ) -> Result<Reply<K3B>, Refusal> {
        Err(Refusal::WrongPass)
    }
}
