ghost use Rattle.std.specs.Prelude.{◌≡◌, ◌≢◌, ◌∷◌, [], true, length, Some, Ok, Err, IfOk, IfErr};
ghost use Rattle.mech_rows.specs.declared.refusal.Refusal.TheVariants.{Memory};
ghost use Rattle.mech_rows.specs.Openings.{has_parts};
ghost use Rattle.mech_rows.specs.Verdict.{at, message_items};
ghost use Rattle.text_hooks.specs.Leading.{Leads, Refuses};
ghost use Rattle.text_hooks.specs.Names.{key_of, opened_by};
ghost use Rattle.keys_11770_2.specs.K5A.{is_k5a, run as run_a};
ghost use Rattle.keys_11770_2.specs.K5B.{is_k5b, run as run_b};
ghost use Rattle.keys_11770_2.specs.declared.k5.StageA.TheVariants.{Sent as SentA, Done as DoneA};
ghost use Rattle.keys_11770_2.specs.declared.k5.StageB.TheVariants.{Start as StartB};
ghost use Rattle.keys_11770_2.specs.declared.k5.StageB.TheVariants.{Heard as HeardB};

// Pass 1, A to B: a seal of Ta, Fa, X1.
// Pass 2, B to A: a seal of Tb, Ta, Fb, X2.

use crate::pieces::two_stamps_and_part;
use mech_rows::{Got, Mech, Opening, Refusal, Ring, Role, RunHead, Slot, Stated, Texts, Value};
use outside::Draws;
use seal_trait::Sealer;
use std::alloc::Global;
use term_values::{OutOfMemory, Part, Stamp, Tag, Term, Text};
use text_hooks::{
    Delivery, NoteList, Pair, Phase, Reply, RoleState, Shown, SlotValue, Taken, add, compare_stamp,
    draw_part, grown_and_judged, item_at, key_between, open_item, own_text, part_at, read_body,
    read_message, said_with, say_item, stamp_at, take_text, text_at, two_values,
};

/// The text that A seals.
#[derive(Clone, PartialEq, Eq, Drop)]
pub struct FirstText {
    x1: Text,
}

impl Shown for FirstText {
    ghost use Rattle.keys_11770_2.specs.K5A.{first_text};

    ghost notes_of = { first_text };

    fn note(&self, alloc: Global, notes: &mut NoteList) -> Result<(), OutOfMemory> {
        add(notes, Slot::X1, Value::Text(self.x1.copy(alloc)?))
    }
}

/// It has sent its part of the key, with a stamp.
#[derive(Clone, PartialEq, Eq, Drop)]
pub struct FirstSent {
    own: FirstText,
    ta: Stamp,
    fa: Part,
}

impl Shown for FirstSent {
    ghost use Rattle.keys_11770_2.specs.K5A.{first_sent};

    ghost notes_of = { first_sent };

    fn note(&self, alloc: Global, notes: &mut NoteList) -> Result<(), OutOfMemory> {
        self.own.note(alloc, notes)?;
        add(notes, Slot::Ta, Value::Stamp(self.ta))?;
        add(notes, Slot::Fa, Value::Part(self.fa))
    }
}

/// What the second message shows.
#[derive(Clone, PartialEq, Eq, Drop)]
pub struct Second {
    tb: Stamp,
    fb: Part,
    x2: Text,
}

impl Shown for Second {
    ghost use Rattle.keys_11770_2.specs.K5A.{second};

    ghost notes_of = { second };

    fn note(&self, alloc: Global, notes: &mut NoteList) -> Result<(), OutOfMemory> {
        add(notes, Slot::Tb, Value::Stamp(self.tb))?;
        add(notes, Slot::Fb, Value::Part(self.fb))?;
        add(notes, Slot::X2, Value::Text(self.x2.copy(alloc)?))
    }
}

/// It has taken the second message.
#[derive(Clone, PartialEq, Eq, Drop)]
pub struct SecondTaken {
    sent: FirstSent,
    second: Second,
}

/// How far A is.
#[derive(Clone, PartialEq, Eq, Drop)]
pub enum StageA {
    /// It sends the first message.
    Start(FirstText),
    /// It waits for the second message.
    Sent(FirstSent),
    /// It has taken the second message.
    Done(SecondTaken),
}

/// A in K5.
#[derive(Clone, PartialEq, Eq, Drop)]
pub struct K5A {
    names: Pair,
    stage: StageA,
}

impl Stated for K5A {
    ghost use Rattle.keys_11770_2.specs.K5A.{state_of as state_of_k5a};

    ghost state_of = { state_of_k5a };
}

/// What the second message shows, by its items and its opened body, where it fits, and the stamp to
/// judge.
fn second_of<S: Sealer>(
    delivery: &Delivery<S>,
    names: &Pair,
    known: &FirstSent,
    items: &[Term],
    body: &Term,
) -> Result<(Second, Got), Refusal>
    requires length { length items.now ≡ 2 }
    requires items { message_items (3 ∷ 5 ∷ 2 ∷ 0 ∷ []) names.now.b [] (true ∷ [])
        delivery.now.term.now ≡ Ok items.now }
    requires opened { S.opens (key_of delivery.now.ring.now names.now) (at items.now 1)
        ≡ Some body.now }
    ensures fit { IfOk result (λ v. Leads S.opens S.checks delivery.now
        (run_a names.now (SentA known.now))
        (run_a names.now (DoneA (record { sent = known.now; second = v.0 })))
        (opened_by delivery.now.ring.now names.now (at items.now 1) body.now) (v.1 ∷ [])) }
    ensures refused { IfErr result
        (Refuses S.opens S.checks delivery.now (run_a names.now (SentA known.now))) }
{
    let (a, b) = (names.a, names.b);
    let tag = Tag([3, 5, 2, 1]);
    let wanted = [Slot::Tb, Slot::Ta, Slot::Fb, Slot::X2];
    let slots = read_body(body, &tag, &[a, b], &wanted, 1)?;
    compare_stamp(stamp_at(slots, 4), known.ta, 1, Slot::Ta)?;
    let x2 = text_at(slots, 6);
    let x2 = take_text(delivery.alloc, delivery.hook, Mech::K5, Slot::X2, x2)?;
    let tb = stamp_at(slots, 3);
    let fb = part_at(slots, 5);
    let got = Got {
        slot: Slot::Tb,
        sender: b,
        tag: Tag([3, 5, 2, 1]),
        stamp: tb,
    };
    Ok((Second { tb, fb, x2 }, got))
}

/// The run that has taken the second message, with what it opened and the stamp to judge.
fn read_second<S: Sealer>(
    delivery: &Delivery<S>,
    names: &Pair,
    known: &FirstSent,
) -> Result<(SecondTaken, Vec<Opening>, Vec<Got>), Refusal>
    requires parts { has_parts delivery.now.ring.now
        (run_a names.now (SentA known.now)).head ≡ true }
    ensures fit { IfOk result (λ p. Leads S.opens S.checks delivery.now
        (run_a names.now (SentA known.now))
        (run_a names.now (DoneA p.0)) p.1.items p.2.items) }
    ensures refused { IfErr result
        (Refuses S.opens S.checks delivery.now (run_a names.now (SentA known.now))) }
{
    let alloc = delivery.alloc;
    let items = read_message(delivery.term, &Tag([3, 5, 2, 0]), names.b, &[], &[true])?;
    let key = key_between(delivery.ring, names.a, names.b);
    let item = open_item(alloc, delivery.sealer, key, item_at(items, 1), 1)?;
    let second = second_of(delivery, names, known, items, &item.body);
    let (sent, second, opened, got) = grown_and_judged(alloc, known, second, item)?;
    Ok((SecondTaken { sent, second }, opened, got))
}

impl RoleState for K5A {
    ghost plays = { is_k5a };

    fn begin(alloc: Global, head: &RunHead, texts: &Texts) -> Result<K5A, OutOfMemory> {
        let x1 = own_text(alloc, texts, Slot::X1)?;
        Ok(K5A {
            names: Pair {
                a: head.a,
                b: head.b,
            },
            stage: StageA::Start(FirstText { x1 }),
        })
    }

    fn head(&self) -> RunHead {
        self.names.head(Mech::K5, Role::A)
    }

    fn copy(&self, _alloc: Global) -> Result<K5A, OutOfMemory> {
        self.clone()
    }

    fn same(&self, other: &K5A) -> bool {
        self.names == other.names && self.stage == other.stage
    }

    fn note(&self, alloc: Global, notes: &mut NoteList) -> Result<(), OutOfMemory> {
        match &self.stage {
            StageA::Start(own) => own.note(alloc, notes),
            StageA::Sent(known) => known.note(alloc, notes),
            StageA::Done(known) => {
                known.sent.note(alloc, notes)?;
                known.second.note(alloc, notes)
            }
        }
    }

    fn phase(&self) -> Phase {
        match &self.stage {
            StageA::Start(_) => Phase::sends(0).with_stamp(),
            StageA::Sent(_) => Phase::receives(1),
            StageA::Done(_) => Phase::done(2),
        }
    }

    fn read<S: Sealer>(&self, delivery: &Delivery<S>) -> Result<Taken<K5A>, Refusal> {
        let names = &self.names;
        let StageA::Sent(known) = &self.stage else {
            return Err(Refusal::WrongPass);
        };
        let (known, opened, got) = read_second(delivery, names, known)?;
        Ok(Taken {
            after: K5A {
                names: *names,
                stage: StageA::Done(known),
            },
            opened,
            got,
        })
    }

    fn speak<S: Sealer, D: Draws>(
        &self,
        alloc: Global,
        sealer: &S,
        ring: &Ring,
        draws: &mut D,
        stamp: Option<Stamp>,
    ) -> Result<Reply<K5A>, Refusal> {
        let names = &self.names;
        let StageA::Start(own) = &self.stage else {
            return Err(Refusal::WrongPass);
        };
        let Some(ta) = stamp else { unreachable!() };
        let fa = draw_part(draws)?;
        let key = key_between(ring, names.a, names.b);
        let body = two_values(
            alloc,
            Tag([3, 5, 1, 1]),
            names.a,
            names.b,
            SlotValue::Stamp(ta),
            SlotValue::Part(fa),
            &own.x1,
        )?;
        let said = say_item(alloc, sealer, draws, key, body, Tag([3, 5, 1, 0]))?;
        let Reply {
            after: own,
            message,
            sealed,
        } = said_with(own, said)?;
        Ok(Reply {
            after: K5A {
                names: *names,
                stage: StageA::Sent(FirstSent { own, ta, fa }),
            },
            message,
            sealed,
        })
    }
}

/// The text that B seals.
#[derive(Clone, PartialEq, Eq, Drop)]
pub struct SecondText {
    x2: Text,
}

impl Shown for SecondText {
    ghost use Rattle.keys_11770_2.specs.K5B.{second_text};

    ghost notes_of = { second_text };

    fn note(&self, alloc: Global, notes: &mut NoteList) -> Result<(), OutOfMemory> {
        add(notes, Slot::X2, Value::Text(self.x2.copy(alloc)?))
    }
}

/// What the first message shows.
#[derive(Clone, PartialEq, Eq, Drop)]
pub struct First {
    ta: Stamp,
    fa: Part,
    x1: Text,
}

impl Shown for First {
    ghost use Rattle.keys_11770_2.specs.K5B.{first};

    ghost notes_of = { first };

    fn note(&self, alloc: Global, notes: &mut NoteList) -> Result<(), OutOfMemory> {
        add(notes, Slot::Ta, Value::Stamp(self.ta))?;
        add(notes, Slot::Fa, Value::Part(self.fa))?;
        add(notes, Slot::X1, Value::Text(self.x1.copy(alloc)?))
    }
}

/// It has heard the first message.
#[derive(Clone, PartialEq, Eq, Drop)]
pub struct FirstHeard {
    own: SecondText,
    first: First,
}

impl Shown for FirstHeard {
    ghost use Rattle.keys_11770_2.specs.K5B.{first_heard};

    ghost notes_of = { first_heard };

    fn note(&self, alloc: Global, notes: &mut NoteList) -> Result<(), OutOfMemory> {
        self.own.note(alloc, notes)?;
        self.first.note(alloc, notes)
    }
}

/// It has sent its part of the key, with a stamp.
#[derive(Clone, PartialEq, Eq, Drop)]
pub struct SecondSent {
    heard: FirstHeard,
    tb: Stamp,
    fb: Part,
}

impl Shown for SecondSent {
    ghost use Rattle.keys_11770_2.specs.K5B.{second_sent};

    ghost notes_of = { second_sent };

    fn note(&self, alloc: Global, notes: &mut NoteList) -> Result<(), OutOfMemory> {
        self.heard.note(alloc, notes)?;
        add(notes, Slot::Tb, Value::Stamp(self.tb))?;
        add(notes, Slot::Fb, Value::Part(self.fb))
    }
}

/// How far B is.
#[derive(Clone, PartialEq, Eq, Drop)]
pub enum StageB {
    /// It waits for the first message.
    Start(SecondText),
    /// It has heard the first message.
    Heard(FirstHeard),
    /// It has sent the second message.
    Done(SecondSent),
}

/// B in K5.
#[derive(Clone, PartialEq, Eq, Drop)]
pub struct K5B {
    names: Pair,
    stage: StageB,
}

impl Stated for K5B {
    ghost use Rattle.keys_11770_2.specs.K5B.{state_of as state_of_k5b};

    ghost state_of = { state_of_k5b };
}

/// What the first message shows, by its items and its opened body, where it fits, and the stamp to
/// judge.
fn first_of<S: Sealer>(
    delivery: &Delivery<S>,
    names: &Pair,
    known: &SecondText,
    items: &[Term],
    body: &Term,
) -> Result<(First, Got), Refusal>
    requires length { length items.now ≡ 2 }
    requires items { message_items (3 ∷ 5 ∷ 1 ∷ 0 ∷ []) names.now.b [] (true ∷ [])
        delivery.now.term.now ≡ Ok items.now }
    requires opened { S.opens (key_of delivery.now.ring.now names.now) (at items.now 1)
        ≡ Some body.now }
    ensures fit { IfOk result (λ v. Leads S.opens S.checks delivery.now
        (run_b names.now (StartB known.now))
        (run_b names.now (HeardB (record { own = known.now; first = v.0 })))
        (opened_by delivery.now.ring.now names.now (at items.now 1) body.now) (v.1 ∷ [])) }
    ensures refused { IfErr result
        (Refuses S.opens S.checks delivery.now (run_b names.now (StartB known.now))) }
{
    let (a, b) = (names.a, names.b);
    let tag = Tag([3, 5, 1, 1]);
    let slots = read_body(body, &tag, &[a, b], &[Slot::Ta, Slot::Fa, Slot::X1], 1)?;
    let x1 = text_at(slots, 5);
    let x1 = take_text(delivery.alloc, delivery.hook, Mech::K5, Slot::X1, x1)?;
    let ta = stamp_at(slots, 3);
    let fa = part_at(slots, 4);
    let got = Got {
        slot: Slot::Ta,
        sender: a,
        tag: Tag([3, 5, 1, 1]),
        stamp: ta,
    };
    Ok((First { ta, fa, x1 }, got))
}

/// The run that has taken the first message, with what it opened and the stamp to judge.
fn read_first<S: Sealer>(
    delivery: &Delivery<S>,
    names: &Pair,
    known: &SecondText,
) -> Result<(FirstHeard, Vec<Opening>, Vec<Got>), Refusal>
    requires parts { has_parts delivery.now.ring.now
        (run_b names.now (StartB known.now)).head ≡ true }
    ensures fit { IfOk result (λ p. Leads S.opens S.checks delivery.now
        (run_b names.now (StartB known.now))
        (run_b names.now (HeardB p.0)) p.1.items p.2.items) }
    ensures refused { IfErr result
        (Refuses S.opens S.checks delivery.now (run_b names.now (StartB known.now))) }
{
    let alloc = delivery.alloc;
    let items = read_message(delivery.term, &Tag([3, 5, 1, 0]), names.b, &[], &[true])?;
    let key = key_between(delivery.ring, names.a, names.b);
    let item = open_item(alloc, delivery.sealer, key, item_at(items, 1), 1)?;
    let first = first_of(delivery, names, known, items, &item.body);
    let (own, first, opened, got) = grown_and_judged(alloc, known, first, item)?;
    Ok((FirstHeard { own, first }, opened, got))
}

impl RoleState for K5B {
    ghost plays = { is_k5b };

    fn begin(alloc: Global, head: &RunHead, texts: &Texts) -> Result<K5B, OutOfMemory> {
        let x2 = own_text(alloc, texts, Slot::X2)?;
        Ok(K5B {
            names: Pair {
                a: head.a,
                b: head.b,
            },
            stage: StageB::Start(SecondText { x2 }),
        })
    }

    fn head(&self) -> RunHead {
        self.names.head(Mech::K5, Role::B)
    }

    fn copy(&self, _alloc: Global) -> Result<K5B, OutOfMemory> {
        self.clone()
    }

    fn same(&self, other: &K5B) -> bool {
        self.names == other.names && self.stage == other.stage
    }

    fn note(&self, alloc: Global, notes: &mut NoteList) -> Result<(), OutOfMemory> {
        match &self.stage {
            StageB::Start(own) => own.note(alloc, notes),
            StageB::Heard(known) => known.note(alloc, notes),
            StageB::Done(known) => known.note(alloc, notes),
        }
    }

    fn phase(&self) -> Phase {
        match &self.stage {
            StageB::Start(_) => Phase::receives(0).with_stamp(),
            StageB::Heard(_) => Phase::sends(1).with_stamp(),
            StageB::Done(_) => Phase::done(2),
        }
    }

    fn read<S: Sealer>(&self, delivery: &Delivery<S>) -> Result<Taken<K5B>, Refusal> {
        let names = &self.names;
        let StageB::Start(known) = &self.stage else {
            return Err(Refusal::WrongPass);
        };
        let (known, opened, got) = read_first(delivery, names, known)?;
        Ok(Taken {
            after: K5B {
                names: *names,
                stage: StageB::Heard(known),
            },
            opened,
            got,
        })
    }

    fn speak<S: Sealer, D: Draws>(
        &self,
        alloc: Global,
        sealer: &S,
        ring: &Ring,
        draws: &mut D,
        stamp: Option<Stamp>,
    ) -> Result<Reply<K5B>, Refusal> {
        let names = &self.names;
        let StageB::Heard(known) = &self.stage else {
            return Err(Refusal::WrongPass);
        };
        let Some(tb) = stamp else { unreachable!() };
        let fb = draw_part(draws)?;
        let key = key_between(ring, names.a, names.b);
        let stamps = (tb, known.first.ta);
        let head = Tag([3, 5, 2, 1]);
        let body = two_stamps_and_part(alloc, head, names, stamps, fb, &known.own.x2)?;
        let said = say_item(alloc, sealer, draws, key, body, Tag([3, 5, 2, 0]))?;
        let Reply {
            after: heard,
            message,
            sealed,
        } = said_with(known, said)?;
        Ok(Reply {
            after: K5B {
                names: *names,
                stage: StageB::Done(SecondSent { heard, tb, fb }),
            },
            message,
            sealed,
        })
    }
}
