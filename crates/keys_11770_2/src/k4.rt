ghost use Rattle.std.specs.Prelude.{◌≡◌, ◌≢◌, ◌∷◌, [], true, length, Some, Ok, Err, IfOk, IfErr};
ghost use Rattle.mech_rows.specs.declared.refusal.Refusal.TheVariants.{Memory};
ghost use Rattle.mech_rows.specs.Openings.{has_parts};
ghost use Rattle.mech_rows.specs.Verdict.{at, message_items};
ghost use Rattle.text_hooks.specs.Leading.{Leads, Refuses};
ghost use Rattle.text_hooks.specs.Names.{key_of, opened_by};
ghost use Rattle.keys_11770_2.specs.K4A.{is_k4a, run as run_a};
ghost use Rattle.keys_11770_2.specs.K4B.{is_k4b, run as run_b};
ghost use Rattle.keys_11770_2.specs.declared.k4.StageA.TheVariants.{Start as StartA};
ghost use Rattle.keys_11770_2.specs.declared.k4.StageA.TheVariants.{Heard as HeardA};
ghost use Rattle.keys_11770_2.specs.declared.k4.StageB.TheVariants.{Asked as AskedB, Done as DoneB};

// Pass 1, B to A: Rb in the clear.
// Pass 2, A to B: a seal of Rb, Fa, X1.

use crate::shown::PartText;
use mech_rows::{Clear, Mech, Opening, Refusal, Ring, Role, RunHead, Slot, Stated, Texts, Value};
use outside::Draws;
use seal_trait::Sealer;
use std::alloc::Global;
use term_values::{Nonce, OutOfMemory, Part, Stamp, Tag, Term, Text};
use text_hooks::{
    Delivery, NoteList, Pair, Phase, Reply, RoleState, Shown, SlotValue, Taken, add, compare_nonce,
    draw_nonce, draw_part, grown, grown_by, item_at, key_between, nonce_alone, nonce_at, open_item,
    own_text, part_at, read_body, read_message, said_with, say_item, take_text, text_at,
    two_values,
};

/// It has heard the nonce of B.
#[derive(Clone, PartialEq, Eq, Drop)]
pub struct NonceHeard {
    own: PartText,
    rb: Nonce,
}

impl Shown for NonceHeard {
    ghost use Rattle.keys_11770_2.specs.K4A.{nonce_heard};

    ghost notes_of = { nonce_heard };

    fn note(&self, alloc: Global, notes: &mut NoteList) -> Result<(), OutOfMemory> {
        self.own.note(alloc, notes)?;
        add(notes, Slot::Rb, Value::Nonce(self.rb))
    }
}

/// It has sent its part of the key.
#[derive(Clone, PartialEq, Eq, Drop)]
pub struct PartSent {
    heard: NonceHeard,
    fa: Part,
}

/// How far A is.
#[derive(Clone, PartialEq, Eq, Drop)]
pub enum StageA {
    /// It waits for the first message.
    Start(PartText),
    /// It has heard the first message.
    Heard(NonceHeard),
    /// It has sent the second message.
    Done(PartSent),
}

/// A in K4.
#[derive(Clone, PartialEq, Eq, Drop)]
pub struct K4A {
    names: Pair,
    stage: StageA,
}

impl Stated for K4A {
    ghost use Rattle.keys_11770_2.specs.K4A.{state_of as state_of_k4a};

    ghost state_of = { state_of_k4a };
}

/// The nonce that the first message shows, where it fits.
fn read_first<S: Sealer>(
    delivery: &Delivery<S>,
    names: &Pair,
    known: &PartText,
) -> Result<Nonce, Refusal>
    ensures fit { IfOk result (λ rb.
        Leads S.opens S.checks delivery.now
        (run_a names.now (StartA known.now))
        (run_a names.now (HeardA (record { own = known.now; rb = rb }))) [] []) }
    ensures refused { IfErr result
        (Refuses S.opens S.checks delivery.now (run_a names.now (StartA known.now))) }
{
    let items = read_message(
        delivery.term,
        &Tag([3, 4, 1, 0]),
        names.b,
        &[Clear::Slot(Slot::Rb)],
        &[],
    )?;
    Ok(nonce_at(items, 1))
}

impl RoleState for K4A {
    ghost plays = { is_k4a };

    fn begin(alloc: Global, head: &RunHead, texts: &Texts) -> Result<K4A, OutOfMemory> {
        let x1 = own_text(alloc, texts, Slot::X1)?;
        Ok(K4A {
            names: Pair {
                a: head.a,
                b: head.b,
            },
            stage: StageA::Start(PartText { x1 }),
        })
    }

    fn head(&self) -> RunHead {
        self.names.head(Mech::K4, Role::A)
    }

    fn copy(&self, _alloc: Global) -> Result<K4A, OutOfMemory> {
        self.clone()
    }

    fn same(&self, other: &K4A) -> bool {
        self.names == other.names && self.stage == other.stage
    }

    fn note(&self, alloc: Global, notes: &mut NoteList) -> Result<(), OutOfMemory> {
        match &self.stage {
            StageA::Start(own) => own.note(alloc, notes),
            StageA::Heard(known) => known.note(alloc, notes),
            StageA::Done(known) => {
                known.heard.note(alloc, notes)?;
                add(notes, Slot::Fa, Value::Part(known.fa))
            }
        }
    }

    fn phase(&self) -> Phase {
        match &self.stage {
            StageA::Start(_) => Phase::receives(0),
            StageA::Heard(_) => Phase::sends(1),
            StageA::Done(_) => Phase::done(2),
        }
    }

    fn read<S: Sealer>(&self, delivery: &Delivery<S>) -> Result<Taken<K4A>, Refusal> {
        let names = &self.names;
        let StageA::Start(own) = &self.stage else {
            return Err(Refusal::WrongPass);
        };
        let shown = read_first(delivery, names, own);
        let (own, rb) = grown(own, shown)?;
        Ok(Taken {
            after: K4A {
                names: *names,
                stage: StageA::Heard(NonceHeard { own, rb }),
            },
            opened: Vec::new(delivery.alloc),
            got: Vec::new(delivery.alloc),
        })
    }

    fn speak<S: Sealer, D: Draws>(
        &self,
        alloc: Global,
        sealer: &S,
        ring: &Ring,
        draws: &mut D,
        _stamp: Option<Stamp>,
    ) -> Result<Reply<K4A>, Refusal> {
        let names = &self.names;
        let StageA::Heard(known) = &self.stage else {
            return Err(Refusal::WrongPass);
        };
        let fa = draw_part(draws)?;
        let key = key_between(ring, names.a, names.b);
        let body = two_values(
            alloc,
            Tag([3, 4, 2, 1]),
            names.a,
            names.b,
            SlotValue::Nonce(known.rb),
            SlotValue::Part(fa),
            &known.own.x1,
        )?;
        let said = say_item(alloc, sealer, draws, key, body, Tag([3, 4, 2, 0]))?;
        let Reply {
            after: heard,
            message,
            sealed,
        } = said_with(known, said)?;
        Ok(Reply {
            after: K4A {
                names: *names,
                stage: StageA::Done(PartSent { heard, fa }),
            },
            message,
            sealed,
        })
    }
}

/// What the second message shows.
#[derive(Clone, PartialEq, Eq, Drop)]
pub struct GivenPart {
    fa: Part,
    x1: Text,
}

impl Shown for GivenPart {
    ghost use Rattle.keys_11770_2.specs.K4B.{given_part};

    ghost notes_of = { given_part };

    fn note(&self, alloc: Global, notes: &mut NoteList) -> Result<(), OutOfMemory> {
        add(notes, Slot::Fa, Value::Part(self.fa))?;
        add(notes, Slot::X1, Value::Text(self.x1.copy(alloc)?))
    }
}

/// It has taken the part of A.
#[derive(Clone, PartialEq, Eq, Drop)]
pub struct PartTaken {
    rb: Nonce,
    given: GivenPart,
}

/// How far B is.
#[derive(Clone, PartialEq, Eq, Drop)]
pub enum StageB {
    /// It sends the first message.
    Start,
    /// It waits for the second message, and has sent this nonce.
    Asked(Nonce),
    /// It has taken the second message.
    Done(PartTaken),
}

/// B in K4.
#[derive(Clone, PartialEq, Eq, Drop)]
pub struct K4B {
    names: Pair,
    stage: StageB,
}

impl Stated for K4B {
    ghost use Rattle.keys_11770_2.specs.K4B.{state_of as state_of_k4b};

    ghost state_of = { state_of_k4b };
}

/// What the second message shows, by its items and its opened body, where it fits.
fn second_of<S: Sealer>(
    delivery: &Delivery<S>,
    names: &Pair,
    known: &Nonce,
    items: &[Term],
    body: &Term,
) -> Result<GivenPart, Refusal>
    requires length { length items.now ≡ 2 }
    requires items { message_items (3 ∷ 4 ∷ 2 ∷ 0 ∷ []) names.now.b [] (true ∷ [])
        delivery.now.term.now ≡ Ok items.now }
    requires opened { S.opens (key_of delivery.now.ring.now names.now) (at items.now 1)
        ≡ Some body.now }
    ensures fit { IfOk result (λ v. Leads S.opens S.checks delivery.now
        (run_b names.now (AskedB known.now))
        (run_b names.now (DoneB (record { rb = known.now; given = v })))
        (opened_by delivery.now.ring.now names.now (at items.now 1) body.now) []) }
    ensures refused { IfErr result
        (Refuses S.opens S.checks delivery.now (run_b names.now (AskedB known.now))) }
{
    let (a, b) = (names.a, names.b);
    let slots = read_body(
        body,
        &Tag([3, 4, 2, 1]),
        &[a, b],
        &[Slot::Rb, Slot::Fa, Slot::X1],
        1,
    )?;
    compare_nonce(&nonce_at(slots, 3), known, 1, Slot::Rb)?;
    let x1 = text_at(slots, 5);
    let x1 = take_text(delivery.alloc, delivery.hook, Mech::K4, Slot::X1, x1)?;
    let fa = part_at(slots, 4);
    Ok(GivenPart { fa, x1 })
}

/// The run that has taken the second message, with what it opened.
fn read_second<S: Sealer>(
    delivery: &Delivery<S>,
    names: &Pair,
    known: &Nonce,
) -> Result<(PartTaken, Vec<Opening>), Refusal>
    requires parts { has_parts delivery.now.ring.now
        (run_b names.now (AskedB known.now)).head ≡ true }
    ensures fit { IfOk result (λ p. Leads S.opens S.checks delivery.now
        (run_b names.now (AskedB known.now))
        (run_b names.now (DoneB p.0)) p.1.items []) }
    ensures refused { IfErr result
        (Refuses S.opens S.checks delivery.now (run_b names.now (AskedB known.now))) }
{
    let alloc = delivery.alloc;
    let items = read_message(delivery.term, &Tag([3, 4, 2, 0]), names.b, &[], &[true])?;
    let key = key_between(delivery.ring, names.a, names.b);
    let item = open_item(alloc, delivery.sealer, key, item_at(items, 1), 1)?;
    let second = second_of(delivery, names, known, items, &item.body);
    let (rb, given, opened) = grown_by(alloc, known, second, item)?;
    Ok((PartTaken { rb, given }, opened))
}

impl RoleState for K4B {
    ghost plays = { is_k4b };

    fn begin(_alloc: Global, head: &RunHead, _texts: &Texts) -> Result<K4B, OutOfMemory> {
        Ok(K4B {
            names: Pair {
                a: head.a,
                b: head.b,
            },
            stage: StageB::Start,
        })
    }

    fn head(&self) -> RunHead {
        self.names.head(Mech::K4, Role::B)
    }

    fn copy(&self, _alloc: Global) -> Result<K4B, OutOfMemory> {
        self.clone()
    }

    fn same(&self, other: &K4B) -> bool {
        self.names == other.names && self.stage == other.stage
    }

    fn note(&self, alloc: Global, notes: &mut NoteList) -> Result<(), OutOfMemory> {
        match &self.stage {
            StageB::Start => Ok(()),
            StageB::Asked(rb) => add(notes, Slot::Rb, Value::Nonce(*rb)),
            StageB::Done(known) => {
                add(notes, Slot::Rb, Value::Nonce(known.rb))?;
                known.given.note(alloc, notes)
            }
        }
    }

    fn phase(&self) -> Phase {
        match &self.stage {
            StageB::Start => Phase::sends(0),
            StageB::Asked(_) => Phase::receives(1),
            StageB::Done(_) => Phase::done(2),
        }
    }

    fn read<S: Sealer>(&self, delivery: &Delivery<S>) -> Result<Taken<K4B>, Refusal> {
        let names = &self.names;
        let StageB::Asked(rb) = &self.stage else {
            return Err(Refusal::WrongPass);
        };
        let (known, opened) = read_second(delivery, names, rb)?;
        Ok(Taken {
            after: K4B {
                names: *names,
                stage: StageB::Done(known),
            },
            opened,
            got: Vec::new(delivery.alloc),
        })
    }

    fn speak<S: Sealer, D: Draws>(
        &self,
        alloc: Global,
        _sealer: &S,
        _ring: &Ring,
        draws: &mut D,
        _stamp: Option<Stamp>,
    ) -> Result<Reply<K4B>, Refusal> {
        let names = &self.names;
        let StageB::Start = &self.stage else {
            return Err(Refusal::WrongPass);
        };
        let rb = draw_nonce(draws)?;
        let message = nonce_alone(alloc, Tag([3, 4, 1, 0]), &rb)?;
        Ok(Reply {
            after: K4B {
                names: *names,
                stage: StageB::Asked(rb),
            },
            message,
            sealed: Vec::new(alloc),
        })
    }
}
