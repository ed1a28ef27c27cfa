ghost use Rattle.std.specs.Prelude.{◌≡◌, ◌≢◌, ◌∷◌, [], true, length, Some, Ok, Err, IfOk, IfErr};
ghost use Rattle.mech_rows.specs.declared.kinds.Clear.TheVariants.{Slot as Shows};
ghost use Rattle.mech_rows.specs.declared.kinds.Slot.TheVariants.{X2, X4};
ghost use Rattle.mech_rows.specs.declared.refusal.Refusal.TheVariants.{Memory};
ghost use Rattle.mech_rows.specs.Openings.{has_parts};
ghost use Rattle.mech_rows.specs.Verdict.{are_clear, at, message_items};
ghost use Rattle.text_hooks.specs.Leading.{Leads, Refuses};
ghost use Rattle.text_hooks.specs.Names.{key_of, opened_by};
ghost use Rattle.roles_9798_2.specs.E3A.{is_e3a, run as run_a};
ghost use Rattle.roles_9798_2.specs.E3B.{is_e3b, run as run_b};
ghost use Rattle.roles_9798_2.specs.declared.e3.StageA.TheVariants.{Sent as SentA, Done as DoneA};
ghost use Rattle.roles_9798_2.specs.declared.e3.StageB.TheVariants.{Start as StartB};
ghost use Rattle.roles_9798_2.specs.declared.e3.StageB.TheVariants.{Heard as HeardB};

// Pass 1, A to B: X2 in the clear, and a seal of Ta, X1.
// Pass 2, B to A: X4 in the clear, and a seal of Tb, X3.

use mech_rows::{
    Clear, Got, Mech, Opening, Refusal, Ring, Role, RunHead, Slot, Stated, Texts, Value,
};
use outside::Draws;
use seal_trait::Sealer;
use std::alloc::Global;
use term_values::{OutOfMemory, Stamp, Tag, Term, Text};
use text_hooks::{
    AnswerTexts, Delivery, FirstTexts, NoteList, Pair, Phase, Reply, RoleState, SealedToken, Shown,
    SlotValue, Stamped, Taken, add, grown_and_judged, item_at, key_between, one_value, open_item,
    own_text, read_body, read_message, said_still, say_sealed, stamp_at, take_texts, text_at,
};

/// What the token in return shows.
#[derive(Clone, PartialEq, Eq, Drop)]
pub struct ReturnToken {
    x4: Text,
    tb: Stamp,
    x3: Text,
}

impl Shown for ReturnToken {
    ghost use Rattle.roles_9798_2.specs.E3A.{return_token};

    ghost notes_of = { return_token };

    fn note(&self, alloc: Global, notes: &mut NoteList) -> Result<(), OutOfMemory> {
        add(notes, Slot::X4, Value::Text(self.x4.copy(alloc)?))?;
        add(notes, Slot::Tb, Value::Stamp(self.tb))?;
        add(notes, Slot::X3, Value::Text(self.x3.copy(alloc)?))
    }
}

/// It has taken the token in return.
#[derive(Clone, PartialEq, Eq, Drop)]
pub struct ReturnTaken {
    sent: Stamped,
    token: ReturnToken,
}

/// How far A is.
#[derive(Clone, PartialEq, Eq, Drop)]
pub enum StageA {
    /// It sends the first message.
    Start(FirstTexts),
    /// It waits for the second message.
    Sent(Stamped),
    /// It has taken the second message.
    Done(ReturnTaken),
}

/// A in E3.
#[derive(Clone, PartialEq, Eq, Drop)]
pub struct E3A {
    names: Pair,
    stage: StageA,
}

impl Stated for E3A {
    ghost use Rattle.roles_9798_2.specs.E3A.{state_of as state_of_e3a};

    ghost state_of = { state_of_e3a };
}

/// What the second message shows, by its items and its opened body, where it fits.
fn second_of<S: Sealer>(
    delivery: &Delivery<S>,
    names: &Pair,
    known: &Stamped,
    items: &[Term],
    body: &Term,
) -> Result<(ReturnToken, Got), Refusal>
    requires length { length items.now ≡ 3 }
    requires kinds { are_clear items.now 1 (Shows X4 ∷ []) ≡ true }
    requires items { message_items (1 ∷ 3 ∷ 2 ∷ 0 ∷ []) names.now.b (Shows X4 ∷ []) (true ∷ [])
        delivery.now.term.now ≡ Ok items.now }
    requires opened { S.opens (key_of delivery.now.ring.now names.now) (at items.now 2)
        ≡ Some body.now }
    ensures fit { IfOk result (λ v. Leads S.opens S.checks delivery.now
        (run_a names.now (SentA known.now))
        (run_a names.now (DoneA (record { sent = known.now; token = v.0 })))
        (opened_by delivery.now.ring.now names.now (at items.now 2) body.now) (v.1 ∷ [])) }
    ensures refused { IfErr result
        (Refuses S.opens S.checks delivery.now (run_a names.now (SentA known.now))) }
{
    let (a, b) = (names.a, names.b);
    let slots = read_body(body, &Tag([1, 3, 2, 1]), &[a, b], &[Slot::Tb, Slot::X3], 1)?;
    let x4 = (Slot::X4, text_at(items, 1));
    let x3 = (Slot::X3, text_at(slots, 4));
    let (x4, x3) = take_texts(delivery.alloc, delivery.hook, Mech::E3, x4, x3)?;
    let tb = stamp_at(slots, 3);
    let got = Got {
        slot: Slot::Tb,
        sender: b,
        tag: Tag([1, 3, 2, 1]),
        stamp: tb,
    };
    Ok((ReturnToken { x4, tb, x3 }, got))
}

/// The run that has taken the second message, with what it opened and the stamp to judge.
fn read_second<S: Sealer>(
    delivery: &Delivery<S>,
    names: &Pair,
    known: &Stamped,
) -> Result<(ReturnTaken, Vec<Opening>, Vec<Got>), Refusal>
    requires parts { has_parts delivery.now.ring.now
        (run_a names.now (SentA known.now)).head ≡ true }
    ensures fit { IfOk result (λ p. Leads S.opens S.checks delivery.now
        (run_a names.now (SentA known.now)) (run_a names.now (DoneA p.0)) p.1.items p.2.items) }
    ensures refused { IfErr result
        (Refuses S.opens S.checks delivery.now (run_a names.now (SentA known.now))) }
{
    let alloc = delivery.alloc;
    let items = read_message(
        delivery.term,
        &Tag([1, 3, 2, 0]),
        names.b,
        &[Clear::Slot(Slot::X4)],
        &[true],
    )?;
    let key = key_between(delivery.ring, names.a, names.b);
    let item = open_item(alloc, delivery.sealer, key, item_at(items, 2), 1)?;
    let second = second_of(delivery, names, known, items, &item.body);
    let (sent, token, opened, got) = grown_and_judged(alloc, known, second, item)?;
    Ok((ReturnTaken { sent, token }, opened, got))
}

impl RoleState for E3A {
    ghost plays = { is_e3a };

    fn begin(alloc: Global, head: &RunHead, texts: &Texts) -> Result<E3A, OutOfMemory> {
        let x1 = own_text(alloc, texts, Slot::X1)?;
        let x2 = own_text(alloc, texts, Slot::X2)?;
        Ok(E3A {
            names: Pair {
                a: head.a,
                b: head.b,
            },
            stage: StageA::Start(FirstTexts { x1, x2 }),
        })
    }

    fn head(&self) -> RunHead {
        self.names.head(Mech::E3, Role::A)
    }

    fn copy(&self, _alloc: Global) -> Result<E3A, OutOfMemory> {
        self.clone()
    }

    fn same(&self, other: &E3A) -> bool {
        self.names == other.names && self.stage == other.stage
    }

    fn note(&self, alloc: Global, notes: &mut NoteList) -> Result<(), OutOfMemory> {
        match &self.stage {
            StageA::Start(own) => own.note(alloc, notes),
            StageA::Sent(known) => known.note(alloc, notes),
            StageA::Done(known) => {
                known.sent.note(alloc, notes)?;
                known.token.note(alloc, notes)
            }
        }
    }

    fn phase(&self) -> Phase {
        match &self.stage {
            StageA::Start(_) => Phase::sends(0).with_stamp(),
            StageA::Sent(_) => Phase::receives(1),
            StageA::Done(_) => Phase::done(2),
        }
    }

    fn read<S: Sealer>(&self, delivery: &Delivery<S>) -> Result<Taken<E3A>, Refusal> {
        let names = &self.names;
        let StageA::Sent(known) = &self.stage else {
            return Err(Refusal::WrongPass);
        };
        let (known, opened, got) = read_second(delivery, names, known)?;
        Ok(Taken {
            after: E3A {
                names: *names,
                stage: StageA::Done(known),
            },
            opened,
            got,
        })
    }

    fn speak<S: Sealer, D: Draws>(
        &self,
        alloc: Global,
        sealer: &S,
        ring: &Ring,
        draws: &mut D,
        stamp: Option<Stamp>,
    ) -> Result<Reply<E3A>, Refusal> {
        let names = &self.names;
        let StageA::Start(own) = &self.stage else {
            return Err(Refusal::WrongPass);
        };
        let Some(ta) = stamp else { unreachable!() };
        let key = key_between(ring, names.a, names.b);
        let body = one_value(
            alloc,
            Tag([1, 3, 1, 1]),
            names.a,
            names.b,
            SlotValue::Stamp(ta),
            &own.x1,
        )?;
        let said = say_sealed(alloc, sealer, draws, key, body, Tag([1, 3, 1, 0]), &own.x2)?;
        let Reply {
            after: own,
            message,
            sealed,
        } = said_still(alloc, own, said)?;
        Ok(Reply {
            after: E3A {
                names: *names,
                stage: StageA::Sent(Stamped { own, ta }),
            },
            message,
            sealed,
        })
    }
}

/// It has heard the first message.
#[derive(Clone, PartialEq, Eq, Drop)]
pub struct TokenHeard {
    own: AnswerTexts,
    token: SealedToken,
}

/// It has sent the second message.
#[derive(Clone, PartialEq, Eq, Drop)]
pub struct ReturnSent {
    heard: TokenHeard,
    tb: Stamp,
}

/// How far B is.
#[derive(Clone, PartialEq, Eq, Drop)]
pub enum StageB {
    /// It waits for the first message.
    Start(AnswerTexts),
    /// It has heard the first message.
    Heard(TokenHeard),
    /// It has sent the second message.
    Done(ReturnSent),
}

/// B in E3.
#[derive(Clone, PartialEq, Eq, Drop)]
pub struct E3B {
    names: Pair,
    stage: StageB,
}

impl Stated for E3B {
    ghost use Rattle.roles_9798_2.specs.E3B.{state_of as state_of_e3b};

    ghost state_of = { state_of_e3b };
}

impl Shown for TokenHeard {
    ghost use Rattle.roles_9798_2.specs.E3B.{token_heard};

    ghost notes_of = { token_heard };

    fn note(&self, alloc: Global, notes: &mut NoteList) -> Result<(), OutOfMemory> {
        self.own.note(alloc, notes)?;
        self.token.note(alloc, notes)
    }
}

/// What the first message shows, by its items and its opened body, where it fits.
fn first_of<S: Sealer>(
    delivery: &Delivery<S>,
    names: &Pair,
    known: &AnswerTexts,
    items: &[Term],
    body: &Term,
) -> Result<(SealedToken, Got), Refusal>
    requires length { length items.now ≡ 3 }
    requires kinds { are_clear items.now 1 (Shows X2 ∷ []) ≡ true }
    requires items { message_items (1 ∷ 3 ∷ 1 ∷ 0 ∷ []) names.now.b (Shows X2 ∷ []) (true ∷ [])
        delivery.now.term.now ≡ Ok items.now }
    requires opened { S.opens (key_of delivery.now.ring.now names.now) (at items.now 2)
        ≡ Some body.now }
    ensures fit { IfOk result (λ v. Leads S.opens S.checks delivery.now
        (run_b names.now (StartB known.now))
        (run_b names.now (HeardB (record { own = known.now; token = v.0 })))
        (opened_by delivery.now.ring.now names.now (at items.now 2) body.now) (v.1 ∷ [])) }
    ensures refused { IfErr result
        (Refuses S.opens S.checks delivery.now (run_b names.now (StartB known.now))) }
{
    let (a, b) = (names.a, names.b);
    let slots = read_body(body, &Tag([1, 3, 1, 1]), &[a, b], &[Slot::Ta, Slot::X1], 1)?;
    let x2 = (Slot::X2, text_at(items, 1));
    let x1 = (Slot::X1, text_at(slots, 4));
    let (x2, x1) = take_texts(delivery.alloc, delivery.hook, Mech::E3, x2, x1)?;
    let ta = stamp_at(slots, 3);
    let got = Got {
        slot: Slot::Ta,
        sender: a,
        tag: Tag([1, 3, 1, 1]),
        stamp: ta,
    };
    Ok((SealedToken { x2, ta, x1 }, got))
}

/// The run that has taken the first message, with what it opened and the stamp to judge.
fn read_first<S: Sealer>(
    delivery: &Delivery<S>,
    names: &Pair,
    known: &AnswerTexts,
) -> Result<(TokenHeard, Vec<Opening>, Vec<Got>), Refusal>
    requires parts { has_parts delivery.now.ring.now
        (run_b names.now (StartB known.now)).head ≡ true }
    ensures fit { IfOk result (λ p. Leads S.opens S.checks delivery.now
        (run_b names.now (StartB known.now)) (run_b names.now (HeardB p.0)) p.1.items p.2.items) }
    ensures refused { IfErr result
        (Refuses S.opens S.checks delivery.now (run_b names.now (StartB known.now))) }
{
    let alloc = delivery.alloc;
    let items = read_message(
        delivery.term,
        &Tag([1, 3, 1, 0]),
        names.b,
        &[Clear::Slot(Slot::X2)],
        &[true],
    )?;
    let key = key_between(delivery.ring, names.a, names.b);
    let item = open_item(alloc, delivery.sealer, key, item_at(items, 2), 1)?;
    let first = first_of(delivery, names, known, items, &item.body);
    let (own, token, opened, got) = grown_and_judged(alloc, known, first, item)?;
    Ok((TokenHeard { own, token }, opened, got))
}

impl RoleState for E3B {
    ghost plays = { is_e3b };

    fn begin(alloc: Global, head: &RunHead, texts: &Texts) -> Result<E3B, OutOfMemory> {
        let x3 = own_text(alloc, texts, Slot::X3)?;
        let x4 = own_text(alloc, texts, Slot::X4)?;
        Ok(E3B {
            names: Pair {
                a: head.a,
                b: head.b,
            },
            stage: StageB::Start(AnswerTexts { x3, x4 }),
        })
    }

    fn head(&self) -> RunHead {
        self.names.head(Mech::E3, Role::B)
    }

    fn copy(&self, _alloc: Global) -> Result<E3B, OutOfMemory> {
        self.clone()
    }

    fn same(&self, other: &E3B) -> bool {
        self.names == other.names && self.stage == other.stage
    }

    fn note(&self, alloc: Global, notes: &mut NoteList) -> Result<(), OutOfMemory> {
        match &self.stage {
            StageB::Start(own) => own.note(alloc, notes),
            StageB::Heard(known) => known.note(alloc, notes),
            StageB::Done(known) => {
                known.heard.note(alloc, notes)?;
                add(notes, Slot::Tb, Value::Stamp(known.tb))
            }
        }
    }

    fn phase(&self) -> Phase {
        match &self.stage {
            StageB::Start(_) => Phase::receives(0).with_stamp(),
            StageB::Heard(_) => Phase::sends(1).with_stamp(),
            StageB::Done(_) => Phase::done(2),
        }
    }

    fn read<S: Sealer>(&self, delivery: &Delivery<S>) -> Result<Taken<E3B>, Refusal> {
        let names = &self.names;
        let StageB::Start(known) = &self.stage else {
            return Err(Refusal::WrongPass);
        };
        let (known, opened, got) = read_first(delivery, names, known)?;
        Ok(Taken {
            after: E3B {
                names: *names,
                stage: StageB::Heard(known),
            },
            opened,
            got,
        })
    }

    fn speak<S: Sealer, D: Draws>(
        &self,
        alloc: Global,
        sealer: &S,
        ring: &Ring,
        draws: &mut D,
        stamp: Option<Stamp>,
    ) -> Result<Reply<E3B>, Refusal> {
        let names = &self.names;
        let StageB::Heard(known) = &self.stage else {
            return Err(Refusal::WrongPass);
        };
        let Some(tb) = stamp else { unreachable!() };
        let key = key_between(ring, names.a, names.b);
        let body = one_value(
            alloc,
            Tag([1, 3, 2, 1]),
            names.a,
            names.b,
            SlotValue::Stamp(tb),
            &known.own.x3,
        )?;
        let head = Tag([1, 3, 2, 0]);
        let said = say_sealed(alloc, sealer, draws, key, body, head, &known.own.x4)?;
        let Reply {
            after: heard,
            message,
            sealed,
        } = said_still(alloc, known, said)?;
        Ok(Reply {
            after: E3B {
                names: *names,
                stage: StageB::Done(ReturnSent { heard, tb }),
            },
            message,
            sealed,
        })
    }
}
