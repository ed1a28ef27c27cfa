ghost use Rattle.std.specs.Prelude.{◌≡◌, ◌≢◌, ◌∷◌, [], true, Ok, Err, IfOk, IfErr};
ghost use Rattle.term_values.specs.Trees.{nonce, stamp, text};
ghost use Rattle.mech_rows.specs.declared.kinds.Clear.TheVariants.{Slot as Shows};
ghost use Rattle.mech_rows.specs.declared.kinds.Slot.TheVariants.{Ta, Tb, X1, X2, X3, X4};
ghost use Rattle.mech_rows.specs.declared.refusal.Refusal.TheVariants.{Memory};
ghost use Rattle.mech_rows.specs.Openings.{has_parts};
ghost use Rattle.mech_rows.specs.Verdict.{at, message_items};
ghost use Rattle.text_hooks.specs.Leading.{Leads, Refuses};
ghost use Rattle.text_hooks.specs.Names.{key_of, opened_by};
ghost use Rattle.roles_9798_4.specs.C3A.{covered as covered_a, is_c3a, run as run_a};
ghost use Rattle.roles_9798_4.specs.C3B.{covered as covered_b, is_c3b, run as run_b};
ghost use Rattle.roles_9798_4.specs.declared.c3.StageA.TheVariants.{Sent as SentA, Done as DoneA};
ghost use Rattle.roles_9798_4.specs.declared.c3.StageB.TheVariants.{Start as StartB};
ghost use Rattle.roles_9798_4.specs.declared.c3.StageB.TheVariants.{Heard as HeardB};

// Pass 1, A to B: Ta, X1, X2 in the clear, and a check of Ta, X1.
// Pass 2, B to A: Tb, X3, X4 in the clear, and a check of Tb, X3.

use mech_rows::{
    Clear, Got, Mech, Opening, Refusal, Ring, Role, RunHead, Slot, Stated, Texts, Value,
};
use outside::Draws;
use seal_trait::Sealer;
use std::alloc::Global;
use term_values::{OutOfMemory, Stamp, Tag, Term, Text};
use text_hooks::{
    AnswerTexts, CheckedToken, Delivery, FirstTexts, NoteList, Pair, Phase, Reply, RoleState,
    Shown, SlotValue, Stamped, Taken, add, grown_and_judged, item_at, key_between, one_value,
    own_text, read_message, said_still, say_checked, stamp_at, take_texts, test_item, text_at,
};

/// What the token in return shows.
#[derive(Clone, PartialEq, Eq, Drop)]
pub struct ReturnToken {
    tb: Stamp,
    x3: Text,
    x4: Text,
}

impl Shown for ReturnToken {
    ghost use Rattle.roles_9798_4.specs.C3A.{return_token};

    ghost notes_of = { return_token };

    fn note(&self, alloc: Global, notes: &mut NoteList) -> Result<(), OutOfMemory> {
        add(notes, Slot::Tb, Value::Stamp(self.tb))?;
        add(notes, Slot::X3, Value::Text(self.x3.copy(alloc)?))?;
        add(notes, Slot::X4, Value::Text(self.x4.copy(alloc)?))
    }
}

/// It has taken the token in return.
#[derive(Clone, PartialEq, Eq, Drop)]
pub struct ReturnTaken {
    sent: Stamped,
    token: ReturnToken,
}

/// How far A is.
#[derive(Clone, PartialEq, Eq, Drop)]
pub enum StageA {
    /// It sends the first message.
    Start(FirstTexts),
    /// It waits for the second message.
    Sent(Stamped),
    /// It has taken the second message.
    Done(ReturnTaken),
}

/// A in C3.
#[derive(Clone, PartialEq, Eq, Drop)]
pub struct C3A {
    names: Pair,
    stage: StageA,
}

impl Stated for C3A {
    ghost use Rattle.roles_9798_4.specs.C3A.{state_of as state_of_c3a};

    ghost state_of = { state_of_c3a };
}

/// What the second message shows, whose items these are, and whose check holds.
fn second_of<S: Sealer>(
    delivery: &Delivery<S>,
    names: &Pair,
    known: &Stamped,
    items: &[Term],
    tb: Stamp,
    x3: &Text,
    x4: &Text,
) -> Result<(ReturnToken, Got), Refusal>
    requires items { message_items (2 ∷ 3 ∷ 2 ∷ 0 ∷ []) names.now.b
        (Shows Tb ∷ Shows X3 ∷ Shows X4 ∷ []) (true ∷ []) delivery.now.term.now ≡ Ok items.now }
    requires tb { at items.now 1 ≡ stamp tb }
    requires x3 { at items.now 2 ≡ text x3.now }
    requires x4 { at items.now 3 ≡ text x4.now }
    requires checked { S.checks (key_of delivery.now.ring.now names.now)
        (covered_a names.now tb x3.now)
        (at items.now 4) ≡ true }
    ensures fit { IfOk result (λ v. Leads S.opens S.checks delivery.now
        (run_a names.now (SentA known.now))
        (run_a names.now (DoneA (record { sent = known.now; token = v.0 })))
        (opened_by delivery.now.ring.now names.now (at items.now 4) (covered_a names.now tb x3.now))
        (v.1 ∷ [])) }
    ensures refused { IfErr result
        (Refuses S.opens S.checks delivery.now (run_a names.now (SentA known.now))) }
{
    let x3 = (Slot::X3, x3);
    let x4 = (Slot::X4, x4);
    let (x3, x4) = take_texts(delivery.alloc, delivery.hook, Mech::C3, x3, x4)?;
    let got = Got {
        slot: Slot::Tb,
        sender: names.b,
        tag: Tag([2, 3, 2, 1]),
        stamp: tb,
    };
    Ok((ReturnToken { tb, x3, x4 }, got))
}

/// The run that has taken the second message, with what it checked and the stamp to judge.
fn read_second<S: Sealer>(
    delivery: &Delivery<S>,
    names: &Pair,
    known: &Stamped,
) -> Result<(ReturnTaken, Vec<Opening>, Vec<Got>), Refusal>
    requires parts { has_parts delivery.now.ring.now
        (run_a names.now (SentA known.now)).head ≡ true }
    ensures fit { IfOk result (λ p. Leads S.opens S.checks delivery.now
        (run_a names.now (SentA known.now)) (run_a names.now (DoneA p.0)) p.1.items p.2.items) }
    ensures refused { IfErr result
        (Refuses S.opens S.checks delivery.now (run_a names.now (SentA known.now))) }
{
    let alloc = delivery.alloc;
    let items = read_message(
        delivery.term,
        &Tag([2, 3, 2, 0]),
        names.b,
        &[
            Clear::Slot(Slot::Tb),
            Clear::Slot(Slot::X3),
            Clear::Slot(Slot::X4),
        ],
        &[true],
    )?;
    let tb = stamp_at(items, 1);
    let x3 = text_at(items, 2);
    let x4 = text_at(items, 3);
    let body = one_value(
        alloc,
        Tag([2, 3, 2, 1]),
        names.a,
        names.b,
        SlotValue::Stamp(tb),
        x3,
    )?;
    let key = key_between(delivery.ring, names.a, names.b);
    let item = test_item(alloc, delivery.sealer, key, body, item_at(items, 4), 1)?;
    let second = second_of(delivery, names, known, items, tb, x3, x4);
    let (sent, token, opened, got) = grown_and_judged(alloc, known, second, item)?;
    Ok((ReturnTaken { sent, token }, opened, got))
}

impl RoleState for C3A {
    ghost plays = { is_c3a };

    fn begin(alloc: Global, head: &RunHead, texts: &Texts) -> Result<C3A, OutOfMemory> {
        let x1 = own_text(alloc, texts, Slot::X1)?;
        let x2 = own_text(alloc, texts, Slot::X2)?;
        Ok(C3A {
            names: Pair {
                a: head.a,
                b: head.b,
            },
            stage: StageA::Start(FirstTexts { x1, x2 }),
        })
    }

    fn head(&self) -> RunHead {
        self.names.head(Mech::C3, Role::A)
    }

    fn copy(&self, _alloc: Global) -> Result<C3A, OutOfMemory> {
        self.clone()
    }

    fn same(&self, other: &C3A) -> bool {
        self.names == other.names && self.stage == other.stage
    }

    fn note(&self, alloc: Global, notes: &mut NoteList) -> Result<(), OutOfMemory> {
        match &self.stage {
            StageA::Start(own) => own.note(alloc, notes),
            StageA::Sent(known) => known.note(alloc, notes),
            StageA::Done(known) => {
                known.sent.note(alloc, notes)?;
                known.token.note(alloc, notes)
            }
        }
    }

    fn phase(&self) -> Phase {
        match &self.stage {
            StageA::Start(_) => Phase::sends(0).with_stamp(),
            StageA::Sent(_) => Phase::receives(1),
            StageA::Done(_) => Phase::done(2),
        }
    }

    fn read<S: Sealer>(&self, delivery: &Delivery<S>) -> Result<Taken<C3A>, Refusal> {
        let names = &self.names;
        let StageA::Sent(known) = &self.stage else {
            return Err(Refusal::WrongPass);
        };
        let (known, opened, got) = read_second(delivery, names, known)?;
        Ok(Taken {
            after: C3A {
                names: *names,
                stage: StageA::Done(known),
            },
            opened,
            got,
        })
    }

    fn speak<S: Sealer, D: Draws>(
        &self,
        alloc: Global,
        sealer: &S,
        ring: &Ring,
        _draws: &mut D,
        stamp: Option<Stamp>,
    ) -> Result<Reply<C3A>, Refusal> {
        let names = &self.names;
        let StageA::Start(own) = &self.stage else {
            return Err(Refusal::WrongPass);
        };
        let Some(ta) = stamp else { unreachable!() };
        let key = key_between(ring, names.a, names.b);
        let body = one_value(
            alloc,
            Tag([2, 3, 1, 1]),
            names.a,
            names.b,
            SlotValue::Stamp(ta),
            &own.x1,
        )?;
        let said = say_checked(
            alloc,
            sealer,
            key,
            body,
            Tag([2, 3, 1, 0]),
            Some(SlotValue::Stamp(ta)),
            &own.x1,
            &own.x2,
        )?;
        let Reply {
            after: own,
            message,
            sealed,
        } = said_still(alloc, own, said)?;
        Ok(Reply {
            after: C3A {
                names: *names,
                stage: StageA::Sent(Stamped { own, ta }),
            },
            message,
            sealed,
        })
    }
}

/// It has heard the first message.
#[derive(Clone, PartialEq, Eq, Drop)]
pub struct TokenHeard {
    own: AnswerTexts,
    token: CheckedToken,
}

/// It has sent the second message.
#[derive(Clone, PartialEq, Eq, Drop)]
pub struct ReturnSent {
    heard: TokenHeard,
    tb: Stamp,
}

/// How far B is.
#[derive(Clone, PartialEq, Eq, Drop)]
pub enum StageB {
    /// It waits for the first message.
    Start(AnswerTexts),
    /// It has heard the first message.
    Heard(TokenHeard),
    /// It has sent the second message.
    Done(ReturnSent),
}

/// B in C3.
#[derive(Clone, PartialEq, Eq, Drop)]
pub struct C3B {
    names: Pair,
    stage: StageB,
}

impl Stated for C3B {
    ghost use Rattle.roles_9798_4.specs.C3B.{state_of as state_of_c3b};

    ghost state_of = { state_of_c3b };
}

impl Shown for TokenHeard {
    ghost use Rattle.roles_9798_4.specs.C3B.{token_heard};

    ghost notes_of = { token_heard };

    fn note(&self, alloc: Global, notes: &mut NoteList) -> Result<(), OutOfMemory> {
        self.own.note(alloc, notes)?;
        self.token.note(alloc, notes)
    }
}

/// What the first message shows, whose items these are, and whose check holds.
fn first_of<S: Sealer>(
    delivery: &Delivery<S>,
    names: &Pair,
    known: &AnswerTexts,
    items: &[Term],
    ta: Stamp,
    x1: &Text,
    x2: &Text,
) -> Result<(CheckedToken, Got), Refusal>
    requires items { message_items (2 ∷ 3 ∷ 1 ∷ 0 ∷ []) names.now.b
        (Shows Ta ∷ Shows X1 ∷ Shows X2 ∷ []) (true ∷ []) delivery.now.term.now ≡ Ok items.now }
    requires ta { at items.now 1 ≡ stamp ta }
    requires x1 { at items.now 2 ≡ text x1.now }
    requires x2 { at items.now 3 ≡ text x2.now }
    requires checked { S.checks (key_of delivery.now.ring.now names.now)
        (covered_b names.now ta x1.now)
        (at items.now 4) ≡ true }
    ensures fit { IfOk result (λ v. Leads S.opens S.checks delivery.now
        (run_b names.now (StartB known.now))
        (run_b names.now (HeardB (record { own = known.now; token = v.0 })))
        (opened_by delivery.now.ring.now names.now (at items.now 4) (covered_b names.now ta x1.now))
        (v.1 ∷ [])) }
    ensures refused { IfErr result
        (Refuses S.opens S.checks delivery.now (run_b names.now (StartB known.now))) }
{
    let x1 = (Slot::X1, x1);
    let x2 = (Slot::X2, x2);
    let (x1, x2) = take_texts(delivery.alloc, delivery.hook, Mech::C3, x1, x2)?;
    let got = Got {
        slot: Slot::Ta,
        sender: names.a,
        tag: Tag([2, 3, 1, 1]),
        stamp: ta,
    };
    Ok((CheckedToken { ta, x1, x2 }, got))
}

/// The run that has taken the first message, with what it checked and the stamp to judge.
fn read_first<S: Sealer>(
    delivery: &Delivery<S>,
    names: &Pair,
    known: &AnswerTexts,
) -> Result<(TokenHeard, Vec<Opening>, Vec<Got>), Refusal>
    requires parts { has_parts delivery.now.ring.now
        (run_b names.now (StartB known.now)).head ≡ true }
    ensures fit { IfOk result (λ p. Leads S.opens S.checks delivery.now
        (run_b names.now (StartB known.now)) (run_b names.now (HeardB p.0)) p.1.items p.2.items) }
    ensures refused { IfErr result
        (Refuses S.opens S.checks delivery.now (run_b names.now (StartB known.now))) }
{
    let alloc = delivery.alloc;
    let items = read_message(
        delivery.term,
        &Tag([2, 3, 1, 0]),
        names.b,
        &[
            Clear::Slot(Slot::Ta),
            Clear::Slot(Slot::X1),
            Clear::Slot(Slot::X2),
        ],
        &[true],
    )?;
    let ta = stamp_at(items, 1);
    let x1 = text_at(items, 2);
    let x2 = text_at(items, 3);
    let body = one_value(
        alloc,
        Tag([2, 3, 1, 1]),
        names.a,
        names.b,
        SlotValue::Stamp(ta),
        x1,
    )?;
    let key = key_between(delivery.ring, names.a, names.b);
    let item = test_item(alloc, delivery.sealer, key, body, item_at(items, 4), 1)?;
    let first = first_of(delivery, names, known, items, ta, x1, x2);
    let (own, token, opened, got) = grown_and_judged(alloc, known, first, item)?;
    Ok((TokenHeard { own, token }, opened, got))
}

impl RoleState for C3B {
    ghost plays = { is_c3b };

    fn begin(alloc: Global, head: &RunHead, texts: &Texts) -> Result<C3B, OutOfMemory> {
        let x3 = own_text(alloc, texts, Slot::X3)?;
        let x4 = own_text(alloc, texts, Slot::X4)?;
        Ok(C3B {
            names: Pair {
                a: head.a,
                b: head.b,
            },
            stage: StageB::Start(AnswerTexts { x3, x4 }),
        })
    }

    fn head(&self) -> RunHead {
        self.names.head(Mech::C3, Role::B)
    }

    fn copy(&self, _alloc: Global) -> Result<C3B, OutOfMemory> {
        self.clone()
    }

    fn same(&self, other: &C3B) -> bool {
        self.names == other.names && self.stage == other.stage
    }

    fn note(&self, alloc: Global, notes: &mut NoteList) -> Result<(), OutOfMemory> {
        match &self.stage {
            StageB::Start(own) => own.note(alloc, notes),
            StageB::Heard(known) => known.note(alloc, notes),
            StageB::Done(known) => {
                known.heard.note(alloc, notes)?;
                add(notes, Slot::Tb, Value::Stamp(known.tb))
            }
        }
    }

    fn phase(&self) -> Phase {
        match &self.stage {
            StageB::Start(_) => Phase::receives(0).with_stamp(),
            StageB::Heard(_) => Phase::sends(1).with_stamp(),
            StageB::Done(_) => Phase::done(2),
        }
    }

    fn read<S: Sealer>(&self, delivery: &Delivery<S>) -> Result<Taken<C3B>, Refusal> {
        let names = &self.names;
        let StageB::Start(known) = &self.stage else {
            return Err(Refusal::WrongPass);
        };
        let (known, opened, got) = read_first(delivery, names, known)?;
        Ok(Taken {
            after: C3B {
                names: *names,
                stage: StageB::Heard(known),
            },
            opened,
            got,
        })
    }

    fn speak<S: Sealer, D: Draws>(
        &self,
        alloc: Global,
        sealer: &S,
        ring: &Ring,
        _draws: &mut D,
        stamp: Option<Stamp>,
    ) -> Result<Reply<C3B>, Refusal> {
        let names = &self.names;
        let StageB::Heard(known) = &self.stage else {
            return Err(Refusal::WrongPass);
        };
        let Some(tb) = stamp else { unreachable!() };
        let key = key_between(ring, names.a, names.b);
        let body = one_value(
            alloc,
            Tag([2, 3, 2, 1]),
            names.a,
            names.b,
            SlotValue::Stamp(tb),
            &known.own.x3,
        )?;
        let said = say_checked(
            alloc,
            sealer,
            key,
            body,
            Tag([2, 3, 2, 0]),
            Some(SlotValue::Stamp(tb)),
            &known.own.x3,
            &known.own.x4,
        )?;
        let Reply {
            after: heard,
            message,
            sealed,
        } = said_still(alloc, known, said)?;
        Ok(Reply {
            after: C3B {
                names: *names,
                stage: StageB::Done(ReturnSent { heard, tb }),
            },
            message,
            sealed,
        })
    }
}
