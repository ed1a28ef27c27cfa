ghost use Rattle.std.specs.Prelude.{◌≡◌, ◌≢◌, ◌∷◌, [], true, Ok, Err, IfOk, IfErr};
ghost use Rattle.term_values.specs.Trees.{nonce, stamp, text};
ghost use Rattle.mech_rows.specs.declared.kinds.Clear.TheVariants.{Slot as Shows};
ghost use Rattle.mech_rows.specs.declared.kinds.Slot.TheVariants.{Ra, X2, X3, X4, X5};
ghost use Rattle.mech_rows.specs.declared.refusal.Refusal.TheVariants.{Memory};
ghost use Rattle.mech_rows.specs.Openings.{has_parts};
ghost use Rattle.mech_rows.specs.Verdict.{at, message_items};
ghost use Rattle.text_hooks.specs.Leading.{Leads, Refuses};
ghost use Rattle.text_hooks.specs.Names.{key_of, opened_by};
ghost use Rattle.roles_9798_4.specs.C4A.{covered as covered_a, is_c4a, run as run_a};
ghost use Rattle.roles_9798_4.specs.C4B.{covered as covered_b, is_c4b, run as run_b};
ghost use Rattle.roles_9798_4.specs.declared.c4.StageA.TheVariants.{Start as StartA};
ghost use Rattle.roles_9798_4.specs.declared.c4.StageA.TheVariants.{Heard as HeardA, Sent as SentA};
ghost use Rattle.roles_9798_4.specs.declared.c4.StageA.TheVariants.{Done as DoneA};
ghost use Rattle.roles_9798_4.specs.declared.c4.StageB.TheVariants.{Asked as AskedB};
ghost use Rattle.roles_9798_4.specs.declared.c4.StageB.TheVariants.{Heard as HeardB};

// Pass 1, B to A: Rb, X1 in the clear.
// Pass 2, A to B: Ra, X2, X3 in the clear, and a check of Ra, Rb, X2.
// Pass 3, B to A: X4, X5 in the clear, and a check of Rb, Ra, X4.

use mech_rows::{Clear, Mech, Opening, Refusal, Ring, Role, RunHead, Slot, Stated, Texts, Value};
use outside::Draws;
use seal_trait::Sealer;
use std::alloc::Global;
use term_values::{Nonce, OutOfMemory, Stamp, Tag, Term, Text};
use text_hooks::{
    Challenge, Challenged, ChallengerTexts, Challenging, Delivery, NoteList, Pair, Phase, Reply,
    RoleState, SecondTexts, Sent, Shown, SlotValue, Taken, add, asked, challenge, draw_nonce,
    grown, grown_by, item_at, key_between, nonce_at, own_text, read_message, said_still,
    say_checked, take_text, take_texts, test_item, text_at, two_nonces,
};

/// What the third message shows.
#[derive(Clone, PartialEq, Eq, Drop)]
pub struct Third {
    x4: Text,
    x5: Text,
}

impl Shown for Third {
    ghost use Rattle.roles_9798_4.specs.C4A.{third};

    ghost notes_of = { third };

    fn note(&self, alloc: Global, notes: &mut NoteList) -> Result<(), OutOfMemory> {
        add(notes, Slot::X4, Value::Text(self.x4.copy(alloc)?))?;
        add(notes, Slot::X5, Value::Text(self.x5.copy(alloc)?))
    }
}

/// It has taken the third message.
#[derive(Clone, PartialEq, Eq, Drop)]
pub struct ThirdTaken {
    sent: Sent,
    third: Third,
}

/// How far A is.
#[derive(Clone, PartialEq, Eq, Drop)]
pub enum StageA {
    /// It waits for the challenge.
    Start(SecondTexts),
    /// It has heard the challenge.
    Heard(Challenged),
    /// It waits for the third message.
    Sent(Sent),
    /// It has taken the third message.
    Done(ThirdTaken),
}

/// A in C4.
#[derive(Clone, PartialEq, Eq, Drop)]
pub struct C4A {
    names: Pair,
    stage: StageA,
}

impl Stated for C4A {
    ghost use Rattle.roles_9798_4.specs.C4A.{state_of as state_of_c4a};

    ghost state_of = { state_of_c4a };
}

/// What the challenge shows, where it fits.
fn read_challenge<S: Sealer>(
    delivery: &Delivery<S>,
    names: &Pair,
    own: &SecondTexts,
) -> Result<Challenge, Refusal>
    ensures fit { IfOk result (λ c. Leads S.opens S.checks delivery.now
        (run_a names.now (StartA own.now))
        (run_a names.now (HeardA (record { own = own.now; challenge = c }))) [] []) }
    ensures refused { IfErr result
        (Refuses S.opens S.checks delivery.now (run_a names.now (StartA own.now))) }
{
    let items = read_message(
        delivery.term,
        &Tag([2, 4, 1, 0]),
        names.b,
        &[Clear::Slot(Slot::Rb), Clear::Slot(Slot::X1)],
        &[],
    )?;
    let x1 = text_at(items, 2);
    let x1 = take_text(delivery.alloc, delivery.hook, Mech::C4, Slot::X1, x1)?;
    let rb = nonce_at(items, 1);
    Ok(Challenge { rb, x1 })
}

/// What the third message shows, whose items these are, and whose check holds.
fn third_of<S: Sealer>(
    delivery: &Delivery<S>,
    names: &Pair,
    known: &Sent,
    items: &[Term],
    x4: &Text,
    x5: &Text,
) -> Result<Third, Refusal>
    requires items { message_items (2 ∷ 4 ∷ 3 ∷ 0 ∷ []) names.now.b (Shows X4 ∷ Shows X5 ∷ [])
        (true ∷ []) delivery.now.term.now ≡ Ok items.now }
    requires x4 { at items.now 1 ≡ text x4.now }
    requires x5 { at items.now 2 ≡ text x5.now }
    requires checked { S.checks (key_of delivery.now.ring.now names.now)
        (covered_a names.now known.now x4.now)
        (at items.now 3) ≡ true }
    ensures fit { IfOk result (λ v. Leads S.opens S.checks delivery.now
        (run_a names.now (SentA known.now))
        (run_a names.now (DoneA (record { sent = known.now; third = v })))
        (opened_by delivery.now.ring.now names.now (at items.now 3) (covered_a names.now known.now x4.now))
        []) }
    ensures refused { IfErr result
        (Refuses S.opens S.checks delivery.now (run_a names.now (SentA known.now))) }
{
    let x4 = (Slot::X4, x4);
    let x5 = (Slot::X5, x5);
    let (x4, x5) = take_texts(delivery.alloc, delivery.hook, Mech::C4, x4, x5)?;
    Ok(Third { x4, x5 })
}

/// The run that has taken the third message, with what it checked.
fn read_third<S: Sealer>(
    delivery: &Delivery<S>,
    names: &Pair,
    known: &Sent,
) -> Result<(ThirdTaken, Vec<Opening>), Refusal>
    requires parts { has_parts delivery.now.ring.now
        (run_a names.now (SentA known.now)).head ≡ true }
    ensures fit { IfOk result (λ p. Leads S.opens S.checks delivery.now
        (run_a names.now (SentA known.now)) (run_a names.now (DoneA p.0)) p.1.items []) }
    ensures refused { IfErr result
        (Refuses S.opens S.checks delivery.now (run_a names.now (SentA known.now))) }
{
    let alloc = delivery.alloc;
    let items = read_message(
        delivery.term,
        &Tag([2, 4, 3, 0]),
        names.b,
        &[Clear::Slot(Slot::X4), Clear::Slot(Slot::X5)],
        &[true],
    )?;
    let x4 = text_at(items, 1);
    let x5 = text_at(items, 2);
    let body = two_nonces(
        alloc,
        Tag([2, 4, 3, 1]),
        names.a,
        names.b,
        &known.challenge.rb,
        &known.ra,
        x4,
    )?;
    let key = key_between(delivery.ring, names.a, names.b);
    let item = test_item(alloc, delivery.sealer, key, body, item_at(items, 3), 1)?;
    let third = third_of(delivery, names, known, items, x4, x5);
    let (sent, third, opened) = grown_by(alloc, known, third, item)?;
    Ok((ThirdTaken { sent, third }, opened))
}

impl RoleState for C4A {
    ghost plays = { is_c4a };

    fn begin(alloc: Global, head: &RunHead, texts: &Texts) -> Result<C4A, OutOfMemory> {
        let x2 = own_text(alloc, texts, Slot::X2)?;
        let x3 = own_text(alloc, texts, Slot::X3)?;
        Ok(C4A {
            names: Pair {
                a: head.a,
                b: head.b,
            },
            stage: StageA::Start(SecondTexts { x2, x3 }),
        })
    }

    fn head(&self) -> RunHead {
        self.names.head(Mech::C4, Role::A)
    }

    fn copy(&self, _alloc: Global) -> Result<C4A, OutOfMemory> {
        self.clone()
    }

    fn same(&self, other: &C4A) -> bool {
        self.names == other.names && self.stage == other.stage
    }

    fn note(&self, alloc: Global, notes: &mut NoteList) -> Result<(), OutOfMemory> {
        match &self.stage {
            StageA::Start(own) => own.note(alloc, notes),
            StageA::Heard(known) => known.note(alloc, notes),
            StageA::Sent(known) => known.note(alloc, notes),
            StageA::Done(known) => {
                known.sent.note(alloc, notes)?;
                known.third.note(alloc, notes)
            }
        }
    }

    fn phase(&self) -> Phase {
        match &self.stage {
            StageA::Start(_) => Phase::receives(0),
            StageA::Heard(_) => Phase::sends(1),
            StageA::Sent(_) => Phase::receives(2),
            StageA::Done(_) => Phase::done(3),
        }
    }

    fn read<S: Sealer>(&self, delivery: &Delivery<S>) -> Result<Taken<C4A>, Refusal> {
        let names = &self.names;
        match &self.stage {
            StageA::Start(own) => {
                let shown = read_challenge(delivery, names, own);
                let (own, challenge) = grown(own, shown)?;
                Ok(Taken {
                    after: C4A {
                        names: *names,
                        stage: StageA::Heard(Challenged { own, challenge }),
                    },
                    opened: Vec::new(delivery.alloc),
                    got: Vec::new(delivery.alloc),
                })
            }
            StageA::Sent(known) => {
                let (known, opened) = read_third(delivery, names, known)?;
                Ok(Taken {
                    after: C4A {
                        names: *names,
                        stage: StageA::Done(known),
                    },
                    opened,
                    got: Vec::new(delivery.alloc),
                })
            }
            _ => Err(Refusal::WrongPass),
        }
    }

    fn speak<S: Sealer, D: Draws>(
        &self,
        alloc: Global,
        sealer: &S,
        ring: &Ring,
        draws: &mut D,
        _stamp: Option<Stamp>,
    ) -> Result<Reply<C4A>, Refusal> {
        let names = &self.names;
        let StageA::Heard(known) = &self.stage else {
            return Err(Refusal::WrongPass);
        };
        let Challenged { own, challenge } = known;
        let ra = draw_nonce(draws)?;
        let key = key_between(ring, names.a, names.b);
        let body = two_nonces(
            alloc,
            Tag([2, 4, 2, 1]),
            names.a,
            names.b,
            &ra,
            &challenge.rb,
            &own.x2,
        )?;
        let said = say_checked(
            alloc,
            sealer,
            key,
            body,
            Tag([2, 4, 2, 0]),
            Some(SlotValue::Nonce(ra)),
            &own.x2,
            &own.x3,
        )?;
        let Reply {
            after,
            message,
            sealed,
        } = said_still(alloc, known, said)?;
        let Challenged { own, challenge } = after;
        Ok(Reply {
            after: C4A {
                names: *names,
                stage: StageA::Sent(Sent { own, challenge, ra }),
            },
            message,
            sealed,
        })
    }
}

/// What the second message shows.
#[derive(Clone, PartialEq, Eq, Drop)]
pub struct Second {
    ra: Nonce,
    x2: Text,
    x3: Text,
}

impl Shown for Second {
    ghost use Rattle.roles_9798_4.specs.C4B.{second};

    ghost notes_of = { second };

    fn note(&self, alloc: Global, notes: &mut NoteList) -> Result<(), OutOfMemory> {
        add(notes, Slot::Ra, Value::Nonce(self.ra))?;
        add(notes, Slot::X2, Value::Text(self.x2.copy(alloc)?))?;
        add(notes, Slot::X3, Value::Text(self.x3.copy(alloc)?))
    }
}

/// It has heard the second message.
#[derive(Clone, PartialEq, Eq, Drop)]
pub struct SecondHeard {
    asked: Challenging,
    second: Second,
}

/// How far B is.
#[derive(Clone, PartialEq, Eq, Drop)]
pub enum StageB {
    /// It sends the challenge.
    Start(ChallengerTexts),
    /// It waits for the second message.
    Asked(Challenging),
    /// It has heard the second message.
    Heard(SecondHeard),
    /// It has sent the third message.
    Done(SecondHeard),
}

/// B in C4.
#[derive(Clone, PartialEq, Eq, Drop)]
pub struct C4B {
    names: Pair,
    stage: StageB,
}

impl Stated for C4B {
    ghost use Rattle.roles_9798_4.specs.C4B.{state_of as state_of_c4b};

    ghost state_of = { state_of_c4b };
}

/// What the second message shows, whose items these are, and whose check holds.
fn second_of<S: Sealer>(
    delivery: &Delivery<S>,
    names: &Pair,
    known: &Challenging,
    items: &[Term],
    ra: Nonce,
    x2: &Text,
    x3: &Text,
) -> Result<Second, Refusal>
    requires items { message_items (2 ∷ 4 ∷ 2 ∷ 0 ∷ []) names.now.b
        (Shows Ra ∷ Shows X2 ∷ Shows X3 ∷ []) (true ∷ []) delivery.now.term.now ≡ Ok items.now }
    requires ra { at items.now 1 ≡ nonce ra }
    requires x2 { at items.now 2 ≡ text x2.now }
    requires x3 { at items.now 3 ≡ text x3.now }
    requires checked { S.checks (key_of delivery.now.ring.now names.now)
        (covered_b names.now known.now ra x2.now)
        (at items.now 4) ≡ true }
    ensures fit { IfOk result (λ v. Leads S.opens S.checks delivery.now
        (run_b names.now (AskedB known.now))
        (run_b names.now (HeardB (record { asked = known.now; second = v })))
        (opened_by delivery.now.ring.now names.now (at items.now 4) (covered_b names.now known.now ra x2.now))
        []) }
    ensures refused { IfErr result
        (Refuses S.opens S.checks delivery.now (run_b names.now (AskedB known.now))) }
{
    let x2 = (Slot::X2, x2);
    let x3 = (Slot::X3, x3);
    let (x2, x3) = take_texts(delivery.alloc, delivery.hook, Mech::C4, x2, x3)?;
    Ok(Second { ra, x2, x3 })
}

/// The run that has taken the second message, with what it checked.
fn read_second<S: Sealer>(
    delivery: &Delivery<S>,
    names: &Pair,
    known: &Challenging,
) -> Result<(SecondHeard, Vec<Opening>), Refusal>
    requires parts { has_parts delivery.now.ring.now
        (run_b names.now (AskedB known.now)).head ≡ true }
    ensures fit { IfOk result (λ p. Leads S.opens S.checks delivery.now
        (run_b names.now (AskedB known.now)) (run_b names.now (HeardB p.0)) p.1.items []) }
    ensures refused { IfErr result
        (Refuses S.opens S.checks delivery.now (run_b names.now (AskedB known.now))) }
{
    let alloc = delivery.alloc;
    let items = read_message(
        delivery.term,
        &Tag([2, 4, 2, 0]),
        names.b,
        &[
            Clear::Slot(Slot::Ra),
            Clear::Slot(Slot::X2),
            Clear::Slot(Slot::X3),
        ],
        &[true],
    )?;
    let ra = nonce_at(items, 1);
    let x2 = text_at(items, 2);
    let x3 = text_at(items, 3);
    let body = two_nonces(
        alloc,
        Tag([2, 4, 2, 1]),
        names.a,
        names.b,
        &ra,
        &known.rb,
        x2,
    )?;
    let key = key_between(delivery.ring, names.a, names.b);
    let item = test_item(alloc, delivery.sealer, key, body, item_at(items, 4), 1)?;
    let second = second_of(delivery, names, known, items, ra, x2, x3);
    let (asked, second, opened) = grown_by(alloc, known, second, item)?;
    Ok((SecondHeard { asked, second }, opened))
}

impl RoleState for C4B {
    ghost plays = { is_c4b };

    fn begin(alloc: Global, head: &RunHead, texts: &Texts) -> Result<C4B, OutOfMemory> {
        let x1 = own_text(alloc, texts, Slot::X1)?;
        let x4 = own_text(alloc, texts, Slot::X4)?;
        let x5 = own_text(alloc, texts, Slot::X5)?;
        Ok(C4B {
            names: Pair {
                a: head.a,
                b: head.b,
            },
            stage: StageB::Start(ChallengerTexts { x1, x4, x5 }),
        })
    }

    fn head(&self) -> RunHead {
        self.names.head(Mech::C4, Role::B)
    }

    fn copy(&self, _alloc: Global) -> Result<C4B, OutOfMemory> {
        self.clone()
    }

    fn same(&self, other: &C4B) -> bool {
        self.names == other.names && self.stage == other.stage
    }

    fn note(&self, alloc: Global, notes: &mut NoteList) -> Result<(), OutOfMemory> {
        match &self.stage {
            StageB::Start(own) => own.note(alloc, notes),
            StageB::Asked(known) => known.note(alloc, notes),
            StageB::Heard(known) | StageB::Done(known) => {
                known.asked.note(alloc, notes)?;
                known.second.note(alloc, notes)
            }
        }
    }

    fn phase(&self) -> Phase {
        match &self.stage {
            StageB::Start(_) => Phase::sends(0),
            StageB::Asked(_) => Phase::receives(1),
            StageB::Heard(_) => Phase::sends(2),
            StageB::Done(_) => Phase::done(3),
        }
    }

    fn read<S: Sealer>(&self, delivery: &Delivery<S>) -> Result<Taken<C4B>, Refusal> {
        let names = &self.names;
        let StageB::Asked(known) = &self.stage else {
            return Err(Refusal::WrongPass);
        };
        let (known, opened) = read_second(delivery, names, known)?;
        Ok(Taken {
            after: C4B {
                names: *names,
                stage: StageB::Heard(known),
            },
            opened,
            got: Vec::new(delivery.alloc),
        })
    }

    fn speak<S: Sealer, D: Draws>(
        &self,
        alloc: Global,
        sealer: &S,
        ring: &Ring,
        draws: &mut D,
        _stamp: Option<Stamp>,
    ) -> Result<Reply<C4B>, Refusal> {
        let names = &self.names;
        match &self.stage {
            StageB::Start(own) => {
                let rb = draw_nonce(draws)?;
                let message = challenge(alloc, Tag([2, 4, 1, 0]), &rb, &own.x1)?;
                let Reply {
                    after: own,
                    message,
                    sealed,
                } = asked(alloc, own, message)?;
                Ok(Reply {
                    after: C4B {
                        names: *names,
                        stage: StageB::Asked(Challenging { own, rb }),
                    },
                    message,
                    sealed,
                })
            }
            StageB::Heard(known) => {
                let Challenging { own, rb } = &known.asked;
                let key = key_between(ring, names.a, names.b);
                let body = two_nonces(
                    alloc,
                    Tag([2, 4, 3, 1]),
                    names.a,
                    names.b,
                    rb,
                    &known.second.ra,
                    &own.x4,
                )?;
                let said = say_checked(
                    alloc,
                    sealer,
                    key,
                    body,
                    Tag([2, 4, 3, 0]),
                    None,
                    &own.x4,
                    &own.x5,
                )?;
                let Reply {
                    after,
                    message,
                    sealed,
                } = said_still(alloc, known, said)?;
                Ok(Reply {
                    after: C4B {
                        names: *names,
                        stage: StageB::Done(after),
                    },
                    message,
                    sealed,
                })
            }
            _ => Err(Refusal::WrongPass),
        }
    }
}
