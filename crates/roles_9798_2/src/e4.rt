ghost use Rattle.std.specs.Prelude.{◌≡◌, ◌≢◌, ◌∷◌, [], true, length, Some, Ok, Err, IfOk, IfErr};
ghost use Rattle.mech_rows.specs.declared.kinds.Clear.TheVariants.{Slot as Shows};
ghost use Rattle.mech_rows.specs.declared.kinds.Slot.TheVariants.{X3, X5};
ghost use Rattle.mech_rows.specs.declared.refusal.Refusal.TheVariants.{Memory};
ghost use Rattle.mech_rows.specs.Openings.{has_parts};
ghost use Rattle.mech_rows.specs.Verdict.{are_clear, at, message_items};
ghost use Rattle.text_hooks.specs.Leading.{Leads, Refuses};
ghost use Rattle.text_hooks.specs.Names.{key_of, opened_by};
ghost use Rattle.roles_9798_2.specs.E4A.{is_e4a, run as run_a};
ghost use Rattle.roles_9798_2.specs.E4B.{is_e4b, run as run_b};
ghost use Rattle.roles_9798_2.specs.declared.e4.StageA.TheVariants.{Start as StartA};
ghost use Rattle.roles_9798_2.specs.declared.e4.StageA.TheVariants.{Heard as HeardA, Sent as SentA};
ghost use Rattle.roles_9798_2.specs.declared.e4.StageA.TheVariants.{Done as DoneA};
ghost use Rattle.roles_9798_2.specs.declared.e4.StageB.TheVariants.{Asked as AskedB};
ghost use Rattle.roles_9798_2.specs.declared.e4.StageB.TheVariants.{Heard as HeardB};

// Pass 1, B to A: Rb, X1 in the clear.
// Pass 2, A to B: X3 in the clear, and a seal of Ra, Rb, X2.
// Pass 3, B to A: X5 in the clear, and a seal of Rb, Ra, X4.

use mech_rows::{Clear, Mech, Opening, Refusal, Ring, Role, RunHead, Slot, Stated, Texts, Value};
use outside::Draws;
use seal_trait::Sealer;
use std::alloc::Global;
use term_values::{Nonce, OutOfMemory, Stamp, Tag, Term, Text};
use text_hooks::{
    Challenge, Challenged, ChallengerTexts, Challenging, Delivery, NoteList, Pair, Phase, Reply,
    RoleState, SecondTexts, Sent, Shown, Taken, add, asked, challenge, compare_nonce, draw_nonce,
    grown, grown_by, item_at, key_between, nonce_at, open_item, own_text, read_body, read_message,
    said_still, say_sealed, take_text, take_texts, text_at, two_nonces,
};

/// What the third message shows.
#[derive(Clone, PartialEq, Eq, Drop)]
pub struct Third {
    x5: Text,
    x4: Text,
}

impl Shown for Third {
    ghost use Rattle.roles_9798_2.specs.E4A.{third};

    ghost notes_of = { third };

    fn note(&self, alloc: Global, notes: &mut NoteList) -> Result<(), OutOfMemory> {
        add(notes, Slot::X5, Value::Text(self.x5.copy(alloc)?))?;
        add(notes, Slot::X4, Value::Text(self.x4.copy(alloc)?))
    }
}

/// It has taken the third message.
#[derive(Clone, PartialEq, Eq, Drop)]
pub struct ThirdTaken {
    sent: Sent,
    third: Third,
}

/// How far A is.
#[derive(Clone, PartialEq, Eq, Drop)]
pub enum StageA {
    /// It waits for the challenge.
    Start(SecondTexts),
    /// It has heard the challenge.
    Heard(Challenged),
    /// It waits for the third message.
    Sent(Sent),
    /// It has taken the third message.
    Done(ThirdTaken),
}

/// A in E4.
#[derive(Clone, PartialEq, Eq, Drop)]
pub struct E4A {
    names: Pair,
    stage: StageA,
}

impl Stated for E4A {
    ghost use Rattle.roles_9798_2.specs.E4A.{state_of as state_of_e4a};

    ghost state_of = { state_of_e4a };
}

/// What the challenge shows, where it fits.
fn read_challenge<S: Sealer>(
    delivery: &Delivery<S>,
    names: &Pair,
    own: &SecondTexts,
) -> Result<Challenge, Refusal>
    ensures fit { IfOk result (λ c. Leads S.opens S.checks delivery.now
        (run_a names.now (StartA own.now))
        (run_a names.now (HeardA (record { own = own.now; challenge = c }))) [] []) }
    ensures refused { IfErr result
        (Refuses S.opens S.checks delivery.now (run_a names.now (StartA own.now))) }
{
    let items = read_message(
        delivery.term,
        &Tag([1, 4, 1, 0]),
        names.b,
        &[Clear::Slot(Slot::Rb), Clear::Slot(Slot::X1)],
        &[],
    )?;
    let x1 = text_at(items, 2);
    let x1 = take_text(delivery.alloc, delivery.hook, Mech::E4, Slot::X1, x1)?;
    let rb = nonce_at(items, 1);
    Ok(Challenge { rb, x1 })
}

/// What the third message shows, by its items and its opened body, where it fits.
fn third_of<S: Sealer>(
    delivery: &Delivery<S>,
    names: &Pair,
    known: &Sent,
    items: &[Term],
    body: &Term,
) -> Result<Third, Refusal>
    requires length { length items.now ≡ 3 }
    requires kinds { are_clear items.now 1 (Shows X5 ∷ []) ≡ true }
    requires items { message_items (1 ∷ 4 ∷ 3 ∷ 0 ∷ []) names.now.b (Shows X5 ∷ []) (true ∷ [])
        delivery.now.term.now ≡ Ok items.now }
    requires opened { S.opens (key_of delivery.now.ring.now names.now) (at items.now 2)
        ≡ Some body.now }
    ensures fit { IfOk result (λ v. Leads S.opens S.checks delivery.now
        (run_a names.now (SentA known.now))
        (run_a names.now (DoneA (record { sent = known.now; third = v })))
        (opened_by delivery.now.ring.now names.now (at items.now 2) body.now) []) }
    ensures refused { IfErr result
        (Refuses S.opens S.checks delivery.now (run_a names.now (SentA known.now))) }
{
    let (a, b) = (names.a, names.b);
    let slots = read_body(
        body,
        &Tag([1, 4, 3, 1]),
        &[a, b],
        &[Slot::Rb, Slot::Ra, Slot::X4],
        1,
    )?;
    compare_nonce(&nonce_at(slots, 3), &known.challenge.rb, 1, Slot::Rb)?;
    compare_nonce(&nonce_at(slots, 4), &known.ra, 1, Slot::Ra)?;
    let x5 = (Slot::X5, text_at(items, 1));
    let x4 = (Slot::X4, text_at(slots, 5));
    let (x5, x4) = take_texts(delivery.alloc, delivery.hook, Mech::E4, x5, x4)?;
    Ok(Third { x5, x4 })
}

/// The run that has taken the third message, with what it opened.
fn read_third<S: Sealer>(
    delivery: &Delivery<S>,
    names: &Pair,
    known: &Sent,
) -> Result<(ThirdTaken, Vec<Opening>), Refusal>
    requires parts { has_parts delivery.now.ring.now
        (run_a names.now (SentA known.now)).head ≡ true }
    ensures fit { IfOk result (λ p. Leads S.opens S.checks delivery.now
        (run_a names.now (SentA known.now)) (run_a names.now (DoneA p.0)) p.1.items []) }
    ensures refused { IfErr result
        (Refuses S.opens S.checks delivery.now (run_a names.now (SentA known.now))) }
{
    let alloc = delivery.alloc;
    let items = read_message(
        delivery.term,
        &Tag([1, 4, 3, 0]),
        names.b,
        &[Clear::Slot(Slot::X5)],
        &[true],
    )?;
    let key = key_between(delivery.ring, names.a, names.b);
    let item = open_item(alloc, delivery.sealer, key, item_at(items, 2), 1)?;
    let third = third_of(delivery, names, known, items, &item.body);
    let (sent, third, opened) = grown_by(alloc, known, third, item)?;
    Ok((ThirdTaken { sent, third }, opened))
}

impl RoleState for E4A {
    ghost plays = { is_e4a };

    fn begin(alloc: Global, head: &RunHead, texts: &Texts) -> Result<E4A, OutOfMemory> {
        let x2 = own_text(alloc, texts, Slot::X2)?;
        let x3 = own_text(alloc, texts, Slot::X3)?;
        Ok(E4A {
            names: Pair {
                a: head.a,
                b: head.b,
            },
            stage: StageA::Start(SecondTexts { x2, x3 }),
        })
    }

    fn head(&self) -> RunHead {
        self.names.head(Mech::E4, Role::A)
    }

    fn copy(&self, _alloc: Global) -> Result<E4A, OutOfMemory> {
        self.clone()
    }

    fn same(&self, other: &E4A) -> bool {
        self.names == other.names && self.stage == other.stage
    }

    fn note(&self, alloc: Global, notes: &mut NoteList) -> Result<(), OutOfMemory> {
        match &self.stage {
            StageA::Start(own) => own.note(alloc, notes),
            StageA::Heard(known) => known.note(alloc, notes),
            StageA::Sent(known) => known.note(alloc, notes),
            StageA::Done(known) => {
                known.sent.note(alloc, notes)?;
                known.third.note(alloc, notes)
            }
        }
    }

    fn phase(&self) -> Phase {
        match &self.stage {
            StageA::Start(_) => Phase::receives(0),
            StageA::Heard(_) => Phase::sends(1),
            StageA::Sent(_) => Phase::receives(2),
            StageA::Done(_) => Phase::done(3),
        }
    }

    fn read<S: Sealer>(&self, delivery: &Delivery<S>) -> Result<Taken<E4A>, Refusal> {
        let names = &self.names;
        match &self.stage {
            StageA::Start(own) => {
                let shown = read_challenge(delivery, names, own);
                let (own, challenge) = grown(own, shown)?;
                Ok(Taken {
                    after: E4A {
                        names: *names,
                        stage: StageA::Heard(Challenged { own, challenge }),
                    },
                    opened: Vec::new(delivery.alloc),
                    got: Vec::new(delivery.alloc),
                })
            }
            StageA::Sent(known) => {
                let (known, opened) = read_third(delivery, names, known)?;
                Ok(Taken {
                    after: E4A {
                        names: *names,
                        stage: StageA::Done(known),
                    },
                    opened,
                    got: Vec::new(delivery.alloc),
                })
            }
            _ => Err(Refusal::WrongPass),
        }
    }

    fn speak<S: Sealer, D: Draws>(
        &self,
        alloc: Global,
        sealer: &S,
        ring: &Ring,
        draws: &mut D,
        _stamp: Option<Stamp>,
    ) -> Result<Reply<E4A>, Refusal> {
        let names = &self.names;
        let StageA::Heard(known) = &self.stage else {
            return Err(Refusal::WrongPass);
        };
        let Challenged { own, challenge } = known;
        let ra = draw_nonce(draws)?;
        let key = key_between(ring, names.a, names.b);
        let body = two_nonces(
            alloc,
            Tag([1, 4, 2, 1]),
            names.a,
            names.b,
            &ra,
            &challenge.rb,
            &own.x2,
        )?;
        let said = say_sealed(alloc, sealer, draws, key, body, Tag([1, 4, 2, 0]), &own.x3)?;
        let Reply {
            after,
            message,
            sealed,
        } = said_still(alloc, known, said)?;
        let Challenged { own, challenge } = after;
        Ok(Reply {
            after: E4A {
                names: *names,
                stage: StageA::Sent(Sent { own, challenge, ra }),
            },
            message,
            sealed,
        })
    }
}

/// What the second message shows.
#[derive(Clone, PartialEq, Eq, Drop)]
pub struct Second {
    x3: Text,
    ra: Nonce,
    x2: Text,
}

impl Shown for Second {
    ghost use Rattle.roles_9798_2.specs.E4B.{second};

    ghost notes_of = { second };

    fn note(&self, alloc: Global, notes: &mut NoteList) -> Result<(), OutOfMemory> {
        add(notes, Slot::X3, Value::Text(self.x3.copy(alloc)?))?;
        add(notes, Slot::Ra, Value::Nonce(self.ra))?;
        add(notes, Slot::X2, Value::Text(self.x2.copy(alloc)?))
    }
}

/// It has heard the second message.
#[derive(Clone, PartialEq, Eq, Drop)]
pub struct SecondHeard {
    asked: Challenging,
    second: Second,
}

/// How far B is.
#[derive(Clone, PartialEq, Eq, Drop)]
pub enum StageB {
    /// It sends the challenge.
    Start(ChallengerTexts),
    /// It waits for the second message.
    Asked(Challenging),
    /// It has heard the second message.
    Heard(SecondHeard),
    /// It has sent the third message.
    Done(SecondHeard),
}

/// B in E4.
#[derive(Clone, PartialEq, Eq, Drop)]
pub struct E4B {
    names: Pair,
    stage: StageB,
}

impl Stated for E4B {
    ghost use Rattle.roles_9798_2.specs.E4B.{state_of as state_of_e4b};

    ghost state_of = { state_of_e4b };
}

/// What the second message shows, by its items and its opened body, where it fits.
fn second_of<S: Sealer>(
    delivery: &Delivery<S>,
    names: &Pair,
    known: &Challenging,
    items: &[Term],
    body: &Term,
) -> Result<Second, Refusal>
    requires length { length items.now ≡ 3 }
    requires kinds { are_clear items.now 1 (Shows X3 ∷ []) ≡ true }
    requires items { message_items (1 ∷ 4 ∷ 2 ∷ 0 ∷ []) names.now.b (Shows X3 ∷ []) (true ∷ [])
        delivery.now.term.now ≡ Ok items.now }
    requires opened { S.opens (key_of delivery.now.ring.now names.now) (at items.now 2)
        ≡ Some body.now }
    ensures fit { IfOk result (λ v. Leads S.opens S.checks delivery.now
        (run_b names.now (AskedB known.now))
        (run_b names.now (HeardB (record { asked = known.now; second = v })))
        (opened_by delivery.now.ring.now names.now (at items.now 2) body.now) []) }
    ensures refused { IfErr result
        (Refuses S.opens S.checks delivery.now (run_b names.now (AskedB known.now))) }
{
    let (a, b) = (names.a, names.b);
    let slots = read_body(
        body,
        &Tag([1, 4, 2, 1]),
        &[a, b],
        &[Slot::Ra, Slot::Rb, Slot::X2],
        1,
    )?;
    compare_nonce(&nonce_at(slots, 4), &known.rb, 1, Slot::Rb)?;
    let x3 = (Slot::X3, text_at(items, 1));
    let x2 = (Slot::X2, text_at(slots, 5));
    let (x3, x2) = take_texts(delivery.alloc, delivery.hook, Mech::E4, x3, x2)?;
    let ra = nonce_at(slots, 3);
    Ok(Second { x3, ra, x2 })
}

/// The run that has taken the second message, with what it opened.
fn read_second<S: Sealer>(
    delivery: &Delivery<S>,
    names: &Pair,
    known: &Challenging,
) -> Result<(SecondHeard, Vec<Opening>), Refusal>
    requires parts { has_parts delivery.now.ring.now
        (run_b names.now (AskedB known.now)).head ≡ true }
    ensures fit { IfOk result (λ p. Leads S.opens S.checks delivery.now
        (run_b names.now (AskedB known.now)) (run_b names.now (HeardB p.0)) p.1.items []) }
    ensures refused { IfErr result
        (Refuses S.opens S.checks delivery.now (run_b names.now (AskedB known.now))) }
{
    let alloc = delivery.alloc;
    let items = read_message(
        delivery.term,
        &Tag([1, 4, 2, 0]),
        names.b,
        &[Clear::Slot(Slot::X3)],
        &[true],
    )?;
    let key = key_between(delivery.ring, names.a, names.b);
    let item = open_item(alloc, delivery.sealer, key, item_at(items, 2), 1)?;
    let second = second_of(delivery, names, known, items, &item.body);
    let (asked, second, opened) = grown_by(alloc, known, second, item)?;
    Ok((SecondHeard { asked, second }, opened))
}

impl RoleState for E4B {
    ghost plays = { is_e4b };

    fn begin(alloc: Global, head: &RunHead, texts: &Texts) -> Result<E4B, OutOfMemory> {
        let x1 = own_text(alloc, texts, Slot::X1)?;
        let x4 = own_text(alloc, texts, Slot::X4)?;
        let x5 = own_text(alloc, texts, Slot::X5)?;
        Ok(E4B {
            names: Pair {
                a: head.a,
                b: head.b,
            },
            stage: StageB::Start(ChallengerTexts { x1, x4, x5 }),
        })
    }

    fn head(&self) -> RunHead {
        self.names.head(Mech::E4, Role::B)
    }

    fn copy(&self, _alloc: Global) -> Result<E4B, OutOfMemory> {
        self.clone()
    }

    fn same(&self, other: &E4B) -> bool {
        self.names == other.names && self.stage == other.stage
    }

    fn note(&self, alloc: Global, notes: &mut NoteList) -> Result<(), OutOfMemory> {
        match &self.stage {
            StageB::Start(own) => own.note(alloc, notes),
            StageB::Asked(known) => known.note(alloc, notes),
            StageB::Heard(known) | StageB::Done(known) => {
                known.asked.note(alloc, notes)?;
                known.second.note(alloc, notes)
            }
        }
    }

    fn phase(&self) -> Phase {
        match &self.stage {
            StageB::Start(_) => Phase::sends(0),
            StageB::Asked(_) => Phase::receives(1),
            StageB::Heard(_) => Phase::sends(2),
            StageB::Done(_) => Phase::done(3),
        }
    }

    fn read<S: Sealer>(&self, delivery: &Delivery<S>) -> Result<Taken<E4B>, Refusal> {
        let names = &self.names;
        let StageB::Asked(known) = &self.stage else {
            return Err(Refusal::WrongPass);
        };
        let (known, opened) = read_second(delivery, names, known)?;
        Ok(Taken {
            after: E4B {
                names: *names,
                stage: StageB::Heard(known),
            },
            opened,
            got: Vec::new(delivery.alloc),
        })
    }

    fn speak<S: Sealer, D: Draws>(
        &self,
        alloc: Global,
        sealer: &S,
        ring: &Ring,
        draws: &mut D,
        _stamp: Option<Stamp>,
    ) -> Result<Reply<E4B>, Refusal> {
        let names = &self.names;
        match &self.stage {
            StageB::Start(own) => {
                let rb = draw_nonce(draws)?;
                let message = challenge(alloc, Tag([1, 4, 1, 0]), &rb, &own.x1)?;
                let Reply {
                    after: own,
                    message,
                    sealed,
                } = asked(alloc, own, message)?;
                Ok(Reply {
                    after: E4B {
                        names: *names,
                        stage: StageB::Asked(Challenging { own, rb }),
                    },
                    message,
                    sealed,
                })
            }
            StageB::Heard(known) => {
                let Challenging { own, rb } = &known.asked;
                let key = key_between(ring, names.a, names.b);
                let body = two_nonces(
                    alloc,
                    Tag([1, 4, 3, 1]),
                    names.a,
                    names.b,
                    rb,
                    &known.second.ra,
                    &own.x4,
                )?;
                let said = say_sealed(alloc, sealer, draws, key, body, Tag([1, 4, 3, 0]), &own.x5)?;
                let Reply {
                    after,
                    message,
                    sealed,
                } = said_still(alloc, known, said)?;
                Ok(Reply {
                    after: E4B {
                        names: *names,
                        stage: StageB::Done(after),
                    },
                    message,
                    sealed,
                })
            }
            _ => Err(Refusal::WrongPass),
        }
    }
}
