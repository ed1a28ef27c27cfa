ghost use Rattle.std.specs.Prelude.{◌≡◌, ◌≢◌, ◌∷◌, [], true, length, Some, Ok, Err, IfOk, IfErr};
ghost use Rattle.mech_rows.specs.declared.refusal.Refusal.TheVariants.{Memory};
ghost use Rattle.mech_rows.specs.Openings.{has_parts};
ghost use Rattle.mech_rows.specs.Verdict.{at, message_items};
ghost use Rattle.text_hooks.specs.Leading.{Leads, Refuses};
ghost use Rattle.text_hooks.specs.Names.{key_of, opened_by};
ghost use Rattle.keys_11770_2.specs.K6A.{is_k6a, run as run_a};
ghost use Rattle.keys_11770_2.specs.K6B.{is_k6b, run as run_b};
ghost use Rattle.keys_11770_2.specs.declared.k6.StageA.TheVariants.{Start as StartA};
ghost use Rattle.keys_11770_2.specs.declared.k6.StageA.TheVariants.{Heard as HeardA, Sent as SentA};
ghost use Rattle.keys_11770_2.specs.declared.k6.StageA.TheVariants.{Done as DoneA};
ghost use Rattle.keys_11770_2.specs.declared.k6.StageB.TheVariants.{Asked as AskedB};
ghost use Rattle.keys_11770_2.specs.declared.k6.StageB.TheVariants.{Heard as HeardB};

// Pass 1, B to A: Rb, X1 in the clear.
// Pass 2, A to B: a seal of Ra, Rb, Fa, X2.
// Pass 3, B to A: a seal of Rb, Ra, Fb, X3.

use crate::pieces::two_nonces_and_part;
use mech_rows::{Clear, Mech, Opening, Refusal, Ring, Role, RunHead, Slot, Stated, Texts, Value};
use outside::Draws;
use seal_trait::Sealer;
use std::alloc::Global;
use term_values::{Nonce, OutOfMemory, Part, Stamp, Tag, Term, Text};
use text_hooks::{
    Challenge, Delivery, NoteList, Pair, Phase, Reply, RoleState, Shown, Taken, add, asked,
    challenge, compare_nonce, draw_nonce, draw_part, grown, grown_by, item_at, key_between,
    nonce_at, open_item, own_text, part_at, read_body, read_message, said_with, say_item,
    take_text, text_at,
};

/// The text that A seals.
#[derive(Clone, PartialEq, Eq, Drop)]
pub struct AnswerText {
    x2: Text,
}

impl Shown for AnswerText {
    ghost use Rattle.keys_11770_2.specs.K6A.{answer_text};

    ghost notes_of = { answer_text };

    fn note(&self, alloc: Global, notes: &mut NoteList) -> Result<(), OutOfMemory> {
        add(notes, Slot::X2, Value::Text(self.x2.copy(alloc)?))
    }
}

/// It has heard the challenge.
#[derive(Clone, PartialEq, Eq, Drop)]
pub struct ChallengeHeard {
    own: AnswerText,
    challenge: Challenge,
}

impl Shown for ChallengeHeard {
    ghost use Rattle.keys_11770_2.specs.K6A.{challenge_heard};

    ghost notes_of = { challenge_heard };

    fn note(&self, alloc: Global, notes: &mut NoteList) -> Result<(), OutOfMemory> {
        self.own.note(alloc, notes)?;
        self.challenge.note(alloc, notes)
    }
}

/// It has sent its nonce and its part of the key.
#[derive(Clone, PartialEq, Eq, Drop)]
pub struct PartSent {
    heard: ChallengeHeard,
    ra: Nonce,
    fa: Part,
}

impl Shown for PartSent {
    ghost use Rattle.keys_11770_2.specs.K6A.{part_sent};

    ghost notes_of = { part_sent };

    fn note(&self, alloc: Global, notes: &mut NoteList) -> Result<(), OutOfMemory> {
        self.heard.note(alloc, notes)?;
        add(notes, Slot::Ra, Value::Nonce(self.ra))?;
        add(notes, Slot::Fa, Value::Part(self.fa))
    }
}

/// What the third message shows.
#[derive(Clone, PartialEq, Eq, Drop)]
pub struct Third {
    fb: Part,
    x3: Text,
}

impl Shown for Third {
    ghost use Rattle.keys_11770_2.specs.K6A.{third};

    ghost notes_of = { third };

    fn note(&self, alloc: Global, notes: &mut NoteList) -> Result<(), OutOfMemory> {
        add(notes, Slot::Fb, Value::Part(self.fb))?;
        add(notes, Slot::X3, Value::Text(self.x3.copy(alloc)?))
    }
}

/// It has taken the third message.
#[derive(Clone, PartialEq, Eq, Drop)]
pub struct ThirdTaken {
    sent: PartSent,
    third: Third,
}

/// How far A is.
#[derive(Clone, PartialEq, Eq, Drop)]
pub enum StageA {
    /// It waits for the challenge.
    Start(AnswerText),
    /// It has heard the challenge.
    Heard(ChallengeHeard),
    /// It waits for the third message.
    Sent(PartSent),
    /// It has taken the third message.
    Done(ThirdTaken),
}

/// A in K6.
#[derive(Clone, PartialEq, Eq, Drop)]
pub struct K6A {
    names: Pair,
    stage: StageA,
}

impl Stated for K6A {
    ghost use Rattle.keys_11770_2.specs.K6A.{state_of as state_of_k6a};

    ghost state_of = { state_of_k6a };
}

/// What the challenge shows, where it fits.
fn read_challenge<S: Sealer>(
    delivery: &Delivery<S>,
    names: &Pair,
    own: &AnswerText,
) -> Result<Challenge, Refusal>
    ensures fit { IfOk result (λ c. Leads S.opens S.checks delivery.now
        (run_a names.now (StartA own.now))
        (run_a names.now (HeardA (record { own = own.now; challenge = c }))) [] []) }
    ensures refused { IfErr result
        (Refuses S.opens S.checks delivery.now (run_a names.now (StartA own.now))) }
{
    let items = read_message(
        delivery.term,
        &Tag([3, 6, 1, 0]),
        names.b,
        &[Clear::Slot(Slot::Rb), Clear::Slot(Slot::X1)],
        &[],
    )?;
    let x1 = text_at(items, 2);
    let x1 = take_text(delivery.alloc, delivery.hook, Mech::K6, Slot::X1, x1)?;
    let rb = nonce_at(items, 1);
    Ok(Challenge { rb, x1 })
}

/// What the third message shows, by its items and its opened body, where it fits.
fn third_of<S: Sealer>(
    delivery: &Delivery<S>,
    names: &Pair,
    known: &PartSent,
    items: &[Term],
    body: &Term,
) -> Result<Third, Refusal>
    requires length { length items.now ≡ 2 }
    requires items { message_items (3 ∷ 6 ∷ 3 ∷ 0 ∷ []) names.now.b [] (true ∷ [])
        delivery.now.term.now ≡ Ok items.now }
    requires opened { S.opens (key_of delivery.now.ring.now names.now) (at items.now 1)
        ≡ Some body.now }
    ensures fit { IfOk result (λ v. Leads S.opens S.checks delivery.now
        (run_a names.now (SentA known.now))
        (run_a names.now (DoneA (record { sent = known.now; third = v })))
        (opened_by delivery.now.ring.now names.now (at items.now 1) body.now) []) }
    ensures refused { IfErr result
        (Refuses S.opens S.checks delivery.now (run_a names.now (SentA known.now))) }
{
    let slots = read_body(
        body,
        &Tag([3, 6, 3, 1]),
        &[names.a, names.b],
        &[Slot::Rb, Slot::Ra, Slot::Fb, Slot::X3],
        1,
    )?;
    compare_nonce(&nonce_at(slots, 3), &known.heard.challenge.rb, 1, Slot::Rb)?;
    compare_nonce(&nonce_at(slots, 4), &known.ra, 1, Slot::Ra)?;
    let x3 = text_at(slots, 6);
    let x3 = take_text(delivery.alloc, delivery.hook, Mech::K6, Slot::X3, x3)?;
    let fb = part_at(slots, 5);
    Ok(Third { fb, x3 })
}

/// The run that has taken the third message, with what it opened.
fn read_third<S: Sealer>(
    delivery: &Delivery<S>,
    names: &Pair,
    known: &PartSent,
) -> Result<(ThirdTaken, Vec<Opening>), Refusal>
    requires parts { has_parts delivery.now.ring.now
        (run_a names.now (SentA known.now)).head ≡ true }
    ensures fit { IfOk result (λ p. Leads S.opens S.checks delivery.now
        (run_a names.now (SentA known.now))
        (run_a names.now (DoneA p.0)) p.1.items []) }
    ensures refused { IfErr result
        (Refuses S.opens S.checks delivery.now (run_a names.now (SentA known.now))) }
{
    let alloc = delivery.alloc;
    let items = read_message(delivery.term, &Tag([3, 6, 3, 0]), names.b, &[], &[true])?;
    let key = key_between(delivery.ring, names.a, names.b);
    let item = open_item(alloc, delivery.sealer, key, item_at(items, 1), 1)?;
    let third = third_of(delivery, names, known, items, &item.body);
    let (sent, third, opened) = grown_by(alloc, known, third, item)?;
    Ok((ThirdTaken { sent, third }, opened))
}

impl RoleState for K6A {
    ghost plays = { is_k6a };

    fn begin(alloc: Global, head: &RunHead, texts: &Texts) -> Result<K6A, OutOfMemory> {
        let x2 = own_text(alloc, texts, Slot::X2)?;
        Ok(K6A {
            names: Pair {
                a: head.a,
                b: head.b,
            },
            stage: StageA::Start(AnswerText { x2 }),
        })
    }

    fn head(&self) -> RunHead {
        self.names.head(Mech::K6, Role::A)
    }

    fn copy(&self, _alloc: Global) -> Result<K6A, OutOfMemory> {
        self.clone()
    }

    fn same(&self, other: &K6A) -> bool {
        self.names == other.names && self.stage == other.stage
    }

    fn note(&self, alloc: Global, notes: &mut NoteList) -> Result<(), OutOfMemory> {
        match &self.stage {
            StageA::Start(own) => own.note(alloc, notes),
            StageA::Heard(known) => known.note(alloc, notes),
            StageA::Sent(known) => known.note(alloc, notes),
            StageA::Done(known) => {
                known.sent.note(alloc, notes)?;
                known.third.note(alloc, notes)
            }
        }
    }

    fn phase(&self) -> Phase {
        match &self.stage {
            StageA::Start(_) => Phase::receives(0),
            StageA::Heard(_) => Phase::sends(1),
            StageA::Sent(_) => Phase::receives(2),
            StageA::Done(_) => Phase::done(3),
        }
    }

    fn read<S: Sealer>(&self, delivery: &Delivery<S>) -> Result<Taken<K6A>, Refusal> {
        let names = &self.names;
        match &self.stage {
            StageA::Start(own) => {
                let shown = read_challenge(delivery, names, own);
                let (own, challenge) = grown(own, shown)?;
                Ok(Taken {
                    after: K6A {
                        names: *names,
                        stage: StageA::Heard(ChallengeHeard { own, challenge }),
                    },
                    opened: Vec::new(delivery.alloc),
                    got: Vec::new(delivery.alloc),
                })
            }
            StageA::Sent(known) => {
                let (known, opened) = read_third(delivery, names, known)?;
                Ok(Taken {
                    after: K6A {
                        names: *names,
                        stage: StageA::Done(known),
                    },
                    opened,
                    got: Vec::new(delivery.alloc),
                })
            }
            _ => Err(Refusal::WrongPass),
        }
    }

    fn speak<S: Sealer, D: Draws>(
        &self,
        alloc: Global,
        sealer: &S,
        ring: &Ring,
        draws: &mut D,
        _stamp: Option<Stamp>,
    ) -> Result<Reply<K6A>, Refusal> {
        let names = &self.names;
        let StageA::Heard(known) = &self.stage else {
            return Err(Refusal::WrongPass);
        };
        let ra = draw_nonce(draws)?;
        let fa = draw_part(draws)?;
        let key = key_between(ring, names.a, names.b);
        let nonces = (ra, known.challenge.rb);
        let head = Tag([3, 6, 2, 1]);
        let body = two_nonces_and_part(alloc, head, names, nonces, fa, &known.own.x2)?;
        let said = say_item(alloc, sealer, draws, key, body, Tag([3, 6, 2, 0]))?;
        let Reply {
            after: heard,
            message,
            sealed,
        } = said_with(known, said)?;
        Ok(Reply {
            after: K6A {
                names: *names,
                stage: StageA::Sent(PartSent { heard, ra, fa }),
            },
            message,
            sealed,
        })
    }
}

/// The texts of the challenge and of the third message.
#[derive(Clone, PartialEq, Eq, Drop)]
pub struct AskingTexts {
    x1: Text,
    x3: Text,
}

impl Shown for AskingTexts {
    ghost use Rattle.keys_11770_2.specs.K6B.{asking_texts};

    ghost notes_of = { asking_texts };

    fn note(&self, alloc: Global, notes: &mut NoteList) -> Result<(), OutOfMemory> {
        add(notes, Slot::X1, Value::Text(self.x1.copy(alloc)?))?;
        add(notes, Slot::X3, Value::Text(self.x3.copy(alloc)?))
    }
}

/// It has sent the challenge.
#[derive(Clone, PartialEq, Eq, Drop)]
pub struct Asking {
    own: AskingTexts,
    rb: Nonce,
}

impl Shown for Asking {
    ghost use Rattle.keys_11770_2.specs.K6B.{asking};

    ghost notes_of = { asking };

    fn note(&self, alloc: Global, notes: &mut NoteList) -> Result<(), OutOfMemory> {
        self.own.note(alloc, notes)?;
        add(notes, Slot::Rb, Value::Nonce(self.rb))
    }
}

/// What the second message shows.
#[derive(Clone, PartialEq, Eq, Drop)]
pub struct Second {
    ra: Nonce,
    fa: Part,
    x2: Text,
}

impl Shown for Second {
    ghost use Rattle.keys_11770_2.specs.K6B.{second};

    ghost notes_of = { second };

    fn note(&self, alloc: Global, notes: &mut NoteList) -> Result<(), OutOfMemory> {
        add(notes, Slot::Ra, Value::Nonce(self.ra))?;
        add(notes, Slot::Fa, Value::Part(self.fa))?;
        add(notes, Slot::X2, Value::Text(self.x2.copy(alloc)?))
    }
}

/// It has heard the second message.
#[derive(Clone, PartialEq, Eq, Drop)]
pub struct SecondHeard {
    asked: Asking,
    second: Second,
}

impl Shown for SecondHeard {
    ghost use Rattle.keys_11770_2.specs.K6B.{second_heard};

    ghost notes_of = { second_heard };

    fn note(&self, alloc: Global, notes: &mut NoteList) -> Result<(), OutOfMemory> {
        self.asked.note(alloc, notes)?;
        self.second.note(alloc, notes)
    }
}

/// It has sent the third message, with its part of the key.
#[derive(Clone, PartialEq, Eq, Drop)]
pub struct ThirdSent {
    heard: SecondHeard,
    fb: Part,
}

/// How far B is.
#[derive(Clone, PartialEq, Eq, Drop)]
pub enum StageB {
    /// It sends the challenge.
    Start(AskingTexts),
    /// It waits for the second message.
    Asked(Asking),
    /// It has heard the second message.
    Heard(SecondHeard),
    /// It has sent the third message.
    Done(ThirdSent),
}

/// B in K6.
#[derive(Clone, PartialEq, Eq, Drop)]
pub struct K6B {
    names: Pair,
    stage: StageB,
}

impl Stated for K6B {
    ghost use Rattle.keys_11770_2.specs.K6B.{state_of as state_of_k6b};

    ghost state_of = { state_of_k6b };
}

/// What the second message shows, by its items and its opened body, where it fits.
fn second_of<S: Sealer>(
    delivery: &Delivery<S>,
    names: &Pair,
    known: &Asking,
    items: &[Term],
    body: &Term,
) -> Result<Second, Refusal>
    requires length { length items.now ≡ 2 }
    requires items { message_items (3 ∷ 6 ∷ 2 ∷ 0 ∷ []) names.now.b [] (true ∷ [])
        delivery.now.term.now ≡ Ok items.now }
    requires opened { S.opens (key_of delivery.now.ring.now names.now) (at items.now 1)
        ≡ Some body.now }
    ensures fit { IfOk result (λ v. Leads S.opens S.checks delivery.now
        (run_b names.now (AskedB known.now))
        (run_b names.now (HeardB (record { asked = known.now; second = v })))
        (opened_by delivery.now.ring.now names.now (at items.now 1) body.now) []) }
    ensures refused { IfErr result
        (Refuses S.opens S.checks delivery.now (run_b names.now (AskedB known.now))) }
{
    let slots = read_body(
        body,
        &Tag([3, 6, 2, 1]),
        &[names.a, names.b],
        &[Slot::Ra, Slot::Rb, Slot::Fa, Slot::X2],
        1,
    )?;
    compare_nonce(&nonce_at(slots, 4), &known.rb, 1, Slot::Rb)?;
    let x2 = text_at(slots, 6);
    let x2 = take_text(delivery.alloc, delivery.hook, Mech::K6, Slot::X2, x2)?;
    let ra = nonce_at(slots, 3);
    let fa = part_at(slots, 5);
    Ok(Second { ra, fa, x2 })
}

/// The run that has taken the second message, with what it opened.
fn read_second<S: Sealer>(
    delivery: &Delivery<S>,
    names: &Pair,
    known: &Asking,
) -> Result<(SecondHeard, Vec<Opening>), Refusal>
    requires parts { has_parts delivery.now.ring.now
        (run_b names.now (AskedB known.now)).head ≡ true }
    ensures fit { IfOk result (λ p. Leads S.opens S.checks delivery.now
        (run_b names.now (AskedB known.now))
        (run_b names.now (HeardB p.0)) p.1.items []) }
    ensures refused { IfErr result
        (Refuses S.opens S.checks delivery.now (run_b names.now (AskedB known.now))) }
{
    let alloc = delivery.alloc;
    let items = read_message(delivery.term, &Tag([3, 6, 2, 0]), names.b, &[], &[true])?;
    let key = key_between(delivery.ring, names.a, names.b);
    let item = open_item(alloc, delivery.sealer, key, item_at(items, 1), 1)?;
    let second = second_of(delivery, names, known, items, &item.body);
    let (asked, second, opened) = grown_by(alloc, known, second, item)?;
    Ok((SecondHeard { asked, second }, opened))
}

impl RoleState for K6B {
    ghost plays = { is_k6b };

    fn begin(alloc: Global, head: &RunHead, texts: &Texts) -> Result<K6B, OutOfMemory> {
        let x1 = own_text(alloc, texts, Slot::X1)?;
        let x3 = own_text(alloc, texts, Slot::X3)?;
        Ok(K6B {
            names: Pair {
                a: head.a,
                b: head.b,
            },
            stage: StageB::Start(AskingTexts { x1, x3 }),
        })
    }

    fn head(&self) -> RunHead {
        self.names.head(Mech::K6, Role::B)
    }

    fn copy(&self, _alloc: Global) -> Result<K6B, OutOfMemory> {
        self.clone()
    }

    fn same(&self, other: &K6B) -> bool {
        self.names == other.names && self.stage == other.stage
    }

    fn note(&self, alloc: Global, notes: &mut NoteList) -> Result<(), OutOfMemory> {
        match &self.stage {
            StageB::Start(own) => own.note(alloc, notes),
            StageB::Asked(known) => known.note(alloc, notes),
            StageB::Heard(known) => known.note(alloc, notes),
            StageB::Done(known) => {
                known.heard.note(alloc, notes)?;
                add(notes, Slot::Fb, Value::Part(known.fb))
            }
        }
    }

    fn phase(&self) -> Phase {
        match &self.stage {
            StageB::Start(_) => Phase::sends(0),
            StageB::Asked(_) => Phase::receives(1),
            StageB::Heard(_) => Phase::sends(2),
            StageB::Done(_) => Phase::done(3),
        }
    }

    fn read<S: Sealer>(&self, delivery: &Delivery<S>) -> Result<Taken<K6B>, Refusal> {
        let names = &self.names;
        let StageB::Asked(known) = &self.stage else {
            return Err(Refusal::WrongPass);
        };
        let (known, opened) = read_second(delivery, names, known)?;
        Ok(Taken {
            after: K6B {
                names: *names,
                stage: StageB::Heard(known),
            },
            opened,
            got: Vec::new(delivery.alloc),
        })
    }

    fn speak<S: Sealer, D: Draws>(
        &self,
        alloc: Global,
        sealer: &S,
        ring: &Ring,
        draws: &mut D,
        _stamp: Option<Stamp>,
    ) -> Result<Reply<K6B>, Refusal> {
        let names = &self.names;
        match &self.stage {
            StageB::Start(own) => {
                let rb = draw_nonce(draws)?;
                let message = challenge(alloc, Tag([3, 6, 1, 0]), &rb, &own.x1)?;
                let Reply {
                    after: own,
                    message,
                    sealed,
                } = asked(alloc, own, message)?;
                Ok(Reply {
                    after: K6B {
                        names: *names,
                        stage: StageB::Asked(Asking { own, rb }),
                    },
                    message,
                    sealed,
                })
            }
            StageB::Heard(known) => {
                let fb = draw_part(draws)?;
                let key = key_between(ring, names.a, names.b);
                let nonces = (known.asked.rb, known.second.ra);
                let head = Tag([3, 6, 3, 1]);
                let x3 = &known.asked.own.x3;
                let body = two_nonces_and_part(alloc, head, names, nonces, fb, x3)?;
                let said = say_item(alloc, sealer, draws, key, body, Tag([3, 6, 3, 0]))?;
                let Reply {
                    after: heard,
                    message,
                    sealed,
                } = said_with(known, said)?;
                Ok(Reply {
                    after: K6B {
                        names: *names,
                        stage: StageB::Done(ThirdSent { heard, fb }),
                    },
                    message,
                    sealed,
                })
            }
            _ => Err(Refusal::WrongPass),
        }
    }
}
