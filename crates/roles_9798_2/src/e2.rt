ghost use Rattle.std.specs.Prelude.{◌≡◌, ◌≢◌, ◌∷◌, [], true, length, Some, Ok, Err, IfOk, IfErr};
ghost use Rattle.mech_rows.specs.declared.kinds.Clear.TheVariants.{Slot as Shows};
ghost use Rattle.mech_rows.specs.declared.kinds.Slot.TheVariants.{X3};
ghost use Rattle.mech_rows.specs.declared.refusal.Refusal.TheVariants.{Memory};
ghost use Rattle.mech_rows.specs.Openings.{has_parts};
ghost use Rattle.mech_rows.specs.Verdict.{are_clear, at, message_items};
ghost use Rattle.text_hooks.specs.Leading.{Leads, Refuses};
ghost use Rattle.text_hooks.specs.Names.{key_of, opened_by};
ghost use Rattle.roles_9798_2.specs.E2A.{is_e2a, run as run_a};
ghost use Rattle.roles_9798_2.specs.E2B.{is_e2b, run as run_b};
ghost use Rattle.roles_9798_2.specs.declared.e2.StageA.TheVariants.{Start as StartA};
ghost use Rattle.roles_9798_2.specs.declared.e2.StageA.TheVariants.{Heard as HeardA};
ghost use Rattle.roles_9798_2.specs.declared.e2.StageB.TheVariants.{Asked as AskedB, Done as DoneB};

// Pass 1, B to A: Rb, X1 in the clear.
// Pass 2, A to B: X3 in the clear, and a seal of Rb, X2.

use mech_rows::{Clear, Mech, Opening, Refusal, Ring, Role, RunHead, Slot, Stated, Texts, Value};
use outside::Draws;
use seal_trait::Sealer;
use std::alloc::Global;
use term_values::{Nonce, OutOfMemory, Stamp, Tag, Term, Text};
use text_hooks::{
    Asked, Challenge, ChallengeText, Challenged, Delivery, NoteList, Pair, Phase, Reply, RoleState,
    SecondTexts, Shown, SlotValue, Taken, add, asked, challenge, compare_nonce, draw_nonce, grown,
    grown_by, item_at, key_between, nonce_at, one_value, open_item, own_text, read_body,
    read_message, said_still, say_sealed, take_text, take_texts, text_at,
};

/// How far A is.
#[derive(Clone, PartialEq, Eq, Drop)]
pub enum StageA {
    /// It waits for the challenge.
    Start(SecondTexts),
    /// It has heard the challenge.
    Heard(Challenged),
    /// It has sent.
    Done(Challenged),
}

/// A in E2.
#[derive(Clone, PartialEq, Eq, Drop)]
pub struct E2A {
    names: Pair,
    stage: StageA,
}

impl Stated for E2A {
    ghost use Rattle.roles_9798_2.specs.E2A.{state_of as state_of_e2a};

    ghost state_of = { state_of_e2a };
}

/// What the challenge shows, where it fits.
fn read_challenge<S: Sealer>(
    delivery: &Delivery<S>,
    names: &Pair,
    own: &SecondTexts,
) -> Result<Challenge, Refusal>
    ensures fit { IfOk result (λ c. Leads S.opens S.checks delivery.now
        (run_a names.now (StartA own.now))
        (run_a names.now (HeardA (record { own = own.now; challenge = c }))) [] []) }
    ensures refused { IfErr result
        (Refuses S.opens S.checks delivery.now (run_a names.now (StartA own.now))) }
{
    let items = read_message(
        delivery.term,
        &Tag([1, 2, 1, 0]),
        names.b,
        &[Clear::Slot(Slot::Rb), Clear::Slot(Slot::X1)],
        &[],
    )?;
    let x1 = text_at(items, 2);
    let x1 = take_text(delivery.alloc, delivery.hook, Mech::E2, Slot::X1, x1)?;
    let rb = nonce_at(items, 1);
    Ok(Challenge { rb, x1 })
}

impl RoleState for E2A {
    ghost plays = { is_e2a };

    fn begin(alloc: Global, head: &RunHead, texts: &Texts) -> Result<E2A, OutOfMemory> {
        let x2 = own_text(alloc, texts, Slot::X2)?;
        let x3 = own_text(alloc, texts, Slot::X3)?;
        Ok(E2A {
            names: Pair {
                a: head.a,
                b: head.b,
            },
            stage: StageA::Start(SecondTexts { x2, x3 }),
        })
    }

    fn head(&self) -> RunHead {
        self.names.head(Mech::E2, Role::A)
    }

    fn copy(&self, _alloc: Global) -> Result<E2A, OutOfMemory> {
        self.clone()
    }

    fn same(&self, other: &E2A) -> bool {
        self.names == other.names && self.stage == other.stage
    }

    fn note(&self, alloc: Global, notes: &mut NoteList) -> Result<(), OutOfMemory> {
        match &self.stage {
            StageA::Start(own) => own.note(alloc, notes),
            StageA::Heard(known) | StageA::Done(known) => known.note(alloc, notes),
        }
    }

    fn phase(&self) -> Phase {
        match &self.stage {
            StageA::Start(_) => Phase::receives(0),
            StageA::Heard(_) => Phase::sends(1),
            StageA::Done(_) => Phase::done(2),
        }
    }

    fn read<S: Sealer>(&self, delivery: &Delivery<S>) -> Result<Taken<E2A>, Refusal> {
        let names = &self.names;
        let StageA::Start(own) = &self.stage else {
            return Err(Refusal::WrongPass);
        };
        let shown = read_challenge(delivery, names, own);
        let (own, challenge) = grown(own, shown)?;
        Ok(Taken {
            after: E2A {
                names: *names,
                stage: StageA::Heard(Challenged { own, challenge }),
            },
            opened: Vec::new(delivery.alloc),
            got: Vec::new(delivery.alloc),
        })
    }

    fn speak<S: Sealer, D: Draws>(
        &self,
        alloc: Global,
        sealer: &S,
        ring: &Ring,
        draws: &mut D,
        _stamp: Option<Stamp>,
    ) -> Result<Reply<E2A>, Refusal> {
        let names = &self.names;
        let StageA::Heard(known) = &self.stage else {
            return Err(Refusal::WrongPass);
        };
        let key = key_between(ring, names.a, names.b);
        let body = one_value(
            alloc,
            Tag([1, 2, 2, 1]),
            names.a,
            names.b,
            SlotValue::Nonce(known.challenge.rb),
            &known.own.x2,
        )?;
        let head = Tag([1, 2, 2, 0]);
        let said = say_sealed(alloc, sealer, draws, key, body, head, &known.own.x3)?;
        let Reply {
            after,
            message,
            sealed,
        } = said_still(alloc, known, said)?;
        Ok(Reply {
            after: E2A {
                names: *names,
                stage: StageA::Done(after),
            },
            message,
            sealed,
        })
    }
}

/// What the answer shows.
#[derive(Clone, PartialEq, Eq, Drop)]
pub struct Answer {
    x3: Text,
    x2: Text,
}

impl Shown for Answer {
    ghost use Rattle.roles_9798_2.specs.E2B.{answer};

    ghost notes_of = { answer };

    fn note(&self, alloc: Global, notes: &mut NoteList) -> Result<(), OutOfMemory> {
        add(notes, Slot::X3, Value::Text(self.x3.copy(alloc)?))?;
        add(notes, Slot::X2, Value::Text(self.x2.copy(alloc)?))
    }
}

/// It has taken the answer.
#[derive(Clone, PartialEq, Eq, Drop)]
pub struct AnswerTaken {
    asked: Asked,
    answer: Answer,
}

/// How far B is.
#[derive(Clone, PartialEq, Eq, Drop)]
pub enum StageB {
    /// It sends the challenge.
    Start(ChallengeText),
    /// It waits for the answer.
    Asked(Asked),
    /// It has taken the answer.
    Done(AnswerTaken),
}

/// B in E2.
#[derive(Clone, PartialEq, Eq, Drop)]
pub struct E2B {
    names: Pair,
    stage: StageB,
}

impl Stated for E2B {
    ghost use Rattle.roles_9798_2.specs.E2B.{state_of as state_of_e2b};

    ghost state_of = { state_of_e2b };
}

/// What the answer message shows, by its items and its opened body, where it fits.
fn answer_of<S: Sealer>(
    delivery: &Delivery<S>,
    names: &Pair,
    known: &Asked,
    items: &[Term],
    body: &Term,
) -> Result<Answer, Refusal>
    requires length { length items.now ≡ 3 }
    requires kinds { are_clear items.now 1 (Shows X3 ∷ []) ≡ true }
    requires items { message_items (1 ∷ 2 ∷ 2 ∷ 0 ∷ []) names.now.b (Shows X3 ∷ []) (true ∷ [])
        delivery.now.term.now ≡ Ok items.now }
    requires opened { S.opens (key_of delivery.now.ring.now names.now) (at items.now 2)
        ≡ Some body.now }
    ensures fit { IfOk result (λ v. Leads S.opens S.checks delivery.now
        (run_b names.now (AskedB known.now))
        (run_b names.now (DoneB (record { asked = known.now; answer = v })))
        (opened_by delivery.now.ring.now names.now (at items.now 2) body.now) []) }
    ensures refused { IfErr result
        (Refuses S.opens S.checks delivery.now (run_b names.now (AskedB known.now))) }
{
    let (a, b) = (names.a, names.b);
    let slots = read_body(body, &Tag([1, 2, 2, 1]), &[a, b], &[Slot::Rb, Slot::X2], 1)?;
    compare_nonce(&nonce_at(slots, 3), &known.rb, 1, Slot::Rb)?;
    let x3 = (Slot::X3, text_at(items, 1));
    let x2 = (Slot::X2, text_at(slots, 4));
    let (x3, x2) = take_texts(delivery.alloc, delivery.hook, Mech::E2, x3, x2)?;
    Ok(Answer { x3, x2 })
}

/// The run that has taken the answer message, with what it opened.
fn read_answer<S: Sealer>(
    delivery: &Delivery<S>,
    names: &Pair,
    known: &Asked,
) -> Result<(AnswerTaken, Vec<Opening>), Refusal>
    requires parts { has_parts delivery.now.ring.now
        (run_b names.now (AskedB known.now)).head ≡ true }
    ensures fit { IfOk result (λ p. Leads S.opens S.checks delivery.now
        (run_b names.now (AskedB known.now)) (run_b names.now (DoneB p.0)) p.1.items []) }
    ensures refused { IfErr result
        (Refuses S.opens S.checks delivery.now (run_b names.now (AskedB known.now))) }
{
    let alloc = delivery.alloc;
    let items = read_message(
        delivery.term,
        &Tag([1, 2, 2, 0]),
        names.b,
        &[Clear::Slot(Slot::X3)],
        &[true],
    )?;
    let key = key_between(delivery.ring, names.a, names.b);
    let item = open_item(alloc, delivery.sealer, key, item_at(items, 2), 1)?;
    let answer = answer_of(delivery, names, known, items, &item.body);
    let (asked, answer, opened) = grown_by(alloc, known, answer, item)?;
    Ok((AnswerTaken { asked, answer }, opened))
}

impl RoleState for E2B {
    ghost plays = { is_e2b };

    fn begin(alloc: Global, head: &RunHead, texts: &Texts) -> Result<E2B, OutOfMemory> {
        let x1 = own_text(alloc, texts, Slot::X1)?;
        Ok(E2B {
            names: Pair {
                a: head.a,
                b: head.b,
            },
            stage: StageB::Start(ChallengeText { x1 }),
        })
    }

    fn head(&self) -> RunHead {
        self.names.head(Mech::E2, Role::B)
    }

    fn copy(&self, _alloc: Global) -> Result<E2B, OutOfMemory> {
        self.clone()
    }

    fn same(&self, other: &E2B) -> bool {
        self.names == other.names && self.stage == other.stage
    }

    fn note(&self, alloc: Global, notes: &mut NoteList) -> Result<(), OutOfMemory> {
        match &self.stage {
            StageB::Start(own) => own.note(alloc, notes),
            StageB::Asked(known) => known.note(alloc, notes),
            StageB::Done(known) => {
                known.asked.note(alloc, notes)?;
                known.answer.note(alloc, notes)
            }
        }
    }

    fn phase(&self) -> Phase {
        match &self.stage {
            StageB::Start(_) => Phase::sends(0),
            StageB::Asked(_) => Phase::receives(1),
            StageB::Done(_) => Phase::done(2),
        }
    }

    fn read<S: Sealer>(&self, delivery: &Delivery<S>) -> Result<Taken<E2B>, Refusal> {
        let names = &self.names;
        let StageB::Asked(known) = &self.stage else {
            return Err(Refusal::WrongPass);
        };
        let (known, opened) = read_answer(delivery, names, known)?;
        Ok(Taken {
            after: E2B {
                names: *names,
                stage: StageB::Done(known),
            },
            opened,
            got: Vec::new(delivery.alloc),
        })
    }

    fn speak<S: Sealer, D: Draws>(
        &self,
        alloc: Global,
        _sealer: &S,
        _ring: &Ring,
        draws: &mut D,
        _stamp: Option<Stamp>,
    ) -> Result<Reply<E2B>, Refusal> {
        let names = &self.names;
        let StageB::Start(own) = &self.stage else {
            return Err(Refusal::WrongPass);
        };
        let rb = draw_nonce(draws)?;
        let message = challenge(alloc, Tag([1, 2, 1, 0]), &rb, &own.x1)?;
        let Reply {
            after: own,
            message,
            sealed,
        } = asked(alloc, own, message)?;
        Ok(Reply {
            after: E2B {
                names: *names,
                stage: StageB::Asked(Asked { own, rb }),
            },
            message,
            sealed,
        })
    }
}
