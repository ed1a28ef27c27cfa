ghost use Rattle.std.specs.Prelude.{◌≡◌, ◌≢◌, ◌∷◌, [], true, Ok, Err, IfOk, IfErr};
ghost use Rattle.term_values.specs.Trees.{nonce, stamp, text};
ghost use Rattle.mech_rows.specs.declared.kinds.Clear.TheVariants.{Slot as Shows};
ghost use Rattle.mech_rows.specs.declared.kinds.Slot.TheVariants.{X2, X3};
ghost use Rattle.mech_rows.specs.declared.refusal.Refusal.TheVariants.{Memory};
ghost use Rattle.mech_rows.specs.Openings.{has_parts};
ghost use Rattle.mech_rows.specs.Verdict.{at, message_items};
ghost use Rattle.text_hooks.specs.Leading.{Leads, Refuses};
ghost use Rattle.text_hooks.specs.Names.{key_of, opened_by};
ghost use Rattle.roles_9798_4.specs.C2A.{is_c2a, run as run_a};
ghost use Rattle.roles_9798_4.specs.C2B.{covered, is_c2b, run as run_b};
ghost use Rattle.roles_9798_4.specs.declared.c2.StageA.TheVariants.{Start as StartA};
ghost use Rattle.roles_9798_4.specs.declared.c2.StageA.TheVariants.{Heard as HeardA};
ghost use Rattle.roles_9798_4.specs.declared.c2.StageB.TheVariants.{Asked as AskedB, Done as DoneB};

// Pass 1, B to A: Rb, X1 in the clear.
// Pass 2, A to B: X2, X3 in the clear, and a check of Rb, X2.

use mech_rows::{Clear, Mech, Opening, Refusal, Ring, Role, RunHead, Slot, Stated, Texts, Value};
use outside::Draws;
use seal_trait::Sealer;
use std::alloc::Global;
use term_values::{OutOfMemory, Stamp, Tag, Term, Text};
use text_hooks::{
    Asked, Challenge, ChallengeText, Challenged, Delivery, NoteList, Pair, Phase, Reply, RoleState,
    SecondTexts, Shown, SlotValue, Taken, add, asked, challenge, draw_nonce, grown, grown_by,
    item_at, key_between, nonce_at, one_value, own_text, read_message, said_still, say_checked,
    take_text, take_texts, test_item, text_at,
};

/// How far A is.
#[derive(Clone, PartialEq, Eq, Drop)]
pub enum StageA {
    /// It waits for the challenge.
    Start(SecondTexts),
    /// It has heard the challenge.
    Heard(Challenged),
    /// It has sent.
    Done(Challenged),
}

/// A in C2.
#[derive(Clone, PartialEq, Eq, Drop)]
pub struct C2A {
    names: Pair,
    stage: StageA,
}

impl Stated for C2A {
    ghost use Rattle.roles_9798_4.specs.C2A.{state_of as state_of_c2a};

    ghost state_of = { state_of_c2a };
}

/// What the challenge shows, where it fits.
fn read_challenge<S: Sealer>(
    delivery: &Delivery<S>,
    names: &Pair,
    own: &SecondTexts,
) -> Result<Challenge, Refusal>
    ensures fit { IfOk result (λ c. Leads S.opens S.checks delivery.now
        (run_a names.now (StartA own.now))
        (run_a names.now (HeardA (record { own = own.now; challenge = c }))) [] []) }
    ensures refused { IfErr result
        (Refuses S.opens S.checks delivery.now (run_a names.now (StartA own.now))) }
{
    let items = read_message(
        delivery.term,
        &Tag([2, 2, 1, 0]),
        names.b,
        &[Clear::Slot(Slot::Rb), Clear::Slot(Slot::X1)],
        &[],
    )?;
    let x1 = text_at(items, 2);
    let x1 = take_text(delivery.alloc, delivery.hook, Mech::C2, Slot::X1, x1)?;
    let rb = nonce_at(items, 1);
    Ok(Challenge { rb, x1 })
}

impl RoleState for C2A {
    ghost plays = { is_c2a };

    fn begin(alloc: Global, head: &RunHead, texts: &Texts) -> Result<C2A, OutOfMemory> {
        let x2 = own_text(alloc, texts, Slot::X2)?;
        let x3 = own_text(alloc, texts, Slot::X3)?;
        Ok(C2A {
            names: Pair {
                a: head.a,
                b: head.b,
            },
            stage: StageA::Start(SecondTexts { x2, x3 }),
        })
    }

    fn head(&self) -> RunHead {
        self.names.head(Mech::C2, Role::A)
    }

    fn copy(&self, _alloc: Global) -> Result<C2A, OutOfMemory> {
        self.clone()
    }

    fn same(&self, other: &C2A) -> bool {
        self.names == other.names && self.stage == other.stage
    }

    fn note(&self, alloc: Global, notes: &mut NoteList) -> Result<(), OutOfMemory> {
        match &self.stage {
            StageA::Start(own) => own.note(alloc, notes),
            StageA::Heard(known) | StageA::Done(known) => known.note(alloc, notes),
        }
    }

    fn phase(&self) -> Phase {
        match &self.stage {
            StageA::Start(_) => Phase::receives(0),
            StageA::Heard(_) => Phase::sends(1),
            StageA::Done(_) => Phase::done(2),
        }
    }

    fn read<S: Sealer>(&self, delivery: &Delivery<S>) -> Result<Taken<C2A>, Refusal> {
        let names = &self.names;
        let StageA::Start(own) = &self.stage else {
            return Err(Refusal::WrongPass);
        };
        let shown = read_challenge(delivery, names, own);
        let (own, challenge) = grown(own, shown)?;
        Ok(Taken {
            after: C2A {
                names: *names,
                stage: StageA::Heard(Challenged { own, challenge }),
            },
            opened: Vec::new(delivery.alloc),
            got: Vec::new(delivery.alloc),
        })
    }

    fn speak<S: Sealer, D: Draws>(
        &self,
        alloc: Global,
        sealer: &S,
        ring: &Ring,
        _draws: &mut D,
        _stamp: Option<Stamp>,
    ) -> Result<Reply<C2A>, Refusal> {
        let names = &self.names;
        let StageA::Heard(known) = &self.stage else {
            return Err(Refusal::WrongPass);
        };
        let key = key_between(ring, names.a, names.b);
        let body = one_value(
            alloc,
            Tag([2, 2, 2, 1]),
            names.a,
            names.b,
            SlotValue::Nonce(known.challenge.rb),
            &known.own.x2,
        )?;
        let said = say_checked(
            alloc,
            sealer,
            key,
            body,
            Tag([2, 2, 2, 0]),
            None,
            &known.own.x2,
            &known.own.x3,
        )?;
        let Reply {
            after,
            message,
            sealed,
        } = said_still(alloc, known, said)?;
        Ok(Reply {
            after: C2A {
                names: *names,
                stage: StageA::Done(after),
            },
            message,
            sealed,
        })
    }
}

/// What the answer shows.
#[derive(Clone, PartialEq, Eq, Drop)]
pub struct Answer {
    x2: Text,
    x3: Text,
}

impl Shown for Answer {
    ghost use Rattle.roles_9798_4.specs.C2B.{answer};

    ghost notes_of = { answer };

    fn note(&self, alloc: Global, notes: &mut NoteList) -> Result<(), OutOfMemory> {
        add(notes, Slot::X2, Value::Text(self.x2.copy(alloc)?))?;
        add(notes, Slot::X3, Value::Text(self.x3.copy(alloc)?))
    }
}

/// It has taken the answer.
#[derive(Clone, PartialEq, Eq, Drop)]
pub struct AnswerTaken {
    asked: Asked,
    answer: Answer,
}

/// How far B is.
#[derive(Clone, PartialEq, Eq, Drop)]
pub enum StageB {
    /// It sends the challenge.
    Start(ChallengeText),
    /// It waits for the answer.
    Asked(Asked),
    /// It has taken the answer.
    Done(AnswerTaken),
}

/// B in C2.
#[derive(Clone, PartialEq, Eq, Drop)]
pub struct C2B {
    names: Pair,
    stage: StageB,
}

impl Stated for C2B {
    ghost use Rattle.roles_9798_4.specs.C2B.{state_of as state_of_c2b};

    ghost state_of = { state_of_c2b };
}

/// What the answer message shows, whose items these are, and whose check holds.
fn answer_of<S: Sealer>(
    delivery: &Delivery<S>,
    names: &Pair,
    known: &Asked,
    items: &[Term],
    x2: &Text,
    x3: &Text,
) -> Result<Answer, Refusal>
    requires items { message_items (2 ∷ 2 ∷ 2 ∷ 0 ∷ []) names.now.b (Shows X2 ∷ Shows X3 ∷ [])
        (true ∷ []) delivery.now.term.now ≡ Ok items.now }
    requires x2 { at items.now 1 ≡ text x2.now }
    requires x3 { at items.now 2 ≡ text x3.now }
    requires checked { S.checks (key_of delivery.now.ring.now names.now)
        (covered names.now known.now x2.now)
        (at items.now 3) ≡ true }
    ensures fit { IfOk result (λ v. Leads S.opens S.checks delivery.now
        (run_b names.now (AskedB known.now))
        (run_b names.now (DoneB (record { asked = known.now; answer = v })))
        (opened_by delivery.now.ring.now names.now (at items.now 3) (covered names.now known.now x2.now))
        []) }
    ensures refused { IfErr result
        (Refuses S.opens S.checks delivery.now (run_b names.now (AskedB known.now))) }
{
    let x2 = (Slot::X2, x2);
    let x3 = (Slot::X3, x3);
    let (x2, x3) = take_texts(delivery.alloc, delivery.hook, Mech::C2, x2, x3)?;
    Ok(Answer { x2, x3 })
}

/// The run that has taken the answer message, with what it checked.
fn read_answer<S: Sealer>(
    delivery: &Delivery<S>,
    names: &Pair,
    known: &Asked,
) -> Result<(AnswerTaken, Vec<Opening>), Refusal>
    requires parts { has_parts delivery.now.ring.now
        (run_b names.now (AskedB known.now)).head ≡ true }
    ensures fit { IfOk result (λ p. Leads S.opens S.checks delivery.now
        (run_b names.now (AskedB known.now)) (run_b names.now (DoneB p.0)) p.1.items []) }
    ensures refused { IfErr result
        (Refuses S.opens S.checks delivery.now (run_b names.now (AskedB known.now))) }
{
    let alloc = delivery.alloc;
    let items = read_message(
        delivery.term,
        &Tag([2, 2, 2, 0]),
        names.b,
        &[Clear::Slot(Slot::X2), Clear::Slot(Slot::X3)],
        &[true],
    )?;
    let x2 = text_at(items, 1);
    let x3 = text_at(items, 2);
    let body = one_value(
        alloc,
        Tag([2, 2, 2, 1]),
        names.a,
        names.b,
        SlotValue::Nonce(known.rb),
        x2,
    )?;
    let key = key_between(delivery.ring, names.a, names.b);
    let item = test_item(alloc, delivery.sealer, key, body, item_at(items, 3), 1)?;
    let answer = answer_of(delivery, names, known, items, x2, x3);
    let (asked, answer, opened) = grown_by(alloc, known, answer, item)?;
    Ok((AnswerTaken { asked, answer }, opened))
}

impl RoleState for C2B {
    ghost plays = { is_c2b };

    fn begin(alloc: Global, head: &RunHead, texts: &Texts) -> Result<C2B, OutOfMemory> {
        let x1 = own_text(alloc, texts, Slot::X1)?;
        Ok(C2B {
            names: Pair {
                a: head.a,
                b: head.b,
            },
            stage: StageB::Start(ChallengeText { x1 }),
        })
    }

    fn head(&self) -> RunHead {
        self.names.head(Mech::C2, Role::B)
    }

    fn copy(&self, _alloc: Global) -> Result<C2B, OutOfMemory> {
        self.clone()
    }

    fn same(&self, other: &C2B) -> bool {
        self.names == other.names && self.stage == other.stage
    }

    fn note(&self, alloc: Global, notes: &mut NoteList) -> Result<(), OutOfMemory> {
        match &self.stage {
            StageB::Start(own) => own.note(alloc, notes),
            StageB::Asked(known) => known.note(alloc, notes),
            StageB::Done(known) => {
                known.asked.note(alloc, notes)?;
                known.answer.note(alloc, notes)
            }
        }
    }

    fn phase(&self) -> Phase {
        match &self.stage {
            StageB::Start(_) => Phase::sends(0),
            StageB::Asked(_) => Phase::receives(1),
            StageB::Done(_) => Phase::done(2),
        }
    }

    fn read<S: Sealer>(&self, delivery: &Delivery<S>) -> Result<Taken<C2B>, Refusal> {
        let names = &self.names;
        let StageB::Asked(known) = &self.stage else {
            return Err(Refusal::WrongPass);
        };
        let (known, opened) = read_answer(delivery, names, known)?;
        Ok(Taken {
            after: C2B {
                names: *names,
                stage: StageB::Done(known),
            },
            opened,
            got: Vec::new(delivery.alloc),
        })
    }

    fn speak<S: Sealer, D: Draws>(
        &self,
        alloc: Global,
        _sealer: &S,
        _ring: &Ring,
        draws: &mut D,
        _stamp: Option<Stamp>,
    ) -> Result<Reply<C2B>, Refusal> {
        let names = &self.names;
        let StageB::Start(own) = &self.stage else {
            return Err(Refusal::WrongPass);
        };
        let rb = draw_nonce(draws)?;
        let message = challenge(alloc, Tag([2, 2, 1, 0]), &rb, &own.x1)?;
        let Reply {
            after: own,
            message,
            sealed,
        } = asked(alloc, own, message)?;
        Ok(Reply {
            after: C2B {
                names: *names,
                stage: StageB::Asked(Asked { own, rb }),
            },
            message,
            sealed,
        })
    }
}
