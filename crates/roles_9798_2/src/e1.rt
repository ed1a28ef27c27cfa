ghost use Rattle.std.specs.Prelude.{◌≡◌, ◌≢◌, ◌∷◌, [], true, length, Some, Ok, Err, IfOk, IfErr};
ghost use Rattle.mech_rows.specs.declared.kinds.Clear.TheVariants.{Slot as Shows};
ghost use Rattle.mech_rows.specs.declared.kinds.Slot.TheVariants.{X2};
ghost use Rattle.mech_rows.specs.declared.refusal.Refusal.TheVariants.{Memory};
ghost use Rattle.mech_rows.specs.Openings.{has_parts};
ghost use Rattle.mech_rows.specs.Verdict.{are_clear, at, message_items};
ghost use Rattle.text_hooks.specs.Leading.{Leads, Refuses};
ghost use Rattle.text_hooks.specs.Names.{key_of, opened_by};
ghost use Rattle.roles_9798_2.specs.E1A.{is_e1a};
ghost use Rattle.roles_9798_2.specs.E1B.{is_e1b, run as run_b};
ghost use Rattle.roles_9798_2.specs.declared.e1.StageB.TheVariants.{Start as StartB, Done as DoneB};

// Pass 1, A to B: X2 in the clear, and a seal of Ta, X1.

use mech_rows::{Clear, Got, Mech, Opening, Refusal, Ring, Role, RunHead, Slot, Stated, Texts};
use outside::Draws;
use seal_trait::Sealer;
use std::alloc::Global;
use term_values::{OutOfMemory, Stamp, Tag, Term};
use text_hooks::{
    Delivery, FirstTexts, NoteList, Pair, Phase, Reply, RoleState, SealedToken, Shown, SlotValue,
    Stamped, Taken, item_at, judged_by, key_between, one_value, open_item, own_text, read_body,
    read_message, said_still, say_sealed, stamp_at, take_texts, text_at,
};

/// How far A is.
#[derive(Clone, PartialEq, Eq, Drop)]
pub enum StageA {
    /// It sends the first message.
    Start(FirstTexts),
    /// It has sent the first message.
    Done(Stamped),
}

/// A in E1.
#[derive(Clone, PartialEq, Eq, Drop)]
pub struct E1A {
    names: Pair,
    stage: StageA,
}

impl Stated for E1A {
    ghost use Rattle.roles_9798_2.specs.E1A.{state_of as state_of_e1a};

    ghost state_of = { state_of_e1a };
}

impl RoleState for E1A {
    ghost plays = { is_e1a };

    fn begin(alloc: Global, head: &RunHead, texts: &Texts) -> Result<E1A, OutOfMemory> {
        let x1 = own_text(alloc, texts, Slot::X1)?;
        let x2 = own_text(alloc, texts, Slot::X2)?;
        Ok(E1A {
            names: Pair {
                a: head.a,
                b: head.b,
            },
            stage: StageA::Start(FirstTexts { x1, x2 }),
        })
    }

    fn head(&self) -> RunHead {
        self.names.head(Mech::E1, Role::A)
    }

    fn copy(&self, _alloc: Global) -> Result<E1A, OutOfMemory> {
        self.clone()
    }

    fn same(&self, other: &E1A) -> bool {
        self.names == other.names && self.stage == other.stage
    }

    fn note(&self, alloc: Global, notes: &mut NoteList) -> Result<(), OutOfMemory> {
        match &self.stage {
            StageA::Start(own) => own.note(alloc, notes),
            StageA::Done(sent) => sent.note(alloc, notes),
        }
    }

    fn phase(&self) -> Phase {
        match &self.stage {
            StageA::Start(_) => Phase::sends(0).with_stamp(),
            StageA::Done(_) => Phase::done(1),
        }
    }

    fn read<S: Sealer>(&self, _delivery: &Delivery<S>) -> Result<Taken<E1A>, Refusal> {
        Err(Refusal::WrongPass)
    }

    fn speak<S: Sealer, D: Draws>(
        &self,
        alloc: Global,
        sealer: &S,
        ring: &Ring,
        draws: &mut D,
        stamp: Option<Stamp>,
    ) -> Result<Reply<E1A>, Refusal> {
        let names = &self.names;
        let StageA::Start(own) = &self.stage else {
            return Err(Refusal::WrongPass);
        };
        let Some(ta) = stamp else { unreachable!() };
        let key = key_between(ring, names.a, names.b);
        let body = one_value(
            alloc,
            Tag([1, 1, 1, 1]),
            names.a,
            names.b,
            SlotValue::Stamp(ta),
            &own.x1,
        )?;
        let said = say_sealed(alloc, sealer, draws, key, body, Tag([1, 1, 1, 0]), &own.x2)?;
        let Reply {
            after: own,
            message,
            sealed,
        } = said_still(alloc, own, said)?;
        Ok(Reply {
            after: E1A {
                names: *names,
                stage: StageA::Done(Stamped { own, ta }),
            },
            message,
            sealed,
        })
    }
}

/// How far B is.
#[derive(Clone, PartialEq, Eq, Drop)]
pub enum StageB {
    /// It waits for the first message.
    Start,
    /// It has taken the first message.
    Done(SealedToken),
}

/// B in E1.
#[derive(Clone, PartialEq, Eq, Drop)]
pub struct E1B {
    names: Pair,
    stage: StageB,
}

impl Stated for E1B {
    ghost use Rattle.roles_9798_2.specs.E1B.{state_of as state_of_e1b};

    ghost state_of = { state_of_e1b };
}

/// What the first message shows, by its items and its opened body, where it fits.
fn first_of<S: Sealer>(
    delivery: &Delivery<S>,
    names: &Pair,
    items: &[Term],
    body: &Term,
) -> Result<(SealedToken, Got), Refusal>
    requires length { length items.now ≡ 3 }
    requires kinds { are_clear items.now 1 (Shows X2 ∷ []) ≡ true }
    requires items { message_items (1 ∷ 1 ∷ 1 ∷ 0 ∷ []) names.now.b (Shows X2 ∷ []) (true ∷ [])
        delivery.now.term.now ≡ Ok items.now }
    requires opened { S.opens (key_of delivery.now.ring.now names.now) (at items.now 2)
        ≡ Some body.now }
    ensures fit { IfOk result (λ v. Leads S.opens S.checks delivery.now
        (run_b names.now StartB) (run_b names.now (DoneB v.0))
        (opened_by delivery.now.ring.now names.now (at items.now 2) body.now) (v.1 ∷ [])) }
    ensures refused { IfErr result
        (Refuses S.opens S.checks delivery.now (run_b names.now StartB)) }
{
    let (a, b) = (names.a, names.b);
    let slots = read_body(body, &Tag([1, 1, 1, 1]), &[a, b], &[Slot::Ta, Slot::X1], 1)?;
    let x2 = (Slot::X2, text_at(items, 1));
    let x1 = (Slot::X1, text_at(slots, 4));
    let (x2, x1) = take_texts(delivery.alloc, delivery.hook, Mech::E1, x2, x1)?;
    let ta = stamp_at(slots, 3);
    let got = Got {
        slot: Slot::Ta,
        sender: a,
        tag: Tag([1, 1, 1, 1]),
        stamp: ta,
    };
    Ok((SealedToken { x2, ta, x1 }, got))
}

/// The run that has taken the first message, with what it opened and the stamp to judge.
fn read_first<S: Sealer>(
    delivery: &Delivery<S>,
    names: &Pair,
) -> Result<(SealedToken, Vec<Opening>, Vec<Got>), Refusal>
    requires parts { has_parts delivery.now.ring.now (run_b names.now StartB).head ≡ true }
    ensures fit { IfOk result (λ p. Leads S.opens S.checks delivery.now
        (run_b names.now StartB) (run_b names.now (DoneB p.0)) p.1.items p.2.items) }
    ensures refused { IfErr result
        (Refuses S.opens S.checks delivery.now (run_b names.now StartB)) }
{
    let alloc = delivery.alloc;
    let items = read_message(
        delivery.term,
        &Tag([1, 1, 1, 0]),
        names.b,
        &[Clear::Slot(Slot::X2)],
        &[true],
    )?;
    let key = key_between(delivery.ring, names.a, names.b);
    let item = open_item(alloc, delivery.sealer, key, item_at(items, 2), 1)?;
    let first = first_of(delivery, names, items, &item.body);
    judged_by(alloc, first, item)
}

impl RoleState for E1B {
    ghost plays = { is_e1b };

    fn begin(_alloc: Global, head: &RunHead, _texts: &Texts) -> Result<E1B, OutOfMemory> {
        Ok(E1B {
            names: Pair {
                a: head.a,
                b: head.b,
            },
            stage: StageB::Start,
        })
    }

    fn head(&self) -> RunHead {
        self.names.head(Mech::E1, Role::B)
    }

    fn copy(&self, _alloc: Global) -> Result<E1B, OutOfMemory> {
        self.clone()
    }

    fn same(&self, other: &E1B) -> bool {
        self.names == other.names && self.stage == other.stage
    }

    fn note(&self, alloc: Global, notes: &mut NoteList) -> Result<(), OutOfMemory> {
        match &self.stage {
            StageB::Start => Ok(()),
            StageB::Done(token) => token.note(alloc, notes),
        }
    }

    fn phase(&self) -> Phase {
        match &self.stage {
            StageB::Start => Phase::receives(0),
            StageB::Done(_) => Phase::done(1),
        }
    }

    fn read<S: Sealer>(&self, delivery: &Delivery<S>) -> Result<Taken<E1B>, Refusal> {
        let names = &self.names;
        let StageB::Start = &self.stage else {
            return Err(Refusal::WrongPass);
        };
        let (token, opened, got) = read_first(delivery, names)?;
        Ok(Taken {
            after: E1B {
                names: *names,
                stage: StageB::Done(token),
            },
            opened,
            got,
        })
    }

    fn speak<S: Sealer, D: Draws>(
        &self,
        _alloc: Global,
        _sealer: &S,
        _ring: &Ring,
        _draws: &mut D,
        _stamp: Option<Stamp>,
    ) -> Result<Reply<E1B>, Refusal> {
        Err(Refusal::WrongPass)
    }
}
