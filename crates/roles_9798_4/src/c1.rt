ghost use Rattle.std.specs.Prelude.{◌≡◌, ◌≢◌, ◌∷◌, [], true, Ok, Err, IfOk, IfErr};
ghost use Rattle.term_values.specs.Trees.{nonce, stamp, text};
ghost use Rattle.mech_rows.specs.declared.kinds.Clear.TheVariants.{Slot as Shows};
ghost use Rattle.mech_rows.specs.declared.kinds.Slot.TheVariants.{Ta, X1, X2};
ghost use Rattle.mech_rows.specs.declared.refusal.Refusal.TheVariants.{Memory};
ghost use Rattle.mech_rows.specs.Openings.{has_parts};
ghost use Rattle.mech_rows.specs.Verdict.{at, message_items};
ghost use Rattle.text_hooks.specs.Leading.{Leads, Refuses};
ghost use Rattle.text_hooks.specs.Names.{key_of, opened_by};
ghost use Rattle.roles_9798_4.specs.C1A.{is_c1a};
ghost use Rattle.roles_9798_4.specs.C1B.{covered, is_c1b, run as run_b};
ghost use Rattle.roles_9798_4.specs.declared.c1.StageB.TheVariants.{Start as StartB, Done as DoneB};

// Pass 1, A to B: Ta, X1, X2 in the clear, and a check of Ta, X1.

use mech_rows::{Clear, Got, Mech, Opening, Refusal, Ring, Role, RunHead, Slot, Stated, Texts};
use outside::Draws;
use seal_trait::Sealer;
use std::alloc::Global;
use term_values::{OutOfMemory, Stamp, Tag, Term, Text};
use text_hooks::{
    CheckedToken, Delivery, FirstTexts, NoteList, Pair, Phase, Reply, RoleState, Shown, SlotValue,
    Stamped, Taken, item_at, judged_by, key_between, one_value, own_text, read_message, said_still,
    say_checked, stamp_at, take_texts, test_item, text_at,
};

/// How far A is.
#[derive(Clone, PartialEq, Eq, Drop)]
pub enum StageA {
    /// It sends the first message.
    Start(FirstTexts),
    /// It has sent the first message.
    Done(Stamped),
}

/// A in C1.
#[derive(Clone, PartialEq, Eq, Drop)]
pub struct C1A {
    names: Pair,
    stage: StageA,
}

impl Stated for C1A {
    ghost use Rattle.roles_9798_4.specs.C1A.{state_of as state_of_c1a};

    ghost state_of = { state_of_c1a };
}

impl RoleState for C1A {
    ghost plays = { is_c1a };

    fn begin(alloc: Global, head: &RunHead, texts: &Texts) -> Result<C1A, OutOfMemory> {
        let x1 = own_text(alloc, texts, Slot::X1)?;
        let x2 = own_text(alloc, texts, Slot::X2)?;
        Ok(C1A {
            names: Pair {
                a: head.a,
                b: head.b,
            },
            stage: StageA::Start(FirstTexts { x1, x2 }),
        })
    }

    fn head(&self) -> RunHead {
        self.names.head(Mech::C1, Role::A)
    }

    fn copy(&self, _alloc: Global) -> Result<C1A, OutOfMemory> {
        self.clone()
    }

    fn same(&self, other: &C1A) -> bool {
        self.names == other.names && self.stage == other.stage
    }

    fn note(&self, alloc: Global, notes: &mut NoteList) -> Result<(), OutOfMemory> {
        match &self.stage {
            StageA::Start(own) => own.note(alloc, notes),
            StageA::Done(sent) => sent.note(alloc, notes),
        }
    }

    fn phase(&self) -> Phase {
        match &self.stage {
            StageA::Start(_) => Phase::sends(0).with_stamp(),
            StageA::Done(_) => Phase::done(1),
        }
    }

    fn read<S: Sealer>(&self, _delivery: &Delivery<S>) -> Result<Taken<C1A>, Refusal> {
        Err(Refusal::WrongPass)
    }

    fn speak<S: Sealer, D: Draws>(
        &self,
        alloc: Global,
        sealer: &S,
        ring: &Ring,
        _draws: &mut D,
        stamp: Option<Stamp>,
    ) -> Result<Reply<C1A>, Refusal> {
        let names = &self.names;
        let StageA::Start(own) = &self.stage else {
            return Err(Refusal::WrongPass);
        };
        let Some(ta) = stamp else { unreachable!() };
        let key = key_between(ring, names.a, names.b);
        let body = one_value(
            alloc,
            Tag([2, 1, 1, 1]),
            names.a,
            names.b,
            SlotValue::Stamp(ta),
            &own.x1,
        )?;
        let said = say_checked(
            alloc,
            sealer,
            key,
            body,
            Tag([2, 1, 1, 0]),
            Some(SlotValue::Stamp(ta)),
            &own.x1,
            &own.x2,
        )?;
        let Reply {
            after: own,
            message,
            sealed,
        } = said_still(alloc, own, said)?;
        Ok(Reply {
            after: C1A {
                names: *names,
                stage: StageA::Done(Stamped { own, ta }),
            },
            message,
            sealed,
        })
    }
}

/// How far B is.
#[derive(Clone, PartialEq, Eq, Drop)]
pub enum StageB {
    /// It waits for the first message.
    Start,
    /// It has taken the first message.
    Done(CheckedToken),
}

/// B in C1.
#[derive(Clone, PartialEq, Eq, Drop)]
pub struct C1B {
    names: Pair,
    stage: StageB,
}

impl Stated for C1B {
    ghost use Rattle.roles_9798_4.specs.C1B.{state_of as state_of_c1b};

    ghost state_of = { state_of_c1b };
}

/// What the first message shows, whose items these are, and whose check holds.
fn first_of<S: Sealer>(
    delivery: &Delivery<S>,
    names: &Pair,
    items: &[Term],
    ta: Stamp,
    x1: &Text,
    x2: &Text,
) -> Result<(CheckedToken, Got), Refusal>
    requires items { message_items (2 ∷ 1 ∷ 1 ∷ 0 ∷ []) names.now.b
        (Shows Ta ∷ Shows X1 ∷ Shows X2 ∷ []) (true ∷ []) delivery.now.term.now ≡ Ok items.now }
    requires ta { at items.now 1 ≡ stamp ta }
    requires x1 { at items.now 2 ≡ text x1.now }
    requires x2 { at items.now 3 ≡ text x2.now }
    requires checked { S.checks (key_of delivery.now.ring.now names.now)
        (covered names.now ta x1.now)
        (at items.now 4) ≡ true }
    ensures fit { IfOk result (λ v. Leads S.opens S.checks delivery.now
        (run_b names.now StartB) (run_b names.now (DoneB v.0))
        (opened_by delivery.now.ring.now names.now (at items.now 4) (covered names.now ta x1.now))
        (v.1 ∷ [])) }
    ensures refused { IfErr result
        (Refuses S.opens S.checks delivery.now (run_b names.now StartB)) }
{
    let x1 = (Slot::X1, x1);
    let x2 = (Slot::X2, x2);
    let (x1, x2) = take_texts(delivery.alloc, delivery.hook, Mech::C1, x1, x2)?;
    let got = Got {
        slot: Slot::Ta,
        sender: names.a,
        tag: Tag([2, 1, 1, 1]),
        stamp: ta,
    };
    Ok((CheckedToken { ta, x1, x2 }, got))
}

/// The run that has taken the first message, with what it checked and the stamp to judge.
fn read_first<S: Sealer>(
    delivery: &Delivery<S>,
    names: &Pair,
) -> Result<(CheckedToken, Vec<Opening>, Vec<Got>), Refusal>
    requires parts { has_parts delivery.now.ring.now (run_b names.now StartB).head ≡ true }
    ensures fit { IfOk result (λ p. Leads S.opens S.checks delivery.now
        (run_b names.now StartB) (run_b names.now (DoneB p.0)) p.1.items p.2.items) }
    ensures refused { IfErr result
        (Refuses S.opens S.checks delivery.now (run_b names.now StartB)) }
{
    let alloc = delivery.alloc;
    let items = read_message(
        delivery.term,
        &Tag([2, 1, 1, 0]),
        names.b,
        &[
            Clear::Slot(Slot::Ta),
            Clear::Slot(Slot::X1),
            Clear::Slot(Slot::X2),
        ],
        &[true],
    )?;
    let ta = stamp_at(items, 1);
    let x1 = text_at(items, 2);
    let x2 = text_at(items, 3);
    let body = one_value(
        alloc,
        Tag([2, 1, 1, 1]),
        names.a,
        names.b,
        SlotValue::Stamp(ta),
        x1,
    )?;
    let key = key_between(delivery.ring, names.a, names.b);
    let item = test_item(alloc, delivery.sealer, key, body, item_at(items, 4), 1)?;
    let first = first_of(delivery, names, items, ta, x1, x2);
    judged_by(alloc, first, item)
}

impl RoleState for C1B {
    ghost plays = { is_c1b };

    fn begin(_alloc: Global, head: &RunHead, _texts: &Texts) -> Result<C1B, OutOfMemory> {
        Ok(C1B {
            names: Pair {
                a: head.a,
                b: head.b,
            },
            stage: StageB::Start,
        })
    }

    fn head(&self) -> RunHead {
        self.names.head(Mech::C1, Role::B)
    }

    fn copy(&self, _alloc: Global) -> Result<C1B, OutOfMemory> {
        self.clone()
    }

    fn same(&self, other: &C1B) -> bool {
        self.names == other.names && self.stage == other.stage
    }

    fn note(&self, alloc: Global, notes: &mut NoteList) -> Result<(), OutOfMemory> {
        match &self.stage {
            StageB::Start => Ok(()),
            StageB::Done(token) => token.note(alloc, notes),
        }
    }

    fn phase(&self) -> Phase {
        match &self.stage {
            StageB::Start => Phase::receives(0),
            StageB::Done(_) => Phase::done(1),
        }
    }

    fn read<S: Sealer>(&self, delivery: &Delivery<S>) -> Result<Taken<C1B>, Refusal> {
        let names = &self.names;
        let StageB::Start = &self.stage else {
            return Err(Refusal::WrongPass);
        };
        let (token, opened, got) = read_first(delivery, names)?;
        Ok(Taken {
            after: C1B {
                names: *names,
                stage: StageB::Done(token),
            },
            opened,
            got,
        })
    }

    fn speak<S: Sealer, D: Draws>(
        &self,
        _alloc: Global,
        _sealer: &S,
        _ring: &Ring,
        _draws: &mut D,
        _stamp: Option<Stamp>,
    ) -> Result<Reply<C1B>, Refusal> {
        Err(Refusal::WrongPass)
    }
}
