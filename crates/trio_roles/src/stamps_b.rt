ghost use Rattle.std.specs.Prelude.{◌≡◌, ◌≢◌, ◌↔◌, ◌∷◌, [], true, length, IsTrue, Some, Ok, Err};
ghost use Rattle.std.specs.Prelude.{IfOk, IfErr};
ghost use Rattle.term_values.specs.declared.small.Key.TheVariants.{One};
ghost use Rattle.mech_rows.specs.declared.kinds.Clear.TheVariants.{Slot as Shows};
ghost use Rattle.mech_rows.specs.declared.kinds.Slot.TheVariants.{X6, Tp, Fa, X2};
ghost use Rattle.mech_rows.specs.declared.refusal.Refusal.TheVariants.{Memory};
ghost use Rattle.mech_rows.specs.Openings.{has_parts};
ghost use Rattle.mech_rows.specs.Rings.{keys_in};
ghost use Rattle.mech_rows.specs.Rows.{tag_of};
ghost use Rattle.mech_rows.specs.Runs.{bytes_or_empty, part_bytes};
ghost use Rattle.mech_rows.specs.Verdict.{are_clear, are_kinds, at, body_items, message_items};
ghost use Rattle.mech_rows.specs.declared.kinds.Role.TheVariants.{B};
ghost use Rattle.text_hooks.specs.Leading.{Leads, Refuses};
ghost use Rattle.text_hooks.specs.Trios.{by_stamps, stamps_head};
ghost use Rattle.trio_roles.specs.Passes.{names_in};
ghost use Rattle.trio_roles.specs.Rest.{IsJudgedAs, LeadsBy, RefusesBy, ThenLeads, ThenRefuses};
ghost use Rattle.trio_roles.specs.Rest.{after_first, judged_as};
ghost use Rattle.trio_roles.specs.StampsB.{got_third, is_stamps_b, run, third_pass, ticket_by};
ghost use Rattle.trio_roles.specs.declared.stamps_b.StageB.TheVariants.{Start, Heard};

use crate::words::{FirstOpened, judged_by_two, one_of_three, same_trio, take_three};
use mech_rows::{Clear, Got, Opening, Refusal, Ring, Role, RunHead, Slot, Stated, Texts, Value};
use outside::Draws;
use seal_trait::Sealer;
use std::alloc::Global;
use term_values::{Key, OutOfMemory, Part, Stamp, Term, Text};
use text_hooks::{
    Delivery, NoteList, Phase, Reply, RoleState, Shown, SlotValue, Taken, Trio, add, beside,
    by_stamps, item_at, key_at, key_between, open_item, own_text, part_at, read_body, read_message,
    said_still, say_sealed, stamp_at, stamps_tag, text_at, trio_by_stamps,
};

/// The texts of B's own message.
#[derive(Clone, PartialEq, Eq, Drop)]
pub struct ReplyTexts {
    x7: Text,
    x8: Text,
}

impl Shown for ReplyTexts {
    ghost use Rattle.trio_roles.specs.StampsB.{reply_texts};

    ghost notes_of = { reply_texts };

    fn note(&self, alloc: Global, notes: &mut NoteList) -> Result<(), OutOfMemory> {
        add(notes, Slot::X7, Value::Text(self.x7.copy(alloc)?))?;
        add(notes, Slot::X8, Value::Text(self.x8.copy(alloc)?))
    }
}

/// What the third message shows.
#[derive(Clone, PartialEq, Eq, Drop)]
pub struct Third {
    x6: Text,
    tp: Stamp,
    fa: Part,
    x2: Text,
    ta: Stamp,
    x5: Text,
}

impl Shown for Third {
    ghost use Rattle.trio_roles.specs.StampsB.{third};

    ghost notes_of = { third };

    fn note(&self, alloc: Global, notes: &mut NoteList) -> Result<(), OutOfMemory> {
        add(notes, Slot::X6, Value::Text(self.x6.copy(alloc)?))?;
        add(notes, Slot::Tp, Value::Stamp(self.tp))?;
        add(notes, Slot::Fa, Value::Part(self.fa))?;
        add(notes, Slot::X2, Value::Text(self.x2.copy(alloc)?))?;
        add(notes, Slot::Ta, Value::Stamp(self.ta))?;
        add(notes, Slot::X5, Value::Text(self.x5.copy(alloc)?))
    }
}

/// It has heard the third message.
#[derive(Clone, PartialEq, Eq, Drop)]
pub struct ThirdHeard {
    own: ReplyTexts,
    third: Third,
}

impl Shown for ThirdHeard {
    ghost use Rattle.trio_roles.specs.StampsB.{third_heard};

    ghost notes_of = { third_heard };

    fn note(&self, alloc: Global, notes: &mut NoteList) -> Result<(), OutOfMemory> {
        self.own.note(alloc, notes)?;
        self.third.note(alloc, notes)
    }
}

/// It has replied, with a stamp.
#[derive(Clone, PartialEq, Eq, Drop)]
pub struct Replied {
    heard: ThirdHeard,
    tb: Stamp,
}

/// How far B is.
#[derive(Clone, PartialEq, Eq, Drop)]
pub enum StageB {
    /// It waits for the third message.
    Start(ReplyTexts),
    /// It has heard the third message.
    Heard(ThirdHeard),
    /// It has replied.
    Done(Replied),
}

/// B in E5 or K8.
#[derive(Clone, PartialEq, Eq, Drop)]
pub struct StampsB {
    trio: Trio,
    stage: StageB,
}

impl Stated for StampsB {
    ghost use Rattle.trio_roles.specs.StampsB.{state_of as state_of_stamps_b};

    ghost state_of = { state_of_stamps_b };
}

/// Once the ticket has opened, the judgement is what the rest of the message gives.
fn ticket_opened<S: Sealer>(
    delivery: &Delivery<S>,
    trio: &Trio,
    known: &ReplyTexts,
    first: &FirstOpened,
)
    requires items { message_items (tag_of (by_stamps trio.now.family) 3 0) trio.now.names.b
        (Shows X6 ∷ []) (true ∷ true ∷ []) delivery.now.term.now ≡ Ok first.now.items.now }
    requires opened { S.opens
        (ticket_by delivery.now.ring.now trio.now (at first.now.items.now 2) first.now.body.now).key
        (at first.now.items.now 2) ≡ Some first.now.body.now }
    requires slots { body_items (tag_of (by_stamps trio.now.family) 2 2)
        (names_in trio.now) (Tp ∷ Fa ∷ X2 ∷ []) 1
        first.now.body.now ≡ Ok first.now.slots.now }
    ensures rest { judged_as S.opens delivery.now (names_in trio.now) (third_pass trio.now.family)
        (run trio.now (Start known.now))
        ≡ after_first S.opens delivery.now (names_in trio.now) (third_pass trio.now.family)
        (run trio.now (Start known.now)) first.now.items.now first.now.body.now
        first.now.slots.now }
{}

/// The item that A sealed under the ticket's key, where it opens.
#[tactic(auto, unfolding(crate::specs::Rest::after_first))]
fn second_item<S: Sealer>(
    delivery: &Delivery<S>,
    trio: &Trio,
    known: &ReplyTexts,
    first: &FirstOpened,
) -> Result<Opening, Refusal>
    requires length { length first.now.items.now ≡ 4 }
    requires slots_length { length first.now.slots.now ≡ 7 }
    requires slots_kinds { are_kinds first.now.slots.now 4 (Tp ∷ Fa ∷ X2 ∷ []) ≡ true }
    ensures opened { IfOk result (λ o. (S.opens (One (part_bytes (at first.now.slots.now 5)))
        (at first.now.items.now 3) ≡ Some o.body)
        × (o.key ≡ One (part_bytes (at first.now.slots.now 5)))
        × (o.item ≡ at first.now.items.now 3)) }
    ensures refused { IfErr result (ThenRefuses S.opens delivery.now
        (names_in trio.now) (third_pass trio.now.family) (run trio.now (Start known.now)) first.now.items.now
        first.now.body.now first.now.slots.now) }
{
    let key = key_at(first.slots, 5);
    open_item(
        delivery.alloc,
        delivery.sealer,
        key,
        item_at(first.items, 3),
        2,
    )
}

/// What the third message shows, by its items and its opened bodies, where it fits.
#[tactic(auto, unfolding(crate::specs::Rest::after_first))]
fn third_of<S: Sealer>(
    delivery: &Delivery<S>,
    trio: &Trio,
    known: &ReplyTexts,
    first: &FirstOpened,
    body: &Term,
) -> Result<Third, Refusal>
    requires length { length first.now.items.now ≡ 4 }
    requires kinds { are_clear first.now.items.now 1 (Shows X6 ∷ []) ≡ true }
    requires slots_length { length first.now.slots.now ≡ 7 }
    requires slots_kinds { are_kinds first.now.slots.now 4 (Tp ∷ Fa ∷ X2 ∷ []) ≡ true }
    requires opened { S.opens (One (part_bytes (at first.now.slots.now 5)))
        (at first.now.items.now 3) ≡ Some body.now }
    ensures fit { IfOk result (λ v. ThenLeads S.opens delivery.now
        (names_in trio.now) (third_pass trio.now.family) (run trio.now (Start known.now)) first.now.items.now
        first.now.body.now first.now.slots.now
        (run trio.now (Heard (record { own = known.now; third = v })))
        (ticket_by delivery.now.ring.now trio.now (at first.now.items.now 2) first.now.body.now
        ∷ record {
          key = One (part_bytes (at first.now.slots.now 5));
          item = at first.now.items.now 3;
          body = body.now;
        } ∷ [])
        (got_third trio.now v)) }
    ensures refused { IfErr result (ThenRefuses S.opens delivery.now
        (names_in trio.now) (third_pass trio.now.family) (run trio.now (Start known.now)) first.now.items.now
        first.now.body.now first.now.slots.now) }
{
    let (a, b, p) = (trio.names.a, trio.names.b, trio.names.p);
    let mech = by_stamps(trio.family);
    let tag = stamps_tag(trio.family, 3, 2);
    let sealed = read_body(body, &tag, &[a, b, p], &[Slot::Ta, Slot::X5], 2)?;
    let x6 = (Slot::X6, text_at(first.items, 1));
    let x2 = (Slot::X2, text_at(first.slots, 6));
    let x5 = (Slot::X5, text_at(sealed, 5));
    let (x6, x2, x5) = take_three(delivery, mech, x6, x2, x5)?;
    Ok(Third {
        x6,
        tp: stamp_at(first.slots, 4),
        fa: part_at(first.slots, 5),
        x2,
        ta: stamp_at(sealed, 4),
        x5,
    })
}

fn same_third(one: &Third, other: &Third) -> bool
    ensures same { IsTrue result ↔ (one.now ≡ other.now) }
{
    one == other
}

fn same_heard(one: &ThirdHeard, other: &ThirdHeard) -> bool
    ensures same { IsTrue result ↔ (one.now ≡ other.now) }
{
    one.own == other.own && same_third(&one.third, &other.third)
}

fn same_stage(one: &StageB, other: &StageB) -> bool
    ensures same { IsTrue result ↔ (one.now ≡ other.now) }
{
    match (one, other) {
        (StageB::Start(one), StageB::Start(two)) => one == two,
        (StageB::Heard(one), StageB::Heard(two)) => same_heard(one, two),
        (StageB::Done(one), StageB::Done(two)) => {
            one.tb == two.tb && same_heard(&one.heard, &two.heard)
        }
        _ => false,
    }
}

/// The stamps to judge.
fn stamps_in(trio: &Trio, third: &Third) -> (Got, Got)
    ensures stamps { result.0 ∷ result.1 ∷ [] ≡ got_third trio.now third.now }
{
    let from_p = Got {
        slot: Slot::Tp,
        sender: trio.names.p,
        tag: stamps_tag(trio.family, 2, 2),
        stamp: third.tp,
    };
    let from_a = Got {
        slot: Slot::Ta,
        sender: trio.names.a,
        tag: stamps_tag(trio.family, 3, 2),
        stamp: third.ta,
    };
    (from_p, from_a)
}

/// What the third message shows, the item that A sealed, and the stamps to judge, where it fits and
/// the ticket has opened.
#[tactic(auto, unfolding(crate::specs::Rest::judged_as))]
fn after_ticket<S: Sealer>(
    delivery: &Delivery<S>,
    trio: &Trio,
    known: &ReplyTexts,
    items: &[Term],
    ticket: &Term,
) -> Result<(Third, Opening, (Got, Got)), Refusal>
    requires length { length items.now ≡ 4 }
    requires kinds { are_clear items.now 1 (Shows X6 ∷ []) ≡ true }
    requires items { message_items (tag_of (by_stamps trio.now.family) 3 0) trio.now.names.b
        (Shows X6 ∷ []) (true ∷ true ∷ []) delivery.now.term.now ≡ Ok items.now }
    requires opened { S.opens
        (ticket_by delivery.now.ring.now trio.now (at items.now 2) ticket.now).key
        (at items.now 2) ≡ Some ticket.now }
    ensures fit { IfOk result (λ v. LeadsBy S.opens delivery.now
        (names_in trio.now) (third_pass trio.now.family) (run trio.now (Start known.now))
        (run trio.now (Heard (record { own = known.now; third = v.0 })))
        (ticket_by delivery.now.ring.now trio.now (at items.now 2) ticket.now ∷ v.1 ∷ [])
        (v.2.0 ∷ v.2.1 ∷ [])) }
    ensures refused { IfErr result (RefusesBy S.opens delivery.now
        (names_in trio.now) (third_pass trio.now.family) (run trio.now (Start known.now))) }
{
    let (a, b, p) = (trio.names.a, trio.names.b, trio.names.p);
    let tag = stamps_tag(trio.family, 2, 2);
    let wanted = [Slot::Tp, Slot::Fa, Slot::X2];
    let slots = read_body(ticket, &tag, &[a, b, p], &wanted, 1)?;
    let first = FirstOpened {
        items,
        body: ticket,
        slots,
    };
    ticket_opened(delivery, trio, known, &first);
    let item = second_item(delivery, trio, known, &first)?;
    let third = third_of(delivery, trio, known, &first, &item.body);
    let (item, third) = beside(item, third)?;
    let got = stamps_in(trio, &third);
    Ok((third, item, got))
}

/// The verdict on a message at the start is its judgement as the third one.
fn third_by_row<S: Sealer>(delivery: &Delivery<S>, trio: &Trio, known: &ReplyTexts)
    ensures judged { IsJudgedAs S.opens S.checks delivery.now (names_in trio.now)
        (third_pass trio.now.family) (run trio.now (Start known.now)) }
{}

/// The key of B and the third party, of which the ring has the part.
fn ticket_key(ring: &Ring, trio: &Trio) -> Key
    requires parts { has_parts ring.now (stamps_head B trio.now) ≡ true }
    ensures key { result ≡ One (bytes_or_empty
        (keys_in ring.now trio.now.names.b trio.now.names.p)) }
{
    key_between(ring, trio.names.b, trio.names.p)
}

/// The run that has heard the third message, with what it opened and the stamps to judge.
#[tactic(auto, unfolding(crate::specs::Rest::judged_as))]
fn read_third<S: Sealer>(
    delivery: &Delivery<S>,
    trio: &Trio,
    known: &ReplyTexts,
) -> Result<(ThirdHeard, Vec<Opening>, Vec<Got>), Refusal>
    requires parts { has_parts delivery.now.ring.now (stamps_head B trio.now) ≡ true }
    ensures fit { IfOk result (λ v. Leads S.opens S.checks delivery.now
        (run trio.now (Start known.now)) (run trio.now (Heard v.0)) v.1.items v.2.items) }
    ensures refused { IfErr result
        (Refuses S.opens S.checks delivery.now (run trio.now (Start known.now))) }
{
    third_by_row(delivery, trio, known);
    let tag = stamps_tag(trio.family, 3, 0);
    let clear = [Clear::Slot(Slot::X6)];
    let items = read_message(delivery.term, &tag, trio.names.b, &clear, &[true, true])?;
    let key = ticket_key(delivery.ring, trio);
    let item = item_at(items, 2);
    let ticket = open_item(delivery.alloc, delivery.sealer, key, item, 1)?;
    let rest = after_ticket(delivery, trio, known, items, &ticket.body);
    let (own, third, opened, got) = judged_by_two(delivery.alloc, known, ticket, rest)?;
    Ok((ThirdHeard { own, third }, opened, got))
}

impl RoleState for StampsB {
    ghost plays = { is_stamps_b };

    fn begin(alloc: Global, head: &RunHead, texts: &Texts) -> Result<StampsB, OutOfMemory> {
        let x7 = own_text(alloc, texts, Slot::X7)?;
        let x8 = own_text(alloc, texts, Slot::X8)?;
        Ok(StampsB {
            trio: trio_by_stamps(head),
            stage: StageB::Start(ReplyTexts { x7, x8 }),
        })
    }

    fn head(&self) -> RunHead {
        self.trio.names.head(by_stamps(self.trio.family), Role::B)
    }

    fn copy(&self, _alloc: Global) -> Result<StampsB, OutOfMemory> {
        self.clone()
    }

    fn same(&self, other: &StampsB) -> bool {
        same_trio(&self.trio, &other.trio) && same_stage(&self.stage, &other.stage)
    }

    fn note(&self, alloc: Global, notes: &mut NoteList) -> Result<(), OutOfMemory> {
        match &self.stage {
            StageB::Start(own) => own.note(alloc, notes),
            StageB::Heard(known) => known.note(alloc, notes),
            StageB::Done(known) => {
                known.heard.note(alloc, notes)?;
                add(notes, Slot::Tb, Value::Stamp(known.tb))
            }
        }
    }

    fn phase(&self) -> Phase {
        match &self.stage {
            StageB::Start(_) => Phase::receives(2).with_stamp(),
            StageB::Heard(_) => Phase::sends(3).with_stamp(),
            StageB::Done(_) => Phase::done(4),
        }
    }

    fn read<S: Sealer>(&self, delivery: &Delivery<S>) -> Result<Taken<StampsB>, Refusal> {
        let trio = &self.trio;
        let StageB::Start(known) = &self.stage else {
            return Err(Refusal::WrongPass);
        };
        let (known, opened, got) = read_third(delivery, trio, known)?;
        Ok(Taken {
            after: StampsB {
                trio: *trio,
                stage: StageB::Heard(known),
            },
            opened,
            got,
        })
    }

    fn speak<S: Sealer, D: Draws>(
        &self,
        alloc: Global,
        sealer: &S,
        _ring: &Ring,
        draws: &mut D,
        stamp: Option<Stamp>,
    ) -> Result<Reply<StampsB>, Refusal> {
        let trio = &self.trio;
        let StageB::Heard(known) = &self.stage else {
            return Err(Refusal::WrongPass);
        };
        let Some(tb) = stamp else { unreachable!() };
        let key = Key::One(known.third.fa);
        let head = stamps_tag(trio.family, 4, 1);
        let body = one_of_three(
            alloc,
            head,
            &trio.names,
            SlotValue::Stamp(tb),
            &known.own.x7,
        )?;
        let head = stamps_tag(trio.family, 4, 0);
        let said = say_sealed(alloc, sealer, draws, key, body, head, &known.own.x8)?;
        let Reply {
            after: heard,
            message,
            sealed,
        } = said_still(alloc, known, said)?;
        Ok(Reply {
            after: StampsB {
                trio: *trio,
                stage: StageB::Done(Replied { heard, tb }),
            },
            message,
            sealed,
        })
    }
}
