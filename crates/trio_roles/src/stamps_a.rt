ghost use Rattle.std.specs.Prelude.{◌≡◌, ◌≢◌, ◌↔◌, ◌∷◌, [], true, false, length, IsTrue, Some, Ok};
ghost use Rattle.std.specs.Prelude.{Err, IfOk, IfErr};
ghost use Rattle.term_values.specs.declared.small.Key.TheVariants.{One};
ghost use Rattle.tagged_codec.specs.Grammar.{IsInLimits};
ghost use Rattle.mech_rows.specs.declared.kinds.Clear.TheVariants.{Slot as Shows};
ghost use Rattle.mech_rows.specs.declared.kinds.Role.TheVariants.{A};
ghost use Rattle.mech_rows.specs.declared.kinds.Slot.TheVariants.{X4, X8};
ghost use Rattle.mech_rows.specs.declared.refusal.Refusal.TheVariants.{Memory};
ghost use Rattle.mech_rows.specs.Openings.{has_parts};
ghost use Rattle.mech_rows.specs.Rings.{keys_in};
ghost use Rattle.mech_rows.specs.Rows.{tag_of};
ghost use Rattle.mech_rows.specs.Runs.{bytes_or_empty};
ghost use Rattle.mech_rows.specs.Verdict.{are_clear, at, message_items};
ghost use Rattle.text_hooks.specs.Leading.{Leads, Refuses};
ghost use Rattle.text_hooks.specs.Trios.{by_stamps, stamps_head};
ghost use Rattle.trio_roles.specs.Passes.{names_in, opened_by_part, opened_under};
ghost use Rattle.trio_roles.specs.Rest.{IsJudgedAs, LeadsBy, RefusesBy, judged_as};
ghost use Rattle.trio_roles.specs.StampsA.{fourth_pass, got_fourth, is_stamps_a, run, second_pass};
ghost use Rattle.trio_roles.specs.Tickets.{MayGoOn};
ghost use Rattle.trio_roles.specs.declared.stamps_a.StageA.TheVariants.{Start, Asking, Heard, Sent};
ghost use Rattle.trio_roles.specs.declared.stamps_a.StageA.TheVariants.{Done};

use crate::ticket::Ticket;
use crate::words::{HandedOn, one_of_three, request, same_trio, say_handed_on, with_copy};
use mech_rows::{Clear, Got, Opening, Refusal, Ring, Role, RunHead, Slot, Stated, Texts, Value};
use outside::Draws;
use seal_trait::Sealer;
use std::alloc::Global;
use term_values::{Key, Nonce, OutOfMemory, Part, Stamp, Term, Text};
use text_hooks::{
    Delivery, NoteList, Phase, Reply, RoleState, Shown, SlotValue, Taken, Trio, Unsealed, add,
    asked, by_stamps, compare_nonce, draw_nonce, grown_and_judged, grown_by, item_at, key_between,
    nonce_at, open_item, own_text, part_at, read_body, read_message, said_still, stamp_at,
    stamps_tag, take_texts, text_at, trio_by_stamps,
};

/// The texts of A's own messages.
#[derive(Clone, PartialEq, Eq, Drop)]
pub struct AskingTexts {
    x1: Text,
    x5: Text,
    x6: Text,
}

impl Shown for AskingTexts {
    ghost use Rattle.trio_roles.specs.StampsA.{asking_texts};

    ghost notes_of = { asking_texts };

    fn note(&self, alloc: Global, notes: &mut NoteList) -> Result<(), OutOfMemory> {
        add(notes, Slot::X1, Value::Text(self.x1.copy(alloc)?))?;
        add(notes, Slot::X5, Value::Text(self.x5.copy(alloc)?))?;
        add(notes, Slot::X6, Value::Text(self.x6.copy(alloc)?))
    }
}

/// It has asked the third party.
#[derive(Clone, PartialEq, Eq, Drop)]
pub struct Asked {
    own: AskingTexts,
    ra: Nonce,
}

impl Shown for Asked {
    ghost use Rattle.trio_roles.specs.StampsA.{asked as asked_notes};

    ghost notes_of = { asked_notes };

    fn note(&self, alloc: Global, notes: &mut NoteList) -> Result<(), OutOfMemory> {
        self.own.note(alloc, notes)?;
        add(notes, Slot::Ra, Value::Nonce(self.ra))
    }
}

/// What the second message shows.
#[derive(Clone, Drop)]
pub struct Second {
    x4: Text,
    fa: Part,
    x3: Text,
    ticket: Ticket,
}

impl Shown for Second {
    ghost use Rattle.trio_roles.specs.StampsA.{second};

    ghost notes_of = { second };

    fn note(&self, alloc: Global, notes: &mut NoteList) -> Result<(), OutOfMemory> {
        add(notes, Slot::X4, Value::Text(self.x4.copy(alloc)?))?;
        add(notes, Slot::Fa, Value::Part(self.fa))?;
        add(notes, Slot::X3, Value::Text(self.x3.copy(alloc)?))?;
        add(
            notes,
            Slot::Fwd,
            Value::Item(self.ticket.item().copy(alloc)?),
        )
    }
}

/// It has heard the second message.
#[derive(Clone, Drop)]
pub struct SecondHeard {
    asked: Asked,
    second: Second,
}

impl Shown for SecondHeard {
    ghost use Rattle.trio_roles.specs.StampsA.{second_heard};

    ghost notes_of = { second_heard };

    fn note(&self, alloc: Global, notes: &mut NoteList) -> Result<(), OutOfMemory> {
        self.asked.note(alloc, notes)?;
        self.second.note(alloc, notes)
    }
}

/// It has sent the third message, with a stamp.
#[derive(Clone, Drop)]
pub struct ThirdSent {
    heard: SecondHeard,
    ta: Stamp,
}

impl Shown for ThirdSent {
    ghost use Rattle.trio_roles.specs.StampsA.{third_sent};

    ghost notes_of = { third_sent };

    fn note(&self, alloc: Global, notes: &mut NoteList) -> Result<(), OutOfMemory> {
        self.heard.note(alloc, notes)?;
        add(notes, Slot::Ta, Value::Stamp(self.ta))
    }
}

/// What the fourth message shows.
#[derive(Clone, PartialEq, Eq, Drop)]
pub struct Fourth {
    x8: Text,
    tb: Stamp,
    x7: Text,
}

impl Shown for Fourth {
    ghost use Rattle.trio_roles.specs.StampsA.{fourth};

    ghost notes_of = { fourth };

    fn note(&self, alloc: Global, notes: &mut NoteList) -> Result<(), OutOfMemory> {
        add(notes, Slot::X8, Value::Text(self.x8.copy(alloc)?))?;
        add(notes, Slot::Tb, Value::Stamp(self.tb))?;
        add(notes, Slot::X7, Value::Text(self.x7.copy(alloc)?))
    }
}

/// It has taken the fourth message.
#[derive(Clone, Drop)]
pub struct FourthTaken {
    sent: ThirdSent,
    fourth: Fourth,
}

/// How far A is.
#[derive(Clone, Drop)]
pub enum StageA {
    /// It asks the third party.
    Start(AskingTexts),
    /// It waits for the second message.
    Asking(Asked),
    /// It has heard the second message.
    Heard(SecondHeard),
    /// It waits for the fourth message.
    Sent(ThirdSent),
    /// It has taken the fourth message.
    Done(FourthTaken),
}

/// A in E5 or K8.
#[derive(Clone, Drop)]
pub struct StampsA {
    trio: Trio,
    stage: StageA,
}

impl Stated for StampsA {
    ghost use Rattle.trio_roles.specs.StampsA.{state_of as state_of_stamps_a};

    ghost state_of = { state_of_stamps_a };
}

fn same_second(one: &Second, other: &Second) -> bool
    ensures same { IsTrue result ↔ (one.now ≡ other.now) }
{
    one.x4 == other.x4 && one.fa == other.fa && one.x3 == other.x3 && one.ticket.same(&other.ticket)
}

fn same_heard(one: &SecondHeard, other: &SecondHeard) -> bool
    ensures same { IsTrue result ↔ (one.now ≡ other.now) }
{
    one.asked == other.asked && same_second(&one.second, &other.second)
}

fn same_sent(one: &ThirdSent, other: &ThirdSent) -> bool
    ensures same { IsTrue result ↔ (one.now ≡ other.now) }
{
    one.ta == other.ta && same_heard(&one.heard, &other.heard)
}

fn same_stage(one: &StageA, other: &StageA) -> bool
    ensures same { IsTrue result ↔ (one.now ≡ other.now) }
{
    match (one, other) {
        (StageA::Start(one), StageA::Start(two)) => one == two,
        (StageA::Asking(one), StageA::Asking(two)) => one == two,
        (StageA::Heard(one), StageA::Heard(two)) => same_heard(one, two),
        (StageA::Sent(one), StageA::Sent(two)) => same_sent(one, two),
        (StageA::Done(one), StageA::Done(two)) => {
            one.fourth == two.fourth && same_sent(&one.sent, &two.sent)
        }
        _ => false,
    }
}

/// The second protected item of the message may go on.
#[tactic(auto, using(crate::proofs::Tickets::came))]
fn goes_on<S: Sealer>(delivery: &Delivery<S>, trio: &Trio, items: &[Term])
    requires limits { IsInLimits delivery.now.term.now }
    requires items { message_items (tag_of (by_stamps trio.now.family) 2 0) trio.now.names.b
        (Shows X4 ∷ []) (true ∷ false ∷ []) delivery.now.term.now ≡ Ok items.now }
    ensures goes_on { MayGoOn (at items.now 3) }
{}

/// What the second message shows, by its items and its opened body, where it fits.
#[tactic(auto, unfolding(crate::specs::Rest::judged_as))]
fn second_of<S: Sealer>(
    delivery: &Delivery<S>,
    trio: &Trio,
    known: &Asked,
    items: &[Term],
    body: &Term,
) -> Result<Second, Refusal>
    requires limits { IsInLimits delivery.now.term.now }
    requires length { length items.now ≡ 4 }
    requires kinds { are_clear items.now 1 (Shows X4 ∷ []) ≡ true }
    requires items { message_items (tag_of (by_stamps trio.now.family) 2 0) trio.now.names.b
        (Shows X4 ∷ []) (true ∷ false ∷ []) delivery.now.term.now ≡ Ok items.now }
    requires opened { S.opens (One (bytes_or_empty
        (keys_in delivery.now.ring.now trio.now.names.a trio.now.names.p)))
        (at items.now 2) ≡ Some body.now }
    ensures fit { IfOk result (λ v. LeadsBy S.opens delivery.now
        (names_in trio.now) (second_pass trio.now.family) (run trio.now (Asking known.now))
        (run trio.now (Heard (record { asked = known.now; second = v })))
        (opened_under delivery.now.ring.now trio.now.names.a trio.now.names.p
        (at items.now 2) body.now ∷ []) []) }
    ensures refused { IfErr result (RefusesBy S.opens delivery.now
        (names_in trio.now) (second_pass trio.now.family) (run trio.now (Asking known.now))) }
{
    goes_on(delivery, trio, items);
    let (a, b, p) = (trio.names.a, trio.names.b, trio.names.p);
    let tag = stamps_tag(trio.family, 2, 1);
    let wanted = [Slot::Ra, Slot::Fa, Slot::X3];
    let slots = read_body(body, &tag, &[a, b, p], &wanted, 1)?;
    compare_nonce(&nonce_at(slots, 4), &known.ra, 1, Slot::Ra)?;
    let mech = by_stamps(trio.family);
    let x4 = (Slot::X4, text_at(items, 1));
    let x3 = (Slot::X3, text_at(slots, 6));
    let texts = take_texts(delivery.alloc, delivery.hook, mech, x4, x3);
    let ((x4, x3), ticket) = with_copy(delivery.alloc, texts, item_at(items, 3))?;
    let fa = part_at(slots, 5);
    Ok(Second { x4, fa, x3, ticket })
}

/// The verdict on a message to a run that asked is its judgement as the second one.
fn second_by_row<S: Sealer>(delivery: &Delivery<S>, trio: &Trio, known: &Asked)
    ensures judged { IsJudgedAs S.opens S.checks delivery.now (names_in trio.now)
        (second_pass trio.now.family) (run trio.now (Asking known.now)) }
{}

/// The key of A and the third party, of which the ring has the part.
fn key_of_a(ring: &Ring, trio: &Trio) -> Key
    requires parts { has_parts ring.now (stamps_head A trio.now) ≡ true }
    ensures key { result ≡ One (bytes_or_empty
        (keys_in ring.now trio.now.names.a trio.now.names.p)) }
{
    key_between(ring, trio.names.a, trio.names.p)
}

/// The run that has heard the second message, with what it opened.
#[tactic(auto, unfolding(crate::specs::Rest::judged_as))]
fn read_second<S: Sealer>(
    delivery: &Delivery<S>,
    trio: &Trio,
    known: &Asked,
) -> Result<(SecondHeard, Vec<Opening>), Refusal>
    requires parts { has_parts delivery.now.ring.now (stamps_head A trio.now) ≡ true }
    requires limits { IsInLimits delivery.now.term.now }
    ensures fit { IfOk result (λ v. Leads S.opens S.checks delivery.now
        (run trio.now (Asking known.now)) (run trio.now (Heard v.0)) v.1.items []) }
    ensures refused { IfErr result
        (Refuses S.opens S.checks delivery.now (run trio.now (Asking known.now))) }
{
    second_by_row(delivery, trio, known);
    let alloc = delivery.alloc;
    let tag = stamps_tag(trio.family, 2, 0);
    let clear = [Clear::Slot(Slot::X4)];
    let items = read_message(delivery.term, &tag, trio.names.b, &clear, &[true, false])?;
    let key = key_of_a(delivery.ring, trio);
    let item = open_item(alloc, delivery.sealer, key, item_at(items, 2), 1)?;
    let second = second_of(delivery, trio, known, items, &item.body);
    let (asked, second, opened) = grown_by(alloc, known, second, item)?;
    Ok((SecondHeard { asked, second }, opened))
}

/// What the fourth message shows, by its items and its opened body, where it fits, and the stamp to
/// judge.
#[tactic(auto, unfolding(crate::specs::Rest::judged_as))]
fn fourth_of<S: Sealer>(
    delivery: &Delivery<S>,
    trio: &Trio,
    known: &ThirdSent,
    items: &[Term],
    body: &Term,
) -> Result<(Fourth, Got), Refusal>
    requires length { length items.now ≡ 3 }
    requires kinds { are_clear items.now 1 (Shows X8 ∷ []) ≡ true }
    requires items { message_items (tag_of (by_stamps trio.now.family) 4 0) trio.now.names.b
        (Shows X8 ∷ []) (true ∷ []) delivery.now.term.now ≡ Ok items.now }
    requires opened { S.opens (One known.now.heard.second.fa) (at items.now 2) ≡ Some body.now }
    ensures fit { IfOk result (λ v. LeadsBy S.opens delivery.now
        (names_in trio.now) (fourth_pass trio.now.family) (run trio.now (Sent known.now))
        (run trio.now (Done (record { sent = known.now; fourth = v.0 })))
        (opened_by_part known.now.heard.second.fa (at items.now 2) body.now ∷ []) (v.1 ∷ [])) }
    ensures refused { IfErr result (RefusesBy S.opens delivery.now
        (names_in trio.now) (fourth_pass trio.now.family) (run trio.now (Sent known.now))) }
{
    let (a, b, p) = (trio.names.a, trio.names.b, trio.names.p);
    let tag = stamps_tag(trio.family, 4, 1);
    let slots = read_body(body, &tag, &[a, b, p], &[Slot::Tb, Slot::X7], 1)?;
    let mech = by_stamps(trio.family);
    let x8 = (Slot::X8, text_at(items, 1));
    let x7 = (Slot::X7, text_at(slots, 5));
    let (x8, x7) = take_texts(delivery.alloc, delivery.hook, mech, x8, x7)?;
    let tb = stamp_at(slots, 4);
    let got = Got {
        slot: Slot::Tb,
        sender: b,
        tag: stamps_tag(trio.family, 4, 1),
        stamp: tb,
    };
    Ok((Fourth { x8, tb, x7 }, got))
}

/// The verdict on a message to a run that has sent the third one is its judgement as the fourth.
fn fourth_by_row<S: Sealer>(delivery: &Delivery<S>, trio: &Trio, known: &ThirdSent)
    ensures judged { IsJudgedAs S.opens S.checks delivery.now (names_in trio.now)
        (fourth_pass trio.now.family) (run trio.now (Sent known.now)) }
{}

/// The run that has taken the fourth message, with what it opened and the stamp to judge.
#[tactic(auto, unfolding(crate::specs::Rest::judged_as))]
fn read_fourth<S: Sealer>(
    delivery: &Delivery<S>,
    trio: &Trio,
    known: &ThirdSent,
) -> Result<(FourthTaken, Vec<Opening>, Vec<Got>), Refusal>
    ensures fit { IfOk result (λ v. Leads S.opens S.checks delivery.now
        (run trio.now (Sent known.now)) (run trio.now (Done v.0)) v.1.items v.2.items) }
    ensures refused { IfErr result
        (Refuses S.opens S.checks delivery.now (run trio.now (Sent known.now))) }
{
    fourth_by_row(delivery, trio, known);
    let alloc = delivery.alloc;
    let tag = stamps_tag(trio.family, 4, 0);
    let clear = [Clear::Slot(Slot::X8)];
    let items = read_message(delivery.term, &tag, trio.names.b, &clear, &[true])?;
    let key = Key::One(known.heard.second.fa);
    let item = open_item(alloc, delivery.sealer, key, item_at(items, 2), 1)?;
    let fourth = fourth_of(delivery, trio, known, items, &item.body);
    let (sent, fourth, opened, got) = grown_and_judged(alloc, known, fourth, item)?;
    Ok((FourthTaken { sent, fourth }, opened, got))
}

impl RoleState for StampsA {
    ghost plays = { is_stamps_a };

    fn begin(alloc: Global, head: &RunHead, texts: &Texts) -> Result<StampsA, OutOfMemory> {
        let x1 = own_text(alloc, texts, Slot::X1)?;
        let x5 = own_text(alloc, texts, Slot::X5)?;
        let x6 = own_text(alloc, texts, Slot::X6)?;
        Ok(StampsA {
            trio: trio_by_stamps(head),
            stage: StageA::Start(AskingTexts { x1, x5, x6 }),
        })
    }

    fn head(&self) -> RunHead {
        self.trio.names.head(by_stamps(self.trio.family), Role::A)
    }

    fn copy(&self, _alloc: Global) -> Result<StampsA, OutOfMemory> {
        self.clone()
    }

    fn same(&self, other: &StampsA) -> bool {
        same_trio(&self.trio, &other.trio) && same_stage(&self.stage, &other.stage)
    }

    fn note(&self, alloc: Global, notes: &mut NoteList) -> Result<(), OutOfMemory> {
        match &self.stage {
            StageA::Start(own) => own.note(alloc, notes),
            StageA::Asking(known) => known.note(alloc, notes),
            StageA::Heard(known) => known.note(alloc, notes),
            StageA::Sent(known) => known.note(alloc, notes),
            StageA::Done(known) => {
                known.sent.note(alloc, notes)?;
                known.fourth.note(alloc, notes)
            }
        }
    }

    fn phase(&self) -> Phase {
        match &self.stage {
            StageA::Start(_) => Phase::sends(0),
            StageA::Asking(_) => Phase::receives(1).with_stamp(),
            StageA::Heard(known) => {
                let _item = known.second.ticket.item();
                Phase::sends(2).with_stamp()
            }
            StageA::Sent(known) => {
                let _item = known.heard.second.ticket.item();
                Phase::receives(3)
            }
            StageA::Done(known) => {
                let _item = known.sent.heard.second.ticket.item();
                Phase::done(4)
            }
        }
    }

    fn read<S: Sealer>(&self, delivery: &Delivery<S>) -> Result<Taken<StampsA>, Refusal> {
        let trio = &self.trio;
        match &self.stage {
            StageA::Asking(known) => {
                let (known, opened) = read_second(delivery, trio, known)?;
                Ok(Taken {
                    after: StampsA {
                        trio: *trio,
                        stage: StageA::Heard(known),
                    },
                    opened,
                    got: Vec::new(delivery.alloc),
                })
            }
            StageA::Sent(known) => {
                let (known, opened, got) = read_fourth(delivery, trio, known)?;
                Ok(Taken {
                    after: StampsA {
                        trio: *trio,
                        stage: StageA::Done(known),
                    },
                    opened,
                    got,
                })
            }
            _ => Err(Refusal::WrongPass),
        }
    }

    fn speak<S: Sealer, D: Draws>(
        &self,
        alloc: Global,
        sealer: &S,
        _ring: &Ring,
        draws: &mut D,
        stamp: Option<Stamp>,
    ) -> Result<Reply<StampsA>, Refusal> {
        let trio = &self.trio;
        match &self.stage {
            StageA::Start(own) => {
                let ra = draw_nonce(draws)?;
                let head = stamps_tag(trio.family, 1, 0);
                let message = request(alloc, head, &ra, trio.names.b, &own.x1)?;
                let Reply {
                    after: own,
                    message,
                    sealed,
                } = asked(alloc, own, message)?;
                Ok(Reply {
                    after: StampsA {
                        trio: *trio,
                        stage: StageA::Asking(Asked { own, ra }),
                    },
                    message,
                    sealed,
                })
            }
            StageA::Heard(known) => {
                let Some(ta) = stamp else { unreachable!() };
                let own = &known.asked.own;
                let head = stamps_tag(trio.family, 3, 2);
                let value = SlotValue::Stamp(ta);
                let unsealed = Unsealed {
                    key: Key::One(known.second.fa),
                    body: one_of_three(alloc, head, &trio.names, value, &own.x5)?,
                };
                let shown = HandedOn {
                    head: stamps_tag(trio.family, 3, 0),
                    clear: &own.x6,
                    ticket: &known.second.ticket,
                };
                let said = say_handed_on(alloc, sealer, draws, unsealed, &shown)?;
                let Reply {
                    after: heard,
                    message,
                    sealed,
                } = said_still(alloc, known, said)?;
                Ok(Reply {
                    after: StampsA {
                        trio: *trio,
                        stage: StageA::Sent(ThirdSent { heard, ta }),
                    },
                    message,
                    sealed,
                })
            }
            _ => Err(Refusal::WrongPass),
        }
    }
}
