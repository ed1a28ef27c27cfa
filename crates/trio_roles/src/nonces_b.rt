ghost use Rattle.std.specs.Prelude.{◌≡◌, ◌≢◌, ◌↔◌, ◌∷◌, [], true, length, IsTrue, Some, Ok, Err};
ghost use Rattle.std.specs.Prelude.{IfOk, IfErr, OnOk};
ghost use Rattle.term_values.specs.Same.{same};
ghost use Rattle.term_values.specs.Trees.{nonce};
ghost use Rattle.term_values.specs.declared.small.Key.TheVariants.{One};
ghost use Rattle.mech_rows.specs.declared.kinds.Clear.TheVariants.{Slot as Shows};
ghost use Rattle.mech_rows.specs.declared.kinds.Role.TheVariants.{B};
ghost use Rattle.mech_rows.specs.declared.kinds.Slot.TheVariants.{X7, Rb, Fa, X3};
ghost use Rattle.mech_rows.specs.declared.refusal.Refusal.TheVariants.{Memory};
ghost use Rattle.mech_rows.specs.Openings.{has_parts};
ghost use Rattle.mech_rows.specs.Rings.{keys_in};
ghost use Rattle.mech_rows.specs.Rows.{tag_of};
ghost use Rattle.mech_rows.specs.Runs.{bytes_or_empty, part_bytes};
ghost use Rattle.mech_rows.specs.Verdict.{are_clear, are_kinds, at, body_items, message_items};
ghost use Rattle.text_hooks.specs.Leading.{Leads, Refuses};
ghost use Rattle.text_hooks.specs.Trios.{by_nonces, nonces_head};
ghost use Rattle.trio_roles.specs.Passes.{names_in, opened_by_part, opened_under};
ghost use Rattle.trio_roles.specs.NoncesB.{fourth_pass, is_nonces_b, run};
ghost use Rattle.trio_roles.specs.Rest.{IsJudgedAs, LeadsBy, RefusesBy, ThenLeads, ThenRefuses};
ghost use Rattle.trio_roles.specs.Rest.{after_first, judged_as};
ghost use Rattle.trio_roles.specs.declared.nonces_b.StageB.TheVariants.{Asked as AskedB};
ghost use Rattle.trio_roles.specs.declared.nonces_b.StageB.TheVariants.{Heard as HeardB};

use crate::words::{FirstOpened, grown_by_two, nonces_of_three, same_trio, take_three};
use mech_rows::{Clear, Opening, Refusal, Ring, Role, RunHead, Slot, Stated, Texts, Value};
use outside::Draws;
use seal_trait::Sealer;
use std::alloc::Global;
use term_values::{Key, Nonce, OutOfMemory, Part, Stamp, Term, Text};
use text_hooks::{
    Delivery, NoteList, Phase, Reply, RoleState, Shown, Taken, Trio, add, asked, beside, by_nonces,
    challenge, compare_nonce, draw_nonce, item_at, key_at, key_between, nonce_at, nonces_tag,
    open_item, own_text, part_at, read_body, read_message, said_still, say_sealed, text_at,
    trio_by_nonces,
};

/// The texts of B's own messages.
#[derive(Clone, PartialEq, Eq, Drop)]
pub struct AskerTexts {
    x1: Text,
    x8: Text,
    x9: Text,
}

impl Shown for AskerTexts {
    ghost use Rattle.trio_roles.specs.NoncesB.{asker_texts};

    ghost notes_of = { asker_texts };

    fn note(&self, alloc: Global, notes: &mut NoteList) -> Result<(), OutOfMemory> {
        add(notes, Slot::X1, Value::Text(self.x1.copy(alloc)?))?;
        add(notes, Slot::X8, Value::Text(self.x8.copy(alloc)?))?;
        add(notes, Slot::X9, Value::Text(self.x9.copy(alloc)?))
    }
}

/// It has sent the challenge.
#[derive(Clone, PartialEq, Eq, Drop)]
pub struct Asker {
    own: AskerTexts,
    rb: Nonce,
}

impl Shown for Asker {
    ghost use Rattle.trio_roles.specs.NoncesB.{asker};

    ghost notes_of = { asker };

    fn note(&self, alloc: Global, notes: &mut NoteList) -> Result<(), OutOfMemory> {
        self.own.note(alloc, notes)?;
        add(notes, Slot::Rb, Value::Nonce(self.rb))
    }
}

/// What the fourth message shows.
#[derive(Clone, PartialEq, Eq, Drop)]
pub struct Fourth {
    x7: Text,
    fa: Part,
    x3: Text,
    ra: Nonce,
    x6: Text,
}

impl Shown for Fourth {
    ghost use Rattle.trio_roles.specs.NoncesB.{fourth};

    ghost notes_of = { fourth };

    fn note(&self, alloc: Global, notes: &mut NoteList) -> Result<(), OutOfMemory> {
        add(notes, Slot::X7, Value::Text(self.x7.copy(alloc)?))?;
        add(notes, Slot::Fa, Value::Part(self.fa))?;
        add(notes, Slot::X3, Value::Text(self.x3.copy(alloc)?))?;
        add(notes, Slot::Ra, Value::Nonce(self.ra))?;
        add(notes, Slot::X6, Value::Text(self.x6.copy(alloc)?))
    }
}

/// It has heard the fourth message.
#[derive(Clone, PartialEq, Eq, Drop)]
pub struct FourthHeard {
    asked: Asker,
    fourth: Fourth,
}

impl Shown for FourthHeard {
    ghost use Rattle.trio_roles.specs.NoncesB.{fourth_heard};

    ghost notes_of = { fourth_heard };

    fn note(&self, alloc: Global, notes: &mut NoteList) -> Result<(), OutOfMemory> {
        self.asked.note(alloc, notes)?;
        self.fourth.note(alloc, notes)?;
        Ok(())
    }
}

/// How far B is.
#[derive(Clone, PartialEq, Eq, Drop)]
pub enum StageB {
    /// It sends the challenge.
    Start(AskerTexts),
    /// It waits for the fourth message.
    Asked(Asker),
    /// It has heard the fourth message.
    Heard(FourthHeard),
    /// It has replied.
    Done(FourthHeard),
}

/// B in E6 or K9.
#[derive(Clone, PartialEq, Eq, Drop)]
pub struct NoncesB {
    trio: Trio,
    stage: StageB,
}

impl Stated for NoncesB {
    ghost use Rattle.trio_roles.specs.NoncesB.{state_of as state_of_nonces_b};

    ghost state_of = { state_of_nonces_b };
}

fn same_fourth(one: &Fourth, other: &Fourth) -> bool
    ensures same { IsTrue result ↔ (one.now ≡ other.now) }
{
    one == other
}

fn same_heard(one: &FourthHeard, other: &FourthHeard) -> bool
    ensures same { IsTrue result ↔ (one.now ≡ other.now) }
{
    one.asked == other.asked && same_fourth(&one.fourth, &other.fourth)
}

fn same_stage(one: &StageB, other: &StageB) -> bool
    ensures same { IsTrue result ↔ (one.now ≡ other.now) }
{
    match (one, other) {
        (StageB::Start(one), StageB::Start(two)) => one == two,
        (StageB::Asked(one), StageB::Asked(two)) => one == two,
        (StageB::Heard(one), StageB::Heard(two)) => same_heard(one, two),
        (StageB::Done(one), StageB::Done(two)) => same_heard(one, two),
        _ => false,
    }
}

/// Once the ticket has opened, the judgement is what the rest of the message gives.
fn ticket_opened<S: Sealer>(delivery: &Delivery<S>, trio: &Trio, known: &Asker, first: &FirstOpened)
    requires items { message_items (tag_of (by_nonces trio.now.family) 4 0) trio.now.names.b
        (Shows X7 ∷ []) (true ∷ true ∷ []) delivery.now.term.now ≡ Ok first.now.items.now }
    requires opened { S.opens (One (bytes_or_empty
        (keys_in delivery.now.ring.now trio.now.names.b trio.now.names.p)))
        (at first.now.items.now 2) ≡ Some first.now.body.now }
    requires slots { body_items (tag_of (by_nonces trio.now.family) 3 2)
        (names_in trio.now) (Rb ∷ Fa ∷ X3 ∷ []) 1 first.now.body.now ≡ Ok first.now.slots.now }
    ensures rest { judged_as S.opens delivery.now (names_in trio.now) (fourth_pass trio.now.family)
        (run trio.now (AskedB known.now))
        ≡ after_first S.opens delivery.now (names_in trio.now) (fourth_pass trio.now.family)
        (run trio.now (AskedB known.now)) first.now.items.now first.now.body.now
        first.now.slots.now }
{}

/// The item that A sealed under the ticket's key, where the ticket has the nonce of B and the item
/// opens.
#[tactic(auto, unfolding(crate::specs::Rest::after_first))]
fn second_item<S: Sealer>(
    delivery: &Delivery<S>,
    trio: &Trio,
    known: &Asker,
    first: &FirstOpened,
) -> Result<Opening, Refusal>
    requires length { length first.now.items.now ≡ 4 }
    requires slots_length { length first.now.slots.now ≡ 7 }
    requires slots_kinds { are_kinds first.now.slots.now 4 (Rb ∷ Fa ∷ X3 ∷ []) ≡ true }
    ensures nonce { OnOk result (same (at first.now.slots.now 4) (nonce known.now.rb) ≡ true) }
    ensures opened { IfOk result (λ o. (S.opens (One (part_bytes (at first.now.slots.now 5)))
        (at first.now.items.now 3) ≡ Some o.body)
        × (o.key ≡ One (part_bytes (at first.now.slots.now 5)))
        × (o.item ≡ at first.now.items.now 3)) }
    ensures refused { IfErr result (ThenRefuses S.opens delivery.now
        (names_in trio.now) (fourth_pass trio.now.family) (run trio.now (AskedB known.now))
        first.now.items.now first.now.body.now first.now.slots.now) }
{
    compare_nonce(&nonce_at(first.slots, 4), &known.rb, 1, Slot::Rb)?;
    let key = key_at(first.slots, 5);
    open_item(
        delivery.alloc,
        delivery.sealer,
        key,
        item_at(first.items, 3),
        2,
    )
}

/// What the fourth message shows, by its items and its opened bodies, where it fits.
#[tactic(auto, unfolding(crate::specs::Rest::after_first))]
fn fourth_of<S: Sealer>(
    delivery: &Delivery<S>,
    trio: &Trio,
    known: &Asker,
    first: &FirstOpened,
    body: &Term,
) -> Result<Fourth, Refusal>
    requires length { length first.now.items.now ≡ 4 }
    requires kinds { are_clear first.now.items.now 1 (Shows X7 ∷ []) ≡ true }
    requires slots_length { length first.now.slots.now ≡ 7 }
    requires slots_kinds { are_kinds first.now.slots.now 4 (Rb ∷ Fa ∷ X3 ∷ []) ≡ true }
    requires nonce { same (at first.now.slots.now 4) (nonce known.now.rb) ≡ true }
    requires opened { S.opens (One (part_bytes (at first.now.slots.now 5)))
        (at first.now.items.now 3) ≡ Some body.now }
    ensures fit { IfOk result (λ v. ThenLeads S.opens delivery.now
        (names_in trio.now) (fourth_pass trio.now.family) (run trio.now (AskedB known.now))
        first.now.items.now first.now.body.now first.now.slots.now
        (run trio.now (HeardB (record { asked = known.now; fourth = v })))
        (opened_under delivery.now.ring.now trio.now.names.b trio.now.names.p
        (at first.now.items.now 2) first.now.body.now
        ∷ opened_by_part (part_bytes (at first.now.slots.now 5))
        (at first.now.items.now 3) body.now ∷ []) []) }
    ensures refused { IfErr result (ThenRefuses S.opens delivery.now
        (names_in trio.now) (fourth_pass trio.now.family) (run trio.now (AskedB known.now))
        first.now.items.now first.now.body.now first.now.slots.now) }
{
    let (a, b, p) = (trio.names.a, trio.names.b, trio.names.p);
    let mech = by_nonces(trio.family);
    let tag = nonces_tag(trio.family, 4, 2);
    let wanted = [Slot::Ra, Slot::Rb, Slot::X6];
    let sealed = read_body(body, &tag, &[a, b, p], &wanted, 2)?;
    compare_nonce(&nonce_at(sealed, 5), &known.rb, 2, Slot::Rb)?;
    let x7 = (Slot::X7, text_at(first.items, 1));
    let x3 = (Slot::X3, text_at(first.slots, 6));
    let x6 = (Slot::X6, text_at(sealed, 6));
    let (x7, x3, x6) = take_three(delivery, mech, x7, x3, x6)?;
    Ok(Fourth {
        x7,
        fa: part_at(first.slots, 5),
        x3,
        ra: nonce_at(sealed, 4),
        x6,
    })
}

/// What the fourth message shows, and the item that A sealed, where it fits and the ticket has
/// opened.
#[tactic(auto, unfolding(crate::specs::Rest::judged_as))]
fn after_ticket<S: Sealer>(
    delivery: &Delivery<S>,
    trio: &Trio,
    known: &Asker,
    items: &[Term],
    ticket: &Term,
) -> Result<(Fourth, Opening), Refusal>
    requires length { length items.now ≡ 4 }
    requires kinds { are_clear items.now 1 (Shows X7 ∷ []) ≡ true }
    requires items { message_items (tag_of (by_nonces trio.now.family) 4 0) trio.now.names.b
        (Shows X7 ∷ []) (true ∷ true ∷ []) delivery.now.term.now ≡ Ok items.now }
    requires opened { S.opens (One (bytes_or_empty
        (keys_in delivery.now.ring.now trio.now.names.b trio.now.names.p)))
        (at items.now 2) ≡ Some ticket.now }
    ensures fit { IfOk result (λ v. LeadsBy S.opens delivery.now
        (names_in trio.now) (fourth_pass trio.now.family) (run trio.now (AskedB known.now))
        (run trio.now (HeardB (record { asked = known.now; fourth = v.0 })))
        (opened_under delivery.now.ring.now trio.now.names.b trio.now.names.p
        (at items.now 2) ticket.now ∷ v.1 ∷ []) []) }
    ensures refused { IfErr result (RefusesBy S.opens delivery.now
        (names_in trio.now) (fourth_pass trio.now.family) (run trio.now (AskedB known.now))) }
{
    let (a, b, p) = (trio.names.a, trio.names.b, trio.names.p);
    let tag = nonces_tag(trio.family, 3, 2);
    let wanted = [Slot::Rb, Slot::Fa, Slot::X3];
    let slots = read_body(ticket, &tag, &[a, b, p], &wanted, 1)?;
    let first = FirstOpened {
        items,
        body: ticket,
        slots,
    };
    ticket_opened(delivery, trio, known, &first);
    let item = second_item(delivery, trio, known, &first)?;
    let fourth = fourth_of(delivery, trio, known, &first, &item.body);
    let (item, fourth) = beside(item, fourth)?;
    Ok((fourth, item))
}

/// The verdict on a message to a run that asked is its judgement as the fourth one.
fn fourth_by_row<S: Sealer>(delivery: &Delivery<S>, trio: &Trio, known: &Asker)
    ensures judged { IsJudgedAs S.opens S.checks delivery.now (names_in trio.now)
        (fourth_pass trio.now.family) (run trio.now (AskedB known.now)) }
{}

/// The key of B and the third party, of which the ring has the part.
fn ticket_key(ring: &Ring, trio: &Trio) -> Key
    requires parts { has_parts ring.now (nonces_head B trio.now) ≡ true }
    ensures key { result ≡ One (bytes_or_empty
        (keys_in ring.now trio.now.names.b trio.now.names.p)) }
{
    key_between(ring, trio.names.b, trio.names.p)
}

/// The run that has heard the fourth message, with what it opened.
#[tactic(auto, unfolding(crate::specs::Rest::judged_as))]
fn read_fourth<S: Sealer>(
    delivery: &Delivery<S>,
    trio: &Trio,
    known: &Asker,
) -> Result<(FourthHeard, Vec<Opening>), Refusal>
    requires parts { has_parts delivery.now.ring.now (nonces_head B trio.now) ≡ true }
    ensures fit { IfOk result (λ v. Leads S.opens S.checks delivery.now
        (run trio.now (AskedB known.now)) (run trio.now (HeardB v.0)) v.1.items []) }
    ensures refused { IfErr result
        (Refuses S.opens S.checks delivery.now (run trio.now (AskedB known.now))) }
{
    fourth_by_row(delivery, trio, known);
    let tag = nonces_tag(trio.family, 4, 0);
    let clear = [Clear::Slot(Slot::X7)];
    let items = read_message(delivery.term, &tag, trio.names.b, &clear, &[true, true])?;
    let key = ticket_key(delivery.ring, trio);
    let item = item_at(items, 2);
    let ticket = open_item(delivery.alloc, delivery.sealer, key, item, 1)?;
    let rest = after_ticket(delivery, trio, known, items, &ticket.body);
    let (asked, fourth, opened) = grown_by_two(delivery.alloc, known, ticket, rest)?;
    Ok((FourthHeard { asked, fourth }, opened))
}

impl RoleState for NoncesB {
    ghost plays = { is_nonces_b };

    fn begin(alloc: Global, head: &RunHead, texts: &Texts) -> Result<NoncesB, OutOfMemory> {
        let x1 = own_text(alloc, texts, Slot::X1)?;
        let x8 = own_text(alloc, texts, Slot::X8)?;
        let x9 = own_text(alloc, texts, Slot::X9)?;
        Ok(NoncesB {
            trio: trio_by_nonces(head),
            stage: StageB::Start(AskerTexts { x1, x8, x9 }),
        })
    }

    fn head(&self) -> RunHead {
        self.trio.names.head(by_nonces(self.trio.family), Role::B)
    }

    fn copy(&self, _alloc: Global) -> Result<NoncesB, OutOfMemory> {
        self.clone()
    }

    fn same(&self, other: &NoncesB) -> bool {
        same_trio(&self.trio, &other.trio) && same_stage(&self.stage, &other.stage)
    }

    fn note(&self, alloc: Global, notes: &mut NoteList) -> Result<(), OutOfMemory> {
        match &self.stage {
            StageB::Start(own) => own.note(alloc, notes),
            StageB::Asked(known) => known.note(alloc, notes),
            StageB::Heard(known) | StageB::Done(known) => known.note(alloc, notes),
        }
    }

    fn phase(&self) -> Phase {
        match &self.stage {
            StageB::Start(_) => Phase::sends(0),
            StageB::Asked(_) => Phase::receives(3),
            StageB::Heard(_) => Phase::sends(4),
            StageB::Done(_) => Phase::done(5),
        }
    }

    fn read<S: Sealer>(&self, delivery: &Delivery<S>) -> Result<Taken<NoncesB>, Refusal> {
        let trio = &self.trio;
        let StageB::Asked(known) = &self.stage else {
            return Err(Refusal::WrongPass);
        };
        let (known, opened) = read_fourth(delivery, trio, known)?;
        Ok(Taken {
            after: NoncesB {
                trio: *trio,
                stage: StageB::Heard(known),
            },
            opened,
            got: Vec::new(delivery.alloc),
        })
    }

    fn speak<S: Sealer, D: Draws>(
        &self,
        alloc: Global,
        sealer: &S,
        _ring: &Ring,
        draws: &mut D,
        _stamp: Option<Stamp>,
    ) -> Result<Reply<NoncesB>, Refusal> {
        let trio = &self.trio;
        match &self.stage {
            StageB::Start(own) => {
                let rb = draw_nonce(draws)?;
                let message = challenge(alloc, nonces_tag(trio.family, 1, 0), &rb, &own.x1)?;
                let Reply {
                    after: own,
                    message,
                    sealed,
                } = asked(alloc, own, message)?;
                Ok(Reply {
                    after: NoncesB {
                        trio: *trio,
                        stage: StageB::Asked(Asker { own, rb }),
                    },
                    message,
                    sealed,
                })
            }
            StageB::Heard(known) => {
                let own = &known.asked.own;
                let key = Key::One(known.fourth.fa);
                let nonces = (known.asked.rb, known.fourth.ra);
                let head = nonces_tag(trio.family, 5, 1);
                let body = nonces_of_three(alloc, head, &trio.names, nonces, &own.x8)?;
                let head = nonces_tag(trio.family, 5, 0);
                let said = say_sealed(alloc, sealer, draws, key, body, head, &own.x9)?;
                let Reply {
                    after,
                    message,
                    sealed,
                } = said_still(alloc, known, said)?;
                Ok(Reply {
                    after: NoncesB {
                        trio: *trio,
                        stage: StageB::Done(after),
                    },
                    message,
                    sealed,
                })
            }
            _ => Err(Refusal::WrongPass),
        }
    }
}
