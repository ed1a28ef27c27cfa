ghost use Rattle.std.specs.Prelude.{◌≡◌, ◌≢◌, ◌↔◌, ◌∷◌, [], true, false, length, IsTrue, Some, Ok};
ghost use Rattle.std.specs.Prelude.{Err, IfOk, IfErr};
ghost use Rattle.term_values.specs.declared.small.Key.TheVariants.{One};
ghost use Rattle.tagged_codec.specs.Grammar.{IsInLimits};
ghost use Rattle.mech_rows.specs.declared.kinds.Clear.TheVariants.{Slot as Shows};
ghost use Rattle.mech_rows.specs.declared.kinds.Role.TheVariants.{A};
ghost use Rattle.mech_rows.specs.declared.kinds.Slot.TheVariants.{Ra, Rb, X5, X8, X9};
ghost use Rattle.mech_rows.specs.declared.refusal.Refusal.TheVariants.{Memory};
ghost use Rattle.mech_rows.specs.Openings.{has_parts};
ghost use Rattle.mech_rows.specs.Rings.{keys_in};
ghost use Rattle.mech_rows.specs.Rows.{tag_of};
ghost use Rattle.mech_rows.specs.Runs.{bytes_or_empty};
ghost use Rattle.mech_rows.specs.Verdict.{are_clear, are_kinds, at, body_items, message_items};
ghost use Rattle.text_hooks.specs.Leading.{Leads, Refuses};
ghost use Rattle.text_hooks.specs.Trios.{by_nonces, nonces_head};
ghost use Rattle.trio_roles.specs.Passes.{names_in, opened_by_part, opened_under};
ghost use Rattle.trio_roles.specs.NoncesA.{fifth_pass, first_pass, is_nonces_a, run, third_pass};
ghost use Rattle.trio_roles.specs.Rest.{IsJudgedAs, LeadsBy, RefusesBy, ThenLeads, ThenRefuses};
ghost use Rattle.trio_roles.specs.Rest.{after_first, judged_as};
ghost use Rattle.trio_roles.specs.Tickets.{MayGoOn};
ghost use Rattle.trio_roles.specs.declared.nonces_a.StageA.TheVariants.{Start as StartA};
ghost use Rattle.trio_roles.specs.declared.nonces_a.StageA.TheVariants.{Met as MetA};
ghost use Rattle.trio_roles.specs.declared.nonces_a.StageA.TheVariants.{Asking as AskingA};
ghost use Rattle.trio_roles.specs.declared.nonces_a.StageA.TheVariants.{Heard as HeardA};
ghost use Rattle.trio_roles.specs.declared.nonces_a.StageA.TheVariants.{Sent as SentA};
ghost use Rattle.trio_roles.specs.declared.nonces_a.StageA.TheVariants.{Done as DoneA};

use crate::ticket::Ticket;
use crate::words::{
    FirstOpened, HandedOn, nonces_of_three, request_of_two, same_trio, say_handed_on, with_copy,
};
use mech_rows::{Clear, Opening, Refusal, Ring, Role, RunHead, Slot, Stated, Texts, Value};
use outside::Draws;
use seal_trait::Sealer;
use std::alloc::Global;
use term_values::{Key, Nonce, OutOfMemory, Part, Stamp, Term, Text};
use text_hooks::{
    Challenge, Delivery, NoteList, Phase, Reply, RoleState, Shown, Taken, Trio, Unsealed, add,
    asked, by_nonces, compare_nonce, draw_nonce, grown, grown_by, item_at, key_between, nonce_at,
    nonces_tag, open_item, own_text, part_at, read_body, read_message, said_still, take_text,
    take_texts, text_at, trio_by_nonces,
};

/// The texts of A's own messages.
#[derive(Clone, PartialEq, Eq, Drop)]
pub struct AnswerTexts {
    x2: Text,
    x6: Text,
    x7: Text,
}

impl Shown for AnswerTexts {
    ghost use Rattle.trio_roles.specs.NoncesA.{answer_texts};

    ghost notes_of = { answer_texts };

    fn note(&self, alloc: Global, notes: &mut NoteList) -> Result<(), OutOfMemory> {
        add(notes, Slot::X2, Value::Text(self.x2.copy(alloc)?))?;
        add(notes, Slot::X6, Value::Text(self.x6.copy(alloc)?))?;
        add(notes, Slot::X7, Value::Text(self.x7.copy(alloc)?))
    }
}

/// It has heard the challenge of B.
#[derive(Clone, PartialEq, Eq, Drop)]
pub struct Challenged {
    own: AnswerTexts,
    challenge: Challenge,
}

impl Shown for Challenged {
    ghost use Rattle.trio_roles.specs.NoncesA.{challenged};

    ghost notes_of = { challenged };

    fn note(&self, alloc: Global, notes: &mut NoteList) -> Result<(), OutOfMemory> {
        self.own.note(alloc, notes)?;
        self.challenge.note(alloc, notes)
    }
}

/// It has asked the third party.
#[derive(Clone, PartialEq, Eq, Drop)]
pub struct Asker {
    challenged: Challenged,
    ra2: Nonce,
}

impl Shown for Asker {
    ghost use Rattle.trio_roles.specs.NoncesA.{asker};

    ghost notes_of = { asker };

    fn note(&self, alloc: Global, notes: &mut NoteList) -> Result<(), OutOfMemory> {
        self.challenged.note(alloc, notes)?;
        add(notes, Slot::Ra2, Value::Nonce(self.ra2))
    }
}

/// What the third message shows.
#[derive(Clone, Drop)]
pub struct Third {
    x5: Text,
    fa: Part,
    x4: Text,
    ticket: Ticket,
}

impl Shown for Third {
    ghost use Rattle.trio_roles.specs.NoncesA.{third};

    ghost notes_of = { third };

    fn note(&self, alloc: Global, notes: &mut NoteList) -> Result<(), OutOfMemory> {
        add(notes, Slot::X5, Value::Text(self.x5.copy(alloc)?))?;
        add(notes, Slot::Fa, Value::Part(self.fa))?;
        add(notes, Slot::X4, Value::Text(self.x4.copy(alloc)?))?;
        add(
            notes,
            Slot::Fwd,
            Value::Item(self.ticket.item().copy(alloc)?),
        )
    }
}

/// It has heard the third message.
#[derive(Clone, Drop)]
pub struct ThirdHeard {
    asked: Asker,
    third: Third,
}

impl Shown for ThirdHeard {
    ghost use Rattle.trio_roles.specs.NoncesA.{third_heard};

    ghost notes_of = { third_heard };

    fn note(&self, alloc: Global, notes: &mut NoteList) -> Result<(), OutOfMemory> {
        self.asked.note(alloc, notes)?;
        self.third.note(alloc, notes)?;
        Ok(())
    }
}

/// It has sent the fourth message, with a nonce.
#[derive(Clone, Drop)]
pub struct FourthSent {
    heard: ThirdHeard,
    ra: Nonce,
}

impl Shown for FourthSent {
    ghost use Rattle.trio_roles.specs.NoncesA.{fourth_sent};

    ghost notes_of = { fourth_sent };

    fn note(&self, alloc: Global, notes: &mut NoteList) -> Result<(), OutOfMemory> {
        self.heard.note(alloc, notes)?;
        add(notes, Slot::Ra, Value::Nonce(self.ra))?;
        Ok(())
    }
}

/// What the fifth message shows.
#[derive(Clone, PartialEq, Eq, Drop)]
pub struct Fifth {
    x9: Text,
    x8: Text,
}

impl Shown for Fifth {
    ghost use Rattle.trio_roles.specs.NoncesA.{fifth};

    ghost notes_of = { fifth };

    fn note(&self, alloc: Global, notes: &mut NoteList) -> Result<(), OutOfMemory> {
        add(notes, Slot::X9, Value::Text(self.x9.copy(alloc)?))?;
        add(notes, Slot::X8, Value::Text(self.x8.copy(alloc)?))
    }
}

/// It has taken the fifth message.
#[derive(Clone, Drop)]
pub struct FifthTaken {
    sent: FourthSent,
    fifth: Fifth,
}

/// How far A is.
#[derive(Clone, Drop)]
pub enum StageA {
    /// It waits for the challenge.
    Start(AnswerTexts),
    /// It has heard the challenge.
    Met(Challenged),
    /// It waits for the third message.
    Asking(Asker),
    /// It has heard the third message.
    Heard(ThirdHeard),
    /// It waits for the fifth message.
    Sent(FourthSent),
    /// It has taken the fifth message.
    Done(FifthTaken),
}

/// A in E6 or K9.
#[derive(Clone, Drop)]
pub struct NoncesA {
    trio: Trio,
    stage: StageA,
}

impl Stated for NoncesA {
    ghost use Rattle.trio_roles.specs.NoncesA.{state_of as state_of_nonces_a};

    ghost state_of = { state_of_nonces_a };
}

fn same_third(one: &Third, other: &Third) -> bool
    ensures same { IsTrue result ↔ (one.now ≡ other.now) }
{
    one.x5 == other.x5 && one.fa == other.fa && one.x4 == other.x4 && one.ticket.same(&other.ticket)
}

fn same_asker(one: &Asker, other: &Asker) -> bool
    ensures same { IsTrue result ↔ (one.now ≡ other.now) }
{
    one.ra2 == other.ra2 && one.challenged == other.challenged
}

fn same_heard(one: &ThirdHeard, other: &ThirdHeard) -> bool
    ensures same { IsTrue result ↔ (one.now ≡ other.now) }
{
    same_asker(&one.asked, &other.asked) && same_third(&one.third, &other.third)
}

fn same_sent(one: &FourthSent, other: &FourthSent) -> bool
    ensures same { IsTrue result ↔ (one.now ≡ other.now) }
{
    one.ra == other.ra && same_heard(&one.heard, &other.heard)
}

fn same_stage(one: &StageA, other: &StageA) -> bool
    ensures same { IsTrue result ↔ (one.now ≡ other.now) }
{
    match (one, other) {
        (StageA::Start(one), StageA::Start(two)) => one == two,
        (StageA::Met(one), StageA::Met(two)) => one == two,
        (StageA::Asking(one), StageA::Asking(two)) => same_asker(one, two),
        (StageA::Heard(one), StageA::Heard(two)) => same_heard(one, two),
        (StageA::Sent(one), StageA::Sent(two)) => same_sent(one, two),
        (StageA::Done(one), StageA::Done(two)) => {
            one.fifth == two.fifth && same_sent(&one.sent, &two.sent)
        }
        _ => false,
    }
}

/// The verdict on a message at the start is its judgement as the challenge.
fn first_by_row<S: Sealer>(delivery: &Delivery<S>, trio: &Trio, own: &AnswerTexts)
    ensures judged { IsJudgedAs S.opens S.checks delivery.now (names_in trio.now)
        (first_pass trio.now.family) (run trio.now (StartA own.now)) }
{}

/// What the challenge shows, where it fits.
#[tactic(auto, unfolding(crate::specs::Rest::judged_as))]
fn read_challenge<S: Sealer>(
    delivery: &Delivery<S>,
    trio: &Trio,
    own: &AnswerTexts,
) -> Result<Challenge, Refusal>
    ensures fit { IfOk result (λ c. Leads S.opens S.checks delivery.now
        (run trio.now (StartA own.now))
        (run trio.now (MetA (record { own = own.now; challenge = c }))) [] []) }
    ensures refused { IfErr result
        (Refuses S.opens S.checks delivery.now (run trio.now (StartA own.now))) }
{
    first_by_row(delivery, trio, own);
    let tag = nonces_tag(trio.family, 1, 0);
    let clear = [Clear::Slot(Slot::Rb), Clear::Slot(Slot::X1)];
    let items = read_message(delivery.term, &tag, trio.names.b, &clear, &[])?;
    let mech = by_nonces(trio.family);
    let x1 = take_text(
        delivery.alloc,
        delivery.hook,
        mech,
        Slot::X1,
        text_at(items, 2),
    )?;
    let rb = nonce_at(items, 1);
    Ok(Challenge { rb, x1 })
}

/// The second protected item of the message may go on.
fn goes_on<S: Sealer>(delivery: &Delivery<S>, trio: &Trio, items: &[Term])
    requires limits { IsInLimits delivery.now.term.now }
    requires items { message_items (tag_of (by_nonces trio.now.family) 3 0) trio.now.names.b
        (Shows X5 ∷ []) (true ∷ false ∷ []) delivery.now.term.now ≡ Ok items.now }
    ensures goes_on { MayGoOn (at items.now 3) }
{}

/// What the third message shows, by its items and its opened body, where it fits.
#[tactic(auto, unfolding(crate::specs::Rest::judged_as))]
fn third_of<S: Sealer>(
    delivery: &Delivery<S>,
    trio: &Trio,
    known: &Asker,
    items: &[Term],
    body: &Term,
) -> Result<Third, Refusal>
    requires limits { IsInLimits delivery.now.term.now }
    requires length { length items.now ≡ 4 }
    requires kinds { are_clear items.now 1 (Shows X5 ∷ []) ≡ true }
    requires items { message_items (tag_of (by_nonces trio.now.family) 3 0) trio.now.names.b
        (Shows X5 ∷ []) (true ∷ false ∷ []) delivery.now.term.now ≡ Ok items.now }
    requires opened { S.opens (One (bytes_or_empty
        (keys_in delivery.now.ring.now trio.now.names.a trio.now.names.p)))
        (at items.now 2) ≡ Some body.now }
    ensures fit { IfOk result (λ v. LeadsBy S.opens delivery.now
        (names_in trio.now) (third_pass trio.now.family) (run trio.now (AskingA known.now))
        (run trio.now (HeardA (record { asked = known.now; third = v })))
        (opened_under delivery.now.ring.now trio.now.names.a trio.now.names.p
        (at items.now 2) body.now ∷ []) []) }
    ensures refused { IfErr result (RefusesBy S.opens delivery.now
        (names_in trio.now) (third_pass trio.now.family) (run trio.now (AskingA known.now))) }
{
    goes_on(delivery, trio, items);
    let (a, b, p) = (trio.names.a, trio.names.b, trio.names.p);
    let tag = nonces_tag(trio.family, 3, 1);
    let wanted = [Slot::Ra2, Slot::Fa, Slot::X4];
    let slots = read_body(body, &tag, &[a, b, p], &wanted, 1)?;
    compare_nonce(&nonce_at(slots, 4), &known.ra2, 1, Slot::Ra2)?;
    let mech = by_nonces(trio.family);
    let x5 = (Slot::X5, text_at(items, 1));
    let x4 = (Slot::X4, text_at(slots, 6));
    let texts = take_texts(delivery.alloc, delivery.hook, mech, x5, x4);
    let ((x5, x4), ticket) = with_copy(delivery.alloc, texts, item_at(items, 3))?;
    let fa = part_at(slots, 5);
    Ok(Third { x5, fa, x4, ticket })
}

/// The verdict on a message to a run that asked is its judgement as the third one.
fn third_by_row<S: Sealer>(delivery: &Delivery<S>, trio: &Trio, known: &Asker)
    ensures judged { IsJudgedAs S.opens S.checks delivery.now (names_in trio.now)
        (third_pass trio.now.family) (run trio.now (AskingA known.now)) }
{}

/// The key of A and the third party, of which the ring has the part.
fn key_of_a(ring: &Ring, trio: &Trio) -> Key
    requires parts { has_parts ring.now (nonces_head A trio.now) ≡ true }
    ensures key { result ≡ One (bytes_or_empty
        (keys_in ring.now trio.now.names.a trio.now.names.p)) }
{
    key_between(ring, trio.names.a, trio.names.p)
}

/// The run that has heard the third message, with what it opened.
#[tactic(auto, unfolding(crate::specs::Rest::judged_as))]
fn read_third<S: Sealer>(
    delivery: &Delivery<S>,
    trio: &Trio,
    known: &Asker,
) -> Result<(ThirdHeard, Vec<Opening>), Refusal>
    requires parts { has_parts delivery.now.ring.now (nonces_head A trio.now) ≡ true }
    requires limits { IsInLimits delivery.now.term.now }
    ensures fit { IfOk result (λ v. Leads S.opens S.checks delivery.now
        (run trio.now (AskingA known.now)) (run trio.now (HeardA v.0)) v.1.items []) }
    ensures refused { IfErr result
        (Refuses S.opens S.checks delivery.now (run trio.now (AskingA known.now))) }
{
    third_by_row(delivery, trio, known);
    let alloc = delivery.alloc;
    let tag = nonces_tag(trio.family, 3, 0);
    let clear = [Clear::Slot(Slot::X5)];
    let items = read_message(delivery.term, &tag, trio.names.b, &clear, &[true, false])?;
    let key = key_of_a(delivery.ring, trio);
    let item = open_item(alloc, delivery.sealer, key, item_at(items, 2), 1)?;
    let third = third_of(delivery, trio, known, items, &item.body);
    let (asked, third, opened) = grown_by(alloc, known, third, item)?;
    Ok((ThirdHeard { asked, third }, opened))
}

/// Once its item has opened, the judgement is what the fifth message's values give.
fn item_opened<S: Sealer>(
    delivery: &Delivery<S>,
    trio: &Trio,
    known: &FourthSent,
    first: &FirstOpened,
)
    requires items { message_items (tag_of (by_nonces trio.now.family) 5 0) trio.now.names.b
        (Shows X9 ∷ []) (true ∷ []) delivery.now.term.now ≡ Ok first.now.items.now }
    requires opened { S.opens (One known.now.heard.third.fa) (at first.now.items.now 2)
        ≡ Some first.now.body.now }
    requires slots { body_items (tag_of (by_nonces trio.now.family) 5 1)
        (names_in trio.now) (Rb ∷ Ra ∷ X8 ∷ []) 1 first.now.body.now ≡ Ok first.now.slots.now }
    ensures rest { judged_as S.opens delivery.now (names_in trio.now) (fifth_pass trio.now.family)
        (run trio.now (SentA known.now))
        ≡ after_first S.opens delivery.now (names_in trio.now) (fifth_pass trio.now.family)
        (run trio.now (SentA known.now)) first.now.items.now first.now.body.now
        first.now.slots.now }
{}

/// What the fifth message shows, by its items and its opened body, where its values fit.
#[tactic(auto, unfolding(crate::specs::Rest::after_first))]
fn fifth_shown<S: Sealer>(
    delivery: &Delivery<S>,
    trio: &Trio,
    known: &FourthSent,
    first: &FirstOpened,
) -> Result<Fifth, Refusal>
    requires length { length first.now.items.now ≡ 3 }
    requires kinds { are_clear first.now.items.now 1 (Shows X9 ∷ []) ≡ true }
    requires slots_length { length first.now.slots.now ≡ 7 }
    requires slots_kinds { are_kinds first.now.slots.now 4 (Rb ∷ Ra ∷ X8 ∷ []) ≡ true }
    ensures fit { IfOk result (λ v. ThenLeads S.opens delivery.now
        (names_in trio.now) (fifth_pass trio.now.family) (run trio.now (SentA known.now))
        first.now.items.now first.now.body.now first.now.slots.now
        (run trio.now (DoneA (record { sent = known.now; fifth = v })))
        (opened_by_part known.now.heard.third.fa (at first.now.items.now 2)
        first.now.body.now ∷ []) []) }
    ensures refused { IfErr result (ThenRefuses S.opens delivery.now
        (names_in trio.now) (fifth_pass trio.now.family) (run trio.now (SentA known.now))
        first.now.items.now first.now.body.now first.now.slots.now) }
{
    let rb = &known.heard.asked.challenged.challenge.rb;
    compare_nonce(&nonce_at(first.slots, 4), rb, 1, Slot::Rb)?;
    compare_nonce(&nonce_at(first.slots, 5), &known.ra, 1, Slot::Ra)?;
    let mech = by_nonces(trio.family);
    let x9 = (Slot::X9, text_at(first.items, 1));
    let x8 = (Slot::X8, text_at(first.slots, 6));
    let (x9, x8) = take_texts(delivery.alloc, delivery.hook, mech, x9, x8)?;
    Ok(Fifth { x9, x8 })
}

/// The items of the fifth message's body, where it has the right shape and names.
#[tactic(auto, unfolding(crate::specs::Rest::judged_as))]
fn fifth_slots<'a, S: Sealer>(
    delivery: &Delivery<S>,
    trio: &Trio,
    known: &FourthSent,
    items: &[Term],
    body: &'a Term,
) -> Result<&'a [Term], Refusal>
    requires items { message_items (tag_of (by_nonces trio.now.family) 5 0) trio.now.names.b
        (Shows X9 ∷ []) (true ∷ []) delivery.now.term.now ≡ Ok items.now }
    requires opened { S.opens (One known.now.heard.third.fa) (at items.now 2) ≡ Some body.now }
    ensures slots { IfOk result (λ ts. body_items (tag_of (by_nonces trio.now.family) 5 1)
        (names_in trio.now) (Rb ∷ Ra ∷ X8 ∷ []) 1 body.now ≡ Ok ts.now) }
    ensures length { IfOk result (λ ts. length ts.now ≡ 7) }
    ensures kinds { IfOk result (λ ts. are_kinds ts.now 4 (Rb ∷ Ra ∷ X8 ∷ []) ≡ true) }
    ensures refused { IfErr result (RefusesBy S.opens delivery.now
        (names_in trio.now) (fifth_pass trio.now.family) (run trio.now (SentA known.now))) }
{
    let (a, b, p) = (trio.names.a, trio.names.b, trio.names.p);
    let tag = nonces_tag(trio.family, 5, 1);
    let wanted = [Slot::Rb, Slot::Ra, Slot::X8];
    let slots = read_body(body, &tag, &[a, b, p], &wanted, 1)?;
    Ok(slots)
}

/// What the fifth message shows, by its items and its opened body, where it fits.
fn fifth_of<S: Sealer>(
    delivery: &Delivery<S>,
    trio: &Trio,
    known: &FourthSent,
    items: &[Term],
    body: &Term,
) -> Result<Fifth, Refusal>
    requires length { length items.now ≡ 3 }
    requires kinds { are_clear items.now 1 (Shows X9 ∷ []) ≡ true }
    requires items { message_items (tag_of (by_nonces trio.now.family) 5 0) trio.now.names.b
        (Shows X9 ∷ []) (true ∷ []) delivery.now.term.now ≡ Ok items.now }
    requires opened { S.opens (One known.now.heard.third.fa) (at items.now 2) ≡ Some body.now }
    ensures fit { IfOk result (λ v. LeadsBy S.opens delivery.now
        (names_in trio.now) (fifth_pass trio.now.family) (run trio.now (SentA known.now))
        (run trio.now (DoneA (record { sent = known.now; fifth = v })))
        (opened_by_part known.now.heard.third.fa (at items.now 2) body.now ∷ []) []) }
    ensures refused { IfErr result (RefusesBy S.opens delivery.now
        (names_in trio.now) (fifth_pass trio.now.family) (run trio.now (SentA known.now))) }
{
    let slots = fifth_slots(delivery, trio, known, items, body)?;
    let first = FirstOpened { items, body, slots };
    item_opened(delivery, trio, known, &first);
    let fifth = fifth_shown(delivery, trio, known, &first)?;
    Ok(fifth)
}

/// The verdict on a message to a run that has sent the fourth one is its judgement as the fifth.
fn fifth_by_row<S: Sealer>(delivery: &Delivery<S>, trio: &Trio, known: &FourthSent)
    ensures judged { IsJudgedAs S.opens S.checks delivery.now (names_in trio.now)
        (fifth_pass trio.now.family) (run trio.now (SentA known.now)) }
{}

/// The run that has taken the fifth message, with what it opened.
#[tactic(auto, unfolding(crate::specs::Rest::judged_as))]
fn read_fifth<S: Sealer>(
    delivery: &Delivery<S>,
    trio: &Trio,
    known: &FourthSent,
) -> Result<(FifthTaken, Vec<Opening>), Refusal>
    ensures fit { IfOk result (λ v. Leads S.opens S.checks delivery.now
        (run trio.now (SentA known.now)) (run trio.now (DoneA v.0)) v.1.items []) }
    ensures refused { IfErr result
        (Refuses S.opens S.checks delivery.now (run trio.now (SentA known.now))) }
{
    fifth_by_row(delivery, trio, known);
    let alloc = delivery.alloc;
    let tag = nonces_tag(trio.family, 5, 0);
    let clear = [Clear::Slot(Slot::X9)];
    let items = read_message(delivery.term, &tag, trio.names.b, &clear, &[true])?;
    let key = Key::One(known.heard.third.fa);
    let item = open_item(alloc, delivery.sealer, key, item_at(items, 2), 1)?;
    let fifth = fifth_of(delivery, trio, known, items, &item.body);
    let (sent, fifth, opened) = grown_by(alloc, known, fifth, item)?;
    Ok((FifthTaken { sent, fifth }, opened))
}

impl RoleState for NoncesA {
    ghost plays = { is_nonces_a };

    fn begin(alloc: Global, head: &RunHead, texts: &Texts) -> Result<NoncesA, OutOfMemory> {
        let x2 = own_text(alloc, texts, Slot::X2)?;
        let x6 = own_text(alloc, texts, Slot::X6)?;
        let x7 = own_text(alloc, texts, Slot::X7)?;
        Ok(NoncesA {
            trio: trio_by_nonces(head),
            stage: StageA::Start(AnswerTexts { x2, x6, x7 }),
        })
    }

    fn head(&self) -> RunHead {
        self.trio.names.head(by_nonces(self.trio.family), Role::A)
    }

    fn copy(&self, _alloc: Global) -> Result<NoncesA, OutOfMemory> {
        self.clone()
    }

    fn same(&self, other: &NoncesA) -> bool {
        same_trio(&self.trio, &other.trio) && same_stage(&self.stage, &other.stage)
    }

    fn note(&self, alloc: Global, notes: &mut NoteList) -> Result<(), OutOfMemory> {
        match &self.stage {
            StageA::Start(own) => own.note(alloc, notes),
            StageA::Met(known) => known.note(alloc, notes),
            StageA::Asking(known) => known.note(alloc, notes),
            StageA::Heard(known) => known.note(alloc, notes),
            StageA::Sent(known) => known.note(alloc, notes),
            StageA::Done(known) => {
                known.sent.note(alloc, notes)?;
                known.fifth.note(alloc, notes)
            }
        }
    }

    fn phase(&self) -> Phase {
        match &self.stage {
            StageA::Start(_) => Phase::receives(0),
            StageA::Met(_) => Phase::sends(1),
            StageA::Asking(_) => Phase::receives(2),
            StageA::Heard(known) => {
                let _item = known.third.ticket.item();
                Phase::sends(3)
            }
            StageA::Sent(known) => {
                let _item = known.heard.third.ticket.item();
                Phase::receives(4)
            }
            StageA::Done(known) => {
                let _item = known.sent.heard.third.ticket.item();
                Phase::done(5)
            }
        }
    }

    fn read<S: Sealer>(&self, delivery: &Delivery<S>) -> Result<Taken<NoncesA>, Refusal> {
        let trio = &self.trio;
        match &self.stage {
            StageA::Start(own) => {
                let shown = read_challenge(delivery, trio, own);
                let (own, challenge) = grown(own, shown)?;
                Ok(Taken {
                    after: NoncesA {
                        trio: *trio,
                        stage: StageA::Met(Challenged { own, challenge }),
                    },
                    opened: Vec::new(delivery.alloc),
                    got: Vec::new(delivery.alloc),
                })
            }
            StageA::Asking(known) => {
                let (known, opened) = read_third(delivery, trio, known)?;
                Ok(Taken {
                    after: NoncesA {
                        trio: *trio,
                        stage: StageA::Heard(known),
                    },
                    opened,
                    got: Vec::new(delivery.alloc),
                })
            }
            StageA::Sent(known) => {
                let (known, opened) = read_fifth(delivery, trio, known)?;
                Ok(Taken {
                    after: NoncesA {
                        trio: *trio,
                        stage: StageA::Done(known),
                    },
                    opened,
                    got: Vec::new(delivery.alloc),
                })
            }
            _ => Err(Refusal::WrongPass),
        }
    }

    fn speak<S: Sealer, D: Draws>(
        &self,
        alloc: Global,
        sealer: &S,
        _ring: &Ring,
        draws: &mut D,
        _stamp: Option<Stamp>,
    ) -> Result<Reply<NoncesA>, Refusal> {
        let trio = &self.trio;
        match &self.stage {
            StageA::Met(known) => {
                let ra2 = draw_nonce(draws)?;
                let head = nonces_tag(trio.family, 2, 0);
                let fresh = (&ra2, &known.challenge.rb);
                let message = request_of_two(alloc, head, fresh, trio.names.b, &known.own.x2)?;
                let Reply {
                    after: challenged,
                    message,
                    sealed,
                } = asked(alloc, known, message)?;
                Ok(Reply {
                    after: NoncesA {
                        trio: *trio,
                        stage: StageA::Asking(Asker { challenged, ra2 }),
                    },
                    message,
                    sealed,
                })
            }
            StageA::Heard(known) => {
                let ra = draw_nonce(draws)?;
                let challenged = &known.asked.challenged;
                let own = &challenged.own;
                let nonces = (ra, challenged.challenge.rb);
                let head = nonces_tag(trio.family, 4, 2);
                let unsealed = Unsealed {
                    key: Key::One(known.third.fa),
                    body: nonces_of_three(alloc, head, &trio.names, nonces, &own.x6)?,
                };
                let shown = HandedOn {
                    head: nonces_tag(trio.family, 4, 0),
                    clear: &own.x7,
                    ticket: &known.third.ticket,
                };
                let said = say_handed_on(alloc, sealer, draws, unsealed, &shown)?;
                let Reply {
                    after: heard,
                    message,
                    sealed,
                } = said_still(alloc, known, said)?;
                Ok(Reply {
                    after: NoncesA {
                        trio: *trio,
                        stage: StageA::Sent(FourthSent { heard, ra }),
                    },
                    message,
                    sealed,
                })
            }
            _ => Err(Refusal::WrongPass),
        }
    }
}
