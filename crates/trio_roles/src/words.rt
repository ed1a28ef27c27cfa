ghost use Rattle.std.specs.Prelude.{◌≡◌, ◌≢◌, ◌↔◌, ◌∷◌, [], true, IsTrue, Some, Ok, Err, IfOk};
ghost use Rattle.std.specs.Prelude.{IfErr, OnOk};
ghost use Rattle.mech_rows.specs.declared.refusal.Refusal.TheVariants.{Memory};
ghost use Rattle.mech_rows.specs.Runs.{Got as GotView, Opening as OpeningView};
ghost use Rattle.term_values.specs.Trees.{name, nonce, tag, text, trees, tuple};
ghost use Rattle.tagged_codec.specs.Grammar.{IsInLimits};
ghost use Rattle.text_hooks.specs.Drawn.{HasDrawCause, MovedOn};
ghost use Rattle.text_hooks.specs.Made.{IsNonceOf, IsSealOf};
ghost use Rattle.text_hooks.specs.Parts.{IsFlat, IsMadeItem, body_of};
ghost use Rattle.text_hooks.specs.declared.making.SlotValue.TheVariants.{Nonce as NonceValue};
ghost use Rattle.trio_roles.specs.Tickets.{MayGoOn};
ghost use Rattle.text_hooks.specs.Rules.{allowed};
ghost use Rattle.trio_roles.specs.Words.{refused_of_three};

use crate::ticket::Ticket;
use mech_rows::{Got, Mech, Opening, Refusal, Slot};
use outside::Draws;
use seal_trait::Sealer;
use std::alloc::Global;
use term_values::{Form, Items, Name, Nonce, Tag, Term, Text};
use text_hooks::{
    Delivery, Said, SlotValue, Three, Trio, Unsealed, body_of, message_of, name_term, nonce_term,
    seal_item, tag_term, take_text, take_texts, text_term,
};

/// A message whose first protected item is opened.
#[derive(Drop)]
pub struct FirstOpened<'a> {
    /// The items of the message.
    pub items: &'a [Term],
    /// The body of its first protected item.
    pub body: &'a Term,
    /// The items of that body.
    pub slots: &'a [Term],
}

/// Three texts that were received and are judged, in this order.
///
/// # Errors
///
/// `TextRefused` of the first that the rules refuse; want of memory.
pub fn take_three<S>(
    delivery: &Delivery<S>,
    mech: Mech,
    one: (Slot, &Text),
    two: (Slot, &Text),
    three: (Slot, &Text),
) -> Result<(Text, Text, Text), Refusal>
    ensures equal { IfOk result (λ p. (p.0 ≡ one.entry.1.now) × (p.1 ≡ two.entry.1.now)
        × (p.2 ≡ three.entry.1.now)) }
    ensures first { OnOk result (allowed delivery.now.hook.now.rules.items mech one.entry.0
        one.entry.1.now ≡ true) }
    ensures second { OnOk result (allowed delivery.now.hook.now.rules.items mech two.entry.0
        two.entry.1.now ≡ true) }
    ensures third { OnOk result (allowed delivery.now.hook.now.rules.items mech three.entry.0
        three.entry.1.now ≡ true) }
    ensures refused { IfErr result (λ e. e ≢ Memory →
        refused_of_three (allowed delivery.now.hook.now.rules.items) mech one.entry.0
        one.entry.1.now two.entry.0 two.entry.1.now three.entry.0 three.entry.1.now ≡ Some e) }
{
    let first = take_text(delivery.alloc, delivery.hook, mech, one.0, one.1)?;
    let (second, third) = take_texts(delivery.alloc, delivery.hook, mech, two, three)?;
    Ok((first, second, third))
}

fn two_openings(alloc: Global, one: Opening, two: Opening) -> Result<Vec<Opening>, Refusal>
    ensures list { IfOk result (λ os. os.items ≡ one ∷ two ∷ []) }
    ensures memory { IfErr result (λ e. e ≡ Memory) }
{
    Ok(vec![in alloc; one, two]?)
}

fn two_stamps(alloc: Global, got: (Got, Got)) -> Result<Vec<Got>, Refusal>
    ensures list { IfOk result (λ gs. gs.items ≡ got.0 ∷ got.1 ∷ []) }
    ensures memory { IfErr result (λ e. e ≡ Memory) }
{
    Ok(vec![in alloc; got.0, got.1]?)
}

/// What was read of a message whose first item was opened, with its second item and two stamps to
/// judge, and lists of those items and of those stamps.
///
/// # Errors
///
/// The refusal of what was read; want of memory.
fn listed_two<V: Drop>(
    alloc: Global,
    first: Opening,
    rest: Result<(V, Opening, (Got, Got)), Refusal>,
) -> Result<(V, Vec<Opening>, Vec<Got>), Refusal>
    ensures read { IfOk result (λ v. (o : OpeningView) × (g : GotView × GotView)
        × (rest ≡ Ok (v.0, o, g)) × (v.1.items ≡ first ∷ o ∷ [])
        × (v.2.items ≡ g.0 ∷ g.1 ∷ [])) }
    ensures refused { IfErr result (λ e. e ≢ Memory → rest ≡ Err e) }
{
    let (new, second, got) = rest?;
    let opened = two_openings(alloc, first, second)?;
    let got = two_stamps(alloc, got)?;
    Ok((new, opened, got))
}

/// What is known, what was read of a message whose first item was opened, with its second item and
/// two stamps to judge, and lists of those items and of those stamps.
///
/// # Errors
///
/// The refusal of what was read; want of memory.
pub fn judged_by_two<K: Clone, V: Drop>(
    alloc: Global,
    known: &K,
    first: Opening,
    rest: Result<(V, Opening, (Got, Got)), Refusal>,
) -> Result<(K, V, Vec<Opening>, Vec<Got>), Refusal>
    ensures grown { IfOk result (λ v. K.is_clone known.now v.0) }
    ensures read { IfOk result (λ v. (o : OpeningView) × (g : GotView × GotView)
        × (rest ≡ Ok (v.1, o, g)) × (v.2.items ≡ first ∷ o ∷ [])
        × (v.3.items ≡ g.0 ∷ g.1 ∷ [])) }
    ensures refused { IfErr result (λ e. e ≢ Memory → rest ≡ Err e) }
{
    let (new, opened, got) = listed_two(alloc, first, rest)?;
    let old = known.clone()?;
    Ok((old, new, opened, got))
}

/// The body of three names, a value and a text.
///
/// # Errors
///
/// Want of memory alone.
pub fn one_of_three(
    alloc: Global,
    head: Tag,
    names: &Three,
    value: SlotValue,
    last: &Text,
) -> Result<Term, Refusal>
    ensures term { IfOk result (λ t. t ≡ body_of head
        (names.now.a ∷ names.now.b ∷ names.now.p ∷ []) (value ∷ []) last.now) }
    ensures flat { IfOk result IsFlat }
    ensures memory { IfErr result (λ e. e ≡ Memory) }
{
    let (a, b, p) = (names.a, names.b, names.p);
    body_of(alloc, head, &[a, b, p], &[value], last)
}

/// The message of a nonce, the name of B and a text, with which A asks the third party.
///
/// # Errors
///
/// Want of memory alone.
pub fn request(
    alloc: Global,
    head: Tag,
    fresh: &Nonce,
    b: Name,
    clear: &Text,
) -> Result<Term, Refusal>
    ensures message { IfOk result (λ t.
        t ≡ tuple (trees (tag head ∷ nonce fresh.now ∷ name b ∷ text clear.now ∷ []))) }
    ensures limits { IfOk result IsInLimits }
    ensures memory { IfErr result (λ e. e ≡ Memory) }
{
    let clear = text_term(alloc, clear)?;
    let shown = vec![in alloc; tag_term(head), nonce_term(fresh), name_term(b), clear]?;
    message_of(alloc, shown, &[])
}

/// The message of two nonces, the name of B and a text, with which A asks the third party.
///
/// # Errors
///
/// Want of memory alone.
pub fn request_of_two(
    alloc: Global,
    head: Tag,
    fresh: (&Nonce, &Nonce),
    b: Name,
    clear: &Text,
) -> Result<Term, Refusal>
    ensures message { IfOk result (λ t. t ≡ tuple (trees (tag head ∷ nonce fresh.entry.0.now
        ∷ nonce fresh.entry.1.now ∷ name b ∷ text clear.now ∷ []))) }
    ensures limits { IfOk result IsInLimits }
    ensures memory { IfErr result (λ e. e ≡ Memory) }
{
    let clear = text_term(alloc, clear)?;
    let (one, two) = (nonce_term(fresh.0), nonce_term(fresh.1));
    let shown = vec![in alloc; tag_term(head), one, two, name_term(b), clear]?;
    message_of(alloc, shown, &[])
}

/// What a message shows before its sealed item: its tag, a clear text, and an item that it hands on.
#[derive(Drop)]
pub struct HandedOn<'a> {
    /// The tag.
    pub head: Tag,
    /// The clear text.
    pub clear: &'a Text,
    /// The item.
    pub ticket: &'a Ticket,
}

/// The message of these and of one item that was made for it.
fn ticket_message(alloc: Global, shown: &HandedOn, made: &Term) -> Result<Term, Refusal>
    requires made { IsMadeItem made.now }
    ensures message { IfOk result (λ m. m ≡ tuple (trees (tag shown.now.head
        ∷ text shown.now.clear.now ∷ shown.now.ticket.now ∷ made.now ∷ []))) }
    ensures limits { IfOk result IsInLimits }
    ensures memory { IfErr result (λ e. e ≡ Memory) }
{
    let clear = text_term(alloc, shown.clear)?;
    let ticket = shown.ticket.item().copy(alloc)?;
    let made = made.copy(alloc)?;
    let items = vec![in alloc; tag_term(shown.head), clear, ticket, made]?;
    Ok(Term::of(Form::Tuple(Items::new(items))))
}

/// The same, with the item that was made.
fn with_ticket(alloc: Global, shown: &HandedOn, item: Opening) -> Result<Said, Refusal>
    requires made { IsMadeItem item.item }
    ensures message { IfOk result (λ s. s.message ≡ tuple (trees (tag shown.now.head
        ∷ text shown.now.clear.now ∷ shown.now.ticket.now ∷ item.item ∷ []))) }
    ensures item { IfOk result (λ s. s.item ≡ item) }
    ensures limits { IfOk result (λ s. IsInLimits s.message) }
    ensures memory { IfErr result (λ e. e ≡ Memory) }
{
    let message = ticket_message(alloc, shown, &item.item)?;
    Ok(Said { message, item })
}

/// The message of a tag, a clear text, an item that is handed on, and one that seals the body under
/// the key, with a nonce that it draws where the sealer wants one.
///
/// # Errors
///
/// `DrawFault` where a draw failed, and the count of faults rose; want of memory, where it stayed.
pub fn say_handed_on<S: Sealer, D: Draws>(
    alloc: Global,
    sealer: &S,
    draws: &mut D,
    unsealed: Unsealed,
    shown: &HandedOn,
) -> Result<Said, Refusal>
    requires flat { IsFlat unsealed.body }
    ensures sealed { IfOk result (λ s. IsSealOf S.opens unsealed.key unsealed.body s.item) }
    ensures message { IfOk result (λ s. s.message ≡ tuple (trees (tag shown.now.head
        ∷ text shown.now.clear.now ∷ shown.now.ticket.now ∷ s.item.item ∷ []))) }
    ensures limits { IfOk result (λ s. IsInLimits s.message) }
    ensures nonces { IfOk result (λ s.
        IsNonceOf S.iv_of (S.wants_iv sealer.now) (D.told draws.old) (D.told draws.new) s.item) }
    ensures moved { MovedOn 1 (D.told draws.old) (D.told draws.new) }
    ensures cause { HasDrawCause (D.fault_count draws.old) (D.fault_count draws.new) result }
{
    let Unsealed { key, body } = unsealed;
    let item = seal_item(alloc, sealer, draws, key, body)?;
    with_ticket(alloc, shown, item)
}

/// What was read, and a copy of the item that goes on.
///
/// # Errors
///
/// The refusal of what was read; want of memory.
pub fn with_copy<V: Drop>(
    alloc: Global,
    read: Result<V, Refusal>,
    item: &Term,
) -> Result<(V, Ticket), Refusal>
    requires goes_on { MayGoOn item.now }
    ensures read { IfOk result (λ v. (read ≡ Ok v.0) × (v.1 ≡ item.now)) }
    ensures refused { IfErr result (λ e. e ≢ Memory → read ≡ Err e) }
{
    let new = read?;
    let ticket = Ticket::of(alloc, item)?;
    Ok((new, ticket))
}

/// What was read of a message whose first item was opened, with its second item, and a list of those
/// items.
fn listed<V: Drop>(
    alloc: Global,
    first: Opening,
    rest: Result<(V, Opening), Refusal>,
) -> Result<(V, Vec<Opening>), Refusal>
    ensures read { IfOk result (λ v. (o : OpeningView)
        × (rest ≡ Ok (v.0, o)) × (v.1.items ≡ first ∷ o ∷ [])) }
    ensures refused { IfErr result (λ e. e ≢ Memory → rest ≡ Err e) }
{
    let (new, second) = rest?;
    let opened = two_openings(alloc, first, second)?;
    Ok((new, opened))
}

/// What is known, what was read of a message whose first item was opened, with its second item, and a
/// list of those items.
///
/// # Errors
///
/// The refusal of what was read; want of memory.
pub fn grown_by_two<K: Clone, V: Drop>(
    alloc: Global,
    known: &K,
    first: Opening,
    rest: Result<(V, Opening), Refusal>,
) -> Result<(K, V, Vec<Opening>), Refusal>
    ensures grown { IfOk result (λ v. K.is_clone known.now v.0) }
    ensures read { IfOk result (λ v. (o : OpeningView)
        × (rest ≡ Ok (v.1, o)) × (v.2.items ≡ first ∷ o ∷ [])) }
    ensures refused { IfErr result (λ e. e ≢ Memory → rest ≡ Err e) }
{
    let (new, opened) = listed(alloc, first, rest)?;
    let old = known.clone()?;
    Ok((old, new, opened))
}

/// The body of three names, two nonces and a text.
///
/// # Errors
///
/// Want of memory alone.
pub fn nonces_of_three(
    alloc: Global,
    head: Tag,
    names: &Three,
    nonces: (Nonce, Nonce),
    last: &Text,
) -> Result<Term, Refusal>
    ensures term { IfOk result (λ t. t ≡ body_of head
        (names.now.a ∷ names.now.b ∷ names.now.p ∷ [])
        (NonceValue nonces.0 ∷ NonceValue nonces.1 ∷ []) last.now) }
    ensures flat { IfOk result IsFlat }
    ensures memory { IfErr result (λ e. e ≡ Memory) }
{
    let (a, b, p) = (names.a, names.b, names.p);
    let values = [SlotValue::Nonce(nonces.0), SlotValue::Nonce(nonces.1)];
    body_of(alloc, head, &[a, b, p], &values, last)
}

/// Whether both are one. Takes no memory.
pub fn same_trio(one: &Trio, other: &Trio) -> bool
    ensures same { IsTrue result ↔ (one.now ≡ other.now) }
{
    one == other
}
