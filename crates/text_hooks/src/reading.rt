ghost use Rattle.std.specs.Prelude.{◌≡◌, ◌+◌, ◌<◌, ◌≤◌, ◌↔◌, true, false, List, [], Ok, Err};
ghost use Rattle.std.specs.Prelude.{length, IsTrue, IfOk, MatchResult};
ghost use Rattle.term_values.specs.Trees.{tag, name};
ghost use Rattle.mech_rows.specs.Rows.{kind_of};
ghost use Rattle.term_values.specs.Same.{same};
ghost use Rattle.mech_rows.specs.Verdict.{items_of, at, has_kind, is_name, are_kinds, are_clear};
ghost use Rattle.mech_rows.specs.Verdict.{are_kept, clear_names, name_kinds, same_names};
ghost use Rattle.mech_rows.specs.Verdict.{message_items, body_items};

use mech_rows::{Clear, Kind, Refusal, Slot};
use term_values::{Form, Name, Tag, Term};

/// The items of a tuple; any other term has none.
#[tactic(auto, using(term_values::proofs::Trees::untrees_trees))]
fn items_of(term: &Term) -> &[Term]
    ensures items { result.now ≡ items_of term.now }
{
    match term.form() {
        Form::Tuple(items) => items.list(),
        _ => &[],
    }
}

/// Item k of a list that has one.
#[tactic(auto, using(crate::proofs::Items::at_is))]
pub fn item_at(items: &[Term], k: usize) -> &Term
    requires there { k < length items.now }
    ensures item { result.now ≡ at items.now k }
{
    &items[k]
}

fn is_this_name(term: &Term, wanted: Name) -> bool
    ensures is { IsTrue result ↔ (term.now ≡ name wanted) }
{
    match term.form() {
        Form::Name(found) => *found == wanted,
        _ => false,
    }
}

fn is_this_tag(term: &Term, wanted: &Tag) -> bool
    ensures is { IsTrue result ↔ (term.now ≡ tag wanted.now) }
{
    match term.form() {
        Form::Tag(found) => found == wanted,
        _ => false,
    }
}

fn same_name(term: &Term, wanted: Name) -> bool
    ensures same { result ≡ same term.now (name wanted) }
{
    is_this_name(term, wanted)
}

fn same_tag(term: &Term, wanted: &Tag) -> bool
    ensures same { result ≡ same term.now (tag wanted.now) }
{
    is_this_tag(term, wanted)
}

/// Whether the first item is this tag.
#[tactic(auto, using(crate::proofs::Items::no_tag))]
fn is_tagged(items: &[Term], wanted: &Tag) -> bool
    ensures tagged { result ≡ same (at items.now 0) (tag wanted.now) }
{
    if items.is_empty() {
        return false;
    }
    same_tag(item_at(items, 0), wanted)
}

fn has_kind(term: &Term, kind: Kind) -> bool
    ensures kind { result ≡ has_kind kind term.now }
{
    match kind {
        Kind::Nonce => matches!(term.form(), Form::Nonce(_)),
        Kind::Stamp => matches!(term.form(), Form::Stamp(_)),
        Kind::Part => matches!(term.form(), Form::Part(_)),
        Kind::Text => matches!(term.form(), Form::Text(_)),
        Kind::Item => is_short(term),
    }
}

/// Whether the item can be handed on: its layouts take at most 4,096 bytes.
fn is_short(term: &Term) -> bool
    ensures short { result ≡ has_kind Kind.Item term.now }
{
    term.within(4096)
}

fn is_name(term: &Term) -> bool
    ensures name { result ≡ is_name term.now }
{
    matches!(term.form(), Form::Name(_))
}

/// What may stand in a slot.
fn kind_of(slot: Slot) -> Kind
    ensures kind { result ≡ kind_of slot }
{
    match slot {
        Slot::Ra | Slot::Rb | Slot::Ra2 => Kind::Nonce,
        Slot::Ta | Slot::Tb | Slot::Tp => Kind::Stamp,
        Slot::Fa | Slot::Fb => Kind::Part,
        Slot::Fwd => Kind::Item,
        _ => Kind::Text,
    }
}

fn are_kinds(items: &[Term], start: usize, slots: &[Slot]) -> bool
    requires room { start + length slots.now ≤ length items.now }
    ensures kinds { result ≡ are_kinds items.now start slots.now }
{
    let mut k = start;
    for slot in slots {
        if !has_kind(item_at(items, k), kind_of(*slot)) {
            return false;
        }
        k += 1;
    }
    true
}

fn are_clear(items: &[Term], clear: &[Clear]) -> bool
    requires room { 1 + length clear.now ≤ length items.now }
    ensures kinds { result ≡ are_clear items.now 1 clear.now }
{
    let mut k = 1;
    for one in clear {
        let fits = match one {
            Clear::Slot(slot) => has_kind(item_at(items, k), kind_of(*slot)),
            Clear::NameOfB => is_name(item_at(items, k)),
        };
        if !fits {
            return false;
        }
        k += 1;
    }
    true
}

fn are_kept(items: &[Term], start: usize, seen: &[bool]) -> bool
    requires room { start + length seen.now ≤ length items.now }
    ensures kept { result ≡ are_kept items.now start seen.now }
{
    let mut k = start;
    for one in seen {
        if !*one && !is_short(item_at(items, k)) {
            return false;
        }
        k += 1;
    }
    true
}

fn clear_names(b: Name, items: &[Term], clear: &[Clear]) -> bool
    requires room { 1 + length clear.now ≤ length items.now }
    ensures names { result ≡ clear_names b items.now 1 clear.now }
{
    let mut k = 1;
    for one in clear {
        if matches!(one, Clear::NameOfB) && !same_name(item_at(items, k), b) {
            return false;
        }
        k += 1;
    }
    true
}

fn name_kinds(items: &[Term], names: &[Name]) -> bool
    requires room { 1 + length names.now ≤ length items.now }
    ensures kinds { result ≡ name_kinds items.now 1 names.now }
{
    let mut k = 1;
    for _one in names {
        if !is_name(item_at(items, k)) {
            return false;
        }
        k += 1;
    }
    true
}

fn same_names(items: &[Term], names: &[Name]) -> bool
    requires room { 1 + length names.now ≤ length items.now }
    ensures names { result ≡ same_names items.now 1 names.now }
{
    let mut k = 1;
    for one in names {
        if !same_name(item_at(items, k), *one) {
            return false;
        }
        k += 1;
    }
    true
}

/// The items of a message, its tag first. `seen` says of each protected item whether the receiver
/// opens or tests it; `b` is the name of B. Takes no memory.
///
/// # Errors
///
/// `WrongPass` where the tag is another one, then `WrongShape` and `WrongNames` of part 0; the
/// first that holds.
pub fn read_message<'a>(
    term: &'a Term,
    tag: &Tag,
    b: Name,
    clear: &[Clear],
    seen: &[bool],
) -> Result<&'a [Term], Refusal>
    requires few { length clear.now ≤ 4 }
    requires two { length seen.now ≤ 2 }
    ensures exact { MatchResult result
        (λ ts. message_items tag.now b clear.now seen.now term.now ≡ Ok ts.now)
        (λ e. message_items tag.now b clear.now seen.now term.now ≡ Err e) }
    ensures length { IfOk result (λ ts. length ts.now ≡ length clear.now + length seen.now + 1) }
    ensures kinds { IfOk result (λ ts. are_clear ts.now 1 clear.now ≡ true) }
{
    let items = items_of(term);
    if !is_tagged(items, tag) {
        return Err(Refusal::WrongPass);
    }
    if items.len() != clear.len() + seen.len() + 1 {
        return Err(Refusal::WrongShape { part: 0 });
    }
    if !are_clear(items, clear) || !are_kept(items, clear.len() + 1, seen) {
        return Err(Refusal::WrongShape { part: 0 });
    }
    if !clear_names(b, items, clear) {
        return Err(Refusal::WrongNames { part: 0 });
    }
    Ok(items)
}

/// The items of a body, its tag first. `part` is the place of its item among the protected items of
/// the message, from 1. Takes no memory.
///
/// # Errors
///
/// `WrongShape`, then `WrongNames`, of that part; the first that holds.
pub fn read_body<'a>(
    body: &'a Term,
    tag: &Tag,
    names: &[Name],
    slots: &[Slot],
    part: u8,
) -> Result<&'a [Term], Refusal>
    requires three { length names.now ≤ 3 }
    requires four { length slots.now ≤ 4 }
    ensures exact { MatchResult result
        (λ ts. body_items tag.now names.now slots.now part body.now ≡ Ok ts.now)
        (λ e. body_items tag.now names.now slots.now part body.now ≡ Err e) }
    ensures length { IfOk result (λ ts. length ts.now ≡ length names.now + length slots.now + 1) }
    ensures kinds { IfOk result (λ ts. are_kinds ts.now (length names.now + 1) slots.now ≡ true) }
{
    let items = items_of(body);
    if !is_tagged(items, tag) {
        return Err(Refusal::WrongShape { part });
    }
    if items.len() != names.len() + slots.len() + 1 {
        return Err(Refusal::WrongShape { part });
    }
    if !name_kinds(items, names) || !are_kinds(items, names.len() + 1, slots) {
        return Err(Refusal::WrongShape { part });
    }
    if !same_names(items, names) {
        return Err(Refusal::WrongNames { part });
    }
    Ok(items)
}
