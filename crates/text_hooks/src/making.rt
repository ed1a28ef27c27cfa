ghost use Rattle.std.specs.Prelude.{◌≡◌, ◌+◌, ◌*◌, ◌≤◌, ◌∷◌, ◌++◌, []};
ghost use Rattle.std.specs.Prelude.{map, IfOk, IfErr, OnOk, length};
ghost use Rattle.term_values.specs.Trees.{tuple, trees, tag, name, nonce, stamp, text, depth_of};
ghost use Rattle.term_values.specs.Lengths.{length_of};
ghost use Rattle.term_values.specs.Limits.{Fits};
ghost use Rattle.tagged_codec.specs.Grammar.{IsInLimits};
ghost use Rattle.mech_rows.specs.declared.refusal.Refusal.TheVariants.{Memory};
ghost use Rattle.text_hooks.specs.Parts.{AreMadeItems, AreSmall, IsFlat, IsSmall};
ghost use Rattle.text_hooks.specs.Parts.{body_of, items_in, value_term};

use mech_rows::{Opening, Refusal};
use std::alloc::Global;
use term_values::{Form, Items, Name, Nonce, Part, Stamp, Tag, Term, Text};

/// The value of a slot that holds no text.
#[derive(Clone, Copy, Debug, PartialEq, Eq)]
pub enum SlotValue {
    /// A nonce.
    Nonce(Nonce),
    /// A stamp.
    Stamp(Stamp),
    /// A part of a key.
    Part(Part),
}

/// The tag as a term. Takes no memory.
pub fn tag_term(value: Tag) -> Term
    ensures term { result ≡ tag value }
    ensures small { IsSmall 33 result }
{
    let _bytes = value.list();
    Term::of(Form::Tag(value))
}

/// The name as a term. Takes no memory.
pub fn name_term(value: Name) -> Term
    ensures term { result ≡ name value }
    ensures small { IsSmall 33 result }
{
    let _number = value.get();
    Term::of(Form::Name(value))
}

/// The nonce as a term. Takes no memory.
pub fn nonce_term(value: &Nonce) -> Term
    ensures term { result ≡ nonce value.now }
    ensures small { IsSmall 33 result }
{
    let _bytes = value.list();
    Term::of(Form::Nonce(*value))
}

/// The stamp as a term. Takes no memory.
pub fn stamp_term(value: Stamp) -> Term
    ensures term { result ≡ stamp value }
    ensures small { IsSmall 33 result }
{
    match value {
        Stamp::Time(_) => Term::of(Form::Stamp(value)),
        Stamp::Seq(_) => Term::of(Form::Stamp(value)),
    }
}

/// The text as a term.
///
/// # Errors
///
/// Want of memory alone.
pub fn text_term(alloc: Global, value: &Text) -> Result<Term, Refusal>
    ensures term { IfOk result (λ t. t ≡ text value.now) }
    ensures small { IfOk result (IsSmall 1027) }
    ensures memory { IfErr result (λ e. e ≡ Memory) }
{
    let _bytes = value.list();
    Ok(Term::of(Form::Text(value.copy(alloc)?)))
}

/// The value as a term. Takes no memory.
pub(crate) fn value_term(value: &SlotValue) -> Term
    ensures term { result ≡ value_term value.now }
    ensures small { IsSmall 33 result }
{
    match value {
        SlotValue::Nonce(nonce) => nonce_term(nonce),
        SlotValue::Stamp(stamp) => stamp_term(*stamp),
        SlotValue::Part(part) => {
            let _bytes = part.list();
            Term::of(Form::Part(*part))
        }
    }
}

/// The tuple of these items. Takes no memory.
pub(crate) fn tuple_of(items: Vec<Term>) -> Term
    ensures term { result ≡ tuple (trees items.items) }
{
    Term::of(Form::Tuple(Items::new(items)))
}

#[tactic(auto, using(crate::proofs::Limits::small_more))]
fn push_names(items: &mut Vec<Term>, names: &[Name]) -> Result<(), Refusal>
    requires small { AreSmall 33 items.old.items }
    ensures pushed { OnOk result (items.new.items ≡ items.old.items ++ map name names.now) }
    ensures small { OnOk result (AreSmall 33 items.new.items) }
    ensures memory { IfErr result (λ e. e ≡ Memory) }
{
    for name in names {
        items.push(name_term(*name))?;
    }
    Ok(())
}

#[tactic(auto, using(crate::proofs::Limits::small_more))]
fn push_values(items: &mut Vec<Term>, values: &[SlotValue]) -> Result<(), Refusal>
    requires small { AreSmall 33 items.old.items }
    ensures pushed { OnOk result (items.new.items ≡ items.old.items ++ map value_term values.now) }
    ensures small { OnOk result (AreSmall 33 items.new.items) }
    ensures memory { IfErr result (λ e. e ≡ Memory) }
{
    for value in values {
        items.push(value_term(value))?;
    }
    Ok(())
}

/// The body of this tag: the names, the values of slots, and the text last.
///
/// # Errors
///
/// Want of memory alone.
#[tactic(auto, using(crate::proofs::Limits::made_flat))]
pub fn body_of(
    alloc: Global,
    head: Tag,
    names: &[Name],
    values: &[SlotValue],
    last: &Text,
) -> Result<Term, Refusal>
    requires three_names { length names.now ≤ 3 }
    requires three_values { length values.now ≤ 3 }
    ensures term { IfOk result (λ t. t ≡ body_of head names.now values.now last.now) }
    ensures flat { IfOk result IsFlat }
    ensures memory { IfErr result (λ e. e ≡ Memory) }
{
    let mut items = vec![in alloc; tag_term(head)]?;
    push_names(&mut items, names)?;
    push_values(&mut items, values)?;
    items.push(text_term(alloc, last)?)?;
    Ok(tuple_of(items))
}

/// The message of these terms, its tag first, and of the items that were made for it.
///
/// # Errors
///
/// Want of memory alone.
#[tactic(auto, using(crate::proofs::Limits::message_fits))]
pub fn message_of(alloc: Global, shown: Vec<Term>, made: &[Opening]) -> Result<Term, Refusal>
    requires small { AreSmall 1027 shown.items }
    requires made { AreMadeItems made.now }
    requires room { 1027 * length shown.items + 2114 * length made.now ≤ 8190 }
    ensures term { IfOk result (λ t. t ≡ tuple (trees (shown.items ++ items_in made.now))) }
    ensures limits { IfOk result IsInLimits }
    ensures memory { IfErr result (λ e. e ≡ Memory) }
{
    let mut items = shown;
    for one in made {
        items.push(one.item.copy(alloc)?)?;
    }
    Ok(tuple_of(items))
}
