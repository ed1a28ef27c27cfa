ghost use Rattle.std.specs.Prelude.{◌≡◌, ◌≢◌, ◌↔◌, ◌∷◌, [], true, false, Some, IsTrue, IfOk, IfErr};
ghost use Rattle.std.specs.Prelude.{OnOk};
ghost use Rattle.term_values.specs.Trees.{nonce, stamp, part, text};
ghost use Rattle.term_values.specs.declared.small.Key.TheVariants.{One};
ghost use Rattle.mech_rows.specs.declared.kinds.Kind.TheVariants.{Nonce as a_nonce};
ghost use Rattle.mech_rows.specs.declared.kinds.Kind.TheVariants.{Stamp as a_stamp, Part as a_part};
ghost use Rattle.mech_rows.specs.declared.kinds.Kind.TheVariants.{Text as a_text};
ghost use Rattle.mech_rows.specs.Runs.{part_bytes};
ghost use Rattle.term_values.specs.Same.{same};
ghost use Rattle.mech_rows.specs.Verdict.{at, has_kind};
ghost use Rattle.mech_rows.specs.declared.refusal.Refusal.TheVariants.{Memory, WrongValue};
ghost use Rattle.mech_rows.specs.declared.refusal.Refusal.TheVariants.{TextRefused};
ghost use Rattle.text_hooks.specs.Judged.{refused_of_two};
ghost use Rattle.text_hooks.specs.Made.{IsRefusedText, IsWrongValue};
ghost use Rattle.text_hooks.specs.Rules.{allowed};

use crate::hook::Hook;
use crate::openings::one_stamp;
use mech_rows::{Got, Mech, Refusal, Slot};
use std::alloc::Global;
use term_values::{Form, Key, Nonce, Part, Stamp, Term, Text};

/// The nonce at place k, where one stands. Takes no memory.
pub fn nonce_at(items: &[Term], k: usize) -> Nonce
    requires kind { has_kind a_nonce (at items.now k) ≡ true }
    ensures value { at items.now k ≡ nonce result }
{
    match items[k].form() {
        Form::Nonce(found) => *found,
        _ => unreachable!(),
    }
}

/// The stamp at place k, where one stands. Takes no memory.
pub fn stamp_at(items: &[Term], k: usize) -> Stamp
    requires kind { has_kind a_stamp (at items.now k) ≡ true }
    ensures value { at items.now k ≡ stamp result }
{
    match items[k].form() {
        Form::Stamp(found) => *found,
        _ => unreachable!(),
    }
}

/// The part at place k, where one stands. Takes no memory.
pub fn part_at(items: &[Term], k: usize) -> Part
    requires kind { has_kind a_part (at items.now k) ≡ true }
    ensures value { at items.now k ≡ part result }
{
    match items[k].form() {
        Form::Part(found) => *found,
        _ => unreachable!(),
    }
}

/// The key of the part at place k, where one stands. Takes no memory.
pub fn key_at(items: &[Term], k: usize) -> Key
    requires kind { has_kind a_part (at items.now k) ≡ true }
    ensures key { result ≡ One (part_bytes (at items.now k)) }
{
    Key::One(part_at(items, k))
}

/// The text at place k, where one stands. Takes no memory.
pub fn text_at(items: &[Term], k: usize) -> &Text
    requires kind { has_kind a_text (at items.now k) ≡ true }
    ensures value { at items.now k ≡ text result.now }
{
    match items[k].form() {
        Form::Text(found) => found,
        _ => unreachable!(),
    }
}

fn is_nonce(found: &Nonce, held: &Nonce) -> bool
    ensures is { IsTrue result ↔ (nonce found.now ≡ nonce held.now) }
{
    found == held
}

fn same_nonce(found: &Nonce, held: &Nonce) -> bool
    ensures same { result ≡ same (nonce found.now) (nonce held.now) }
{
    is_nonce(found, held)
}

/// Compares a nonce with the one that is held. `part` is the place of its item among the protected
/// items, from 1, or 0. Takes no memory.
///
/// # Errors
///
/// `WrongValue` of that part and slot exactly where they differ.
pub fn compare_nonce(found: &Nonce, held: &Nonce, part: u8, slot: Slot) -> Result<(), Refusal>
    ensures ok { OnOk result (same (nonce found.now) (nonce held.now) ≡ true) }
    ensures value { IfErr result (IsWrongValue (nonce found.now) (nonce held.now) part slot) }
{
    if !same_nonce(found, held) {
        return Err(Refusal::WrongValue { part, slot });
    }
    Ok(())
}

fn is_stamp(found: Stamp, held: Stamp) -> bool
    ensures is { IsTrue result ↔ (stamp found ≡ stamp held) }
{
    found == held
}

fn same_stamp(found: Stamp, held: Stamp) -> bool
    ensures same { result ≡ same (stamp found) (stamp held) }
{
    is_stamp(found, held)
}

/// Compares a stamp with the one that is held. `part` is the place of its item among the protected
/// items, from 1. Takes no memory.
///
/// # Errors
///
/// `WrongValue` of that part and slot exactly where they differ.
pub fn compare_stamp(found: Stamp, held: Stamp, part: u8, slot: Slot) -> Result<(), Refusal>
    ensures ok { OnOk result (same (stamp found) (stamp held) ≡ true) }
    ensures value { IfErr result (IsWrongValue (stamp found) (stamp held) part slot) }
{
    if !same_stamp(found, held) {
        return Err(Refusal::WrongValue { part, slot });
    }
    Ok(())
}

/// Judges a text that was received. Takes no memory.
///
/// # Errors
///
/// `TextRefused` of that slot exactly where the rules refuse it.
pub fn judge_text(hook: &Hook, mech: Mech, slot: Slot, text: &Text) -> Result<(), Refusal>
    ensures ok { OnOk result (allowed hook.now.rules.items mech slot text.now ≡ true) }
    ensures refused { IfErr result
        (IsRefusedText (allowed hook.now.rules.items) mech slot text.now) }
{
    if !hook.judge(mech, slot, text.list()) {
        return Err(Refusal::TextRefused { slot });
    }
    Ok(())
}

/// A text that was received and is judged.
///
/// # Errors
///
/// `TextRefused` of that slot, only where the rules refuse it; want of memory.
pub fn take_text(
    alloc: Global,
    hook: &Hook,
    mech: Mech,
    slot: Slot,
    text: &Text,
) -> Result<Text, Refusal>
    ensures equal { IfOk result (λ x. x ≡ text.now) }
    ensures ok { OnOk result (allowed hook.now.rules.items mech slot text.now ≡ true) }
    ensures refused { IfErr result (λ e. e ≢ Memory →
        IsRefusedText (allowed hook.now.rules.items) mech slot text.now e) }
{
    judge_text(hook, mech, slot, text)?;
    Ok(text.copy(alloc)?)
}

/// Two texts that were received and are judged, the first before the second.
///
/// # Errors
///
/// `TextRefused` of the first that the rules refuse; want of memory.
pub fn take_texts(
    alloc: Global,
    hook: &Hook,
    mech: Mech,
    one: (Slot, &Text),
    two: (Slot, &Text),
) -> Result<(Text, Text), Refusal>
    ensures equal { IfOk result (λ p. (p.0 ≡ one.entry.1.now) × (p.1 ≡ two.entry.1.now)) }
    ensures first { OnOk result
        (allowed hook.now.rules.items mech one.entry.0 one.entry.1.now ≡ true) }
    ensures second { OnOk result
        (allowed hook.now.rules.items mech two.entry.0 two.entry.1.now ≡ true) }
    ensures refused { IfErr result (λ e. e ≢ Memory →
        refused_of_two (allowed hook.now.rules.items) mech one.entry.0 one.entry.1.now
        two.entry.0 two.entry.1.now ≡ Some e) }
{
    let first = take_text(alloc, hook, mech, one.0, one.1)?;
    let second = take_text(alloc, hook, mech, two.0, two.1)?;
    Ok((first, second))
}

/// Two texts that were received and are judged, the first before the second, and a list of the
/// stamp that came with them.
///
/// # Errors
///
/// `TextRefused` of the first that the rules refuse; want of memory.
pub fn take_token(
    alloc: Global,
    hook: &Hook,
    mech: Mech,
    one: (Slot, &Text),
    two: (Slot, &Text),
    got: Got,
) -> Result<(Text, Text, Vec<Got>), Refusal>
    ensures equal { IfOk result (λ p. (p.0 ≡ one.entry.1.now) × (p.1 ≡ two.entry.1.now)) }
    ensures got { IfOk result (λ p. p.2.items ≡ got ∷ []) }
    ensures first { OnOk result
        (allowed hook.now.rules.items mech one.entry.0 one.entry.1.now ≡ true) }
    ensures second { OnOk result
        (allowed hook.now.rules.items mech two.entry.0 two.entry.1.now ≡ true) }
    ensures refused { IfErr result (λ e. e ≢ Memory →
        refused_of_two (allowed hook.now.rules.items) mech one.entry.0 one.entry.1.now
        two.entry.0 two.entry.1.now ≡ Some e) }
{
    let (first, second) = take_texts(alloc, hook, mech, one, two)?;
    let list = one_stamp(alloc, got)?;
    Ok((first, second, list))
}
