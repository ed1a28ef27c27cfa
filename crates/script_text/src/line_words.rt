ghost use Rattle.std.specs.Prelude.{◌≡◌, ◌<◌, ◌^◌, [], Some, not, IfOk, IsTrue};
ghost use Rattle.mech_rows.specs.Facts.{same_role};
ghost use Rattle.script_text.specs.Reading.{Reads, ReadsExactly, bytes_at, upto};
ghost use Rattle.script_text.specs.Lines.{is_offered};
ghost use Rattle.script_text.specs.LineReading.{Gives, GivesExactly, mech_in, name_in};
ghost use Rattle.script_text.specs.LineReading.{number_below, number_in, part_in, prefix_in};
ghost use Rattle.script_text.specs.LineReading.{role_in, slot_at, slot_in, slot_of_digit, text_at};
ghost use Rattle.script_text.specs.LineReading.{text_in, whole};

use crate::reading::{Malformed, ReadFault, Reader};
use mech_rows::{Mech, Role, Slot};
use std::alloc::Global;
use term_values::{Name, Part, Text};

/// The number below the limit that a word writes.
pub(crate) fn number(word: &[u8], limit: u32) -> Result<u32, Malformed>
    ensures value { GivesExactly (λ n. n) result (number_below limit word.now) }
    ensures below { IfOk result (λ n. n < limit) }
{
    let number = u32(word)?;
    if number >= limit {
        return Err(Malformed);
    }
    Ok(number)
}

/// The number below 2 ^ 32 that a word writes.
pub(crate) fn u32(word: &[u8]) -> Result<u32, Malformed>
    ensures { GivesExactly (λ n. n) result (number_in (2 ^ 32) word.now) }
{
    let mut reader = Reader { rest: word };
    let number = reader.u32()?;
    if !reader.rest.is_empty() {
        return Err(Malformed);
    }
    Ok(number)
}

/// The number below 2 ^ 64 that a word writes.
pub(crate) fn u64(word: &[u8]) -> Result<u64, Malformed>
    ensures { GivesExactly (λ n. n) result (number_in (2 ^ 64) word.now) }
{
    let mut reader = Reader { rest: word };
    let number = reader.u64()?;
    if !reader.rest.is_empty() {
        return Err(Malformed);
    }
    Ok(number)
}

pub(crate) fn name(word: &[u8]) -> Result<Name, Malformed>
    ensures { GivesExactly (λ n. n) result (name_in word.now) }
{
    match Name::new(u32(word)?) {
        Some(name) => Ok(name),
        None => Err(Malformed),
    }
}

pub(crate) fn part(word: &[u8]) -> Result<Part, Malformed>
    ensures { GivesExactly (λ p. p) result (part_in word.now) }
{
    let mut reader = Reader { rest: word };
    let part = reader.part()?;
    if !reader.rest.is_empty() {
        return Err(Malformed);
    }
    Ok(part)
}

/// The mechanism of that name, among those that lines may name.
pub(crate) fn mech(word: &[u8]) -> Result<Mech, Malformed>
    ensures value { GivesExactly (λ m. m) result (mech_in word.now) }
    ensures offered { IfOk result (λ m. IsTrue (is_offered m)) }
{
    if word == b"E1".as_slice() {
        return Ok(Mech::E1);
    }
    if word == b"E2".as_slice() {
        return Ok(Mech::E2);
    }
    if word == b"E3".as_slice() {
        return Ok(Mech::E3);
    }
    if word == b"E4".as_slice() {
        return Ok(Mech::E4);
    }
    if word == b"C1".as_slice() {
        return Ok(Mech::C1);
    }
    if word == b"C2".as_slice() {
        return Ok(Mech::C2);
    }
    if word == b"C3".as_slice() {
        return Ok(Mech::C3);
    }
    if word == b"C4".as_slice() {
        return Ok(Mech::C4);
    }
    Err(Malformed)
}

pub(crate) fn role(word: &[u8]) -> Result<Role, Malformed>
    ensures value { GivesExactly (λ r. r) result (role_in word.now) }
    ensures peer { IfOk result (λ r. IsTrue (not (same_role r Role.P))) }
{
    if word == b"A".as_slice() {
        return Ok(Role::A);
    }
    if word == b"B".as_slice() {
        return Ok(Role::B);
    }
    Err(Malformed)
}

/// The slot X1 to X9 of that digit.
fn slot_of(digit: u8) -> Result<Slot, Malformed>
    ensures { GivesExactly (λ s. s) result (slot_of_digit digit) }
{
    match digit {
        b'1' => Ok(Slot::X1),
        b'2' => Ok(Slot::X2),
        b'3' => Ok(Slot::X3),
        b'4' => Ok(Slot::X4),
        b'5' => Ok(Slot::X5),
        b'6' => Ok(Slot::X6),
        b'7' => Ok(Slot::X7),
        b'8' => Ok(Slot::X8),
        b'9' => Ok(Slot::X9),
        _ => Err(Malformed),
    }
}

/// Takes a slot X1 to X9.
#[tactic(auto, unfolding(crate::specs::LineReading::slot_at))]
fn slot_first(reader: &mut Reader) -> Result<Slot, Malformed>
    ensures { ReadsExactly (λ s. s) result reader.new.rest.now (slot_at reader.old.rest.now) }
{
    reader.mark(b'X')?;
    slot_of(reader.byte()?)
}

pub(crate) fn slot(word: &[u8]) -> Result<Slot, Malformed>
    ensures { GivesExactly (λ s. s) result (slot_in word.now) }
{
    let mut reader = Reader { rest: word };
    let slot = slot_first(&mut reader)?;
    if !reader.rest.is_empty() {
        return Err(Malformed);
    }
    Ok(slot)
}

/// Takes a slot, `=` and a text.
#[tactic(auto, unfolding(crate::specs::LineReading::text_at))]
fn text_first(alloc: Global, reader: &mut Reader) -> Result<(Slot, Text), ReadFault>
    ensures { Reads (λ t. (t.0, t.1)) result reader.new.rest.now (text_at reader.old.rest.now) }
{
    let slot = slot_first(reader)?;
    reader.mark(b'=')?;
    let text = reader.text(alloc)?;
    Ok((slot, text))
}

/// A slot, `=` and a text, as a word of `open` writes them.
pub(crate) fn text(alloc: Global, word: &[u8]) -> Result<(Slot, Text), ReadFault>
    ensures { Gives (λ t. (t.0, t.1)) result (text_in word.now) }
{
    let mut reader = Reader { rest: word };
    let text = text_first(alloc, &mut reader)?;
    if !reader.rest.is_empty() {
        return Err(ReadFault::Malformed);
    }
    Ok(text)
}

/// A text, as a word of its digits writes it.
fn digits(alloc: Global, word: &[u8]) -> Result<Text, ReadFault>
    ensures { Gives (λ t. t) result (whole (bytes_at (upto 2048) word.now)) }
{
    let mut reader = Reader { rest: word };
    let text = reader.text(alloc)?;
    if !reader.rest.is_empty() {
        return Err(ReadFault::Malformed);
    }
    Ok(text)
}

/// The text of no bytes.
fn no_text(alloc: Global) -> Result<Text, ReadFault>
    ensures { Gives (λ t. t) result (Some []) }
{
    match Text::new(Vec::new(alloc)) {
        Ok(text) => Ok(text),
        Err(_) => Err(ReadFault::Memory),
    }
}

/// The beginning that a rule wants of a text, as a word of `allow` writes it.
pub(crate) fn prefix(alloc: Global, word: &[u8]) -> Result<Text, ReadFault>
    ensures { Gives (λ t. t) result (prefix_in word.now) }
{
    if word == b"-".as_slice() {
        return no_text(alloc);
    }
    if word.is_empty() {
        return Err(ReadFault::Malformed);
    }
    digits(alloc, word)
}
