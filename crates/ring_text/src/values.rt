ghost use Rattle.std.specs.Prelude.{◌≡◌, ◌≤◌, IfOk, length};
ghost use Rattle.std.specs.List.{list_all};
ghost use Rattle.serde_json.specs.Find.{as_str};
ghost use Rattle.serde_json.specs.View.{view};
ghost use Rattle.ring_text.specs.Faults.{Gives};
ghost use Rattle.ring_text.specs.Values.{bytes_word, is_lower_digit, length_in, mech_in, mech_word};
ghost use Rattle.ring_text.specs.Values.{name_in, number_in, part_in, part_word, server_in};
ghost use Rattle.ring_text.specs.Values.{server_word, slot_in, slot_word, stamps_in, stamps_word};
ghost use Rattle.ring_text.specs.Values.{text_in, text_word, window_in};

use crate::fault::RingFault;
use hex::FromHexError;
use mech_rows::{Mech, Slot};
use serde_json::Value;
use std::alloc::Global;
use term_values::{Name, Part, StampKind, Text};

/// The greatest window, in milliseconds.
const WINDOW_MAX: u32 = 600_000;

/// The most bytes of a text.
const TEXT_MAX: u32 = 1024;

/// The digits of a key.
const PART_DIGITS: usize = 64;

/// A whole number up to the greatest.
fn number(value: &Value, most: u32) -> Result<u32, RingFault>
    ensures value { Gives (λ n. n) result (number_in 0 most (view value.now)) }
    ensures within { IfOk result (λ n. n ≤ most) }
{
    match value.as_u64() {
        Some(number) if number <= u64::from(most) => Ok(number as u32),
        _ => Err(RingFault::Bad),
    }
}

/// A name: a whole number from 1 to 4,294,967,295.
pub(crate) fn name(value: &Value) -> Result<Name, RingFault>
    ensures { Gives (λ n. n) result (name_in (view value.now)) }
{
    let number = number(value, u32::MAX)?;
    match Name::new(number) {
        Some(name) => Ok(name),
        None => Err(RingFault::Bad),
    }
}

/// A window in milliseconds.
pub(crate) fn window(value: &Value) -> Result<u32, RingFault>
    ensures { Gives (λ n. n) result (window_in (view value.now)) }
{
    number(value, WINDOW_MAX)
}

/// The most bytes that a rule lets a text have.
pub(crate) fn longest(value: &Value) -> Result<u16, RingFault>
    ensures { Gives (λ n. n) result (length_in (view value.now)) }
{
    let longest = number(value, TEXT_MAX)?;
    Ok(longest as u16)
}

/// The text of a string.
fn word(value: &Value) -> Result<&str, RingFault>
    ensures { Gives (λ s. s.now) result (as_str (view value.now)) }
{
    match value.as_str() {
        Some(word) => Ok(word),
        None => Err(RingFault::Bad),
    }
}

/// Whether a kind of party is that of third parties.
pub(crate) fn server(value: &Value) -> Result<bool, RingFault>
    ensures { Gives (λ s. s) result (server_in (view value.now)) }
{
    server_of(word(value)?)
}

fn server_of(word: &str) -> Result<bool, RingFault>
    ensures { Gives (λ s. s) result (server_word word.now) }
{
    if word == "party" {
        return Ok(false);
    }
    if word == "server" {
        return Ok(true);
    }
    Err(RingFault::Bad)
}

/// A kind of stamps.
pub(crate) fn stamps(value: &Value) -> Result<StampKind, RingFault>
    ensures { Gives (λ k. k) result (stamps_in (view value.now)) }
{
    stamps_of(word(value)?)
}

fn stamps_of(word: &str) -> Result<StampKind, RingFault>
    ensures { Gives (λ k. k) result (stamps_word word.now) }
{
    if word == "time" {
        return Ok(StampKind::Time);
    }
    if word == "seq" {
        return Ok(StampKind::Seq);
    }
    Err(RingFault::Bad)
}

/// One of the sixteen mechanisms.
pub(crate) fn mech(value: &Value) -> Result<Mech, RingFault>
    ensures { Gives (λ m. m) result (mech_in (view value.now)) }
{
    mech_of(word(value)?)
}

fn mech_of(word: &str) -> Result<Mech, RingFault>
    ensures { Gives (λ m. m) result (mech_word word.now) }
{
    match word {
        "E1" => Ok(Mech::E1),
        "E2" => Ok(Mech::E2),
        "E3" => Ok(Mech::E3),
        "E4" => Ok(Mech::E4),
        "E5" => Ok(Mech::E5),
        "E6" => Ok(Mech::E6),
        "C1" => Ok(Mech::C1),
        "C2" => Ok(Mech::C2),
        "C3" => Ok(Mech::C3),
        "C4" => Ok(Mech::C4),
        "K3" => Ok(Mech::K3),
        "K4" => Ok(Mech::K4),
        "K5" => Ok(Mech::K5),
        "K6" => Ok(Mech::K6),
        "K8" => Ok(Mech::K8),
        "K9" => Ok(Mech::K9),
        _ => Err(RingFault::Bad),
    }
}

/// A slot of a text, X1 to X9.
pub(crate) fn slot(value: &Value) -> Result<Slot, RingFault>
    ensures { Gives (λ s. s) result (slot_in (view value.now)) }
{
    slot_of(word(value)?)
}

fn slot_of(word: &str) -> Result<Slot, RingFault>
    ensures { Gives (λ s. s) result (slot_word word.now) }
{
    match word {
        "X1" => Ok(Slot::X1),
        "X2" => Ok(Slot::X2),
        "X3" => Ok(Slot::X3),
        "X4" => Ok(Slot::X4),
        "X5" => Ok(Slot::X5),
        "X6" => Ok(Slot::X6),
        "X7" => Ok(Slot::X7),
        "X8" => Ok(Slot::X8),
        "X9" => Ok(Slot::X9),
        _ => Err(RingFault::Bad),
    }
}

/// A digit of hexadecimal, in lower case.
fn is_lower_digit(c: u8) -> bool
    ensures { result ≡ is_lower_digit c }
{
    (b'0' <= c && c <= b'9') || (b'a' <= c && c <= b'f')
}

fn are_lower_digits(word: &[u8]) -> bool
    ensures { result ≡ list_all is_lower_digit word.now }
{
    word.iter().all(|c| is_lower_digit(*c))
}

/// The key that 64 digits write.
#[tactic(auto, unfolding(crate::specs::Values::bytes_word, crate::specs::Values::part_word))]
fn part_of(word: &[u8]) -> Result<Part, RingFault>
    ensures { Gives (λ p. p) result (part_word word.now) }
{
    if word.len() != PART_DIGITS || !are_lower_digits(word) {
        return Err(RingFault::Bad);
    }
    let mut bytes = [0; 32];
    match hex::decode_to_slice(word, &mut bytes) {
        Ok(()) => Ok(Part(bytes)),
        Err(_) => Err(RingFault::Bad),
    }
}

/// A key.
pub(crate) fn part(value: &Value) -> Result<Part, RingFault>
    ensures { Gives (λ p. p) result (part_in (view value.now)) }
{
    part_of(word(value)?.as_bytes())
}

/// The bytes that digits write.
#[tactic(auto, unfolding(crate::specs::Values::bytes_word))]
fn bytes_of(alloc: Global, word: &[u8]) -> Result<Vec<u8>, RingFault>
    ensures { Gives (λ b. b.items) result (bytes_word word.now) }
{
    if !are_lower_digits(word) {
        return Err(RingFault::Bad);
    }
    match hex::decode(alloc, word) {
        Ok(bytes) => Ok(bytes),
        Err(FromHexError::OutOfMemory) => Err(RingFault::Memory),
        Err(_) => Err(RingFault::Bad),
    }
}

/// The text of at most 1,024 bytes that digits write.
#[tactic(auto, unfolding(crate::specs::Values::text_word))]
fn text_of(alloc: Global, word: &[u8]) -> Result<Text, RingFault>
    ensures { Gives (λ t. t) result (text_word word.now) }
{
    match Text::new(bytes_of(alloc, word)?) {
        Ok(text) => Ok(text),
        Err(_) => Err(RingFault::Bad),
    }
}

/// A text.
pub(crate) fn text(alloc: Global, value: &Value) -> Result<Text, RingFault>
    ensures { Gives (λ t. t) result (text_in (view value.now)) }
{
    text_of(alloc, word(value)?.as_bytes())
}
