ghost use Rattle.std.specs.Prelude.{◌≡◌, ◌≢◌, ◌≤◌, ℕ, List, get_or, length, IsNone, IfSome, IsTrue};
ghost use Rattle.std.specs.Prelude.{◌↔◌, [], ◌∷◌};
ghost use Rattle.std.specs.Fmt.{decimal};
ghost use Rattle.hex.specs.Hex.{IsBytes, encode_lower};
ghost use Rattle.script_text.specs.LineReading.{mech_in};
ghost use Rattle.authctl.specs.Words.{IsGivenPart, IsName, IsPlan, IsWalk, walk_words, word_lists};

use mech_rows::Mech;
use term_values::{Name, Part};

/// A walk: an undisturbed run of a mechanism without a third party.
#[derive(Clone, Copy, Debug, PartialEq, Eq)]
pub struct Walk {
    /// The mechanism: one of E1 to E4 and C1 to C4.
    pub mech: Mech,
    /// The claimant.
    pub a: Name,
    /// The verifier.
    pub b: Name,
    /// Their long-term part.
    pub part: Part,
}

/// Whether a word begins with a digit other than 0.
fn begins_with_digit(word: &[u8]) -> bool
    ensures { IsTrue result ↔ ((49 ≤ get_or word.now 0 0) × (get_or word.now 0 0 ≤ 57)) }
{
    !word.is_empty() && word[0] >= b'1' && word[0] <= b'9'
}

/// The number that a word writes, where it begins with a digit other than 0.
fn parse_number(word: &[u8]) -> Option<u32>
    requires { (49 ≤ get_or word.now 0 0) × (get_or word.now 0 0 ≤ 57) }
    ensures some { IfSome result (λ n. word.now ≡ decimal n) }
    ensures none { IsNone result → (n : ℕ) → IsName n → word.now ≢ decimal n }
{
    match str::from_utf8(word) {
        Ok(text) => text.parse::<u32>().ok(),
        Err(_) => None,
    }
}

/// The name that a word writes in decimal, with no sign and no leading zero.
fn read_name(word: &[u8]) -> Option<Name>
    ensures name { IfSome result IsName }
    ensures some { IfSome result (λ n. word.now ≡ decimal n) }
    ensures none { IsNone result → (n : ℕ) → IsName n → word.now ≢ decimal n }
{
    if !begins_with_digit(word) {
        return None;
    }
    Name::new(parse_number(word)?)
}

/// Whether a word writes these bytes in lower case.
fn is_lower(word: &[u8], bytes: &[u8; 32]) -> bool
    ensures { IsTrue result ↔ (word.now ≡ encode_lower bytes.now) }
{
    let mut digits = [0; 64];
    match hex::encode_to_slice(bytes.as_slice(), &mut digits) {
        Ok(()) => word == digits.as_slice(),
        Err(_) => unreachable!(),
    }
}

/// Each element of a slice of bytes is a byte.
fn elements_are_bytes(bytes: &[u8])
    ensures { IsBytes bytes.now }
{}

/// The 32 bytes that a word writes in lower case.
fn read_bytes(word: &[u8]) -> Option<[u8; 32]>
    ensures bytes { IfSome result IsBytes }
    ensures some { IfSome result (λ p. word.now ≡ encode_lower p) }
    ensures none { IsNone result → (p : List ℕ) → length p ≡ 32 → IsBytes p →
        word.now ≢ encode_lower p }
{
    let mut bytes = [0; 32];
    hex::decode_to_slice(word, &mut bytes).ok()?;
    if !is_lower(word, &bytes) {
        return None;
    }
    elements_are_bytes(&bytes);
    Some(bytes)
}

/// The long-term part that a word writes: 64 digits in lower case that begin with neither d0 nor d1.
fn read_part(word: &[u8]) -> Option<Part>
    ensures part { IfSome result IsGivenPart }
    ensures some { IfSome result (λ p. word.now ≡ encode_lower p) }
    ensures none { IsNone result → (p : List ℕ) → IsGivenPart p → word.now ≢ encode_lower p }
{
    let bytes = read_bytes(word)?;
    if bytes[0] == 0xd0 {
        return None;
    }
    if bytes[0] == 0xd1 {
        return None;
    }
    Some(Part(bytes))
}

/// The mechanism of that name, where it is one of those that walks may have.
fn read_mech(word: &[u8]) -> Option<Mech>
    ensures { result ≡ mech_in word.now }
{
    if word == b"E1".as_slice() {
        return Some(Mech::E1);
    }
    if word == b"E2".as_slice() {
        return Some(Mech::E2);
    }
    if word == b"E3".as_slice() {
        return Some(Mech::E3);
    }
    if word == b"E4".as_slice() {
        return Some(Mech::E4);
    }
    if word == b"C1".as_slice() {
        return Some(Mech::C1);
    }
    if word == b"C2".as_slice() {
        return Some(Mech::C2);
    }
    if word == b"C3".as_slice() {
        return Some(Mech::C3);
    }
    if word == b"C4".as_slice() {
        return Some(Mech::C4);
    }
    None
}

/// The walk that five words ask for.
fn read_five(command: &[u8], mech: &[u8], a: &[u8], b: &[u8], part: &[u8]) -> Option<Walk>
    ensures plan { IfSome result IsPlan }
    ensures some { IfSome result (λ w. command.now ∷ mech.now ∷ a.now ∷ b.now ∷ part.now ∷ []
        ≡ walk_words w) }
    ensures none { IsNone result → (w : Walk) → IsPlan w →
        command.now ∷ mech.now ∷ a.now ∷ b.now ∷ part.now ∷ [] ≢ walk_words w }
{
    if command != b"walk".as_slice() {
        return None;
    }
    let mech = read_mech(mech)?;
    let a = read_name(a)?;
    let b = read_name(b)?;
    if a == b {
        return None;
    }
    let part = read_part(part)?;
    Some(Walk { mech, a, b, part })
}

/// The walk that the words ask for; None where they are no command.
pub fn read_walk(words: &[Vec<u8>]) -> Option<Walk>
    ensures some { IfSome result (IsWalk (word_lists words.now)) }
    ensures none { IsNone result → (w : Walk) → IsWalk (word_lists words.now) w → ⊥ }
{
    if words.len() != 5 {
        return None;
    }
    read_five(&words[0], &words[1], &words[2], &words[3], &words[4])
}
