ghost use Rattle.std.specs.Prelude.{◌≡◌, ◌∷◌, ◌++◌, ◌<◌, ◌^◌, [], OnOk, IfOk};
ghost use Rattle.std.specs.Fmt.{decimal};
ghost use Rattle.hex.specs.Hex.{IsBytes, encode_lower};
ghost use Rattle.term_values.specs.Trees.{Tree, trees};
ghost use Rattle.script_text.specs.Notation.{AreWellFormed, IsKeyOfParts, IsWellFormed, all_plain};
ghost use Rattle.script_text.specs.Notation.{key_notation, list_notation, notation, plain};
ghost use Rattle.script_text.specs.Printing.{comma_before};

use std::alloc::Global;
use term_values::{Form, Key, OutOfMemory, Stamp, Term};

/// Appends a letter, a colon and a number.
fn put_number(alloc: Global, out: &mut Vec<u8>, letter: u8, number: u64) -> Result<(), OutOfMemory>
    ensures { OnOk result (out.new.items ≡ out.old.items ++ letter ∷ 58 ∷ decimal number) }
{
    let digits = format!(in alloc; "{number}")?;
    out.push(letter)?;
    out.push(b':')?;
    out.extend_from_slice(digits.as_bytes())
}

/// Appends the digits of some bytes.
fn put_digits(alloc: Global, out: &mut Vec<u8>, bytes: &[u8]) -> Result<(), OutOfMemory>
    ensures written { OnOk result (out.new.items ≡ out.old.items ++ encode_lower bytes.now) }
    ensures bytes { IsBytes bytes.now }
{
    let digits = hex::encode(alloc, bytes)?;
    out.extend_from_slice(digits.as_bytes())
}

/// Appends a letter, a colon and the digits of some bytes.
fn put_bytes(alloc: Global, out: &mut Vec<u8>, letter: u8, bytes: &[u8]) -> Result<(), OutOfMemory>
    ensures written { OnOk result (out.new.items
        ≡ out.old.items ++ letter ∷ 58 ∷ encode_lower bytes.now) }
    ensures bytes { IsBytes bytes.now }
{
    out.push(letter)?;
    out.push(b':')?;
    put_digits(alloc, out, bytes)
}

fn put_key(alloc: Global, out: &mut Vec<u8>, key: &Key) -> Result<(), OutOfMemory>
    ensures { OnOk result (IsKeyOfParts key.now
        × (out.new.items ≡ out.old.items ++ key_notation key.now)) }
{
    match key {
        Key::One(part) => put_bytes(alloc, out, b'K', part.list()),
        Key::Two(first, second) => {
            put_bytes(alloc, out, b'K', first.list())?;
            out.push(b'+')?;
            put_digits(alloc, out, second.list())
        }
    }
}

/// Appends the notation of a term.
#[cycle(put)]
fn put(alloc: Global, out: &mut Vec<u8>, term: &Term) -> Result<(), OutOfMemory>
    ensures { OnOk result (IsWellFormed (plain term.now)
        × (out.new.items ≡ out.old.items ++ notation (plain term.now))) }
{
    match term.form() {
        Form::Name(name) => put_number(alloc, out, b'N', u64::from(name.get())),
        Form::Stamp(Stamp::Time(ms)) => put_number(alloc, out, b'T', *ms),
        Form::Stamp(Stamp::Seq(number)) => put_number(alloc, out, b'Q', *number),
        Form::Nonce(nonce) => put_bytes(alloc, out, b'R', nonce.list()),
        Form::Part(part) => put_bytes(alloc, out, b'F', part.list()),
        Form::Text(text) => put_bytes(alloc, out, b'X', text.list()),
        Form::Tag(tag) => put_bytes(alloc, out, b'G', tag.list()),
        Form::Tuple(items) => put_tuple(alloc, out, items.list()),
        Form::Seal(key, body) => put_sealed(alloc, out, b'S', key, body),
        Form::Check(key, body) => put_sealed(alloc, out, b'C', key, body),
        Form::Blob(bytes) => put_bytes(alloc, out, b'B', bytes.list()),
    }
}

#[cycle(put)]
fn put_sealed(
    alloc: Global,
    out: &mut Vec<u8>,
    letter: u8,
    key: &Key,
    body: &Term,
) -> Result<(), OutOfMemory>
    ensures { OnOk result (IsKeyOfParts key.now × IsWellFormed (plain body.now)
        × (out.new.items ≡ out.old.items ++ letter ∷ 91 ∷
        (key_notation key.now ++ 124 ∷ (notation (plain body.now) ++ 93 ∷ [])))) }
{
    out.push(letter)?;
    out.push(b'[')?;
    put_key(alloc, out, key)?;
    out.push(b'|')?;
    put(alloc, out, body)?;
    out.push(b']')?;
    Ok(())
}

#[cycle(put)]
fn put_tuple(alloc: Global, out: &mut Vec<u8>, items: &[Term]) -> Result<(), OutOfMemory>
    ensures { OnOk result (AreWellFormed (all_plain (trees items.now))
        × (out.new.items ≡ out.old.items ++ 40 ∷
        (list_notation (all_plain (trees items.now)) ++ 41 ∷ []))) }
{
    out.push(b'(')?;
    put_items(alloc, out, items)?;
    out.push(b')')?;
    Ok(())
}

/// Appends the comma that stands before an item, where it is not the first.
fn put_comma(out: &mut Vec<u8>, place: usize) -> Result<(), OutOfMemory>
    ensures { OnOk result (out.new.items ≡ out.old.items ++ comma_before place) }
{
    if place > 0 {
        out.push(b',')?;
    }
    Ok(())
}

#[cycle(put)]
#[tactic(auto, using(term_values::proofs::Trees::item_smaller))]
fn put_items(alloc: Global, out: &mut Vec<u8>, items: &[Term]) -> Result<(), OutOfMemory>
    ensures { OnOk result (AreWellFormed (all_plain (trees items.now))
        × (out.new.items ≡ out.old.items ++ list_notation (all_plain (trees items.now)))) }
{
    for (place, item) in items.iter().enumerate() {
        put_comma(out, place)?;
        put(alloc, out, item)?;
    }
    Ok(())
}

/// The one printed form of a term, which has no `@`; also of a term that has no spelling.
///
/// # Errors
///
/// [`OutOfMemory`] for want of memory alone.
pub fn print_term(alloc: Global, term: &Term) -> Result<Vec<u8>, OutOfMemory>
    ensures written { IfOk result (λ v. v.items ≡ notation (plain term.now)) }
    ensures values { IfOk result (λ v. IsWellFormed (plain term.now)) }
{
    let mut out = Vec::new(alloc);
    put(alloc, &mut out, term)?;
    Ok(out)
}

/// No two terms share a printed form.
#[tactic(auto, using(crate::proofs::Readings::one_term))]
pub fn one_form()
    ensures { (t u : Tree) → IsWellFormed (plain t) → IsWellFormed (plain u) →
        notation (plain t) ≡ notation (plain u) → t ≡ u }
{}
