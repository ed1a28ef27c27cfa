ghost use Rattle.std.specs.Prelude.{◌≡◌, ◌+◌, ◌<◌, ◌≤◌, ◌^◌, List, ℕ, [], ◌∷◌, ◌++◌, length, OnOk};
ghost use Rattle.std.specs.Prelude.{IfOk, Err};
ghost use Rattle.term_values.specs.Trees.{count_of, trees};
ghost use Rattle.term_values.specs.Limits.{AllFit, Fits, IsKey};
ghost use Rattle.tagged_codec.specs.Grammar.{IsInLimits, IsSpelling, key_spelling, sized_spelling};
ghost use Rattle.tagged_codec.specs.Grammar.{spelling, spellings};

use crate::kinds;
use crate::kinds::{BLOB_MAX, ITEMS_MAX, LEVELS_MAX, SPELLING_MAX};
use std::alloc::{AllocFailed, Global};
use term_values::{Form, Key, OutOfMemory, Stamp, Term};

/// Why a term was not spelled.
#[derive(Clone, Copy, Debug, PartialEq, Eq)]
pub enum EncodeFault {
    /// The term is outside the limits of the grammar, so it has no spelling.
    TooLarge,
    /// Memory ran out.
    Memory,
}

impl From<OutOfMemory> for EncodeFault {
    ghost use Rattle.tagged_codec.specs.declared.writing.EncodeFault.TheVariants.{Memory};
    ghost use Rattle.std.specs.Prelude.{◌≡◌};

    ghost from_gives = { λ _ e. e ≡ Memory };

    fn from(_: OutOfMemory) -> EncodeFault {
        EncodeFault::Memory
    }
}

impl<T: Drop> From<AllocFailed<T>> for EncodeFault {
    ghost use Rattle.tagged_codec.specs.declared.writing.EncodeFault.TheVariants.{Memory};
    ghost use Rattle.std.specs.Prelude.{◌≡◌};

    ghost from_gives = { λ _ e. e ≡ Memory };

    fn from(_: AllocFailed<T>) -> EncodeFault {
        EncodeFault::Memory
    }
}

/// Appends a kind and the bytes that follow it.
fn put_plain(out: &mut Vec<u8>, kind: u8, bytes: &[u8]) -> Result<(), OutOfMemory>
    ensures { OnOk result (out.new.items ≡ out.old.items ++ kind ∷ bytes.now) }
{
    out.push(kind)?;
    out.extend_from_slice(bytes)
}

/// Appends a kind, two bytes of length, and the bytes.
fn put_sized(out: &mut Vec<u8>, kind: u8, bytes: &[u8]) -> Result<(), OutOfMemory>
    requires { length bytes.now < 2 ^ 16 }
    ensures { OnOk result (out.new.items ≡ out.old.items ++ kind ∷ sized_spelling bytes.now) }
{
    out.push(kind)?;
    out.extend_from_slice(&(bytes.len() as u16).to_be_bytes())?;
    out.extend_from_slice(bytes)
}

/// Appends the spelling of a key.
fn put_key(out: &mut Vec<u8>, key: &Key) -> Result<(), OutOfMemory>
    ensures { OnOk result (IsKey key.now × (out.new.items
        ≡ out.old.items ++ key_spelling key.now)) }
{
    match key {
        Key::One(part) => put_plain(out, kinds::KEY_ONE, part.list()),
        Key::Two(first, second) => {
            put_plain(out, kinds::KEY_TWO, first.list())?;
            out.extend_from_slice(second.list())
        }
    }
}

/// The one spelling of the key: a kind byte, and 32 bytes for each part. Fails only when memory runs out.
pub fn encode_key(alloc: Global, key: &Key) -> Result<Vec<u8>, OutOfMemory>
    ensures { IfOk result (λ v. v.items ≡ key_spelling key.now) }
{
    let mut out = Vec::new(alloc);
    put_key(&mut out, key)?;
    Ok(out)
}

/// Appends the spelling of a blob, where it has one.
fn put_blob(out: &mut Vec<u8>, bytes: &[u8]) -> Result<(), EncodeFault>
    ensures ok { OnOk result ((length bytes.now ≤ 4096)
        × (out.new.items ≡ out.old.items ++ 0x0d ∷ sized_spelling bytes.now)) }
    ensures large { result ≡ Err EncodeFault.TooLarge → 4096 < length bytes.now }
{
    if bytes.len() > BLOB_MAX {
        return Err(EncodeFault::TooLarge);
    }
    put_sized(out, kinds::BLOB, bytes)?;
    Ok(())
}

/// Appends the spelling of a term, where its parts are within their own limits.
#[cycle(put)]
fn put(out: &mut Vec<u8>, term: &Term) -> Result<(), EncodeFault>
    ensures ok { OnOk result (Fits term.now ×
        (out.new.items ≡ out.old.items ++ spelling term.now)) }
    ensures large { result ≡ Err EncodeFault.TooLarge → Fits term.now → ⊥ }
{
    match term.form() {
        Form::Name(name) => put_plain(out, kinds::NAME, &name.get().to_be_bytes())?,
        Form::Stamp(Stamp::Time(ms)) => put_plain(out, kinds::TIME, &ms.to_be_bytes())?,
        Form::Stamp(Stamp::Seq(n)) => put_plain(out, kinds::SEQ, &n.to_be_bytes())?,
        Form::Nonce(nonce) => put_plain(out, kinds::NONCE, nonce.list())?,
        Form::Part(part) => put_plain(out, kinds::PART, part.list())?,
        Form::Text(text) => put_sized(out, kinds::TEXT, text.list())?,
        Form::Tag(tag) => put_plain(out, kinds::TAG, tag.list())?,
        Form::Tuple(items) => put_tuple(out, items.list())?,
        Form::Seal(key, body) => put_sealed(out, kinds::SEAL, key, body)?,
        Form::Check(key, body) => put_sealed(out, kinds::CHECK, key, body)?,
        Form::Blob(bytes) => put_blob(out, bytes.list())?,
    }
    Ok(())
}

/// Appends the spelling of a seal or of a check.
#[cycle(put)]
fn put_sealed(out: &mut Vec<u8>, kind: u8, key: &Key, body: &Term) -> Result<(), EncodeFault>
    ensures ok { OnOk result (IsKey key.now × Fits body.now
        × (out.new.items ≡ out.old.items ++ kind ∷ key_spelling key.now ++ spelling body.now)) }
    ensures large { result ≡ Err EncodeFault.TooLarge → Fits body.now → ⊥ }
{
    out.push(kind)?;
    put_key(out, key)?;
    put(out, body)
}

/// Appends the spelling of a tuple.
#[cycle(put)]
#[tactic(auto, using(term_values::proofs::Trees::count_trees))]
fn put_tuple(out: &mut Vec<u8>, items: &[Term]) -> Result<(), EncodeFault>
    ensures ok { OnOk result ((count_of (trees items.now) ≤ 32) × AllFit (trees items.now)
        × (out.new.items ≡ out.old.items ++ 0x08 ∷ count_of (trees items.now) ∷ spellings
        (trees items.now))) }
    ensures large { result ≡ Err EncodeFault.TooLarge → count_of (trees items.now) ≤ 32 →
        AllFit (trees items.now) → ⊥ }
{
    if items.len() > ITEMS_MAX {
        return Err(EncodeFault::TooLarge);
    }
    put_plain(out, kinds::TUPLE, &[items.len() as u8])?;
    put_items(out, items)
}

/// Appends the spellings of items, one after the other.
#[cycle(put)]
#[tactic(auto, using(term_values::proofs::Trees::item_smaller))]
fn put_items(out: &mut Vec<u8>, items: &[Term]) -> Result<(), EncodeFault>
    ensures ok { OnOk result (AllFit (trees items.now)
        × (out.new.items ≡ out.old.items ++ spellings (trees items.now))) }
    ensures large { result ≡ Err EncodeFault.TooLarge → AllFit (trees items.now) → ⊥ }
{
    for item in items {
        put(out, item)?;
    }
    Ok(())
}

/// The one spelling of the term, of at most 8,192 bytes. `TooLarge` exactly where the term has none: more than
/// 8 levels, more than 32 items in a tuple, more than 4,096 bytes in a blob, or more than 8,192 bytes in all.
pub fn encode(alloc: Global, term: &Term) -> Result<Vec<u8>, EncodeFault>
    ensures ok { IfOk result (λ v. IsSpelling term.now v.items) }
    ensures large { result ≡ Err EncodeFault.TooLarge → IsInLimits term.now → ⊥ }
{
    if term.depth() > LEVELS_MAX {
        return Err(EncodeFault::TooLarge);
    }
    if !term.within(SPELLING_MAX as u32) {
        return Err(EncodeFault::TooLarge);
    }
    let mut out = Vec::new(alloc);
    put(&mut out, term)?;
    Ok(out)
}
