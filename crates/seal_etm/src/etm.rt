ghost use Rattle.std.specs.Option.{option_copied};
ghost use Rattle.std.specs.Prelude.{◌≡◌, ◌≤◌, true, length, Some, is_some, IfOk, IfSome, OnOk};
ghost use Rattle.term_values.specs.SameBytes.{same_bytes};
ghost use Rattle.term_values.specs.Trees.{blob};
ghost use Rattle.tagged_codec.specs.Grammar.{spelling};
ghost use Rattle.seal_trait.specs.Items.{IsItemOf, IsShort};
ghost use Rattle.seal_etm.specs.Layout as spec;

use crate::hmac::hmac;
use crate::keys::{CHECK, CIPHER, SEAL, derived};
use seal_trait::Sealer;
use std::alloc::Global;
use tagged_codec::{DecodeFault, EncodeFault, decode_whole, encode};
use term_values::{Bytes, Form, Key, Nonce, OutOfMemory, Term};

/// The bytes of an iv.
const IV: usize = 16;
/// The bytes of a check value.
const VALUE: usize = 32;
/// The most bytes of a spelling.
const SPELLING_MAX: usize = 8192;

/// The sealer whose items are blobs: a body's spelling is encrypted, and a check value stands behind it.
/// It wants a nonce, the iv, for each seal.
#[derive(Clone, Copy, Debug, PartialEq, Eq, Drop)]
pub struct Etm;

impl Etm {
    /// The sealer. Takes no memory.
    pub fn new() -> Etm {
        Etm
    }
}

/// Block `i` of the stream that the iv and the derived key give.
#[tactic(auto, unfolding(crate::specs::Layout::stream_block))]
fn stream_block(alloc: Global, key: &[u8; 32], iv: &[u8], i: u32) -> Result<[u8; 32], OutOfMemory>
    ensures { IfOk result (λ b. b ≡ spec.stream_block key.now iv.now i) }
{
    let mut input = Vec::from_slice(alloc, iv)?;
    input.extend_from_slice(&i.to_be_bytes())?;
    Ok(hmac(key, input.as_slice()))
}

/// The bytes combined with the stream by exclusive or.
fn combined(alloc: Global, key: &[u8; 32], iv: &[u8], bytes: &[u8]) -> Result<Vec<u8>, OutOfMemory>
    requires { length bytes.now ≤ 8192 }
    ensures { IfOk result (λ v. v.items ≡ spec.combined_from key.now iv.now 0 bytes.now) }
{
    let mut out = Vec::new(alloc);
    let mut block = [0; 32];
    for k in 0..bytes.len() {
        if k % 32 == 0 {
            block = stream_block(alloc, key, iv, (k / 32) as u32)?;
        }
        out.push(bytes[k] ^ block[k % 32])?;
    }
    Ok(out)
}

/// The spelling of a body that has one.
fn spelled(alloc: Global, body: &Term) -> Result<Vec<u8>, OutOfMemory>
    requires { IsShort body.now }
    ensures { IfOk result (λ v. v.items ≡ spelling body.now) }
{
    match encode(alloc, body) {
        Ok(bytes) => Ok(bytes),
        Err(EncodeFault::Memory) => Err(OutOfMemory),
        Err(EncodeFault::TooLarge) => unreachable!(),
    }
}

/// The term that the bytes spell whole.
fn read_whole(alloc: Global, bytes: &[u8]) -> Result<Option<Term>, OutOfMemory>
    ensures { IfOk result (λ t. t ≡ spec.spelled bytes.now) }
{
    match decode_whole(alloc, bytes) {
        Ok(term) => Ok(Some(term)),
        Err(DecodeFault::Memory) => Err(OutOfMemory),
        Err(DecodeFault::Malformed { .. }) => Ok(None),
    }
}

/// Whether both are the same bytes.
fn same_bytes(a: &[u8], b: &[u8]) -> bool
    ensures { result ≡ same_bytes a.now b.now }
{
    a == b
}

/// The bytes of the check of a body.
fn check_bytes(alloc: Global, key: &Key, body: &Term) -> Result<[u8; 32], OutOfMemory>
    requires { IsShort body.now }
    ensures { IfOk result (λ b. b ≡ spec.check_bytes key.now body.now) }
{
    let checking = derived(alloc, CHECK, key)?;
    let bytes = spelled(alloc, body)?;
    Ok(hmac(&checking, bytes.as_slice()))
}

/// Whether the last 32 bytes are the check value of those before them.
fn has_check_value(alloc: Global, key: &Key, bytes: &[u8]) -> Result<bool, OutOfMemory>
    requires { 32 ≤ length bytes.now }
    ensures { IfOk result (λ answer. answer ≡ spec.has_check_value key.now bytes.now) }
{
    let sealing = derived(alloc, SEAL, key)?;
    let (front, value) = bytes.split_at(bytes.len() - VALUE);
    Ok(same_bytes(value, &hmac(&sealing, front)))
}

/// The body that the ciphertext spells.
fn decipher(alloc: Global, key: &Key, bytes: &[u8]) -> Result<Option<Term>, OutOfMemory>
    requires { 48 ≤ length bytes.now }
    ensures { IfOk result (λ body. body ≡ spec.deciphered key.now bytes.now) }
{
    let cipher = derived(alloc, CIPHER, key)?;
    let hidden = &bytes[IV..bytes.len() - VALUE];
    if hidden.len() > SPELLING_MAX {
        return Ok(None);
    }
    let plain = combined(alloc, &cipher, &bytes[..IV], hidden)?;
    read_whole(alloc, plain.as_slice())
}

/// The bytes of a seal: the iv, the ciphertext and the check value.
fn seal_bytes(alloc: Global, key: &Key, body: &Term, iv: &Nonce) -> Result<Vec<u8>, OutOfMemory>
    requires { IsShort body.now }
    ensures bytes { IfOk result (λ v. v.items ≡ spec.seal_bytes key.now body.now iv.now) }
    ensures iv { OnOk result (length iv.now ≡ 16) }
{
    let cipher = derived(alloc, CIPHER, key)?;
    let sealing = derived(alloc, SEAL, key)?;
    let plain = spelled(alloc, body)?;
    let hidden = combined(alloc, &cipher, iv.list(), plain.as_slice())?;
    let mut out = Vec::from_slice(alloc, iv.list())?;
    out.extend_from_slice(hidden.as_slice())?;
    let value = hmac(&sealing, out.as_slice());
    out.extend_from_slice(&value)?;
    Ok(out)
}

impl Sealer for Etm {
    ghost use Rattle.std.specs.Prelude.{true};
    ghost use Rattle.seal_etm.specs.Layout.{checked, iv_of, opened};

    ghost opens = { opened };

    ghost checks = { checked };

    ghost iv_of = { iv_of };

    ghost wants_iv = { λ s. true };

    fn wants_iv(&self) -> bool {
        true
    }

    /// The seal of a body: the blob of the iv, the ciphertext and the check value.
    ///
    /// # Errors
    ///
    /// Want of memory alone.
    fn seal(
        &self,
        alloc: Global,
        key: &Key,
        body: &Term,
        iv: Option<&Nonce>,
    ) -> Result<Term, OutOfMemory>
        requires short { IsShort body.now }
        requires given { is_some iv ≡ true }
        ensures bytes { IfOk result (λ item. IfSome (option_copied iv.entry) (λ n.
            item ≡ blob (spec.seal_bytes key.now body.now n))) }
        ensures opens { IfOk result (λ item. spec.opened key.now item ≡ Some body.now) }
        ensures iv { IfOk result (λ item. spec.iv_of item ≡ option_copied iv.entry) }
        ensures limits { IfOk result (λ item. IsItemOf body.now item) }
    {
        let Some(iv) = iv else { unreachable!() };
        let bytes = seal_bytes(alloc, key, body, iv)?;
        Ok(Term::of(Form::Blob(Bytes::new(bytes))))
    }

    fn open(&self, alloc: Global, key: &Key, item: &Term) -> Result<Option<Term>, OutOfMemory> {
        let Form::Blob(blob) = item.form() else {
            return Ok(None);
        };
        let bytes = blob.list();
        if bytes.len() < IV + VALUE || !has_check_value(alloc, key, bytes)? {
            return Ok(None);
        }
        decipher(alloc, key, bytes)
    }

    /// The check of a body: the blob of its check bytes.
    ///
    /// # Errors
    ///
    /// Want of memory alone.
    fn check(&self, alloc: Global, key: &Key, body: &Term) -> Result<Term, OutOfMemory>
        requires short { IsShort body.now }
        ensures bytes { IfOk result (λ item. item ≡ blob (spec.check_bytes key.now body.now)) }
        ensures checks { IfOk result (λ item. spec.checked key.now body.now item ≡ true) }
        ensures limits { IfOk result (λ item. IsItemOf body.now item) }
    {
        let bytes = check_bytes(alloc, key, body)?;
        Ok(Term::of(Form::Blob(Bytes::new(Vec::from_slice(alloc, &bytes)?))))
    }

    fn test(
        &self,
        alloc: Global,
        key: &Key,
        body: &Term,
        item: &Term,
    ) -> Result<bool, OutOfMemory> {
        let Form::Blob(blob) = item.form() else {
            return Ok(false);
        };
        Ok(same_bytes(blob.list(), &check_bytes(alloc, key, body)?))
    }
}
