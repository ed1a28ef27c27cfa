ghost use Rattle.std.specs.Prelude.{◌≡◌};
ghost use Rattle.term_values.specs.Trees.{trees};
ghost use Rattle.attacker_model.specs.Digests as spec;

use sha2::{Digest, Sha256};
use term_values::{Form, Key, Part, Stamp, Term};

/// A digest with a kind and bytes: the first half of the SHA-256 digest of all three.
#[tactic(auto, unfolding(crate::specs::Digests::absorb))]
fn absorb(digest: u128, kind: u8, bytes: &[u8]) -> u128
    ensures absorbed { result ≡ spec.absorb digest kind bytes.now }
{
    let mut hasher = Sha256::new();
    hasher.update(&digest.to_be_bytes());
    hasher.update(&[kind]);
    hasher.update(bytes);
    let mut first = [0; 16];
    first.copy_from_slice(&hasher.finalize()[..16]);
    u128::from_be_bytes(first)
}

fn digest_stamp(start: u128, stamp: Stamp) -> u128
    ensures digest { result ≡ spec.digest_stamp start stamp }
{
    match stamp {
        Stamp::Time(time) => absorb(start, 10, &time.to_be_bytes()),
        Stamp::Seq(number) => absorb(start, 11, &number.to_be_bytes()),
    }
}

fn digest_key(start: u128, kind: u8, key: &Key) -> u128
    ensures digest { result ≡ spec.digest_key start kind key.now }
{
    match key {
        Key::One(part) => absorb(start, kind, part.list()),
        Key::Two(first, second) => absorb(absorb(start, kind, first.list()), 13, second.list()),
    }
}

#[cycle(digest)]
fn digest_term(start: u128, term: &Term) -> u128
    ensures digest { result ≡ spec.digest_term start term.now }
{
    match term.form() {
        Form::Name(name) => absorb(start, 1, &name.get().to_be_bytes()),
        Form::Stamp(stamp) => digest_stamp(start, *stamp),
        Form::Nonce(nonce) => absorb(start, 2, nonce.list()),
        Form::Part(part) => absorb(start, 3, part.list()),
        Form::Text(text) => absorb(start, 4, text.list()),
        Form::Tag(tag) => absorb(start, 5, tag.list()),
        Form::Blob(blob) => absorb(start, 6, blob.list()),
        Form::Tuple(items) => digest_items(absorb(start, 7, &[]), items.list()),
        Form::Seal(key, body) => digest_term(digest_key(start, 8, key), body),
        Form::Check(key, body) => digest_term(digest_key(start, 9, key), body),
    }
}

#[cycle(digest)]
#[tactic(auto, using(term_values::proofs::Trees::item_smaller))]
fn digest_items(start: u128, items: &[Term]) -> u128
    ensures digest { result ≡ spec.digest_items start (trees items.now) }
{
    let mut digest = start;
    for item in items {
        digest = digest_term(digest, item);
    }
    absorb(digest, 12, &[])
}

/// The number by which a known term is looked up.
pub(crate) fn place_of(term: &Term) -> u128
    ensures digest { result ≡ spec.digest_term 1 term.now }
{
    digest_term(1, term)
}

/// The number by which a part of a key is looked up.
pub(crate) fn lock_of(part: &Part) -> u128
    ensures digest { result ≡ spec.digest_bytes 1 part.now }
{
    absorb(1, 3, part.list())
}
