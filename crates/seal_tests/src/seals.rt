//! Seals and checks by their layout.

ghost use Rattle.seal_trait.specs.Items.{IsShort};

use seal_etm::Etm;
use seal_trait::Sealer;
use std::alloc::Global;
use std::test::Fail;
use term_values::{Bytes, Form, Key, Nonce, Part, Term};

/// The seal of the part of 32 bytes 11 under the key of 32 bytes aa with the iv d0 and 15 zeros, made by another
/// implementation of HMAC and SHA-256.
const SEAL: &str = "d00000000000000000000000000000008740f1f83238917d72fbb2d3b14327686082\
2118bdf201c1b690b1047fa9b71b052330898b13a4a41b06c30c119e76b1a97f1bee2e848520d2c6effc0b39b90c44";

/// The check of the same body under the same key.
const CHECK: &str = "ea7b3a233345df8c4895f77d2e4bb14c451c38ba3a0e4e5f246d215bfd636490";

fn key() -> Key {
    Key::One(Part([0xaa; 32]))
}

fn body() -> Term
    ensures { IsShort result }
{
    Term::of(Form::Part(Part([0x11; 32])))
}

fn iv() -> Nonce {
    let mut bytes = [0; 16];
    bytes[0] = 0xd0;
    Nonce(bytes)
}

fn blob(alloc: Global, bytes: &[u8]) -> Result<Term, Fail> {
    let bytes = Vec::from_slice(alloc, bytes)?;
    Ok(Term::of(Form::Blob(Bytes::new(bytes))))
}

/// The bytes of the seal above.
fn sealed_bytes() -> Result<[u8; 81], Fail> {
    let mut bytes = [0; 81];
    hex::decode_to_slice(SEAL, &mut bytes)?;
    Ok(bytes)
}

#[test]
fn a_seal_has_its_layout(rt: HostRuntime) -> Result<(), Fail> {
    let alloc = rt.alloc();
    let sealer = Etm::new();
    assert!(rt; sealer.wants_iv());
    let item = sealer.seal(alloc, &key(), &body(), Some(&iv()))?;
    assert!(rt; item.same(&blob(alloc, &sealed_bytes()?)?));
    let opened = sealer.open(alloc, &key(), &item)?;
    assert!(rt; opened.is_some_and(|term| term.same(&body())));
    Ok(())
}

#[test]
fn no_turned_bit_opens(rt: HostRuntime) -> Result<(), Fail> {
    let alloc = rt.alloc();
    let sealer = Etm::new();
    for place in 0..81usize {
        for bit in 0..8u32 {
            let mut bytes = sealed_bytes()?;
            bytes[place] ^= 1u8 << bit;
            let item = blob(alloc, &bytes)?;
            assert!(rt; sealer.open(alloc, &key(), &item)?.is_none());
        }
    }
    Ok(())
}

#[test]
fn no_part_of_a_seal_opens(rt: HostRuntime) -> Result<(), Fail> {
    let alloc = rt.alloc();
    let sealer = Etm::new();
    let bytes = sealed_bytes()?;
    for length in 0..81usize {
        let item = blob(alloc, &bytes[..length])?;
        assert!(rt; sealer.open(alloc, &key(), &item)?.is_none());
    }
    assert!(rt; sealer.open(alloc, &key(), &body())?.is_none());
    Ok(())
}

#[test]
fn a_check_has_its_layout(rt: HostRuntime) -> Result<(), Fail> {
    let alloc = rt.alloc();
    let sealer = Etm::new();
    let mut bytes = [0; 32];
    hex::decode_to_slice(CHECK, &mut bytes)?;
    let item = sealer.check(alloc, &key(), &body())?;
    assert!(rt; item.same(&blob(alloc, &bytes)?));
    assert!(rt; sealer.test(alloc, &key(), &body(), &item)?);
    for place in 0..32usize {
        let mut turned = bytes;
        turned[place] ^= 1;
        assert!(rt; !sealer.test(alloc, &key(), &body(), &blob(alloc, &turned)?)?);
    }
    assert!(rt; !sealer.test(alloc, &key(), &body(), &body())?);
    Ok(())
}
