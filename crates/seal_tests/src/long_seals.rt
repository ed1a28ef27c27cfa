//! A seal and a check of several blocks, under a key of two parts.

ghost use Rattle.std.specs.Prelude.{IfOk};
ghost use Rattle.seal_trait.specs.Items.{IsShort};

use seal_etm::Etm;
use seal_trait::Sealer;
use std::alloc::Global;
use std::test::Fail;
use term_values::{Bytes, Form, Key, Nonce, OutOfMemory, Part, Term};

/// The seal of the blob of 97 bytes 61 under the key of the parts of bytes aa and bb, with the iv
/// d1 and 15 zeros, made by another implementation of HMAC and SHA-256.
const SEAL: &str =
    "d10000000000000000000000000000000fa04e840f23f9fa02f4853078c9501a078d0f451ff9455d6241543f\
2c29ef7946c8805d9e63a82037cd0fc9c7cdcf4c35cffd26fd34d5713827162d87467e6d893620ac1ff005ea\
b166b4d1e0d7f743a377f66c98a4bef74338d07c643eba8057abe4986767cabeb6b92a960aeda245aac57933\
657305931e731d9bd72a9966e32ebe56";

/// The check of the same body under the same key.
const CHECK: &str = "16521f8f2e46f840b08ac76ca7c135ddeab2c6f7e51067835fb393e73547c805";

fn key() -> Key {
    Key::Two(Part([0xaa; 32]), Part([0xbb; 32]))
}

fn turned_key() -> Key {
    Key::Two(Part([0xbb; 32]), Part([0xaa; 32]))
}

fn body(alloc: Global) -> Result<Term, OutOfMemory>
    ensures { IfOk result IsShort }
{
    let bytes = Vec::from_slice(alloc, &[0x61; 97])?;
    Ok(Term::of(Form::Blob(Bytes::new(bytes))))
}

fn iv() -> Nonce {
    let mut bytes = [0; 16];
    bytes[0] = 0xd1;
    Nonce(bytes)
}

fn blob(alloc: Global, bytes: &[u8]) -> Result<Term, Fail> {
    let bytes = Vec::from_slice(alloc, bytes)?;
    Ok(Term::of(Form::Blob(Bytes::new(bytes))))
}

#[test]
fn a_long_seal_has_its_layout(rt: HostRuntime) -> Result<(), Fail> {
    let alloc = rt.alloc();
    let sealer = Etm::new();
    let body = body(alloc)?;
    let mut bytes = [0; 148];
    hex::decode_to_slice(SEAL, &mut bytes)?;
    let item = sealer.seal(alloc, &key(), &body, Some(&iv()))?;
    assert!(rt; item.same(&blob(alloc, &bytes)?));
    let opened = sealer.open(alloc, &key(), &item)?;
    assert!(rt; opened.is_some_and(|term| term.same(&body)));
    assert!(rt; sealer.open(alloc, &turned_key(), &item)?.is_none());
    Ok(())
}

#[test]
fn a_long_check_has_its_layout(rt: HostRuntime) -> Result<(), Fail> {
    let alloc = rt.alloc();
    let sealer = Etm::new();
    let body = body(alloc)?;
    let mut bytes = [0; 32];
    hex::decode_to_slice(CHECK, &mut bytes)?;
    let item = sealer.check(alloc, &key(), &body)?;
    assert!(rt; item.same(&blob(alloc, &bytes)?));
    assert!(rt; sealer.test(alloc, &key(), &body, &item)?);
    assert!(rt; !sealer.test(alloc, &turned_key(), &body, &item)?);
    Ok(())
}
