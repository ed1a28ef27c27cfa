ghost use Rattle.std.specs.Prelude.{◌≡◌, ◌≤◌, ◌-◌, ◌++◌, Ok, length, replicate};
ghost use Rattle.sha2.specs.Sha256.{sha256};
ghost use Rattle.seal_etm.specs.Hmac as spec;

use sha2::{Digest, Sha256};
use term_values::OutOfMemory;

/// The bytes of a block of SHA-256.
const BLOCK: usize = 64;

/// The piece with zeros behind it, a block of 64 bytes.
fn filled(piece: &[u8]) -> [u8; 64]
    requires { length piece.now ≤ 64 }
    ensures { result ≡ piece.now ++ replicate (64 - length piece.now) 0 }
{
    let mut block = [0; BLOCK];
    block[..piece.len()].copy_from_slice(piece);
    block
}

/// The key as a block of 64 bytes: zeros stand behind it, and a longer key stands for its digest.
fn key_block(key: &[u8]) -> [u8; 64]
    ensures { result ≡ spec.key_block key.now }
{
    if key.len() > BLOCK {
        filled(&Sha256::digest(key))
    } else {
        filled(key)
    }
}

/// Each byte of the block combined with the same byte by exclusive or.
fn padded(pad: u8, block: &[u8; 64]) -> [u8; 64]
    ensures { result ≡ spec.padded pad block.now }
{
    let mut out = *block;
    for byte in &mut out {
        *byte ^= pad;
    }
    out
}

/// The digest of two pieces, one behind the other.
fn digest_of_two(first: &[u8], second: &[u8]) -> [u8; 32]
    ensures { result ≡ sha256 (first.now ++ second.now) }
{
    let mut hasher = Sha256::new();
    hasher.update(first);
    hasher.update(second);
    hasher.finalize()
}

/// The HMAC of the input under the key.
#[tactic(auto, unfolding(crate::specs::Hmac::hmac))]
pub(crate) fn hmac(key: &[u8], input: &[u8]) -> [u8; 32]
    ensures { result ≡ spec.hmac key.now input.now }
{
    let block = key_block(key);
    let inner = digest_of_two(&padded(0x36, &block), input);
    digest_of_two(&padded(0x5c, &block), &inner)
}

/// HMAC-SHA-256 of the input under the key, as RFC 2104 and FIPS 198-1 define it. The key may have any length.
///
/// # Errors
///
/// None comes: the digest takes no memory.
pub fn hmac_sha256(key: &[u8], input: &[u8]) -> Result<[u8; 32], OutOfMemory>
    ensures { result ≡ Ok (spec.hmac key.now input.now) }
{
    Ok(hmac(key, input))
}
