ghost use Rattle.std.specs.Prelude.{◌≡◌, IfOk};
ghost use Rattle.seal_etm.specs.Layout as spec;

use sha2::{Digest, Sha256};
use std::alloc::Global;
use tagged_codec::encode_key;
use term_values::{Key, OutOfMemory};

/// Labels the key that encrypts.
pub(crate) const CIPHER: u8 = 1;
/// Labels the key of a seal's check value.
pub(crate) const SEAL: u8 = 2;
/// Labels the key of checks.
pub(crate) const CHECK: u8 = 3;
/// Labels the print of a key.
const PRINT: u8 = 4;

/// The digest of the label and the key's spelling.
pub(crate) fn derived(alloc: Global, label: u8, key: &Key) -> Result<[u8; 32], OutOfMemory>
    ensures { IfOk result (λ d. d ≡ spec.derived label key.now) }
{
    let spelling = encode_key(alloc, key)?;
    let mut hasher = Sha256::new();
    hasher.update(&[label]);
    hasher.update(spelling.as_slice());
    Ok(hasher.finalize())
}

/// The first eight bytes of a digest of the key's spelling: they tell a key from others, and don't show it.
///
/// # Errors
///
/// [`OutOfMemory`] for want of memory alone.
pub fn key_print(alloc: Global, key: &Key) -> Result<[u8; 8], OutOfMemory>
    ensures { IfOk result (λ p. p ≡ spec.print_of key.now) }
{
    let digest = derived(alloc, PRINT, key)?;
    let mut print = [0; 8];
    print.copy_from_slice(&digest[..8]);
    Ok(print)
}
