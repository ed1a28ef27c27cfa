ghost use Rattle.std.specs.Prelude.{◌≡◌, ◌≢◌, ◌∷◌, [], true, false, Some, None, IfOk, IfErr};
ghost use Rattle.std.specs.Prelude.{is_some};
ghost use Rattle.term_values.specs.declared.small.Key.TheVariants.{One};
ghost use Rattle.std.specs.Option.{option_copied};
ghost use Rattle.text_hooks.specs.Parts.{IsFlat};
ghost use Rattle.text_hooks.specs.Made.{IsOpened, IsTested};
ghost use Rattle.mech_rows.specs.Rings.{keys_in};
ghost use Rattle.mech_rows.specs.Runs.{bytes_or_empty};
ghost use Rattle.mech_rows.specs.declared.refusal.Refusal.TheVariants.{Memory, Unopened};

use mech_rows::{Got, Opening, Refusal, Ring};
use seal_trait::Sealer;
use std::alloc::Global;
use term_values::{Key, Name, Part, Term};

/// The part that the ring's own node shares with the other of the two names.
fn part_between(ring: &Ring, x: Name, y: Name) -> Option<&Part>
    ensures part { option_copied result ≡ keys_in ring.now x y }
{
    if x == ring.me {
        return ring.part_of(y);
    }
    if y == ring.me {
        return ring.part_of(x);
    }
    None
}

/// The long-term key of the two names, of which the ring has the part. Takes no memory.
pub fn key_between(ring: &Ring, x: Name, y: Name) -> Key
    requires known { is_some (keys_in ring.now x y) ≡ true }
    ensures key { result ≡ One (bytes_or_empty (keys_in ring.now x y)) }
{
    match part_between(ring, x, y) {
        Some(part) => Key::One(*part),
        None => unreachable!(),
    }
}

/// A protected item with its key and its body.
fn opening(alloc: Global, key: Key, item: &Term, body: Term) -> Result<Opening, Refusal>
    ensures ok { IfOk result (λ o. o ≡ record { key = key; item = item.now; body = body }) }
    ensures memory { IfErr result (λ e. e ≡ Memory) }
{
    let item = item.copy(alloc)?;
    Ok(Opening { key, item, body })
}

/// Opens an item of a message; `part` is its place among the protected items, from 1.
///
/// # Errors
///
/// `Unopened` of that part exactly where the item doesn't open under the key; want of memory.
pub fn open_item<S: Sealer>(
    alloc: Global,
    sealer: &S,
    key: Key,
    item: &Term,
    part: u8,
) -> Result<Opening, Refusal>
    ensures opened { IfOk result (IsOpened S.opens key item.now) }
    ensures unopened { IfErr result (λ e. e ≢ Memory →
        (S.opens key item.now ≡ None) × (e ≡ Unopened part)) }
{
    match sealer.open(alloc, &key, item)? {
        Some(body) => opening(alloc, key, item, body),
        None => Err(Refusal::Unopened { part }),
    }
}

/// Tests whether an item of a message checks the body, which has a spelling of at most 2,048 bytes;
/// `part` is its place among the protected items, from 1.
///
/// # Errors
///
/// `Unopened` of that part exactly where the item doesn't check the body under the key; want of
/// memory.
pub fn test_item<S: Sealer>(
    alloc: Global,
    sealer: &S,
    key: Key,
    body: Term,
    item: &Term,
    part: u8,
) -> Result<Opening, Refusal>
    requires flat { IsFlat body }
    ensures tested { IfOk result (IsTested S.checks key body item.now) }
    ensures unopened { IfErr result (λ e. e ≢ Memory →
        (S.checks key body item.now ≡ false) × (e ≡ Unopened part)) }
{
    if !sealer.test(alloc, &key, &body, item)? {
        return Err(Refusal::Unopened { part });
    }
    opening(alloc, key, item, body)
}

/// A list of one.
///
/// # Errors
///
/// Want of memory alone.
pub fn one_opening(alloc: Global, opening: Opening) -> Result<Vec<Opening>, Refusal>
    ensures ok { IfOk result (λ list. list.items ≡ opening ∷ []) }
    ensures memory { IfErr result (λ e. e ≡ Memory) }
{
    Ok(vec![in alloc; opening]?)
}

/// A list of one.
///
/// # Errors
///
/// Want of memory alone.
pub fn one_stamp(alloc: Global, got: Got) -> Result<Vec<Got>, Refusal>
    ensures ok { IfOk result (λ list. list.items ≡ got ∷ []) }
    ensures memory { IfErr result (λ e. e ≡ Memory) }
{
    Ok(vec![in alloc; got]?)
}
