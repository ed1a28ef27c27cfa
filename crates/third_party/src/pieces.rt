ghost use Rattle.std.specs.Prelude.{◌≡◌, true, is_some, Ok, Err, IfOk, IfErr, ◌⊎◌};
ghost use Rattle.mech_rows.specs.Rings.{keys_in};
ghost use Rattle.mech_rows.specs.declared.refusal.Refusal.TheVariants.{Memory};
ghost use Rattle.text_hooks.specs.Parts.{IsFlat};
ghost use Rattle.third_party.specs.Words.{share_for};

use crate::words::part_body;
use mech_rows::{Refusal, Ring};
use std::alloc::Global;
use term_values::{Part, Tag, Text};
use text_hooks::{SlotValue, Three, Unsealed, key_between};

/// What the third party seals for one of the two, beside the names and the part.
#[derive(Drop)]
pub struct Share<'a> {
    /// The tag of the body.
    pub tag: Tag,
    /// The value that shows that it is fresh.
    pub fresh: SlotValue,
    /// The text.
    pub text: &'a Text,
}

/// The first, and the second.
///
/// # Errors
///
/// The refusal of one of them.
fn both<T: Drop, U: Drop>(
    one: Result<T, Refusal>,
    two: Result<U, Refusal>,
) -> Result<(T, U), Refusal>
    ensures both { IfOk result (λ p. (one ≡ Ok p.0) × (two ≡ Ok p.1)) }
    ensures refused { IfErr result (λ e. (one ≡ Err e) ⊎ (two ≡ Err e)) }
{
    let one = one?;
    let two = two?;
    Ok((one, two))
}

/// What is to be sealed for A and for B: the part, each with its own value and text, under the key
/// that each shares with the third party.
///
/// # Errors
///
/// Want of memory alone.
pub fn two_shares(
    alloc: Global,
    ring: &Ring,
    names: &Three,
    part: Part,
    for_a: &Share,
    for_b: &Share,
) -> Result<(Unsealed, Unsealed), Refusal>
    requires key_a { is_some (keys_in ring.now names.now.a names.now.p) ≡ true }
    requires key_b { is_some (keys_in ring.now names.now.b names.now.p) ≡ true }
    ensures for_a { IfOk result (λ u. u.0 ≡ share_for ring.now names.now.a names.now part
        for_a.now.tag for_a.now.fresh for_a.now.text.now) }
    ensures for_b { IfOk result (λ u. u.1 ≡ share_for ring.now names.now.b names.now part
        for_b.now.tag for_b.now.fresh for_b.now.text.now) }
    ensures flat { IfOk result (λ u. IsFlat u.0.body × IsFlat u.1.body) }
    ensures memory { IfErr result (λ e. e ≡ Memory) }
{
    let one = part_body(alloc, for_a.tag, names, for_a.fresh, part, for_a.text);
    let two = part_body(alloc, for_b.tag, names, for_b.fresh, part, for_b.text);
    let (one, two) = both(one, two)?;
    let (a, b, p) = (names.a, names.b, names.p);
    let one = Unsealed {
        key: key_between(ring, a, p),
        body: one,
    };
    let two = Unsealed {
        key: key_between(ring, b, p),
        body: two,
    };
    Ok((one, two))
}
