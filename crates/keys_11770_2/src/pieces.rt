ghost use Rattle.std.specs.Prelude.{◌≡◌, ◌∷◌, [], IfOk, IfErr};
ghost use Rattle.mech_rows.specs.declared.refusal.Refusal.TheVariants.{Memory};
ghost use Rattle.text_hooks.specs.Parts.{body_of, IsFlat};
ghost use Rattle.text_hooks.specs.declared.making.SlotValue.TheVariants as value;

use mech_rows::Refusal;
use std::alloc::Global;
use term_values::{Nonce, Part, Stamp, Tag, Term, Text};
use text_hooks::{Pair, SlotValue, body_of};

/// The body of A's and B's names, two nonces, a part and a text.
///
/// # Errors
///
/// Want of memory alone.
pub fn two_nonces_and_part(
    alloc: Global,
    head: Tag,
    names: &Pair,
    nonces: (Nonce, Nonce),
    part: Part,
    last: &Text,
) -> Result<Term, Refusal>
    ensures term { IfOk result (λ t. t ≡ body_of head (names.now.a ∷ names.now.b ∷ [])
        (value.Nonce nonces.0 ∷ value.Nonce nonces.1 ∷ value.Part part ∷ []) last.now) }
    ensures flat { IfOk result IsFlat }
    ensures memory { IfErr result (λ e. e ≡ Memory) }
{
    let values = [
        SlotValue::Nonce(nonces.0),
        SlotValue::Nonce(nonces.1),
        SlotValue::Part(part),
    ];
    body_of(alloc, head, &[names.a, names.b], &values, last)
}

/// The body of A's and B's names, two stamps, a part and a text.
///
/// # Errors
///
/// Want of memory alone.
pub fn two_stamps_and_part(
    alloc: Global,
    head: Tag,
    names: &Pair,
    stamps: (Stamp, Stamp),
    part: Part,
    last: &Text,
) -> Result<Term, Refusal>
    ensures term { IfOk result (λ t. t ≡ body_of head (names.now.a ∷ names.now.b ∷ [])
        (value.Stamp stamps.0 ∷ value.Stamp stamps.1 ∷ value.Part part ∷ []) last.now) }
    ensures flat { IfOk result IsFlat }
    ensures memory { IfErr result (λ e. e ≡ Memory) }
{
    let values = [
        SlotValue::Stamp(stamps.0),
        SlotValue::Stamp(stamps.1),
        SlotValue::Part(part),
    ];
    body_of(alloc, head, &[names.a, names.b], &values, last)
}
