ghost use Rattle.std.specs.Prelude.{◌≡◌, ◌∷◌, [], IfOk, IfErr};
ghost use Rattle.mech_rows.specs.declared.refusal.Refusal.TheVariants.{Memory};
ghost use Rattle.text_hooks.specs.Parts.{body_of, IsFlat};
ghost use Rattle.text_hooks.specs.declared.making.SlotValue.TheVariants.{Nonce as NonceValue};

use crate::making::{SlotValue, body_of};
use mech_rows::Refusal;
use std::alloc::Global;
use term_values::{Name, Nonce, Tag, Term, Text};

/// The body of two names, a value and a text.
///
/// # Errors
///
/// Want of memory alone.
pub fn one_value(
    alloc: Global,
    head: Tag,
    a: Name,
    b: Name,
    value: SlotValue,
    last: &Text,
) -> Result<Term, Refusal>
    ensures term { IfOk result (λ t. t ≡ body_of head (a ∷ b ∷ []) (value ∷ []) last.now) }
    ensures flat { IfOk result IsFlat }
    ensures memory { IfErr result (λ e. e ≡ Memory) }
{
    body_of(alloc, head, &[a, b], &[value], last)
}

/// The body of two names, two nonces and a text.
///
/// # Errors
///
/// Want of memory alone.
pub fn two_nonces(
    alloc: Global,
    head: Tag,
    a: Name,
    b: Name,
    one: &Nonce,
    two: &Nonce,
    last: &Text,
) -> Result<Term, Refusal>
    ensures term { IfOk result (λ t. t ≡
        body_of head (a ∷ b ∷ []) (NonceValue one.now ∷ NonceValue two.now ∷ []) last.now) }
    ensures flat { IfOk result IsFlat }
    ensures memory { IfErr result (λ e. e ≡ Memory) }
{
    let values = [SlotValue::Nonce(*one), SlotValue::Nonce(*two)];
    body_of(alloc, head, &[a, b], &values, last)
}

/// The body of two names, two values and a text.
///
/// # Errors
///
/// Want of memory alone.
pub fn two_values(
    alloc: Global,
    head: Tag,
    a: Name,
    b: Name,
    one: SlotValue,
    two: SlotValue,
    last: &Text,
) -> Result<Term, Refusal>
    ensures term { IfOk result (λ t. t ≡ body_of head (a ∷ b ∷ []) (one ∷ two ∷ []) last.now) }
    ensures flat { IfOk result IsFlat }
    ensures memory { IfErr result (λ e. e ≡ Memory) }
{
    body_of(alloc, head, &[a, b], &[one, two], last)
}
