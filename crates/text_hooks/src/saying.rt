ghost use Rattle.std.specs.Prelude.{◌≡◌, ◌≢◌, ◌≤◌, ◌∷◌, ◌++◌, [], true, Some, IfOk, IfErr, IfSome};
ghost use Rattle.std.specs.Prelude.{if◌then◌else◌, length};
ghost use Rattle.term_values.specs.Trees.{tuple, trees, tag, nonce, text};
ghost use Rattle.tagged_codec.specs.Grammar.{IsInLimits};
ghost use Rattle.mech_rows.specs.declared.refusal.Refusal.TheVariants.{Memory};
ghost use Rattle.text_hooks.specs.Parts.{AreSmall, IsMadeItem, IsFlat, shown_value};
ghost use Rattle.text_hooks.specs.Drawn.{HasDrawCause, MovedOn, NoncesAre};
ghost use Rattle.text_hooks.specs.Made.{IsCheckOf, IsNonceOf, IsSealOf};
ghost use Rattle.mech_rows.specs.Replies.{first_item};

use crate::making::{SlotValue, message_of, nonce_term, tag_term, text_term, tuple_of, value_term};
use crate::openings::one_opening;
use crate::sealing::{check_item, seal_item};
use mech_rows::{Opening, Refusal};
use outside::Draws;
use seal_trait::Sealer;
use std::alloc::Global;
use term_values::{Key, Nonce, Tag, Term, Text};

/// A message with the one protected item that was made for it.
#[derive(Drop)]
pub struct Said {
    /// The message, whose last item is the protected one.
    pub message: Term,
    /// The protected item with its key and its body.
    pub item: Opening,
}

/// The message of these terms and of one item.
fn with_item(alloc: Global, shown: Vec<Term>, item: Opening) -> Result<Said, Refusal>
    requires small { AreSmall 1027 shown.items }
    requires made { IsMadeItem item.item }
    requires room { length shown.items ≤ 5 }
    ensures message { IfOk result (λ s. s.message ≡ tuple (trees (shown.items ++ item.item ∷ []))) }
    ensures item { IfOk result (λ s. s.item ≡ item) }
    ensures limits { IfOk result (λ s. IsInLimits s.message) }
    ensures memory { IfErr result (λ e. e ≡ Memory) }
{
    let copy = item.item.copy(alloc)?;
    let mut items = shown;
    items.push(copy)?;
    Ok(Said {
        message: tuple_of(items),
        item,
    })
}

/// The message of a tag, a clear text, and an item that seals the body under the key, with a nonce
/// that it draws where the sealer wants one.
///
/// # Errors
///
/// `DrawFault` where a draw failed, and the count of faults rose; want of memory, where it stayed.
pub fn say_sealed<S: Sealer, D: Draws>(
    alloc: Global,
    sealer: &S,
    draws: &mut D,
    key: Key,
    body: Term,
    head: Tag,
    clear: &Text,
) -> Result<Said, Refusal>
    requires flat { IsFlat body }
    ensures sealed { IfOk result (λ s. IsSealOf S.opens key body s.item) }
    ensures message { IfOk result (λ s.
        s.message ≡ tuple (trees (tag head ∷ text clear.now ∷ s.item.item ∷ []))) }
    ensures limits { IfOk result (λ s. IsInLimits s.message) }
    ensures nonces { IfOk result (λ s.
        IsNonceOf S.iv_of (S.wants_iv sealer.now) (D.told draws.old) (D.told draws.new) s.item) }
    ensures moved { MovedOn 1 (D.told draws.old) (D.told draws.new) }
    ensures cause { HasDrawCause (D.fault_count draws.old) (D.fault_count draws.new) result }
{
    let item = seal_item(alloc, sealer, draws, key, body)?;
    let shown = vec![in alloc; tag_term(head), text_term(alloc, clear)?]?;
    with_item(alloc, shown, item)
}

/// The terms that stand clear before a check: the tag, a fresh value where there is one, the
/// covered text and the clear one.
fn before_check(
    alloc: Global,
    head: Tag,
    fresh: Option<SlotValue>,
    covered: &Text,
    clear: &Text,
) -> Result<Vec<Term>, Refusal>
    ensures shown { IfOk result (λ ts.
        ts.items ≡ tag head ∷ (shown_value fresh ++ text covered.now ∷ text clear.now ∷ [])) }
    ensures small { IfOk result (λ ts. AreSmall 1027 ts.items) }
    ensures few { IfOk result (λ ts. length ts.items ≤ 5) }
    ensures memory { IfErr result (λ e. e ≡ Memory) }
{
    let covered = text_term(alloc, covered)?;
    let clear = text_term(alloc, clear)?;
    match fresh {
        Some(value) => Ok(vec![in alloc; tag_term(head), value_term(&value), covered, clear]?),
        None => Ok(vec![in alloc; tag_term(head), covered, clear]?),
    }
}

/// The message of a tag, a fresh value where one is shown, the text that the check covers, a clear
/// text, and the check of the body under the key.
///
/// # Errors
///
/// Want of memory alone.
pub fn say_checked<S: Sealer>(
    alloc: Global,
    sealer: &S,
    key: Key,
    body: Term,
    head: Tag,
    fresh: Option<SlotValue>,
    covered: &Text,
    clear: &Text,
) -> Result<Said, Refusal>
    requires flat { IsFlat body }
    ensures made_of { IfOk result (λ s. IsCheckOf S.checks key body s.item) }
    ensures message { IfOk result (λ s. s.message ≡ tuple (trees (tag head
        ∷ (shown_value fresh ++ text covered.now ∷ text clear.now ∷ s.item.item ∷ [])))) }
    ensures limits { IfOk result (λ s. IsInLimits s.message) }
    ensures memory { IfErr result (λ e. e ≡ Memory) }
{
    let item = check_item(alloc, sealer, key, body)?;
    let shown = before_check(alloc, head, fresh, covered, clear)?;
    with_item(alloc, shown, item)
}

/// The first message of a run that begins with a nonce: its tag, the nonce and a text.
///
/// # Errors
///
/// Want of memory alone.
pub fn challenge(alloc: Global, head: Tag, fresh: &Nonce, clear: &Text) -> Result<Term, Refusal>
    ensures message { IfOk result (λ t.
        t ≡ tuple (trees (tag head ∷ nonce fresh.now ∷ text clear.now ∷ []))) }
    ensures limits { IfOk result IsInLimits }
    ensures memory { IfErr result (λ e. e ≡ Memory) }
{
    let clear = text_term(alloc, clear)?;
    let shown = vec![in alloc; tag_term(head), nonce_term(fresh), clear]?;
    message_of(alloc, shown, &[])
}

/// The message of a tag and an item, which seals the body under the key.
///
/// # Errors
///
/// `DrawFault` where a draw failed, and the count of faults rose; want of memory, where it stayed.
pub fn say_item<S: Sealer, D: Draws>(
    alloc: Global,
    sealer: &S,
    draws: &mut D,
    key: Key,
    body: Term,
    head: Tag,
) -> Result<(Term, Vec<Opening>), Refusal>
    requires flat { IsFlat body }
    ensures sealed { IfOk result (λ s.
        s.1.items ≡ record { key = key; item = first_item s.1.items; body = body } ∷ []) }
    ensures opens { IfOk result (λ s. S.opens key (first_item s.1.items) ≡ Some body) }
    ensures message { IfOk result (λ s.
        s.0 ≡ tuple (trees (tag head ∷ first_item s.1.items ∷ []))) }
    ensures limits { IfOk result (λ s. IsInLimits s.0) }
    ensures nonces { IfOk result (λ s. IfSome (D.told draws.old) (λ t.
        NoncesAre S.iv_of t (if S.wants_iv sealer.now then s.1.items else []) (D.told draws.new))) }
    ensures moved { MovedOn 1 (D.told draws.old) (D.told draws.new) }
    ensures cause { HasDrawCause (D.fault_count draws.old) (D.fault_count draws.new) result }
{
    let item = seal_item(alloc, sealer, draws, key, body)?;
    let shown = vec![in alloc; tag_term(head)]?;
    let sealed = one_opening(alloc, item)?;
    let message = message_of(alloc, shown, sealed.as_slice())?;
    Ok((message, sealed))
}

/// The message of a tag and a nonce.
///
/// # Errors
///
/// Want of memory alone.
pub fn nonce_alone(alloc: Global, head: Tag, fresh: &Nonce) -> Result<Term, Refusal>
    ensures message { IfOk result (λ t. t ≡ tuple (trees (tag head ∷ nonce fresh.now ∷ []))) }
    ensures limits { IfOk result IsInLimits }
    ensures memory { IfErr result (λ e. e ≡ Memory) }
{
    let shown = vec![in alloc; tag_term(head), nonce_term(fresh)]?;
    message_of(alloc, shown, &[])
}
