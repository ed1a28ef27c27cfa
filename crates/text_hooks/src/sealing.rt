ghost use Rattle.std.specs.Prelude.{◌≡◌, ◌≢◌, ◌≤◌, ◌∷◌, [], true, false, Some, None, IfOk, IfErr};
ghost use Rattle.std.specs.Prelude.{OnErr, OnOk, IfSome, is_some, if◌then◌else◌};
ghost use Rattle.outside.specs.Told.{nonce_draw, part_draw, next_draw};
ghost use Rattle.mech_rows.specs.declared.refusal.Refusal.TheVariants.{Memory};
ghost use Rattle.text_hooks.specs.Parts.{IsFlat, IsMadeItem};
ghost use Rattle.text_hooks.specs.Drawn.{HasDrawCause, MovedOn, NoncesAre};
ghost use Rattle.text_hooks.specs.Made.{IsCheckOf, IsNext, IsNonceOf, IsSealOf};

use mech_rows::{Opening, Refusal};
use outside::Draws;
use seal_trait::Sealer;
use std::alloc::Global;
use term_values::{Key, Nonce, Part, Term};

/// A body, and the key under which it is to be sealed.
#[derive(Drop)]
pub struct Unsealed {
    /// The key.
    pub key: Key,
    /// The body.
    pub body: Term,
}

/// The next nonce of the draws.
///
/// # Errors
///
/// `DrawFault`, and the count of faults rose; the draws stay.
pub fn draw_nonce<D: Draws>(draws: &mut D) -> Result<Nonce, Refusal>
    ensures drawn { IfOk result
        (IsNext (λ t. t.value nonce_draw t.place) (D.told draws.old) (D.told draws.new)) }
    ensures moved { MovedOn 1 (D.told draws.old) (D.told draws.new) }
    ensures stays { OnErr result (D.told draws.new ≡ D.told draws.old) }
    ensures cause { HasDrawCause (D.fault_count draws.old) (D.fault_count draws.new) result }
{
    match draws.nonce() {
        Ok(nonce) => Ok(nonce),
        Err(_) => Err(Refusal::DrawFault),
    }
}

/// The next part of the draws.
///
/// # Errors
///
/// `DrawFault`, and the count of faults rose; the draws stay.
pub fn draw_part<D: Draws>(draws: &mut D) -> Result<Part, Refusal>
    ensures drawn { IfOk result
        (IsNext (λ t. t.value part_draw t.place) (D.told draws.old) (D.told draws.new)) }
    ensures moved { MovedOn 1 (D.told draws.old) (D.told draws.new) }
    ensures stays { OnErr result (D.told draws.new ≡ D.told draws.old) }
    ensures cause { HasDrawCause (D.fault_count draws.old) (D.fault_count draws.new) result }
{
    match draws.part() {
        Ok(part) => Ok(part),
        Err(_) => Err(Refusal::DrawFault),
    }
}

/// A nonce for a seal, where the sealer wants one.
fn draw_iv<S: Sealer, D: Draws>(sealer: &S, draws: &mut D) -> Result<Option<Nonce>, Refusal>
    ensures given { IfOk result (λ iv. is_some iv ≡ S.wants_iv sealer.now) }
    ensures drawn { IfOk result (λ iv. IfSome (D.told draws.old) (λ t. IfSome iv (λ n.
        (n ≡ t.value nonce_draw t.place) × (D.told draws.new ≡ Some (next_draw t))))) }
    ensures kept { IfOk result (λ iv. iv ≡ None → D.told draws.new ≡ D.told draws.old) }
    ensures moved { MovedOn 1 (D.told draws.old) (D.told draws.new) }
    ensures stays { OnErr result (D.told draws.new ≡ D.told draws.old) }
    ensures cause { HasDrawCause (D.fault_count draws.old) (D.fault_count draws.new) result }
{
    if !sealer.wants_iv() {
        return Ok(None);
    }
    let nonce = draw_nonce(draws)?;
    Ok(Some(nonce))
}

/// Seals a body under a key, with a nonce that it draws where the sealer wants one.
///
/// # Errors
///
/// `DrawFault` where a draw failed, and the count of faults rose; want of memory, where it stayed.
#[tactic(auto, using(crate::proofs::Limits::made_item))]
pub fn seal_item<S: Sealer, D: Draws>(
    alloc: Global,
    sealer: &S,
    draws: &mut D,
    key: Key,
    body: Term,
) -> Result<Opening, Refusal>
    requires flat { IsFlat body }
    ensures sealed { IfOk result (IsSealOf S.opens key body) }
    ensures made { IfOk result (λ o. IsMadeItem o.item) }
    ensures nonces { IfOk result
        (IsNonceOf S.iv_of (S.wants_iv sealer.now) (D.told draws.old) (D.told draws.new)) }
    ensures moved { MovedOn 1 (D.told draws.old) (D.told draws.new) }
    ensures cause { HasDrawCause (D.fault_count draws.old) (D.fault_count draws.new) result }
{
    let iv = draw_iv(sealer, draws)?;
    let item = sealer.seal(alloc, &key, &body, iv.as_ref())?;
    Ok(Opening { key, item, body })
}

/// Makes the check of a body under a key.
///
/// # Errors
///
/// Want of memory alone.
#[tactic(auto, using(crate::proofs::Limits::made_item))]
pub fn check_item<S: Sealer>(
    alloc: Global,
    sealer: &S,
    key: Key,
    body: Term,
) -> Result<Opening, Refusal>
    requires flat { IsFlat body }
    ensures made_of { IfOk result (IsCheckOf S.checks key body) }
    ensures made { IfOk result (λ o. IsMadeItem o.item) }
    ensures memory { IfErr result (λ e. e ≡ Memory) }
{
    let item = sealer.check(alloc, &key, &body)?;
    Ok(Opening { key, item, body })
}
