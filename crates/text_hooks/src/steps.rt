ghost use Rattle.std.specs.Prelude.{◌≡◌, ◌≢◌, ◌≤◌, ◌&&◌, ◌==◌, true, false, Some, None, Ok, Err, ℕ};
ghost use Rattle.std.specs.Prelude.{suc, ◌⊎◌, [], IfOk, IfErr, OnOk, IfSome, is_some, ◌+◌, length};
ghost use Rattle.std.specs.Prelude.{MatchResult};
ghost use Rattle.term_values.specs.declared.Why.{Why};
ghost use Rattle.term_values.specs.Trees.{Tree};
ghost use Rattle.tagged_codec.specs.Faults.{IsWholeFault};
ghost use Rattle.tagged_codec.specs.Grammar.{IsInLimits, IsSpelling};
ghost use Rattle.outside.specs.Causes.{Rose};
ghost use Rattle.mech_rows.specs.Moves.{Fitted, IsAnswer, step_of};
ghost use Rattle.mech_rows.specs.Openings.{has_parts};
ghost use Rattle.mech_rows.specs.Replies.{Says, has_acted, needs_stamp, receives, sends};
ghost use Rattle.mech_rows.specs.Replies.{sends_first};
ghost use Rattle.mech_rows.specs.Rings.{keys_in};
ghost use Rattle.mech_rows.specs.Runs.{outcome_of};
ghost use Rattle.mech_rows.specs.Lawful.{tested_by};
ghost use Rattle.mech_rows.specs.Steps.{IsStep};
ghost use Rattle.mech_rows.specs.Verdict.{verdict, run_of};
ghost use Rattle.mech_rows.specs.declared.refusal.Refusal.TheVariants.{DrawFault, Memory};
ghost use Rattle.text_hooks.specs.Drawn.{DrawnFor, MovedFor};
ghost use Rattle.text_hooks.specs.Leading.{IsTaken};
ghost use Rattle.text_hooks.specs.Refused.{IsNoSpelling, IsRefused};
ghost use Rattle.text_hooks.specs.Rules.{allowed};

use crate::hook::Hook;
use crate::role_state::{Reply, RoleState, Taken};
use mech_rows::{Outcome, Prepared, Refusal, Ring, Step};
use outside::Draws;
use seal_trait::Sealer;
use std::alloc::Global;
use tagged_codec::{DecodeFault, decode_whole};
use term_values::{Stamp, Term};

/// The term that the bytes spell.
fn read(alloc: Global, bytes: &[u8]) -> Result<Term, Refusal>
    ensures read { IfOk result (λ t. IsSpelling t bytes.now) }
    ensures limits { IfOk result IsInLimits }
    ensures refused { IfErr result (λ e. e ≢ Memory → IsNoSpelling bytes.now e) }
    ensures again { (t : Tree) → IsSpelling t bytes.now →
        MatchResult result (λ u. u ≡ t) (λ e. e ≡ Memory) }
{
    match decode_whole(alloc, bytes) {
        Ok(term) => Ok(term),
        Err(DecodeFault::Malformed { place, why }) => Err(Refusal::Malformed { place, why }),
        Err(DecodeFault::Memory) => Err(Refusal::Memory),
    }
}

/// What was taken, with the states around it.
fn packed<T: RoleState, S: Sealer>(
    ring: &Ring,
    hook: &Hook,
    before: T,
    taken: Taken<T>,
    term: Term,
) -> Prepared<T>
    requires receives { receives (T.state_of before) ≡ true }
    requires acted { has_acted (T.state_of before) ≡ true }
    requires fit { IsTaken S.opens S.checks ring.now hook.now.rules.items (T.state_of before) term
        (record {
          notes = (T.state_of taken.after).notes;
          opened = taken.opened.items;
          got = taken.got.items;
        }) }
    requires same_head { (T.state_of taken.after).head ≡ (T.state_of before).head }
    requires moves { (T.state_of taken.after).next ≡ suc (T.state_of before).next }
    ensures prepared { result ≡ record {
      before = T.state_of before;
      after = T.state_of taken.after;
      taken = term;
      opened = taken.opened.items;
      got = taken.got.items;
    } }
    ensures fitted { Fitted S.opens S.checks (keys_in ring.now) result }
{
    Prepared {
        before,
        after: taken.after,
        taken: term,
        opened: taken.opened,
        got: taken.got,
    }
}

/// Judges bytes as the message of the state's next pass, which its role receives, and takes the
/// message where it fits. The ring has the parts that the role uses.
///
/// # Errors
///
/// `Malformed` where the bytes are no spelling of one term, and else the first refusal of the
/// verdict, 4 to 8 and 14; want of memory.
pub fn prepare<T: RoleState, S: Sealer>(
    state: &T,
    alloc: Global,
    sealer: &S,
    ring: &Ring,
    hook: &Hook,
    bytes: &[u8],
) -> Result<Prepared<T>, Refusal>
    requires receives { receives (T.state_of state.now) ≡ true }
    requires parts { has_parts ring.now (T.state_of state.now).head ≡ true }
    ensures read { IfOk result (λ p. IsSpelling p.taken bytes.now) }
    ensures before { IfOk result (λ p. p.before ≡ T.state_of state.now) }
    ensures fit { IfOk result (λ p. IsTaken S.opens S.checks ring.now hook.now.rules.items
        (T.state_of state.now) p.taken
        (record { notes = p.after.notes; opened = p.opened; got = p.got })) }
    ensures fitted { IfOk result (Fitted S.opens S.checks (keys_in ring.now)) }
    ensures refused { IfErr result (λ e. e ≢ Memory →
        IsRefused S.opens S.checks ring.now hook.now.rules.items
        (T.state_of state.now) bytes.now e) }
{
    let term = read(alloc, bytes)?;
    let taken = state.take(alloc, sealer, ring, hook, &term)?;
    let before = state.copy(alloc)?;
    Ok(packed::<T, S>(ring, hook, before, taken, term))
}

/// The step that says the first message of a run, whose role sends it. A stamp is given exactly
/// where one is needed; the ring has the parts that the role uses.
///
/// # Errors
///
/// `DrawFault`, only where the count of faults rose in this call; want of memory, only where the
/// count stayed.
pub fn first<T: RoleState, S: Sealer, D: Draws>(
    state: &T,
    alloc: Global,
    sealer: &S,
    ring: &Ring,
    draws: &mut D,
    stamp: Option<Stamp>,
) -> Result<Step<T>, Refusal>
    requires first { sends_first (T.state_of state.now) ≡ true }
    requires parts { has_parts ring.now (T.state_of state.now).head ≡ true }
    requires stamp { is_some stamp ≡ needs_stamp (T.state_of state.now) }
    ensures before { IfOk result (λ s. s.before ≡ T.state_of state.now) }
    ensures taken { IfOk result (λ s. (s.taken ≡ None) × (s.opened ≡ []) × (s.got ≡ [])) }
    ensures issued { IfOk result (λ s. s.issued ≡ stamp) }
    ensures says { IfOk result (λ s. (s.reply ≢ None)
        × IsAnswer S.opens S.checks (keys_in ring.now) s.before s) }
    ensures step { IfOk result (λ s.
        IsStep (tested_by S.opens S.checks) (keys_in ring.now) (step_of s)) }
    ensures limits { IfOk result (λ s. IfSome s.reply IsInLimits) }
    ensures drawn { IfOk result (λ s. DrawnFor S.iv_of (S.wants_iv sealer.now)
        (D.told draws.old) (D.told draws.new) stamp s.before s.after s.sealed) }
    ensures moved { MovedFor (T.state_of state.now) (D.told draws.old) (D.told draws.new) }
    ensures later { D.fault_count draws.old ≤ D.fault_count draws.new }
    ensures quiet { OnOk result (D.fault_count draws.new ≡ D.fault_count draws.old) }
    ensures memory { IfErr result (λ e. e ≡ Memory →
        D.fault_count draws.new ≡ D.fault_count draws.old) }
    ensures refused { IfErr result (λ e. e ≢ Memory →
        (e ≡ DrawFault) × Rose (D.fault_count draws.old) (D.fault_count draws.new)) }
{
    let reply = state.say(alloc, sealer, ring, draws, stamp)?;
    let before = state.copy(alloc)?;
    Ok(begun::<T, S>(alloc, ring, before, reply, stamp))
}

/// The step that answers a message, or that ends the run where its role says nothing more. The
/// message was prepared with this sealer and this ring, which has the parts that the role uses; a
/// stamp is given exactly where one is needed.
///
/// # Errors
///
/// `DrawFault`, only where the count of faults rose in this call; want of memory, only where the
/// count stayed. What was prepared is given up then.
#[tactic(auto, using(crate::proofs::Draws::not_moved))]
pub fn compose<T: RoleState, S: Sealer, D: Draws>(
    prepared: Prepared<T>,
    alloc: Global,
    sealer: &S,
    ring: &Ring,
    draws: &mut D,
    stamp: Option<Stamp>,
) -> Result<Step<T>, Refusal>
    requires fitted { Fitted S.opens S.checks (keys_in ring.now) prepared }
    requires parts { has_parts ring.now prepared.after.head ≡ true }
    requires stamp { is_some stamp ≡ needs_stamp prepared.after }
    ensures before { IfOk result (λ s. s.before ≡ prepared.before) }
    ensures taken { IfOk result (λ s. s.taken ≡ Some prepared.taken) }
    ensures opened { IfOk result (λ s. s.opened ≡ prepared.opened) }
    ensures got { IfOk result (λ s. s.got ≡ prepared.got) }
    ensures issued { IfOk result (λ s. s.issued ≡ stamp) }
    ensures replies { IfOk result (λ s. is_some s.reply ≡ sends prepared.after) }
    ensures says { IfOk result (IsAnswer S.opens S.checks (keys_in ring.now) prepared.after) }
    ensures step { IfOk result (λ s.
        IsStep (tested_by S.opens S.checks) (keys_in ring.now) (step_of s)) }
    ensures limits { IfOk result (λ s. IfSome s.reply IsInLimits) }
    ensures drawn { IfOk result (λ s. IfSome s.reply (λ _.
        DrawnFor S.iv_of (S.wants_iv sealer.now) (D.told draws.old) (D.told draws.new)
        stamp prepared.after s.after s.sealed)) }
    ensures silent { IfOk result (λ s. s.reply ≡ None →
        (s.after ≡ prepared.after) × (D.told draws.new ≡ D.told draws.old)) }
    ensures moved { MovedFor prepared.after (D.told draws.old) (D.told draws.new) }
    ensures later { D.fault_count draws.old ≤ D.fault_count draws.new }
    ensures quiet { OnOk result (D.fault_count draws.new ≡ D.fault_count draws.old) }
    ensures memory { IfErr result (λ e. e ≡ Memory →
        D.fault_count draws.new ≡ D.fault_count draws.old) }
    ensures refused { IfErr result (λ e. e ≢ Memory →
        (e ≡ DrawFault) × Rose (D.fault_count draws.old) (D.fault_count draws.new)) }
{
    if !prepared.after.sends() {
        return Ok(ended::<T, S>(alloc, ring, prepared));
    }
    let reply = prepared.after.say(alloc, sealer, ring, draws, stamp)?;
    Ok(answered::<T, S>(ring, prepared, reply, stamp))
}

/// Whether the run goes on.
fn outcome_in<T: RoleState>(state: &T) -> Outcome
    ensures outcome { result ≡ outcome_of (run_of (T.state_of state.now)) }
{
    if state.is_done() {
        Outcome::Done
    } else {
        Outcome::Going
    }
}

fn begun<T: RoleState, S: Sealer>(
    alloc: Global,
    ring: &Ring,
    before: T,
    reply: Reply<T>,
    stamp: Option<Stamp>,
) -> Step<T>
    requires first { sends_first (T.state_of before) ≡ true }
    requires says { Says S.opens S.checks (keys_in ring.now) (T.state_of before)
        (T.state_of reply.after) reply.message reply.sealed.items stamp }
    ensures before { result.before ≡ T.state_of before }
    ensures after { result.after ≡ T.state_of reply.after }
    ensures taken { result.taken ≡ None }
    ensures issued { result.issued ≡ stamp }
    ensures sealed { result.sealed ≡ reply.sealed.items }
    ensures reply { result.reply ≡ Some reply.message }
    ensures step { IsStep (tested_by S.opens S.checks) (keys_in ring.now) (step_of result) }
{
    let outcome = outcome_in(&reply.after);
    Step {
        before,
        after: reply.after,
        taken: None,
        opened: Vec::new(alloc),
        got: Vec::new(alloc),
        issued: stamp,
        sealed: reply.sealed,
        reply: Some(reply.message),
        outcome,
    }
}

fn answered<T: RoleState, S: Sealer>(
    ring: &Ring,
    prepared: Prepared<T>,
    reply: Reply<T>,
    stamp: Option<Stamp>,
) -> Step<T>
    requires fitted { Fitted S.opens S.checks (keys_in ring.now) prepared }
    requires sends { sends prepared.after ≡ true }
    requires says { Says S.opens S.checks (keys_in ring.now) prepared.after
        (T.state_of reply.after) reply.message reply.sealed.items stamp }
    ensures before { result.before ≡ prepared.before }
    ensures after { result.after ≡ T.state_of reply.after }
    ensures taken { result.taken ≡ Some prepared.taken }
    ensures opened { result.opened ≡ prepared.opened }
    ensures got { result.got ≡ prepared.got }
    ensures issued { result.issued ≡ stamp }
    ensures sealed { result.sealed ≡ reply.sealed.items }
    ensures reply { result.reply ≡ Some reply.message }
    ensures step { IsStep (tested_by S.opens S.checks) (keys_in ring.now) (step_of result) }
{
    let Prepared {
        before,
        after: _,
        taken,
        opened,
        got,
    } = prepared;
    let outcome = outcome_in(&reply.after);
    Step {
        before,
        after: reply.after,
        taken: Some(taken),
        opened,
        got,
        issued: stamp,
        sealed: reply.sealed,
        reply: Some(reply.message),
        outcome,
    }
}

fn ended<T: RoleState, S: Sealer>(alloc: Global, ring: &Ring, prepared: Prepared<T>) -> Step<T>
    requires fitted { Fitted S.opens S.checks (keys_in ring.now) prepared }
    requires silent { sends prepared.after ≡ false }
    ensures before { result.before ≡ prepared.before }
    ensures after { result.after ≡ prepared.after }
    ensures taken { result.taken ≡ Some prepared.taken }
    ensures opened { result.opened ≡ prepared.opened }
    ensures got { result.got ≡ prepared.got }
    ensures issued { result.issued ≡ None }
    ensures sealed { result.sealed ≡ [] }
    ensures reply { result.reply ≡ None }
    ensures step { IsStep (tested_by S.opens S.checks) (keys_in ring.now) (step_of result) }
{
    let Prepared {
        before,
        after,
        taken,
        opened,
        got,
    } = prepared;
    let outcome = outcome_in(&after);
    Step {
        before,
        after,
        taken: Some(taken),
        opened,
        got,
        issued: None,
        sealed: Vec::new(alloc),
        reply: None,
        outcome,
    }
}
