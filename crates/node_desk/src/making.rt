ghost use Rattle.std.specs.Prelude.{true, false, ◌≡◌, ◌≢◌, ◌≤◌, ◌⊎◌, [], None, Some, Ok, Err};
ghost use Rattle.std.specs.Prelude.{is_some, IfOk, IfErr, IfSome, OnOk, OnErr};
ghost use Rattle.term_values.specs.Trees.{Tree};
ghost use Rattle.tagged_codec.specs.Grammar.{IsInLimits, IsSpelling};
ghost use Rattle.outside.specs.Causes.{Rose};
ghost use Rattle.mech_rows.specs.Lawful.{tested_by};
ghost use Rattle.mech_rows.specs.Moves.{Fitted, step_of};
ghost use Rattle.mech_rows.specs.Openings.{has_parts};
ghost use Rattle.mech_rows.specs.Replies.{made_in, needs_stamp, new_slots, next_pass, run_verdict};
ghost use Rattle.mech_rows.specs.Replies.{sends_first};
ghost use Rattle.mech_rows.specs.Rings.{keys_in};
ghost use Rattle.mech_rows.specs.Steps.{IsStep};
ghost use Rattle.mech_rows.specs.declared.refusal.Refusal.TheVariants.{Memory, WrongPass};
ghost use Rattle.mech_rows.specs.declared.refusal.Refusal.TheVariants.{DrawFault};
ghost use Rattle.text_hooks.specs.Drawn.{DrawsAre, MovedOn};
ghost use Rattle.text_hooks.specs.Refused.{IsNoSpelling};
ghost use Rattle.text_hooks.specs.Rules.{allowed};
ghost use Rattle.node_desk.specs.Events.{log_of};
ghost use Rattle.node_desk.specs.Lives.{live_state};
ghost use Rattle.node_desk.specs.Refusals.{first_refusal, run_refusal};
ghost use Rattle.node_desk.specs.Desks.{run_at, Untouched, IsUnused};
ghost use Rattle.node_desk.specs.Deliveries.{open_in, IssuedIs, MayHaveIssued, HasIssued};
ghost use Rattle.node_desk.specs.Deliveries.{HasIssuedFirst, IsDue, IssuedAtMost};
ghost use Rattle.node_desk.specs.Deliveries.{IssuedAtMostFirst, IsUnfit, IsTurnedAway, IsUnmade};
ghost use Rattle.node_desk.specs.Deliveries.{IsFirstRefused, HasMovedDraws, HasMovedDrawsFirst};
ghost use Rattle.node_desk.specs.Deliveries.{MadeFor, FirstFor, most_drawn, spent_refusal};

use crate::commit::given_up;
use crate::desk::Desk;
use crate::live::Live;
use mech_rows::{Prepared, Refusal, Ring, Step};
use outside::Draws;
use replay_store::Store;
use seal_trait::Sealer;
use std::alloc::Global;
use tagged_codec::{DecodeFault, decode_whole};
use term_values::Stamp;
use text_hooks::{Hook, RoleState, compose, first, prepare};

/// What is said of bytes that no pass waits for.
fn unawaited(alloc: Global, bytes: &[u8]) -> Refusal
    ensures { result ≢ Memory → IsNoSpelling bytes.now result
        ⊎ ((m : Tree) × IsSpelling m bytes.now × (result ≡ WrongPass)) }
{
    match decode_whole(alloc, bytes) {
        Ok(_) => Refusal::WrongPass,
        Err(DecodeFault::Malformed { place, why }) => Refusal::Malformed { place, why },
        Err(DecodeFault::Memory) => Refusal::Memory,
    }
}

/// Judges bytes as the message of a state's next pass, whose role may not receive it.
fn prepared_by<P: RoleState, S: Sealer>(
    alloc: Global,
    state: P,
    sealer: &S,
    ring: &Ring,
    hook: &Hook,
    bytes: &[u8],
) -> Result<Prepared<P>, Refusal>
    requires parts { has_parts ring.now (P.state_of state).head ≡ true }
    ensures read { IfOk result (λ p. IsSpelling p.taken bytes.now) }
    ensures before { IfOk result (λ p. p.before ≡ P.state_of state) }
    ensures fit { IfOk result (λ p. run_verdict S.opens S.checks (allowed hook.now.rules.items)
        (keys_in ring.now) (P.state_of state) p.taken ≡ Ok
        (record { notes = p.after.notes; opened = p.opened; got = p.got })) }
    ensures fitted { IfOk result (Fitted S.opens S.checks (keys_in ring.now)) }
    ensures refused { IfErr result (λ e. e ≢ Memory →
        IsUnfit S.opens S.checks (allowed hook.now.rules.items) (keys_in ring.now)
        (P.state_of state) bytes.now e) }
{
    if !state.receives() {
        return Err(unawaited(alloc, bytes));
    }
    prepare(&state, alloc, sealer, ring, hook, bytes)
}

/// Judges bytes as the message that an open run waits for.
fn prepared_for<T: Store, S: Sealer>(
    alloc: Global,
    desk: &Desk<T>,
    sealer: &S,
    hook: &Hook,
    run: u32,
    bytes: &[u8],
) -> Result<Prepared<Live>, Refusal>
    ensures read { IfOk result (λ p. IsSpelling p.taken bytes.now) }
    ensures current { IfOk result (λ p. run_at desk.now run ≡ open_in p.before) }
    ensures parts { IfOk result (λ p. has_parts desk.now.ring p.before.head ≡ true) }
    ensures fit { IfOk result (λ p. run_verdict S.opens S.checks (allowed hook.now.rules.items)
        (keys_in desk.now.ring) p.before p.taken ≡ Ok
        (record { notes = p.after.notes; opened = p.opened; got = p.got })) }
    ensures fitted { IfOk result (Fitted S.opens S.checks (keys_in desk.now.ring)) }
    ensures refused { IfErr result (λ e. e ≢ Memory →
        IsTurnedAway S.opens S.checks (allowed hook.now.rules.items) desk.now run bytes.now e) }
    ensures running { IfErr result (λ e. e ≡ Memory → run_refusal (run_at desk.now run) ≡ None) }
{
    let state = desk.look(run)?;
    prepared_by(alloc, state, sealer, desk.ring(), hook, bytes)
}

/// Issues a stamp where the state needs one for what it says next.
fn stamp_for<T: Store>(
    desk: &mut Desk<T>,
    state: &Live,
    clock: u64,
) -> Result<Option<Stamp>, Refusal>
    ensures given { IfOk result (λ stamp. is_some stamp ≡ needs_stamp (live_state state.now)) }
    ensures issued { IfOk result (λ stamp. IssuedIs desk.old desk.new clock stamp) }
    ensures unused { IfOk result (λ stamp. IsUnused stamp (log_of desk.new.log)) }
    ensures fit { OnOk result (spent_refusal desk.old (live_state state.now) ≡ None) }
    ensures refused { IfErr result (λ e. e ≢ Memory →
        spent_refusal desk.old (live_state state.now) ≡ Some e) }
    ensures err { OnErr result (Untouched desk.old desk.new) }
    ensures due { IfOk result (IsDue desk.old clock) }
{
    if !state.stamps_now() {
        return Ok(None);
    }
    let stamp = desk.issue(clock)?;
    Ok(Some(stamp))
}

/// Issues a stamp where a prepared message needs one for its reply.
fn stamp_after<T: Store>(
    desk: &mut Desk<T>,
    prepared: &Prepared<Live>,
    clock: u64,
) -> Result<Option<Stamp>, Refusal>
    ensures given { IfOk result (λ stamp. is_some stamp ≡ needs_stamp prepared.now.after) }
    ensures issued { IfOk result (λ stamp. IssuedIs desk.old desk.new clock stamp) }
    ensures unused { IfOk result (λ stamp. IsUnused stamp (log_of desk.new.log)) }
    ensures fit { OnOk result (spent_refusal desk.old prepared.now.after ≡ None) }
    ensures refused { IfErr result (λ e. e ≢ Memory →
        spent_refusal desk.old prepared.now.after ≡ Some e) }
    ensures err { OnErr result (Untouched desk.old desk.new) }
    ensures due { IfOk result (IsDue desk.old clock) }
{
    stamp_for(desk, &prepared.after, clock)
}

/// Makes the step by which an open run takes bytes as its next message: judges them, issues a stamp
/// where the run needs one for its reply, and makes the reply. The stamp is issued at the greater
/// of now and the clock, in milliseconds. The desk may commit the step then, which judges the
/// received stamps.
///
/// # Errors
///
/// The first that holds: `UnknownRun`, `EndedRun`, `Malformed`, `WrongPass`; of each part of the
/// message `Unopened`, `WrongShape`, `WrongNames`, `WrongValue`; `TextRefused`; `StampsSpent`; then
/// the desk and the draws are as they were. `DrawFault`, only where the count of faults rose in
/// this call; then the desk has issued a stamp where one is needed. Want of memory may come at any
/// place, and the count stays then; the desk has issued at most its next stamp, and only where the
/// bytes fit and one is needed. The draws that were taken are not given back.
pub fn make_step<T: Store, S: Sealer, D: Draws>(
    alloc: Global,
    desk: &mut Desk<T>,
    sealer: &S,
    hook: &Hook,
    draws: &mut D,
    run: u32,
    bytes: &[u8],
    clock: u64,
) -> Result<Step<Live>, Refusal>
    ensures ok { IfOk result (λ step. MadeFor S.opens S.checks
        (allowed hook.now.rules.items) S.iv_of (S.wants_iv sealer.now) (D.told draws.old)
        (D.told draws.new) desk.old desk.new run bytes.now clock step) }
    ensures refused { IfErr result (λ e. e ≢ Memory →
        IsUnmade S.opens S.checks (allowed hook.now.rules.items) desk.old run bytes.now
        (Rose (D.fault_count draws.old) (D.fault_count draws.new)) e) }
    ensures err { OnErr result (MayHaveIssued desk.old desk.new clock) }
    ensures stays { IfErr result (λ e. e ≢ Memory → e ≢ DrawFault → Untouched desk.old desk.new) }
    ensures undrawn { IfErr result (λ e. e ≢ Memory → e ≢ DrawFault → draws.new ≡ draws.old) }
    ensures faulted { IfErr result (λ e. e ≡ DrawFault →
        HasIssued S.opens S.checks (allowed hook.now.rules.items) desk.old desk.new run bytes.now
        clock) }
    ensures moved { HasMovedDraws S.opens S.checks
        (allowed hook.now.rules.items) desk.old run bytes.now (D.told draws.old)
        (D.told draws.new) }
    ensures later { D.fault_count draws.old ≤ D.fault_count draws.new }
    ensures quiet { OnOk result (D.fault_count draws.new ≡ D.fault_count draws.old) }
    ensures memory { IfErr result (λ e. e ≡ Memory →
        D.fault_count draws.new ≡ D.fault_count draws.old) }
    ensures due { IfOk result (λ step. IsDue desk.old clock step.issued) }
    ensures issue_due { OnErr result (IssuedAtMost S.opens S.checks
        (allowed hook.now.rules.items) desk.old desk.new run bytes.now clock) }
    ensures running { IfErr result (λ e. e ≡ Memory → run_refusal (run_at desk.old run) ≡ None) }
{
    let prepared = prepared_for(alloc, desk, sealer, hook, run, bytes)?;
    let stamp = match stamp_after(desk, &prepared, clock) {
        Ok(stamp) => stamp,
        Err(refusal) => return Err(given_up(prepared, refusal)),
    };
    let step = compose(prepared, alloc, sealer, desk.ring(), draws, stamp)?;
    Ok(step)
}

/// The state of an open run that says its first message now.
fn starting<T: Store>(desk: &Desk<T>, run: u32) -> Result<Live, Refusal>
    ensures current { IfOk result (λ state. run_at desk.now run ≡ open_in (live_state state)) }
    ensures parts { IfOk result (λ state. has_parts desk.now.ring (live_state state).head ≡ true) }
    ensures first { IfOk result (λ state. sends_first (live_state state) ≡ true) }
    ensures refused { IfErr result (λ e. e ≢ Memory →
        first_refusal (run_at desk.now run) ≡ Some e) }
    ensures memory { IfErr result (λ e. e ≡ Memory → first_refusal (run_at desk.now run) ≡ None) }
{
    desk.check_first(run)?;
    desk.look(run)
}

/// The step that says the first message of a state's run.
fn first_by<P: RoleState, S: Sealer, D: Draws>(
    alloc: Global,
    state: P,
    sealer: &S,
    ring: &Ring,
    draws: &mut D,
    stamp: Option<Stamp>,
) -> Result<Step<P>, Refusal>
    requires first { sends_first (P.state_of state) ≡ true }
    requires parts { has_parts ring.now (P.state_of state).head ≡ true }
    requires stamp { is_some stamp ≡ needs_stamp (P.state_of state) }
    ensures before { IfOk result (λ s. s.before ≡ P.state_of state) }
    ensures taken { IfOk result (λ s. (s.taken ≡ None) × (s.opened ≡ []) × (s.got ≡ [])) }
    ensures issued { IfOk result (λ s. s.issued ≡ stamp) }
    ensures says { IfOk result (λ s. s.reply ≢ None) }
    ensures step { IfOk result (λ s. IsStep (tested_by S.opens S.checks) (keys_in ring.now)
        (step_of s)) }
    ensures limits { IfOk result (λ s. IfSome s.reply IsInLimits) }
    ensures drawn { IfOk result (λ s. DrawsAre S.iv_of (S.wants_iv sealer.now) (D.told draws.old)
        (D.told draws.new) stamp (new_slots s.before)
        (made_in (next_pass s.before).covers) s.before.notes s.after.notes s.sealed) }
    ensures moved { MovedOn (most_drawn (P.state_of state)) (D.told draws.old) (D.told draws.new) }
    ensures later { D.fault_count draws.old ≤ D.fault_count draws.new }
    ensures quiet { OnOk result (D.fault_count draws.new ≡ D.fault_count draws.old) }
    ensures memory { IfErr result (λ e. e ≡ Memory →
        D.fault_count draws.new ≡ D.fault_count draws.old) }
    ensures refused { IfErr result (λ e. e ≢ Memory → (e ≡ DrawFault)
        × Rose (D.fault_count draws.old) (D.fault_count draws.new)) }
{
    let step = first(&state, alloc, sealer, ring, draws, stamp)?;
    Ok(step)
}

/// Makes the step by which an open run says its first message: issues a stamp where the run needs
/// one, at the greater of now and the clock, in milliseconds, and makes the message. The desk may
/// commit the step then.
///
/// # Errors
///
/// The first that holds: `UnknownRun`, `EndedRun`, `WrongPass` where the run doesn't say the first
/// message now, `StampsSpent`; then the desk and the draws are as they were. `DrawFault`, only
/// where the count of faults rose in this call; then the desk has issued a stamp where one is
/// needed. Want of memory may come at any place, and the count stays then; the desk has issued at
/// most its next stamp, and only where the run says the first message now and one is needed. The
/// draws that were taken are not given back.
pub fn make_first<T: Store, S: Sealer, D: Draws>(
    alloc: Global,
    desk: &mut Desk<T>,
    sealer: &S,
    draws: &mut D,
    run: u32,
    clock: u64,
) -> Result<Step<Live>, Refusal>
    ensures ok { IfOk result (λ step. FirstFor S.opens S.checks S.iv_of (S.wants_iv sealer.now)
        (D.told draws.old) (D.told draws.new) desk.old desk.new run clock step) }
    ensures refused { IfErr result (λ e. e ≢ Memory →
        IsFirstRefused desk.old run (Rose (D.fault_count draws.old) (D.fault_count draws.new)) e) }
    ensures err { OnErr result (MayHaveIssued desk.old desk.new clock) }
    ensures stays { IfErr result (λ e. e ≢ Memory → e ≢ DrawFault → Untouched desk.old desk.new) }
    ensures undrawn { IfErr result (λ e. e ≢ Memory → e ≢ DrawFault → draws.new ≡ draws.old) }
    ensures faulted { IfErr result (λ e. e ≡ DrawFault →
        HasIssuedFirst desk.old desk.new run clock) }
    ensures moved { HasMovedDrawsFirst desk.old run (D.told draws.old) (D.told draws.new) }
    ensures later { D.fault_count draws.old ≤ D.fault_count draws.new }
    ensures quiet { OnOk result (D.fault_count draws.new ≡ D.fault_count draws.old) }
    ensures memory { IfErr result (λ e. e ≡ Memory →
        D.fault_count draws.new ≡ D.fault_count draws.old) }
    ensures due { IfOk result (λ step. IsDue desk.old clock step.issued) }
    ensures issue_due { OnErr result (IssuedAtMostFirst desk.old desk.new run clock) }
    ensures running { IfErr result (λ e. e ≡ Memory → run_refusal (run_at desk.old run) ≡ None) }
    ensures first { IfErr result (λ e. e ≡ Memory → first_refusal (run_at desk.old run) ≡ None) }
{
    let state = starting(desk, run)?;
    let stamp = match stamp_for(desk, &state, clock) {
        Ok(stamp) => stamp,
        Err(refusal) => return Err(given_up(state, refusal)),
    };
    let step = first_by(alloc, state, sealer, desk.ring(), draws, stamp)?;
    Ok(step)
}
