ghost use Rattle.std.specs.Prelude.{true, false, ◌≡◌, ◌≢◌, ◌<◌, ◌≤◌, None, Some, max, IfOk, IfErr};
ghost use Rattle.std.specs.Prelude.{OnOk, OnErr};
ghost use Rattle.outside.specs.Causes.{Rose};
ghost use Rattle.mech_rows.specs.Rings.{keys_in};
ghost use Rattle.mech_rows.specs.declared.refusal.Refusal.TheVariants.{Memory, DrawFault};
ghost use Rattle.text_hooks.specs.Rules.{allowed};
ghost use Rattle.node_desk.specs.declared.event.Event.TheVariants.{Commit};
ghost use Rattle.node_desk.specs.Events.{log_of};
ghost use Rattle.node_desk.specs.Refusals.{first_refusal, run_refusal};
ghost use Rattle.node_desk.specs.Desks.{node_at, run_at, Entered, Untouched, CommitAnswers};
ghost use Rattle.node_desk.specs.Desks.{IsMadeWith, IsUnused};
ghost use Rattle.node_desk.specs.Deliveries.{MayHaveIssued, HasIssued, HasIssuedFirst};
ghost use Rattle.node_desk.specs.Deliveries.{IssuedAtMost, IssuedAtMostFirst, IsRefused};
ghost use Rattle.node_desk.specs.Deliveries.{IsFirstRefused, IsStampRefused, HasMovedDraws};
ghost use Rattle.node_desk.specs.Deliveries.{HasMovedDrawsFirst, Delivered, Started, is_of_stamp};

use crate::commit::given_up;
use crate::desk::Desk;
use crate::live::Live;
use crate::making::{make_first, make_step};
use mech_rows::{Refusal, Step};
use outside::Draws;
use replay_store::Store;
use seal_trait::Sealer;
use std::alloc::Global;
use term_values::{OutOfMemory, Term};
use text_hooks::Hook;

/// A copy of what a step says, where it says something.
///
/// # Errors
///
/// Want of memory alone.
pub fn reply_of(alloc: Global, step: &Step<Live>) -> Result<Option<Term>, OutOfMemory>
    ensures equal { IfOk result (λ reply. reply ≡ step.now.reply) }
{
    match &step.reply {
        Some(reply) => Ok(Some(reply.copy(alloc)?)),
        None => Ok(None),
    }
}

/// Takes all memory that entering the step needs, and copies its reply.
fn made_ready<T: Store>(
    alloc: Global,
    desk: &mut Desk<T>,
    step: &Step<Live>,
) -> Result<Option<Term>, OutOfMemory>
    ensures equal { IfOk result (λ reply. reply ≡ step.now.reply) }
    ensures room { OnOk result (0 < desk.new.spare) }
    ensures kept { Untouched desk.old desk.new }
{
    let reply = reply_of(alloc, step)?;
    desk.ready()?;
    Ok(reply)
}

/// Enters a step, and answers its reply.
fn enter<T: Store>(
    alloc: Global,
    desk: &mut Desk<T>,
    run: u32,
    step: Step<Live>,
    clock: u64,
) -> Result<Option<Term>, Refusal>
    requires made { IsMadeWith (keys_in desk.old.ring) step }
    requires issued { IsUnused step.issued (log_of desk.old.log) }
    ensures ok { OnOk result (Entered desk.old desk.new
        (Commit run (max (node_at desk.old).now clock) step)) }
    ensures reply { IfOk result (λ reply. reply ≡ step.reply) }
    ensures fit { OnOk result (CommitAnswers desk.old run step clock None) }
    ensures refused { IfErr result (λ e. e ≢ Memory →
        CommitAnswers desk.old run step clock (Some e)) }
    ensures err { OnErr result (Untouched desk.old desk.new) }
{
    let reply = match made_ready(alloc, desk, &step) {
        Ok(reply) => reply,
        Err(_) => return Err(given_up(step, Refusal::Memory)),
    };
    match desk.commit(run, step, clock) {
        Ok(()) => Ok(reply),
        Err(refusal) => Err(given_up(reply, refusal)),
    }
}

/// Gives bytes to an open run as its next message: judges them, issues a stamp where the run needs
/// one for its reply, makes the reply and enters the step, all at the greater of now and the clock,
/// in milliseconds. Answers the reply, where there is one.
///
/// # Errors
///
/// The first that holds: `UnknownRun`, `EndedRun`, `Malformed`, `WrongPass`; of each part of the
/// message `Unopened`, `WrongShape`, `WrongNames`, `WrongValue`; `TextRefused`; `StampsSpent`; then
/// the desk and the draws are as they were. `DrawFault`, only where the count of faults rose in
/// this call; of each received stamp `WrongStampKind`, `Early`, `Late`, `Repeated`, `StoreFull`;
/// then the desk has issued a stamp where one is needed. Want of memory may come at any place
/// before the step is entered, and the count stays then; the desk has issued at most its next
/// stamp, and only where the bytes fit and one is needed. The draws that were taken are not given
/// back.
pub fn deliver<T: Store, S: Sealer, D: Draws>(
    alloc: Global,
    desk: &mut Desk<T>,
    sealer: &S,
    hook: &Hook,
    draws: &mut D,
    run: u32,
    bytes: &[u8],
    clock: u64,
) -> Result<Option<Term>, Refusal>
    ensures ok { IfOk result (λ reply. Delivered S.opens S.checks
        (allowed hook.now.rules.items) S.iv_of (S.wants_iv sealer.now) (D.told draws.old)
        (D.told draws.new) desk.old desk.new run bytes.now clock reply) }
    ensures refused { IfErr result (λ e. e ≢ Memory →
        IsRefused S.opens S.checks (allowed hook.now.rules.items) desk.old run bytes.now clock
        (Rose (D.fault_count draws.old) (D.fault_count draws.new)) e) }
    ensures err { OnErr result (MayHaveIssued desk.old desk.new clock) }
    ensures stays { IfErr result (λ e. e ≢ Memory → e ≢ DrawFault → is_of_stamp e ≡ false →
        Untouched desk.old desk.new) }
    ensures undrawn { IfErr result (λ e. e ≢ Memory → e ≢ DrawFault → is_of_stamp e ≡ false →
        draws.new ≡ draws.old) }
    ensures faulted { IfErr result (λ e. e ≡ DrawFault →
        HasIssued S.opens S.checks (allowed hook.now.rules.items) desk.old desk.new run bytes.now
        clock) }
    ensures judged { IfErr result (λ e. is_of_stamp e ≡ true →
        IsStampRefused S.opens S.checks (allowed hook.now.rules.items) S.iv_of
        (S.wants_iv sealer.now) (D.told draws.old)
        (D.told draws.new) desk.old desk.new run bytes.now clock e) }
    ensures moved { HasMovedDraws S.opens S.checks
        (allowed hook.now.rules.items) desk.old run bytes.now (D.told draws.old)
        (D.told draws.new) }
    ensures later { D.fault_count draws.old ≤ D.fault_count draws.new }
    ensures quiet { OnOk result (D.fault_count draws.new ≡ D.fault_count draws.old) }
    ensures memory { IfErr result (λ e. e ≡ Memory →
        D.fault_count draws.new ≡ D.fault_count draws.old) }
    ensures unfailed { IfErr result (λ e. is_of_stamp e ≡ true →
        D.fault_count draws.new ≡ D.fault_count draws.old) }
    ensures issue_due { OnErr result (IssuedAtMost S.opens S.checks
        (allowed hook.now.rules.items) desk.old desk.new run bytes.now clock) }
    ensures running { IfErr result (λ e. e ≡ Memory → run_refusal (run_at desk.old run) ≡ None) }
{
    let step = make_step(alloc, desk, sealer, hook, draws, run, bytes, clock)?;
    enter(alloc, desk, run, step, clock)
}

/// Lets an open run say its first message: issues a stamp where the run needs one, makes the
/// message and enters the step, all at the greater of now and the clock, in milliseconds. Answers
/// the message.
///
/// # Errors
///
/// The first that holds: `UnknownRun`, `EndedRun`, `WrongPass` where the run doesn't say the first
/// message now, `StampsSpent`; then the desk and the draws are as they were. `DrawFault`, only
/// where the count of faults rose in this call; then the desk has issued a stamp where one is
/// needed. Want of memory may come at any place before the step is entered, and the count stays
/// then; the desk has issued at most its next stamp, and only where the run says the first message
/// now and one is needed. The draws that were taken are not given back.
pub fn start<T: Store, S: Sealer, D: Draws>(
    alloc: Global,
    desk: &mut Desk<T>,
    sealer: &S,
    draws: &mut D,
    run: u32,
    clock: u64,
) -> Result<Term, Refusal>
    ensures ok { IfOk result (λ message. Started S.opens S.checks S.iv_of (S.wants_iv sealer.now)
        (D.told draws.old) (D.told draws.new) desk.old desk.new run clock message) }
    ensures refused { IfErr result (λ e. e ≢ Memory →
        IsFirstRefused desk.old run (Rose (D.fault_count draws.old) (D.fault_count draws.new)) e) }
    ensures err { OnErr result (MayHaveIssued desk.old desk.new clock) }
    ensures stays { IfErr result (λ e. e ≢ Memory → e ≢ DrawFault → Untouched desk.old desk.new) }
    ensures undrawn { IfErr result (λ e. e ≢ Memory → e ≢ DrawFault → draws.new ≡ draws.old) }
    ensures faulted { IfErr result (λ e. e ≡ DrawFault →
        HasIssuedFirst desk.old desk.new run clock) }
    ensures moved { HasMovedDrawsFirst desk.old run (D.told draws.old) (D.told draws.new) }
    ensures later { D.fault_count draws.old ≤ D.fault_count draws.new }
    ensures quiet { OnOk result (D.fault_count draws.new ≡ D.fault_count draws.old) }
    ensures memory { IfErr result (λ e. e ≡ Memory →
        D.fault_count draws.new ≡ D.fault_count draws.old) }
    ensures issue_due { OnErr result (IssuedAtMostFirst desk.old desk.new run clock) }
    ensures running { IfErr result (λ e. e ≡ Memory → run_refusal (run_at desk.old run) ≡ None) }
    ensures first { IfErr result (λ e. e ≡ Memory → first_refusal (run_at desk.old run) ≡ None) }
{
    let step = make_first(alloc, desk, sealer, draws, run, clock)?;
    let Some(message) = enter(alloc, desk, run, step, clock)? else {
        unreachable!();
    };
    Ok(message)
}
