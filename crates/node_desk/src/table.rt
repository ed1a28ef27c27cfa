ghost use Rattle.std.specs.Prelude.{true, ◌≡◌, ◌≢◌, ◌+◌, ◌<◌, ◌↔◌, None, Some, Option, length};
ghost use Rattle.std.specs.Prelude.{IfOk, IfErr, OnOk, IsTrue};
ghost use Rattle.mech_rows.specs.declared.refusal.Refusal.{Refusal as RefusalOf};
ghost use Rattle.mech_rows.specs.declared.refusal.Refusal.TheVariants.{Memory, Moved};
ghost use Rattle.node_desk.specs.Helds.{table_at};
ghost use Rattle.node_desk.specs.Lives.{live_state};
ghost use Rattle.node_desk.specs.Refusals.{CommitAnswer, IsCurrent, first_refusal, run_refusal};

use crate::event::Event;
use crate::live::Live;
use crate::run_slot::{RunSlot, latest};
use mech_rows::{Refusal, Step};
use std::alloc::Global;
use text_hooks::RoleState;

/// The place of an open run.
pub(crate) fn find(run_slots: &[RunSlot], log: &[Event], run: u32) -> Result<usize, Refusal>
    ensures place { IfOk result (λ place. place + 1 ≡ run) }
    ensures within { IfOk result (λ place. place < length run_slots.now) }
    ensures running { OnOk result (run_refusal (table_at log.now run_slots.now run) ≡ None) }
    ensures refused { IfErr result (λ e. run_refusal (table_at log.now run_slots.now run)
        ≡ Some e) }
    ensures memory { IfErr result (λ e. e ≢ Memory) }
{
    let number = run as usize;
    if number == 0 || number > run_slots.len() {
        return Err(Refusal::UnknownRun);
    }
    if !run_slots[number - 1].open {
        return Err(Refusal::EndedRun);
    }
    Ok(number - 1)
}

/// Whether the state is that with which the step begins.
fn is_current(state: &Live, step: &Step<Live>) -> bool
    ensures { IsTrue result ↔ (live_state state.now ≡ step.now.before) }
{
    state.same(&step.before)
}

fn moved(state: &Live, step: &Step<Live>) -> Refusal
    ensures { result ≡ Moved step.now.before.next (live_state state.now).next }
{
    Refusal::Moved {
        made: step.before.next(),
        held: state.next(),
    }
}

/// The place of the open run with whose state the step begins.
pub(crate) fn find_current(
    run_slots: &[RunSlot],
    log: &[Event],
    run: u32,
    step: &Step<Live>,
) -> Result<usize, Refusal>
    ensures place { IfOk result (λ place. place + 1 ≡ run) }
    ensures within { IfOk result (λ place. place < length run_slots.now) }
    ensures current { OnOk result (IsCurrent (table_at log.now run_slots.now run) step.now) }
    ensures refused { IfErr result (λ e. (stamps : Option RefusalOf) →
        CommitAnswer (table_at log.now run_slots.now run) step.now stamps (Some e)) }
{
    let place = find(run_slots, log, run)?;
    let state = latest(&run_slots[place], log);
    if !is_current(state, step) {
        return Err(moved(state, step));
    }
    Ok(place)
}

/// The state of an open run.
fn current<'a>(run_slots: &'a [RunSlot], log: &'a [Event], run: u32) -> Result<&'a Live, Refusal>
    ensures state { IfOk result (λ state. table_at log.now run_slots.now run ≡ Some
        (record { state = live_state state.now; is_open = true })) }
    ensures refused { IfErr result (λ e. run_refusal (table_at log.now run_slots.now run)
        ≡ Some e) }
    ensures memory { IfErr result (λ e. e ≢ Memory) }
{
    let place = find(run_slots, log, run)?;
    Ok(latest(&run_slots[place], log))
}

/// Judges whether a run says its first message now.
pub(crate) fn check_first(run_slots: &[RunSlot], log: &[Event], run: u32) -> Result<(), Refusal>
    ensures fit { OnOk result (first_refusal (table_at log.now run_slots.now run) ≡ None) }
    ensures refused { IfErr result (λ e. first_refusal (table_at log.now run_slots.now run)
        ≡ Some e) }
    ensures memory { IfErr result (λ e. e ≢ Memory) }
{
    let state = current(run_slots, log, run)?;
    if !state.sends_first() {
        return Err(Refusal::WrongPass);
    }
    Ok(())
}

/// A copy of the state of an open run.
pub(crate) fn look_up(
    alloc: Global,
    run_slots: &[RunSlot],
    log: &[Event],
    run: u32,
) -> Result<Live, Refusal>
    ensures state { IfOk result (λ state. table_at log.now run_slots.now run ≡ Some
        (record { state = live_state state; is_open = true })) }
    ensures refused { IfErr result (λ e. e ≢ Memory →
        run_refusal (table_at log.now run_slots.now run) ≡ Some e) }
    ensures memory { IfErr result (λ e. e ≡ Memory →
        run_refusal (table_at log.now run_slots.now run) ≡ None) }
{
    let state = current(run_slots, log, run)?;
    Ok(state.copy(alloc)?)
}
