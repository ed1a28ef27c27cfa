ghost use Rattle.std.specs.Prelude.{◌≡◌, ◌+◌, ◌-◌, ◌<◌, ◌≤◌, ◌++◌, None, Some, List, map};
ghost use Rattle.std.specs.Prelude.{if◌then◌else◌, max, length, IfOk, IfErr, OnOk};
ghost use Rattle.agreement_laws.specs.Nodes.{accepted_of, is_going as goes_on};
ghost use Rattle.replay_store.specs.Stamps.{Accepted};
ghost use Rattle.node_desk.specs.Helds.{table_at};
ghost use Rattle.node_desk.specs.Refusals.{CommitAnswer, IsCurrent, stamps_refusal};

use crate::event::Event;
use crate::live::Live;
use crate::run_slot::RunSlot;
use crate::stamps::{judge_all, record_all};
use crate::table::find_current;
use mech_rows::{Outcome, Refusal, Ring, Step};
use replay_store::Store;
use term_values::StampKind;

/// How many stamps a step may have to judge.
pub(crate) const STAMP_LIMIT: usize = 2;

/// The kind of the stamps that the node takes.
pub(crate) fn kind_of(ring: &Ring) -> StampKind
    ensures { result ≡ ring.now.kind }
{
    ring.kind
}

/// Judges a commit, and answers the place of its run.
pub(crate) fn check_commit<T: Store>(
    run_slots: &[RunSlot],
    log: &[Event],
    store: &T,
    kind: StampKind,
    run: u32,
    step: &Step<Live>,
    clock: u64,
) -> Result<usize, Refusal>
    ensures place { IfOk result (λ place. place + 1 ≡ run) }
    ensures within { IfOk result (λ place. place < length run_slots.now) }
    ensures current { OnOk result (IsCurrent (table_at log.now run_slots.now run) step.now) }
    ensures fit { OnOk result ((accepted : List Accepted) → T.stands_for store.now accepted →
        stamps_refusal (T.window store.now) (max (T.now store.now) clock) accepted kind step.now.got
        ≡ None) }
    ensures refused { IfErr result (λ e. (accepted : List Accepted) →
        T.stands_for store.now accepted → CommitAnswer (table_at log.now run_slots.now run) step.now
        (stamps_refusal (T.window store.now)
        (max (T.now store.now) clock) accepted kind step.now.got) (Some e)) }
{
    let place = find_current(run_slots, log, run, step)?;
    match judge_all(store, clock, kind, &step.got) {
        Some(refusal) => Err(refusal),
        None => Ok(place),
    }
}

/// The refusal, after what is given up for it is dropped. Takes no memory.
pub fn given_up<V: Drop>(_value: V, refusal: Refusal) -> Refusal
    ensures { result ≡ refusal }
{
    refusal
}

/// Whether the run goes on after the step.
pub(crate) fn is_going(step: &Step<Live>) -> bool
    ensures { result ≡ goes_on step.now.outcome }
{
    match step.outcome {
        Outcome::Going => true,
        Outcome::Done => false,
    }
}

/// Records the received stamps of a step.
#[tactic(auto, using(crate::proofs::Bounds::got_bound))]
pub(crate) fn record_step<T: Store>(store: &mut T, kind: StampKind, step: &Step<Live>)
    requires room { 2 ≤ T.spare store.old }
    ensures added { (accepted : List Accepted) → T.stands_for store.old accepted →
        T.stands_for store.new (accepted ++ map accepted_of step.now.got) }
    ensures room { T.spare store.old ≤ T.spare store.new + 2 }
    ensures window { T.window store.new ≡ T.window store.old }
    ensures moment { T.now store.new ≡ T.now store.old }
{
    record_all(store, kind, &step.got);
}

/// How many runs are open after a step of one of them.
pub(crate) fn running_after(running: usize, going: bool) -> usize
    requires { 0 < running }
    ensures { result ≡ if going then running else running - 1 }
{
    if going { running } else { running - 1 }
}
