ghost use Rattle.std.specs.Prelude.{true, ◌≡◌, ◌≢◌, ◌<◌, ◌≤◌, ◌+◌, ◌⊎◌, None, Some, Err, length};
ghost use Rattle.std.specs.Prelude.{slice_get, IsTrue, IfOk, IfErr, OnOk, OnErr, option_map};
ghost use Rattle.std.specs.Prelude.{vec_len};
ghost use Rattle.term_values.specs.Trees.{Among};
ghost use Rattle.tagged_codec.specs.Grammar.{IsInLimits};
ghost use Rattle.attacker_model.specs.Derivation.{Derivable};
ghost use Rattle.mech_rows.specs.declared.refusal.Refusal.TheVariants.{Memory, NotDerivable};
ghost use Rattle.mech_rows.specs.declared.refusal.Refusal.TheVariants.{Unborn};
ghost use Rattle.text_hooks.specs.Rules.{allowed};
ghost use Rattle.node_desk.specs.Deliveries.{MayCommit};
ghost use Rattle.node_desk.specs.Desks.{node_at};
ghost use Rattle.node_desk.specs.Refusals.{got_refusal};
ghost use Rattle.world_run.specs.Born.{HasUnborn};
ghost use Rattle.world_run.specs.Clocks.{clock_in};
ghost use Rattle.world_run.specs.Gives.{Drops, HasTaken, IsGiven, IsGiveLeft, IsGiveRefused};
ghost use Rattle.world_run.specs.Gives.{MayBeGiven};
ghost use Rattle.world_run.specs.Kept.{IsEntered, IsKept, IsReady, view_of};
ghost use Rattle.world_run.specs.Makings.{IsBrokenOff, IsMadeOf, IsUnanswered};
ghost use Rattle.world_run.specs.Turns.{desk_in, HasGrown, HasNumbers};
ghost use Rattle.world_run.specs.Views.{run_in, sent_in};

use crate::born::has_unborn;
use crate::given::Given;
use crate::numbered::Numbered;
use crate::scene::Scene;
use crate::telling::{Turn, hear, made_ready, retell};
use mech_rows::{Refusal, Step};
use node_desk::{Live, given_up};
use std::alloc::Global;
use term_values::Term;
use text_hooks::{Hook, RoleState};

/// The run of that number, from 1.
fn numbered(runs: &[Numbered], run: u32) -> Option<Numbered>
    ensures { result ≡ run_in runs.now run }
{
    if run == 0 {
        return None;
    }
    runs.get(run as usize - 1).copied()
}

/// Whether the attacker can deliver the term.
fn check_term(scene: &Scene, term: &Term) -> Result<(), Refusal>
    ensures derivable { OnOk result (Derivable scene.now.knowledge.given term.now) }
    ensures is_born { OnOk result (HasUnborn scene.now.draws.place term.now → ⊥) }
    ensures refused { IfErr result (λ e. ((Derivable scene.now.knowledge.given term.now → ⊥)
        × (e ≡ NotDerivable)) ⊎ (Derivable scene.now.knowledge.given term.now
        × HasUnborn scene.now.draws.place term.now × (e ≡ Unborn))) }
    ensures memory { IfErr result (λ e. e ≢ Memory) }
{
    match scene.knowledge.derives(term) {
        Ok(true) => {}
        Ok(false) => return Err(Refusal::NotDerivable),
        Err(_) => unreachable!(),
    }
    if has_unborn(term, scene.draws.count()) {
        return Err(Refusal::Unborn);
    }
    Ok(())
}

/// Enters a step of the run at that place, and keeps what it says and leaves.
///
/// # Errors
///
/// The first refusal of a received stamp; want of memory. Nothing has changed then.
pub(crate) fn enter_step(
    alloc: Global,
    scene: &mut Scene,
    place: usize,
    id: Numbered,
    step: Step<Live>,
) -> Result<Given, Refusal>
    requires kept { IsKept scene.old }
    requires numbered { slice_get scene.old.runs.items place ≡ Some id }
    requires may { MayCommit (desk_in (view_of scene.old) id.party) id.number step }
    requires ready { IsReady (view_of scene.old) id.party step }
    requires few { length (sent_in scene.old.parties.acts) < 4_294_967_295 }
    requires passes { step.before.next < 255 }
    requires room { length scene.old.runs.items < scene.old.parties.room }
    ensures kept { IsKept scene.new }
    ensures ok { IfOk result (λ g. IsEntered (view_of scene.old) id step g (view_of scene.new)) }
    ensures refused { IfErr result (λ e. e ≢ Memory →
        got_refusal (node_at (desk_in (view_of scene.old) id.party))
        (clock_in (view_of scene.old) id.party) step.got ≡ Some e) }
    ensures err { OnErr result (view_of scene.new ≡ view_of scene.old) }
    ensures room { OnErr result (scene.new.parties.room ≡ scene.old.parties.room) }
{
    let pass = step.before.next() + 1;
    let history = &mut scene.history;
    let Ok(turn) = made_ready(alloc, &mut scene.knowledge, &mut history.sent, &step) else {
        return Err(given_up(step, Refusal::Memory));
    };
    if let Err(refusal) = scene.parties.enter(id.party, id.run, step) {
        return Err(given_up(turn, refusal));
    }
    let Turn { reply, notes, done } = turn;
    let sent = hear(&mut scene.knowledge, &mut history.sent, reply);
    retell(&mut history.happened, place, notes, done);
    Ok(Given { pass, sent, done })
}

/// Makes the step by which a run takes a term that may be delivered to it.
fn answer(
    alloc: Global,
    scene: &mut Scene,
    hook: &Hook,
    id: Numbered,
    term: &Term,
) -> Result<Step<Live>, Refusal>
    requires kept { IsKept scene.old }
    requires numbered { Among id scene.old.runs.items }
    requires limits { IsInLimits term.now }
    requires derivable { Derivable scene.old.knowledge.given term.now }
    requires is_born { HasUnborn scene.old.draws.place term.now → ⊥ }
    requires few { scene.old.draws.place < 18_446_744_073_709_551_600 }
    requires room { length scene.old.runs.items + 1 < scene.old.parties.room }
    ensures kept { IsKept scene.new }
    ensures ok { IfOk result (λ step. IsMadeOf (allowed hook.now.rules.items) (view_of scene.old)
        (view_of scene.new) id term.now step) }
    ensures refused { IfErr result (λ e. e ≢ Memory →
        IsUnanswered (allowed hook.now.rules.items) (view_of scene.old) id term.now e) }
    ensures stays { IfErr result (λ e. e ≢ Memory → view_of scene.new ≡ view_of scene.old) }
    ensures left { OnErr result (IsBrokenOff
        (HasTaken (allowed hook.now.rules.items) (view_of scene.old) id term.now)
        (view_of scene.old) (view_of scene.new) id.party) }
    ensures room { OnOk result (length scene.new.runs.items < scene.new.parties.room) }
{
    scene
        .parties
        .make_step(alloc, hook, &mut scene.draws, id.party, id.run, term)
}

/// Gives a term to a run as its next message.
///
/// # Errors
///
/// The first that holds: `NotDerivable`, `Unborn`, `UnknownRun`, `EndedRun`, `WrongPass`; of each
/// part of the message `Unopened`, `WrongShape`, `WrongNames`, `WrongValue`; `TextRefused`;
/// `StampsSpent`; of each received stamp `WrongStampKind`, `Early`, `Late`, `Repeated`,
/// `StoreFull`. Want of memory, only where the term may be delivered and there is a run of that
/// number.
pub(crate) fn give_in(
    alloc: Global,
    scene: &mut Scene,
    hook: &Hook,
    run: u32,
    term: &Term,
) -> Result<Given, Refusal>
    requires kept { IsKept scene.old }
    requires limits { IsInLimits term.now }
    requires numbers { HasNumbers (view_of scene.old) }
    ensures kept { IsKept scene.new }
    ensures ok { IfOk result (λ g. IsGiven (allowed hook.now.rules.items)
        (view_of scene.old) run term.now g (view_of scene.new)) }
    ensures refused { IfErr result (λ e. e ≢ Memory →
        IsGiveRefused (allowed hook.now.rules.items) (view_of scene.old) run term.now e
        (view_of scene.new)) }
    ensures left { result ≡ Err Memory → IsGiveLeft (allowed hook.now.rules.items)
        (view_of scene.old) run term.now (view_of scene.new) }
    ensures memory { result ≡ Err Memory → MayBeGiven (view_of scene.old) run term.now }
    ensures grows { HasGrown (view_of scene.old) (view_of scene.new) }
{
    check_term(scene, term)?;
    let Some(id) = numbered(&scene.runs, run) else {
        return Err(Refusal::UnknownRun);
    };
    scene.parties.reserve(scene.runs.len() + 2)?;
    let step = answer(alloc, scene, hook, id, term)?;
    enter_step(alloc, scene, run as usize - 1, id, step)
}

/// Drops an open run. Takes no memory.
///
/// # Errors
///
/// `UnknownRun` and `EndedRun`, each exactly where it holds; nothing has changed then.
pub(crate) fn drop_in(scene: &mut Scene, run: u32) -> Result<(), Refusal>
    requires kept { IsKept scene.old }
    ensures kept { IsKept scene.new }
    ensures drops { Drops (view_of scene.old) run result (view_of scene.new) }
{
    let Some(id) = numbered(&scene.runs, run) else {
        return Err(Refusal::UnknownRun);
    };
    if !scene.parties.drop_run(id.party, id.run) {
        return Err(Refusal::EndedRun);
    }
    Ok(())
}
