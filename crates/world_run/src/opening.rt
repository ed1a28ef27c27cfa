ghost use Rattle.std.specs.Prelude.{true, false, ◌≡◌, ◌≢◌, ◌<◌, ◌≤◌, ◌+◌, ◌-◌, None, Some, Err};
ghost use Rattle.std.specs.Prelude.{length, slice_get, take, IfOk, IfErr, OnErr};
ghost use Rattle.mech_rows.specs.Heads.{IsHead, me};
ghost use Rattle.mech_rows.specs.Notes.{terms_of};
ghost use Rattle.mech_rows.specs.Replies.{in_order, sends_first};
ghost use Rattle.mech_rows.specs.declared.refusal.Refusal.TheVariants.{Memory};
ghost use Rattle.agreement_laws.specs.Traces.{RunId};
ghost use Rattle.node_desk.specs.Lives.{plays_live};
ghost use Rattle.world_run.specs.Kept.{HasStepped, IsKept, view_of};
ghost use Rattle.world_run.specs.Makings.{IsBrokenOff, IsNotFirst, SaysFirst};
ghost use Rattle.world_run.specs.Opens.{IsOpened, IsOpenLeft, IsOpenRefused, open_refusal};
ghost use Rattle.world_run.specs.Starts.{HasBegun, HasSpoken, IsListed, IsUnbegun, IsUnlisted};
ghost use Rattle.world_run.specs.Turns.{HasGrown, HasNumbers};
ghost use Rattle.world_run.specs.Views.{is_over, sent_in};

use crate::giving::enter_step;
use crate::numbered::Numbered;
use crate::opened::Opened;
use crate::scene::Scene;
use agreement_laws::Happened;
use mech_rows::{Refusal, RunHead, Texts};
use std::alloc::Global;
use term_values::OutOfMemory;
use text_hooks::RoleState;

/// What the history tells of a run that begins in that state, and whether it says the first
/// message.
fn told_at_first<S: RoleState>(
    alloc: Global,
    state: S,
    head: &RunHead,
    run: u32,
) -> Result<(Happened, bool), OutOfMemory>
    ensures run { IfOk result (λ told. told.0.run ≡ run) }
    ensures head { IfOk result (λ told. told.0.head ≡ head.now) }
    ensures notes { IfOk result (λ told. terms_of told.0.notes ≡ in_order
        (S.state_of state).notes) }
    ensures done { IfOk result (λ told. told.0.done ≡ is_over (S.state_of state)) }
    ensures exposed { IfOk result (λ told. told.0.exposed ≡ false) }
    ensures first { IfOk result (λ told. told.1 ≡ sends_first (S.state_of state)) }
{
    let notes = state.notes(alloc)?;
    let happened = Happened {
        run,
        head: *head,
        notes,
        done: state.is_done(),
        exposed: false,
    };
    Ok((happened, state.sends_first()))
}

/// Gives a run that its party has opened its number, and answers whether it says the first message.
fn enlist(alloc: Global, scene: &mut Scene, head: &RunHead, run: u32) -> Result<bool, Refusal>
    requires kept { IsKept scene.old }
    requires unlisted { IsUnlisted (view_of scene.old) head.now
        (record { party = me head.now; number = run }) }
    requires few { length scene.old.runs.items < 4_294_967_295 }
    requires room { length scene.old.runs.items < scene.old.parties.room }
    ensures kept { IsKept scene.new }
    ensures ok { IfOk result (λ first. IsListed (view_of scene.old)
        (record { party = me head.now; number = run }) first (view_of scene.new)) }
    ensures memory { IfErr result (λ e. e ≡ Memory) }
    ensures err { OnErr result (view_of scene.new ≡ view_of scene.old) }
    ensures room { scene.new.parties.room ≡ scene.old.parties.room }
{
    let party = head.me();
    let number = scene.runs.len() as u32 + 1;
    let state = scene.parties.look(party, run)?;
    let (happened, first) = told_at_first(alloc, state, head, number)?;
    scene.runs.reserve(1)?;
    scene.history.happened.push(happened)?;
    scene.runs.push_reserved(Numbered { party, run });
    Ok(first)
}

/// Lets the last run say its first message.
fn speak(alloc: Global, scene: &mut Scene, id: Numbered) -> Result<Opened, Refusal>
    requires kept { IsKept scene.old }
    requires some { 0 < length scene.old.runs.items }
    requires last { slice_get scene.old.runs.items (length scene.old.runs.items - 1) ≡ Some id }
    requires runs { length scene.old.runs.items < 4_294_967_296 }
    requires messages { length (sent_in scene.old.parties.acts) < 4_294_967_295 }
    requires draws { scene.old.draws.place < 18_446_744_073_709_551_600 }
    requires room { length scene.old.runs.items + 1 < scene.old.parties.room }
    ensures kept { IsKept scene.new }
    ensures ok { IfOk result (λ o. HasSpoken (view_of scene.old) id o (view_of scene.new)) }
    ensures refused { IfErr result (λ e. e ≢ Memory → IsNotFirst (view_of scene.old) id e) }
    ensures stays { IfErr result (λ e. e ≢ Memory → view_of scene.new ≡ view_of scene.old) }
    ensures left { OnErr result (IsBrokenOff (SaysFirst (view_of scene.old) id) (view_of scene.old)
        (view_of scene.new) id.party) }
    ensures room { OnErr result (scene.old.parties.room ≤ scene.new.parties.room + 1) }
{
    let place = scene.runs.len() - 1;
    let step = scene
        .parties
        .make_first(alloc, &mut scene.draws, id.party, id.run)?;
    let given = enter_step(alloc, scene, place, id, step)?;
    Ok(Opened {
        run: place as u32 + 1,
        sent: given.sent,
        done: given.done,
    })
}

/// Takes the number from the last run, which has entered no step.
fn unlist(scene: &mut Scene)
    requires kept { IsKept scene.old }
    requires some { 0 < length scene.old.runs.items }
    requires still { (id : RunId) → slice_get scene.old.runs.items (length scene.old.runs.items - 1)
        ≡ Some id → HasStepped scene.old.parties.acts id → ⊥ }
    requires room { length scene.old.runs.items ≤ scene.old.parties.room }
    ensures kept { IsKept scene.new }
    ensures leaves { view_of scene.new ≡ record
        (view_of scene.old) { runs = take (length scene.old.runs.items - 1) scene.old.runs.items } }
    ensures room { scene.new.parties.room ≡ scene.old.parties.room }
{
    let _run = scene.runs.pop();
    let _happened = scene.history.happened.pop();
}

/// Lets a run that its party has opened begin; where that fails, the run has no number.
fn begin(alloc: Global, scene: &mut Scene, head: &RunHead, run: u32) -> Result<Opened, Refusal>
    requires kept { IsKept scene.old }
    requires unlisted { IsUnlisted (view_of scene.old) head.now
        (record { party = me head.now; number = run }) }
    requires numbers { HasNumbers (view_of scene.old) }
    requires room { length scene.old.runs.items + 2 < scene.old.parties.room }
    ensures kept { IsKept scene.new }
    ensures ok { IfOk result (λ o. HasBegun (view_of scene.old)
        (record { party = me head.now; number = run }) o (view_of scene.new)) }
    ensures refused { IfErr result (λ e. e ≢ Memory →
        IsUnbegun (view_of scene.old) (record { party = me head.now; number = run }) e) }
    ensures stays { IfErr result (λ e. e ≢ Memory → view_of scene.new ≡ view_of scene.old) }
    ensures left { OnErr result (IsBrokenOff
        (SaysFirst (view_of scene.old) (record { party = me head.now; number = run }))
        (view_of scene.old) (view_of scene.new) (me head.now)) }
    ensures room { OnErr result (length scene.old.runs.items < scene.new.parties.room) }
{
    if !enlist(alloc, scene, head, run)? {
        return Ok(Opened {
            run: scene.runs.len() as u32,
            sent: None,
            done: false,
        });
    }
    let party = head.me();
    match speak(alloc, scene, Numbered { party, run }) {
        Ok(opened) => Ok(opened),
        Err(refusal) => {
            unlist(scene);
            Err(refusal)
        }
    }
}

/// The head is one of a role of its mechanism.
fn see_head(head: &RunHead)
    ensures { IsHead head.now }
{
    let _mech = head.mech;
}

/// Opens a run.
///
/// # Errors
///
/// The first that holds of `UnknownParty`, `WrongKind`, `SelfPeer`, `NoKey`, `TableFull` and
/// `StampsSpent`; want of memory, only where none of the first five holds.
pub(crate) fn open_in(
    alloc: Global,
    scene: &mut Scene,
    head: &RunHead,
    texts: &Texts,
) -> Result<Opened, Refusal>
    requires kept { IsKept scene.old }
    requires plays { plays_live head.now ≡ true }
    requires numbers { HasNumbers (view_of scene.old) }
    ensures kept { IsKept scene.new }
    ensures ok { IfOk result (λ o. IsOpened (view_of scene.old) head.now texts.now o
        (view_of scene.new)) }
    ensures refused { IfErr result (λ e. e ≢ Memory →
        IsOpenRefused (view_of scene.old) head.now texts.now e (view_of scene.new)) }
    ensures left { result ≡ Err Memory → IsOpenLeft (view_of scene.old) head.now texts.now
        (view_of scene.new) }
    ensures memory { result ≡ Err Memory → open_refusal (view_of scene.old) head.now ≡ None }
    ensures grows { HasGrown (view_of scene.old) (view_of scene.new) }
{
    let party = head.me();
    if !scene.parties.has(party) {
        return Err(Refusal::UnknownParty);
    }
    if let Some(refusal) = scene.parties.opening_refusal(head) {
        return Err(refusal);
    }
    scene.parties.reserve(scene.runs.len() + 4)?;
    let run = scene.parties.open_run(head, texts)?;
    see_head(head);
    match begin(alloc, scene, head, run) {
        Ok(opened) => Ok(opened),
        Err(refusal) => {
            scene.parties.drop_run(party, run);
            Err(refusal)
        }
    }
}
