ghost use Rattle.std.specs.Prelude.{◌≡◌, ◌+◌, ◌<◌, ◌++◌, Some, length, IfOk, IfSome, OnOk};
ghost use Rattle.std.specs.Prelude.{option_map, slice_set, slice_index_or, vec_len, vec_capacity};
ghost use Rattle.std.specs.Option.{option_to_list};
ghost use Rattle.mech_rows.specs.Notes.{terms_of};
ghost use Rattle.mech_rows.specs.Replies.{in_order};
ghost use Rattle.agreement_laws.specs.declared.history.Happened.{Happened as HappenedOf};
ghost use Rattle.world_run.specs.Views.{is_over};

use agreement_laws::Happened;
use attacker_model::Knowledge;
use mech_rows::{Notes, Step};
use node_desk::{Live, reply_of};
use std::alloc::Global;
use term_values::{OutOfMemory, Term};
use text_hooks::RoleState;

/// What a step says, and what the history keeps of the run after it.
#[derive(Drop)]
pub(crate) struct Turn {
    pub reply: Option<Term>,
    pub notes: Notes,
    pub done: bool,
}

/// What is told of a step.
fn turn_of(alloc: Global, step: &Step<Live>) -> Result<Turn, OutOfMemory>
    ensures reply { IfOk result (λ t. t.reply ≡ step.now.reply) }
    ensures notes { IfOk result (λ t. terms_of t.notes ≡ in_order step.now.after.notes) }
    ensures done { IfOk result (λ t. t.done ≡ is_over step.now.after) }
{
    let reply = reply_of(alloc, step)?;
    let notes = step.after.notes(alloc)?;
    let done = step.after.is_done();
    Ok(Turn { reply, notes, done })
}

/// Takes the memory that learning the reply needs.
fn ready_for(
    alloc: Global,
    knowledge: &mut Knowledge,
    reply: &Option<Term>,
) -> Result<(), OutOfMemory>
    ensures given { knowledge.new.given ≡ knowledge.old.given }
    ensures due { OnOk result (IfSome reply.now (λ t. knowledge.new.due ≡ Some t)) }
{
    match reply {
        Some(reply) => knowledge.ready(alloc, reply),
        None => Ok(()),
    }
}

/// Takes the memory that telling of the step needs, and answers what is told.
pub(crate) fn made_ready(
    alloc: Global,
    knowledge: &mut Knowledge,
    sent: &mut Vec<Term>,
    step: &Step<Live>,
) -> Result<Turn, OutOfMemory>
    ensures reply { IfOk result (λ t. t.reply ≡ step.now.reply) }
    ensures notes { IfOk result (λ t. terms_of t.notes ≡ in_order step.now.after.notes) }
    ensures done { IfOk result (λ t. t.done ≡ is_over step.now.after) }
    ensures given { knowledge.new.given ≡ knowledge.old.given }
    ensures sent { sent.new.items ≡ sent.old.items }
    ensures due { IfOk result (λ t. IfSome t.reply (λ reply. knowledge.new.due ≡ Some reply)) }
    ensures room { OnOk result (vec_len sent.new < vec_capacity sent.new) }
    ensures len { vec_len sent.new ≡ vec_len sent.old }
{
    let turn = turn_of(alloc, step)?;
    sent.reserve(1)?;
    ready_for(alloc, knowledge, &turn.reply)?;
    Ok(turn)
}

/// Learns the reply and keeps it among the messages, for which there is room, and answers its
/// number. Takes no memory.
pub(crate) fn hear(
    knowledge: &mut Knowledge,
    sent: &mut Vec<Term>,
    reply: Option<Term>,
) -> Option<u32>
    requires due { IfSome reply (λ t. knowledge.old.due ≡ Some t) }
    requires room { vec_len sent.old < vec_capacity sent.old }
    requires few { vec_len sent.old < 4_294_967_295 }
    ensures given { knowledge.new.given ≡ knowledge.old.given ++ option_to_list reply }
    ensures sent { sent.new.items ≡ sent.old.items ++ option_to_list reply }
    ensures number { result ≡ option_map (λ _. vec_len sent.old + 1) reply }
{
    let reply = reply?;
    knowledge.learn_due();
    sent.push_reserved(reply);
    Some(sent.len() as u32)
}

/// Keeps what the run at that place has come to.
pub(crate) fn retell(happened: &mut Vec<Happened>, place: usize, notes: Notes, done: bool)
    requires within { place < vec_len happened.old }
    ensures kept { (d : HappenedOf) → happened.new.items ≡ slice_set happened.old.items place
        (record (slice_index_or happened.old.items place d) { notes = notes; done = done }) }
{
    let run = &mut happened[place];
    run.notes = notes;
    run.done = done;
}
