ghost use Rattle.std.specs.Prelude.{◌≡◌, true, ◌+◌, ◌<◌, ◌^◌, ◌++◌, IfOk, OnOk};
ghost use Rattle.tagged_codec.specs.Grammar.{IsInLimits};
ghost use Rattle.text_hooks.specs.Rules.{allowed};
ghost use Rattle.node_desk.specs.Lives.{plays_live};
ghost use Rattle.world_run.specs.Turns.{HasGrown, HasNumbers};
ghost use Rattle.world_run.specs.Views.{sent_in, told_of};
ghost use Rattle.transcript_replay.specs.Answered.{IsClocked, IsDroppedSo, IsGivenSo, IsOpenedSo};
ghost use Rattle.transcript_replay.specs.Completions.{done_text, message_text, numbered};

use crate::claims::{put_end, put_message};
use crate::printed::{print_clock, print_dropped, print_refused, put_run, put_took};
use mech_rows::{Refusal, RunHead, Texts};
use std::alloc::{AllocError, Global};
use term_values::{Name, OutOfMemory, Term};
use text_hooks::Hook;
use world_run::World;

/// Sets a clock; what is printed of it.
#[tactic(auto, using(crate::proofs::Counting::raised_grown))]
pub(crate) fn clock(
    alloc: Global,
    world: &mut World,
    name: Name,
    ms: u64,
) -> Result<Vec<u8>, OutOfMemory>
    ensures done { IfOk result (λ v. IsClocked world.old name ms world.new v.items) }
    ensures grows { HasGrown world.old world.new }
{
    match world.clock(name, ms) {
        Ok(now) => print_clock(alloc, name, now),
        Err(refusal) => print_refused(alloc, &refusal),
    }
}

/// Appends what a run did: the message that it sent after so many, and that it is done.
fn put_doings(
    alloc: Global,
    out: &mut Vec<u8>,
    world: &World,
    before: usize,
    run: u32,
) -> Result<(), OutOfMemory>
    requires room { before < 2 ^ 32 }
    ensures { OnOk result (out.new.items ≡ out.old.items ++
        (message_text (before + 1) run (numbered (sent_in world.now.acts) (before + 1)) ++ done_text
        (told_of world.now) (numbered (told_of world.now).happened run))) }
{
    let history = world.history();
    put_message(alloc, out, history.sent.as_slice(), before, run)?;
    put_end(alloc, out, history, run)
}

/// Opens a run; what is printed of it.
pub(crate) fn open(
    alloc: Global,
    world: &mut World,
    head: &RunHead,
    texts: &Texts,
) -> Result<Vec<u8>, OutOfMemory>
    requires plays { plays_live head.now ≡ true }
    requires numbers { HasNumbers world.old }
    ensures done { IfOk result (λ v. IsOpenedSo world.old head.now texts.now world.new v.items) }
    ensures grows { HasGrown world.old world.new }
{
    let before = world.history().sent.as_slice().len();
    match world.open(head, texts) {
        Ok(opened) => {
            let mut out = Vec::new(alloc);
            put_run(alloc, &mut out, opened.run)?;
            put_doings(alloc, &mut out, world, before, opened.run)?;
            Ok(out)
        }
        Err(Refusal::Memory) => Err(AllocError),
        Err(refusal) => print_refused(alloc, &refusal),
    }
}

/// Gives a term to a run; what is printed of it.
pub(crate) fn give(
    alloc: Global,
    world: &mut World,
    hook: &Hook,
    run: u32,
    term: &Term,
) -> Result<Vec<u8>, OutOfMemory>
    requires limits { IsInLimits term.now }
    requires numbers { HasNumbers world.old }
    ensures done { IfOk result (λ v. IsGivenSo
        (allowed hook.now.rules.items) world.old run term.now world.new v.items) }
    ensures grows { HasGrown world.old world.new }
{
    let before = world.history().sent.as_slice().len();
    match world.give(hook, run, term) {
        Ok(given) => {
            let mut out = Vec::new(alloc);
            put_took(alloc, &mut out, run, given.pass)?;
            put_doings(alloc, &mut out, world, before, run)?;
            Ok(out)
        }
        Err(Refusal::Memory) => Err(AllocError),
        Err(refusal) => print_refused(alloc, &refusal),
    }
}

/// Drops a run; what is printed of it.
#[tactic(auto, using(crate::proofs::Counting::dropped_grown))]
pub(crate) fn drop_run(alloc: Global, world: &mut World, run: u32) -> Result<Vec<u8>, OutOfMemory>
    ensures done { IfOk result (λ v. IsDroppedSo world.old run world.new v.items) }
    ensures grows { HasGrown world.old world.new }
{
    match world.drop(run) {
        Ok(()) => print_dropped(alloc, run),
        Err(refusal) => print_refused(alloc, &refusal),
    }
}
