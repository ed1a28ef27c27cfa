ghost use Rattle.std.specs.Prelude.{◌≡◌, ◌≤◌, ◌<◌, ◌+◌, ◌*◌, ◌^◌, ℕ, List, length, IfOk, IfErr};
ghost use Rattle.std.specs.Prelude.{OnOk};
ghost use Rattle.std.specs.Io.KnownBytes.{Appends};
ghost use Rattle.script_text.specs.declared.line.Line.{Line as LineOf};
ghost use Rattle.text_hooks.specs.Rules.{allowed};
ghost use Rattle.world_run.specs.Conditions.{KeepsConditions};
ghost use Rattle.world_run.specs.Views.{sent_in};
ghost use Rattle.world_run.specs.Turns.{HasGrown, HasNumbers};
ghost use Rattle.transcript_replay.specs.Counts.{IsWithin};
ghost use Rattle.transcript_replay.specs.Cuts.{lines_of};
ghost use Rattle.transcript_replay.specs.Ends.{IsBadBy, IsLate, LineEnds, end_of};
ghost use Rattle.transcript_replay.specs.Players.{beginning, started};
ghost use Rattle.transcript_replay.specs.Runs.{Does, Goes, Runs};
ghost use Rattle.transcript_replay.specs.Said.{IsPlayable};
ghost use Rattle.transcript_replay.specs.Stops.{HasStopCause};

use crate::cut::first_line;
use crate::events::{clock, drop_run, give, open};
use crate::reading::{line_of, put_fault, put_text};
use crate::reason::Reason;
use crate::setup::Setup;
use crate::stop::{LineFault, Stop};
use mech_rows::{Mech, Slot};
use outside::Sink;
use script_text::Line;
use std::alloc::Global;
use term_values::OutOfMemory;
use text_hooks::{Hook, Judgement, Rule, judge_by};
use world_run::{BadConfig, Config, World};

/// What a line that is read prints, where it isn't bad.
fn run(alloc: Global, world: &mut World, hook: &Hook, line: Line) -> Result<Vec<u8>, LineFault>
    requires playable { IsPlayable line }
    requires numbers { HasNumbers world.old }
    ensures ok { IfOk result (λ v. Does (started world.old hook.now.rules.items) line
        (started world.new hook.now.rules.items) v.items) }
    ensures bad { IfErr result (IsLate line) }
    ensures grows { HasGrown world.old world.new }
{
    match line {
        Line::Party { .. } | Line::Pair { .. } | Line::Own { .. } | Line::Allow { .. } => {
            Err(LineFault::Bad(Reason::Order))
        }
        Line::Clock { name, ms } => Ok(clock(alloc, world, name, ms)?),
        Line::Open { head, texts } => Ok(open(alloc, world, &head, &texts)?),
        Line::Give { run, term } => Ok(give(alloc, world, hook, run, &term)?),
        Line::Drop { run } => Ok(drop_run(alloc, world, run)?),
        Line::Empty => Ok(Vec::new(alloc)),
    }
}

/// What a line prints, where it isn't bad.
fn answer(alloc: Global, world: &mut World, hook: &Hook, text: &[u8]) -> Result<Vec<u8>, LineFault>
    requires numbers { HasNumbers world.old }
    ensures grows { HasGrown world.old world.new }
    ensures ok { IfOk result (λ v. Goes (started world.old hook.now.rules.items) text.now
        (started world.new hook.now.rules.items) v.items) }
    ensures bad { IfErr result (IsBadBy (started world.old hook.now.rules.items) text.now) }
{
    let line = line_of(alloc, text, world.history().sent.as_slice())?;
    run(alloc, world, hook, line)
}

/// Runs a line and writes what it prints, or that it is bad.
fn play_line<O: Sink>(
    alloc: Global,
    world: &mut World,
    hook: &Hook,
    text: &[u8],
    number: usize,
    out: &mut O,
) -> Result<(), Stop>
    requires numbers { HasNumbers world.old }
    ensures grows { HasGrown world.old world.new }
    ensures ends { LineEnds result number (started world.old hook.now.rules.items) text.now
        (started world.new hook.now.rules.items) (O.put_so_far out.old) (O.put_so_far out.new) }
    ensures cause { HasStopCause (O.fault_count out.old) (O.fault_count out.new) result }
{
    match answer(alloc, world, hook, text) {
        Ok(said) => put_text(out, &said),
        Err(fault) => Err(put_fault(alloc, fault, number, out)),
    }
}

/// Plays lines over a world.
fn play_lines<O: Sink>(
    alloc: Global,
    world: &mut World,
    hook: &Hook,
    text: &[u8],
    first: usize,
    out: &mut O,
) -> Result<(), Stop>
    requires room { first + length text.now ≤ 2 ^ 21 }
    requires within { IsWithin first world.old }
    ensures ends { (written : List ℕ) × Runs first (started world.old hook.now.rules.items)
        (lines_of text.now) (end_of result) written
        × Appends (O.put_so_far out.old) (O.put_so_far out.new) written }
    ensures cause { HasStopCause (O.fault_count out.old) (O.fault_count out.new) result }
{
    let mut rest = text;
    let mut number = first;
    while !rest.is_empty() {
        let (line, after) = first_line(rest);
        play_line(alloc, world, hook, line, number, out)?;
        number += 1;
        rest = after;
    }
    Ok(())
}

/// Equal rules.
fn copied_rules(alloc: Global, rules: &[Rule]) -> Result<Vec<Rule>, OutOfMemory>
    ensures { IfOk result (λ copies. copies.items ≡ rules.now) }
{
    let mut copies = Vec::new(alloc);
    for rule in rules {
        copies.push(rule.copy(alloc)?)?;
    }
    Ok(copies)
}

/// The world of a configuration that keeps the conditions.
fn begun(alloc: Global, config: &Config) -> Result<World, Stop>
    requires kept { KeepsConditions config.now }
    ensures begins { IfOk result (λ w. w ≡ beginning config.now) }
    ensures memory { IfErr result (λ e. e ≡ Stop.Memory) }
{
    match World::new(alloc, config) {
        Ok(world) => Ok(world),
        Err(BadConfig::Condition) => unreachable!(),
        Err(BadConfig::Memory) => Err(Stop::Memory),
    }
}

/// Plays lines over a world under these rules on texts.
fn play_under<O: Sink>(
    alloc: Global,
    world: &mut World,
    rules: Vec<Rule>,
    text: &[u8],
    first: usize,
    out: &mut O,
) -> Result<(), Stop>
    requires room { first + length text.now ≤ 2 ^ 21 }
    requires within { IsWithin first world.old }
    ensures ends { (written : List ℕ) × Runs first (started world.old rules.items)
        (lines_of text.now) (end_of result) written
        × Appends (O.put_so_far out.old) (O.put_so_far out.new) written }
    ensures cause { HasStopCause (O.fault_count out.old) (O.fault_count out.new) result }
{
    let same = copied_rules(alloc, rules.as_slice())?;
    let judgement: Judgement = Box::new(
        alloc,
        move |mech: Mech, slot: Slot, text: &[u8]| judge_by(&same, mech, slot, text),
    )?;
    let hook = Hook::new(rules, judgement);
    play_lines(alloc, world, &hook, text, first, out)
}

/// Plays the lines from the first event line on, whose number is told.
pub(crate) fn play_events<O: Sink>(
    alloc: Global,
    setup: Setup,
    text: &[u8],
    number: usize,
    out: &mut O,
) -> Result<(), Stop>
    requires kept { KeepsConditions setup.config }
    requires room { number + length text.now ≤ 2 ^ 21 }
    ensures ends { (written : List ℕ) × Runs number
        (started (beginning setup.config) setup.rules.items) (lines_of text.now)
        (end_of result) written × Appends (O.put_so_far out.old) (O.put_so_far out.new) written }
    ensures cause { HasStopCause (O.fault_count out.old) (O.fault_count out.new) result }
{
    let mut world = begun(alloc, &setup.config)?;
    play_under(alloc, &mut world, setup.rules, text, number, out)
}
