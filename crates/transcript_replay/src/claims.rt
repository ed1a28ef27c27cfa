ghost use Rattle.std.specs.Prelude.{◌≡◌, ◌+◌, ◌++◌, ◌<◌, ◌^◌, OnOk, Some, is_some, option_map};
ghost use Rattle.std.specs.List.{list_any};
ghost use Rattle.std.specs.Option.{option_copied};
ghost use Rattle.mech_rows.specs.Rows.{agreed_of};
ghost use Rattle.world_run.specs.Views.{shown_of, told_by};
ghost use Rattle.transcript_replay.specs.Completions.{agreeing_with as agreeing_run};
ghost use Rattle.transcript_replay.specs.Completions.{claim_of as claim_by, done_text};
ghost use Rattle.transcript_replay.specs.Completions.{has_claim as claims, is_pair_of as pair_of};
ghost use Rattle.transcript_replay.specs.Completions.{is_revealed as head_revealed, message_text};
ghost use Rattle.transcript_replay.specs.Completions.{numbered};

use crate::printed::{put_done, put_sent};
use agreement_laws::{Happened, History, partner};
use mech_rows::{RunHead, agreed};
use std::alloc::Global;
use term_values::{Name, OutOfMemory, Term};

/// Whether the pair is of these two names, in either order.
fn is_pair_of(pair: &(Name, Name), one: Name, other: Name) -> bool
    ensures { result ≡ pair_of one other pair.now }
{
    let same = pair.0.get() == one.get() && pair.1.get() == other.get();
    same || (pair.0.get() == other.get() && pair.1.get() == one.get())
}

/// Whether one of the pairs is of these two names.
fn has_pair(pairs: &[(Name, Name)], one: Name, other: Name) -> bool
    ensures { result ≡ list_any (pair_of one other) pairs.now }
{
    pairs.iter().any(|pair| is_pair_of(pair, one, other))
}

/// Whether a long-term pair of the run's row is revealed.
fn is_revealed(revealed: &[(Name, Name)], head: &RunHead) -> bool
    ensures { result ≡ head_revealed revealed.now head.now }
{
    match head.p {
        None => has_pair(revealed, head.a, head.b),
        Some(p) => has_pair(revealed, head.a, p) || has_pair(revealed, head.b, p),
    }
}

/// Whether the role of a run agrees on something.
#[tactic(auto, using(crate::proofs::Partners::some_filled))]
fn agrees_on_some(head: &RunHead) -> bool
    ensures { result ≡ is_some (agreed_of head.now.mech head.now.role) }
{
    agreed(head.mech, head.role).is_some()
}

/// Whether a run that is done has a claim.
fn has_claim(history: &History, head: &RunHead) -> bool
    ensures { result ≡ claims (told_by history.now) head.now }
{
    agrees_on_some(head) && !is_revealed(history.revealed.as_slice(), head)
}

/// The first run that agrees with a completed one.
#[tactic(auto, using(crate::proofs::Partners::partner_is))]
fn agreeing_with(history: &History, done: &Happened) -> Option<u32>
    ensures { result ≡ agreeing_run (told_by history.now) (shown_of done.now) }
{
    partner(history, done)
}

/// What a completed run claims: None for no claim; otherwise the partner that it has, or none.
fn claim_of(history: &History, done: &Happened) -> Option<Option<u32>>
    ensures { result ≡ claim_by (told_by history.now) (shown_of done.now) }
{
    if !has_claim(history, &done.head) {
        return None;
    }
    Some(agreeing_with(history, done))
}

/// Run number `run` of these, from 1.
fn numbered_run(runs: &[Happened], run: u32) -> Option<&Happened>
    ensures { option_copied result ≡ numbered runs.now run }
{
    if run == 0 {
        return None;
    }
    runs.get(run as usize - 1)
}

/// Run number `run` of a history.
#[tactic(auto, using(crate::proofs::Partners::numbered_shown))]
fn happened_at(history: &History, run: u32) -> Option<&Happened>
    ensures { option_map shown_of (option_copied result) ≡ numbered
        (told_by history.now).happened run }
{
    numbered_run(history.happened.as_slice(), run)
}

/// Appends the line of a run, where it is done.
fn put_run_end(
    alloc: Global,
    out: &mut Vec<u8>,
    history: &History,
    run: &Happened,
) -> Result<(), OutOfMemory>
    ensures { OnOk result (out.new.items ≡ out.old.items ++ done_text (told_by history.now)
        (Some (shown_of run.now))) }
{
    if !run.done {
        return Ok(());
    }
    let claim = claim_of(history, run);
    put_done(alloc, out, run.run, &run.head, claim)
}

/// Appends the line of run number `run`, where it is done.
pub(crate) fn put_end(
    alloc: Global,
    out: &mut Vec<u8>,
    history: &History,
    run: u32,
) -> Result<(), OutOfMemory>
    ensures { OnOk result (out.new.items ≡ out.old.items ++ done_text (told_by history.now)
        (numbered (told_by history.now).happened run)) }
{
    match happened_at(history, run) {
        Some(happened) => put_run_end(alloc, out, history, happened),
        None => Ok(()),
    }
}

/// Appends the line of the message that was sent after so many, where one was.
pub(crate) fn put_message(
    alloc: Global,
    out: &mut Vec<u8>,
    sent: &[Term],
    before: usize,
    run: u32,
) -> Result<(), OutOfMemory>
    requires room { before < 2 ^ 32 }
    ensures { OnOk result (out.new.items ≡ out.old.items ++ message_text (before + 1) run
        (numbered sent.now (before + 1))) }
{
    match sent.get(before) {
        Some(term) => put_sent(alloc, out, before + 1, run, term),
        None => Ok(()),
    }
}
