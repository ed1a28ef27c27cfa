ghost use Rattle.std.specs.Prelude.{◌≡◌, length};
ghost use Rattle.std.specs.List.{list_any};
ghost use Rattle.replay_store.specs.Stamps.{accept, live_times, number_verdict, numbers};
ghost use Rattle.replay_store.specs.Stamps.{stamp_verdict, time_verdict};
ghost use Rattle.replay_store.specs.Stores.{greatest_after, greatest_number, is_live_at};
ghost use Rattle.replay_store.specs.Stores.{is_number_at, same_accepted};

use crate::entry::Entry;
use crate::judged::{judge_number, judge_time};
use crate::verdict::Verdict;
use term_values::{Name, Stamp, StampKind, Tag};

/// Whether that time of that sender and tag was accepted and is live.
pub(crate) fn has_live(
    entries: &[Entry],
    window: u32,
    now: u64,
    sender: Name,
    tag: &Tag,
    time: u64,
) -> bool
    ensures { result ≡ list_any (λ a. is_live_at window now sender tag.now time a) entries.now }
{
    entries.iter().any(|x| x.is_from(sender, tag) && x.is_time(time) && x.is_live_time(window, now))
}

/// How many times of that sender and tag are live.
#[tactic(auto, using(crate::proofs::Found::count_live))]
pub(crate) fn live_count(entries: &[Entry], window: u32, now: u64, sender: Name, tag: &Tag) -> usize
    ensures { result ≡ length (live_times window now sender tag.now entries.now) }
{
    entries
        .iter()
        .filter(|x| x.is_from(sender, tag) && x.is_live_time(window, now))
        .count()
}

/// Whether that sequence number of that sender and tag was accepted.
pub(crate) fn has_number(entries: &[Entry], sender: Name, tag: &Tag, number: u64) -> bool
    ensures { result ≡ list_any (λ a. is_number_at sender tag.now number a) entries.now }
{
    entries
        .iter()
        .any(|x| x.is_from(sender, tag) && x.is_number(number))
}

/// The greatest sequence number of that sender and tag after one more stamp.
#[tactic(auto)]
fn greatest_after(most: Option<u64>, x: &Entry, sender: Name, tag: &Tag) -> Option<u64>
    ensures { result ≡ greatest_after sender tag.now most x.now }
{
    if !x.is_from(sender, tag) {
        return most;
    }
    match (most, x.number()) {
        (None, number) => number,
        (Some(_), None) => most,
        (Some(a), Some(b)) => Some(a.max(b)),
    }
}

/// The greatest sequence number of that sender and tag that was accepted.
#[tactic(auto, using(crate::proofs::Found::greatest_more, crate::proofs::Found::greatest_end))]
pub(crate) fn greatest(entries: &[Entry], sender: Name, tag: &Tag) -> Option<u64>
    ensures { result ≡ greatest_number (numbers sender tag.now entries.now) }
{
    let mut most = None;
    for x in entries {
        most = greatest_after(most, x, sender, tag);
    }
    most
}

/// Whether that stamp of that sender and tag was accepted.
pub(crate) fn has_same(entries: &[Entry], sender: Name, tag: &Tag, stamp: &Stamp) -> bool
    ensures { result ≡ list_any (λ a. same_accepted
        (accept sender tag.now stamp.now) a) entries.now }
{
    match *stamp {
        Stamp::Time(time) => entries
            .iter()
            .any(|x| x.is_from(sender, tag) && x.is_time(time)),
        Stamp::Seq(number) => entries
            .iter()
            .any(|x| x.is_from(sender, tag) && x.is_number(number)),
    }
}

/// What is said of a time, where these stamps were accepted.
fn judge_as_time(
    entries: &[Entry],
    window: u32,
    now: u64,
    sender: Name,
    tag: &Tag,
    time: u64,
) -> Verdict
    ensures { result ≡ time_verdict window now
        (live_times window now sender tag.now entries.now) time }
{
    let found = has_live(entries, window, now, sender, tag, time);
    let count = live_count(entries, window, now, sender, tag);
    judge_time(window, now, time, found, count)
}

/// What is said of a sequence number, where these stamps were accepted.
fn judge_as_number(entries: &[Entry], sender: Name, tag: &Tag, number: u64) -> Verdict
    ensures { result ≡ number_verdict (numbers sender tag.now entries.now) number }
{
    let found = has_number(entries, sender, tag, number);
    judge_number(greatest(entries, sender, tag), number, found)
}

/// What is said of a stamp, where these stamps were accepted.
pub(crate) fn judge(
    entries: &[Entry],
    window: u32,
    now: u64,
    kind: StampKind,
    sender: Name,
    tag: &Tag,
    stamp: &Stamp,
) -> Verdict
    ensures { result ≡ stamp_verdict window now entries.now kind sender tag.now stamp.now }
{
    match (kind, *stamp) {
        (StampKind::Time, Stamp::Time(time)) => {
            judge_as_time(entries, window, now, sender, tag, time)
        }
        (StampKind::Seq, Stamp::Seq(number)) => judge_as_number(entries, sender, tag, number),
        _ => Verdict::WrongStampKind,
    }
}
