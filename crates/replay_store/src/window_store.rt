ghost use Rattle.std.specs.Prelude.{◌≡◌, ◌+◌, ◌^◌, ◌<◌, ◌≤◌, [], ℕ, Bool, List, not, count_by};
ghost use Rattle.std.specs.Prelude.{cond, get_or, length, ◌&&◌};
ghost use Rattle.std.specs.HashMap.{spare};
ghost use Rattle.replay_store.specs.Stamps.{Accepted, live, number_of};
ghost use Rattle.replay_store.specs.Windows.{IsPair, Recalls, SeesOneMore, has_key, held_verdict};
ghost use Rattle.replay_store.specs.Windows.{key_of, kept_count, number_by_seen, pair_of};
ghost use Rattle.replay_store.specs.Windows.{time_by_keys};

use crate::judged::{is_live, judge_number, judge_time};
use crate::ranked::Ranked;
use crate::seen::Seen;
use crate::store::Store;
use crate::verdict::Verdict;
use std::alloc::Global;
use std::collections::HashMap;
use std::marker::Model;
use term_values::{Name, OutOfMemory, Stamp, StampKind, Tag};

/// The store that forgets: it keeps the live times, and for each sender and tag the greatest sequence number with
/// the window below it. As now rises it forgets each time that isn't live any more. Times stand in a balanced tree,
/// and sequence numbers are found by a hash of their sender and tag.
#[derive(Drop)]
pub struct WindowStore {
    window: u32,
    now: u64,
    times: Ranked,
    numbers: HashMap<u64, Seen>,
}

impl Model for WindowStore {
    ghost use Rattle.std.specs.Prelude.{min};
    ghost use Rattle.std.specs.HashMap.{spare};
    ghost use Rattle.replay_store.specs.Windows.{Windowed};

    ghost Value = { Windowed };

    ghost view = { λ s. record {
      window = s.window;
      now = s.now;
      times = s.times.keys;
      numbers = s.numbers.entries;
      spare = min s.times.room (spare s.numbers);
    } };
}

/// Each byte is below 256.
fn see_bytes(bytes: &[u8])
    ensures { (i : ℕ) → get_or bytes.now i 0 < 256 }
{
    let _bytes = bytes;
}

/// The number of a stamp fits its type.
fn see_number(stamp: &Stamp)
    ensures { number_of stamp.now < 2 ^ 64 }
{
    let (Stamp::Time(_number) | Stamp::Seq(_number)) = *stamp;
}

/// The number of a sender and a tag.
fn pair_number(sender: Name, tag: &Tag) -> u64
    ensures number { result ≡ pair_of sender tag.now }
    ensures pair { IsPair sender tag.now }
{
    see_bytes(tag.list());
    u64::from(sender.get()) * (1 << 32) + u64::from(u32::from_be_bytes(tag.0))
}

/// The key of a time of a pair.
fn time_key(pair: u64, time: u64) -> u128
    ensures { result ≡ key_of pair time }
{
    u128::from(pair) * (1 << 64) + u128::from(time)
}

/// What is said of a time of a pair.
fn judge_held_time(times: &Ranked, window: u32, now: u64, pair: u64, time: u64) -> Verdict
    ensures { result ≡ time_by_keys window now pair time times.now.keys }
{
    let key = time_key(pair, time);
    let found = times.below(key) < times.up_to(key);
    let oldest = now.saturating_sub(u64::from(window));
    let count = times.up_to(time_key(pair, u64::MAX)) - times.below(time_key(pair, oldest));
    judge_time(window, now, time, found, count)
}

/// What is said of a sequence number, by what was seen of its pair.
fn judge_seen(seen: Option<Seen>, number: u64) -> Verdict
    ensures { result ≡ number_by_seen seen number }
{
    match seen {
        None => judge_number(None, number, false),
        Some(seen) => judge_number(Some(seen.greatest), number, seen.has(number)),
    }
}

/// What is said of a stamp of a pair.
fn judge_held(
    times: &Ranked,
    seen: Option<Seen>,
    window: u32,
    now: u64,
    kind: StampKind,
    pair: u64,
    stamp: &Stamp,
) -> Verdict
    ensures { result ≡ held_verdict window now kind pair stamp.now times.now.keys seen }
{
    match (kind, *stamp) {
        (StampKind::Time, Stamp::Time(time)) => judge_held_time(times, window, now, pair, time),
        (StampKind::Seq, Stamp::Seq(number)) => judge_seen(seen, number),
        _ => Verdict::WrongStampKind,
    }
}

/// Adds a time of a pair, where it is live.
fn add_time(times: &mut Ranked, window: u32, now: u64, pair: u64, time: u64)
    requires { 0 < times.old.room }
    ensures added { (p : ℕ → Bool) → count_by p times.new.keys ≡ count_by p times.old.keys + cond
        (live window now time && p (key_of pair time)) 1 0 }
    ensures room { times.old.room ≤ times.new.room + 1 }
{
    if is_live(window, now, time) {
        times.add(time_key(pair, time));
    }
}

/// Adds a time of a pair, where it is live and isn't there.
fn restore_time(times: &mut Ranked, window: u32, now: u64, pair: u64, time: u64)
    requires { 0 < times.old.room }
    ensures added { (p : ℕ → Bool) → count_by p times.new.keys ≡ count_by p times.old.keys + cond
        (live window now time && not (has_key (key_of pair time) times.old.keys) && p
        (key_of pair time)) 1 0 }
    ensures room { times.old.room ≤ times.new.room + 1 }
{
    let key = time_key(pair, time);
    if times.below(key) == times.up_to(key) {
        add_time(times, window, now, pair, time);
    }
}

/// Adds a sequence number of a pair.
fn add_number(numbers: &mut HashMap<u64, Seen>, pair: u64, number: u64)
    requires { 0 < spare numbers.old }
    ensures added { SeesOneMore pair number numbers.old.entries numbers.new.entries }
    ensures room { spare numbers.old ≤ spare numbers.new + 1 }
{
    let seen = match numbers.get(&pair) {
        Some(seen) => seen.with(number),
        None => Seen::first(number),
    };
    let _placed = numbers.insert(pair, seen);
}

impl WindowStore {
    /// A store with a window of so many milliseconds, whose now is 0, that has accepted nothing. Takes no memory.
    pub fn new(alloc: Global, window: u32) -> WindowStore
        requires { window ≤ 600_000 }
        ensures window { result.window ≡ window }
        ensures now { result.now ≡ 0 }
        ensures empty { Recalls result [] }
    {
        WindowStore {
            window,
            now: 0,
            times: Ranked::new(alloc),
            numbers: HashMap::new(alloc),
        }
    }

    /// How many records the store holds: one for each live time, and one for each sender and tag of which
    /// a sequence number was accepted. Takes no memory.
    pub fn kept(&self) -> usize
        ensures held { let s = self.entry.now in result ≡ length s.times + length s.numbers }
        ensures needed { let s = self.entry.now in (accepted : List Accepted) → Recalls s accepted →
            result ≡ kept_count s.window s.now accepted }
    {
        self.times.len() + self.numbers.len()
    }
}

impl Store for WindowStore {
    ghost use Rattle.replay_store.specs.Windows.{Recalls};

    ghost window = { λ s. s.window };

    ghost now = { λ s. s.now };

    ghost spare = { λ s. s.spare };

    ghost stands_for = { Recalls };

    fn tick(&mut self, clock: u64) -> u64 {
        if clock > self.now {
            self.now = clock;
            let oldest = clock.saturating_sub(u64::from(self.window));
            self.times.forget_before(oldest);
        }
        self.now
    }

    fn reserve(&mut self, more: usize) -> Result<(), OutOfMemory> {
        self.times.reserve(more)?;
        self.numbers.reserve(more)
    }

    fn probe(
        &self,
        clock: u64,
        kind: StampKind,
        sender: Name,
        tag: &Tag,
        stamp: &Stamp,
    ) -> Verdict {
        let now = self.now.max(clock);
        see_number(stamp);
        let pair = pair_number(sender, tag);
        let seen = self.numbers.get(&pair).copied();
        judge_held(&self.times, seen, self.window, now, kind, pair, stamp)
    }

    fn record(&mut self, _kind: StampKind, sender: Name, tag: &Tag, stamp: &Stamp) {
        see_number(stamp);
        let pair = pair_number(sender, tag);
        match *stamp {
            Stamp::Time(time) => add_time(&mut self.times, self.window, self.now, pair, time),
            Stamp::Seq(number) => add_number(&mut self.numbers, pair, number),
        }
    }

    fn restore(&mut self, sender: Name, tag: &Tag, stamp: &Stamp) {
        see_number(stamp);
        let pair = pair_number(sender, tag);
        match *stamp {
            Stamp::Time(time) => restore_time(&mut self.times, self.window, self.now, pair, time),
            Stamp::Seq(number) => add_number(&mut self.numbers, pair, number),
        }
    }

    fn emptied(&self) -> WindowStore {
        WindowStore {
            window: self.window,
            now: 0,
            times: self.times.emptied(),
            numbers: HashMap::new(self.times.allocator()),
        }
    }
}
