ghost use Rattle.std.specs.Prelude.{◌≡◌, ◌-◌, ◌≤◌, [], vec_len, vec_capacity};
ghost use Rattle.replay_store.specs.Stamps.{stamp_verdict};

use crate::entry::Entry;
use crate::scans::{has_same, judge};
use crate::store::Store;
use crate::verdict::Verdict;
use std::alloc::Global;
use std::marker::Model;
use term_values::{Name, OutOfMemory, Stamp, StampKind, Tag};

/// The plain store: it keeps every stamp that it accepted, and looks through all of them.
#[derive(Drop)]
pub struct ListStore {
    window: u32,
    now: u64,
    accepted: Vec<Entry>,
}

impl Model for ListStore {
    ghost use Rattle.std.specs.Prelude.{◌-◌, vec_len, vec_capacity};
    ghost use Rattle.replay_store.specs.Held.{Held};

    ghost Value = { Held };

    ghost view = { λ s. record {
      window = s.window;
      now = s.now;
      accepted = s.accepted.items;
      spare = vec_capacity s.accepted - vec_len s.accepted;
    } };
}

impl ListStore {
    /// A store with a window of so many milliseconds, whose now is 0, that has accepted nothing. Takes no memory.
    pub fn new(alloc: Global, window: u32) -> ListStore
        requires { window ≤ 600_000 }
        ensures window { result.window ≡ window }
        ensures now { result.now ≡ 0 }
        ensures empty { result.accepted ≡ [] }
    {
        ListStore {
            window,
            now: 0,
            accepted: Vec::new(alloc),
        }
    }
}

impl Store for ListStore {
    ghost use Rattle.std.specs.Prelude.{◌≡◌};

    ghost window = { λ s. s.window };

    ghost now = { λ s. s.now };

    ghost spare = { λ s. s.spare };

    ghost stands_for = { λ s accepted. s.accepted ≡ accepted };

    fn tick(&mut self, clock: u64) -> u64 {
        self.now = self.now.max(clock);
        self.now
    }

    fn reserve(&mut self, more: usize) -> Result<(), OutOfMemory> {
        self.accepted.reserve(more)
    }

    fn probe(
        &self,
        clock: u64,
        kind: StampKind,
        sender: Name,
        tag: &Tag,
        stamp: &Stamp,
    ) -> Verdict {
        let now = self.now.max(clock);
        judge(&self.accepted, self.window, now, kind, sender, tag, stamp)
    }

    fn record(&mut self, _kind: StampKind, sender: Name, tag: &Tag, stamp: &Stamp) {
        self.accepted.push_reserved(Entry {
            sender,
            tag: *tag,
            stamp: *stamp,
        });
    }

    fn restore(&mut self, sender: Name, tag: &Tag, stamp: &Stamp) {
        if !has_same(&self.accepted, sender, tag, stamp) {
            self.accepted.push_reserved(Entry {
                sender,
                tag: *tag,
                stamp: *stamp,
            });
        }
    }

    fn emptied(&self) -> ListStore {
        ListStore {
            window: self.window,
            now: 0,
            accepted: Vec::new(*self.accepted.allocator()),
        }
    }
}
