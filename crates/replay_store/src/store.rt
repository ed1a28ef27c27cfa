ghost use Rattle.std.specs.Prelude.{◌≡◌, ◌+◌, ◌<◌, ◌≤◌, ◌++◌, ◌∷◌, [], ℕ, List, max, OnOk};
ghost use Rattle.replay_store.specs.Stamps.{Accepted, accept, stamp_verdict};
ghost use Rattle.replay_store.specs.Stores.{restored};

use crate::verdict::Verdict;
use term_values::{Name, OutOfMemory, Stamp, StampKind, Tag};

/// Keeps what is needed to judge the stamps that are received. Every moment is in milliseconds.
///
/// What a store says is said over the whole list of the stamps that were accepted, from which nothing is ever taken.
/// A store that forgets what no verdict needs meets the same clauses.
pub trait Store: Drop {
    /// How many milliseconds a time may lie before or after now.
    ghost window: { Self → ℕ };

    /// The latest moment that the store was told.
    ghost now: { Self → ℕ };

    /// How many records need no memory.
    ghost spare: { Self → ℕ };

    /// Holds where these may be all stamps that the store has accepted.
    ghost stands_for: { Self → List Accepted → Type 0 };

    /// Now becomes the greater of itself and the clock; answers it. Takes no memory.
    fn tick(&mut self, clock: u64) -> u64
        ensures answer { result ≡ max (now self.old) clock }
        ensures moved { now self.new ≡ max (now self.old) clock }
        ensures stays { (accepted : List Accepted) → stands_for self.old accepted →
            stands_for self.new accepted }
        ensures window { window self.new ≡ window self.old }
        ensures room { spare self.old ≤ spare self.new };

    /// Takes the memory of so many records.
    ///
    /// # Errors
    ///
    /// [`OutOfMemory`] for want of memory alone; then nothing but the spare room may have changed.
    fn reserve(&mut self, more: usize) -> Result<(), OutOfMemory>
        ensures room { OnOk result (more ≤ spare self.new) }
        ensures kept { spare self.old ≤ spare self.new }
        ensures stays { (accepted : List Accepted) → stands_for self.old accepted →
            stands_for self.new accepted }
        ensures window { window self.new ≡ window self.old }
        ensures moment { now self.new ≡ now self.old };

    /// The verdict on a stamp at the greater of now and the clock. Takes no memory.
    fn probe(&self, clock: u64, kind: StampKind, sender: Name, tag: &Tag, stamp: &Stamp) -> Verdict
        ensures verdict { (accepted : List Accepted) → stands_for self.now accepted →
            result ≡ stamp_verdict (window self.now)
            (max (now self.now) clock) accepted kind sender tag.now stamp.now };

    /// Adds this stamp to those that were accepted, and nothing else. Takes no memory.
    fn record(&mut self, kind: StampKind, sender: Name, tag: &Tag, stamp: &Stamp)
        requires { 0 < spare self.old }
        ensures added { (accepted : List Accepted) → stands_for self.old accepted →
            stands_for self.new (accepted ++ accept sender tag.now stamp.now ∷ []) }
        ensures room { spare self.old ≤ spare self.new + 1 }
        ensures window { window self.new ≡ window self.old }
        ensures moment { now self.new ≡ now self.old };

    /// Adds this stamp to those that were accepted where it isn't among them, whatever its verdict. Takes no memory.
    fn restore(&mut self, sender: Name, tag: &Tag, stamp: &Stamp)
        requires { 0 < spare self.old }
        ensures added { (accepted : List Accepted) → stands_for self.old accepted →
            stands_for self.new (restored accepted (accept sender tag.now stamp.now)) }
        ensures room { spare self.old ≤ spare self.new + 1 }
        ensures window { window self.new ≡ window self.old }
        ensures moment { now self.new ≡ now self.old };

    /// A store with the same window, whose now is 0, that has accepted nothing. Takes no memory.
    fn emptied(&self) -> Self
        ensures empty { stands_for result [] }
        ensures window { window result ≡ window self.now }
        ensures moment { now result ≡ 0 };
}
