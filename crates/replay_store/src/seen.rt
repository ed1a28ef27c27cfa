ghost use Rattle.std.specs.Prelude.{◌≡◌, ◌+◌, ◌<◌, ℕ, Bool, Option, max, ◌==◌, ◌||◌};
ghost use Rattle.replay_store.specs.Windows.{IsOneMore, has_seen};

/// How far a sequence number may lie below the greatest, and one more.
const WINDOW: u64 = 64;

/// What was seen of the sequence numbers of one sender and tag: the greatest, and which of those in the window below it.
#[derive(Clone, Copy, Debug, PartialEq, Eq)]
pub(crate) struct Seen {
    pub greatest: u64,
    /// Bit i is that of the number i below the greatest.
    pub before: u64,
}

impl Seen {
    /// The first number of its sender and tag.
    pub fn first(number: u64) -> Seen
        ensures { result ≡ record { greatest = number; before = 1 } }
    {
        Seen {
            greatest: number,
            before: 1,
        }
    }

    /// Whether the number was seen; a number below the window counts as not seen.
    pub fn has(self, number: u64) -> bool
        ensures { result ≡ has_seen self number }
    {
        number <= self.greatest
            && self.greatest - number < WINDOW
            && (self.before >> (self.greatest - number)) & 1 == 1
    }

    /// With one more number.
    pub fn with(self, number: u64) -> Seen
        ensures { IsOneMore self number result }
    {
        if number > self.greatest {
            let by = number - self.greatest;
            let before = if by < WINDOW {
                (self.before << by) | 1
            } else {
                1
            };
            return Seen {
                greatest: number,
                before,
            };
        }
        let by = self.greatest - number;
        if by >= WINDOW {
            return self;
        }
        Seen {
            greatest: self.greatest,
            before: self.before | (1 << by),
        }
    }
}
