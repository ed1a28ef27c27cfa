ghost use Rattle.std.specs.Prelude.{◌≡◌, ◌<◌, ◌-◌, ◌^◌, ◌↔◌, None, Some, IsErr, IfOk, OnErr};
ghost use Rattle.replay_store.specs.Stamps.{next_stamp, number_of};

use std::marker::Model;
use term_values::{Stamp, StampKind};

/// No stamp is left: the last number that was issued is the greatest of its type.
#[derive(Clone, Copy, Debug, PartialEq, Eq)]
pub struct StampsSpent;

/// Issues stamps of one kind, whose numbers rise. Contracts see the kind and the number that was issued last.
#[derive(Debug, Drop)]
pub struct Issuer {
    kind: StampKind,
    last: u64,
}

impl Model for Issuer {
    ghost use Rattle.fresh_values.specs.Issued.{Issued};

    ghost Value = { Issued };

    ghost view = { λ i. record { kind = i.kind; last = i.last } };
}

impl Issuer {
    /// An issuer that has issued this number last; a new node begins with 0. Takes no memory.
    pub fn new(kind: StampKind, last: u64) -> Issuer
        ensures { result ≡ record { kind = kind; last = last } }
    {
        Issuer { kind, last }
    }

    /// The number that was issued last. Takes no memory.
    pub fn last(&self) -> u64
        ensures { result ≡ self.now.last }
    {
        self.last
    }

    /// The next stamp: of time, the greater of now and one more than the last; of sequence, one more
    /// than the last. Its number is then the last. Now is in milliseconds. Takes no memory.
    ///
    /// # Errors
    ///
    /// [`StampsSpent`] exactly where the last number is 18,446,744,073,709,551,615; nothing changes.
    pub fn issue(&mut self, now: u64) -> Result<Stamp, StampsSpent>
        ensures stamp { IfOk result (λ stamp.
            next_stamp self.old.kind self.old.last now ≡ Some stamp) }
        ensures last { IfOk result (λ stamp.
            self.new ≡ record self.old { last = number_of stamp }) }
        ensures rises { IfOk result (λ stamp. self.old.last < number_of stamp) }
        ensures spent { IsErr result ↔ (self.old.last ≡ 2 ^ 64 - 1) }
        ensures none { OnErr result (next_stamp self.old.kind self.old.last now ≡ None) }
        ensures stays { OnErr result (self.new ≡ self.old) }
    {
        if self.last == u64::MAX {
            return Err(StampsSpent);
        }
        let next = self.last + 1;
        let (stamp, number) = match self.kind {
            StampKind::Time => {
                let time = now.max(next);
                (Stamp::Time(time), time)
            }
            StampKind::Seq => (Stamp::Seq(next), next),
        };
        self.last = number;
        Ok(stamp)
    }
}
