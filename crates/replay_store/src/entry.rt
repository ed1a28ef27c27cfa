ghost use Rattle.std.specs.Prelude.{◌≡◌};
ghost use Rattle.replay_store.specs.Stamps.{is_from};
ghost use Rattle.term_values.specs.SameBytes.{same_bytes};
ghost use Rattle.replay_store.specs.Stores.{is_live_time, is_number, is_time, number_from};

use crate::judged::is_live;
use std::marker::Model;
use term_values::{Name, Stamp, Tag};

/// A stamp that was accepted, with its sender and the tag of its body.
#[derive(Debug, Drop)]
pub(crate) struct Entry {
    pub sender: Name,
    pub tag: Tag,
    pub stamp: Stamp,
}

impl Model for Entry {
    ghost use Rattle.replay_store.specs.Stamps.{Accepted, accept};

    ghost Value = { Accepted };

    ghost view = { λ e. accept e.sender e.tag e.stamp };
}

/// Whether both tags are the same bytes.
#[tactic(auto, using(crate::proofs::Found::pointwise_is))]
pub(crate) fn same_tag(a: &Tag, b: &Tag) -> bool
    ensures { result ≡ same_bytes a.now b.now }
{
    a.list() == b.list()
}

impl Entry {
    /// Whether this stamp came from the sender under the tag.
    pub fn is_from(&self, sender: Name, tag: &Tag) -> bool
        ensures { result ≡ is_from sender tag.now self.now }
    {
        self.sender.get() == sender.get() && same_tag(&self.tag, tag)
    }

    /// Whether this stamp is the time.
    pub fn is_time(&self, time: u64) -> bool
        ensures { result ≡ is_time time self.now.stamp }
    {
        match self.stamp {
            Stamp::Time(at) => at == time,
            Stamp::Seq(_) => false,
        }
    }

    /// Whether this stamp is a time that is live.
    pub fn is_live_time(&self, window: u32, now: u64) -> bool
        ensures { result ≡ is_live_time window now self.now.stamp }
    {
        match self.stamp {
            Stamp::Time(at) => is_live(window, now, at),
            Stamp::Seq(_) => false,
        }
    }

    /// Whether this stamp is the sequence number.
    pub fn is_number(&self, number: u64) -> bool
        ensures { result ≡ is_number number self.now.stamp }
    {
        match self.stamp {
            Stamp::Time(_) => false,
            Stamp::Seq(at) => at == number,
        }
    }

    /// The sequence number, where this stamp is one.
    pub fn number(&self) -> Option<u64>
        ensures { result ≡ number_from self.now.stamp }
    {
        match self.stamp {
            Stamp::Time(_) => None,
            Stamp::Seq(number) => Some(number),
        }
    }
}
