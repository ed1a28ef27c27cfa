ghost use Rattle.std.specs.Prelude.{◌≡◌, IfOk};
ghost use Rattle.std.specs.Option.{option_copied};
ghost use Rattle.mech_rows.specs.Rings.{part_by};

use crate::peer::Peer;
use std::alloc::Global;
use std::marker::Model;
use term_values::{Name, OutOfMemory, Part, StampKind};

/// What a node knows from the start. Contracts see the peers as a list.
#[derive(Debug, Drop)]
pub struct Ring {
    /// Its own name.
    pub me: Name,
    /// It is a third party itself.
    pub server: bool,
    /// The kind of the stamps that it issues and takes.
    pub kind: StampKind,
    /// How far a time stamp may lie from the clock: 0 to 600,000 milliseconds.
    pub window: u32,
    /// The parties that it knows, at most 64.
    pub peers: Vec<Peer>,
}

impl Model for Ring {
    ghost use Rattle.mech_rows.specs.Rings.{Ring as RingOf};

    ghost Value = { RingOf };

    ghost view = { λ r. record { me = r.me; is_server = r.server; kind = r.kind; window = r.window; peers = r.peers.items } };
}

impl Ring {
    /// What the node shares with that name: the part that stands at the first peer so named. None where no peer is so
    /// named, or that first one has no part. Takes no memory.
    pub fn part_of(&self, peer: Name) -> Option<&Part>
        ensures part { option_copied result ≡ part_by self.now.peers peer }
    {
        for known in self.peers.as_slice() {
            if known.name == peer {
                return known.part.as_ref();
            }
        }
        None
    }

    /// An equal ring.
    ///
    /// # Errors
    ///
    /// Want of memory alone.
    pub fn copy(&self, alloc: Global) -> Result<Ring, OutOfMemory>
        ensures equal { IfOk result (λ ring. ring ≡ self.now) }
    {
        Ok(Ring {
            me: self.me,
            server: self.server,
            kind: self.kind,
            window: self.window,
            peers: self.peers.to_vec(alloc)?,
        })
    }
}
