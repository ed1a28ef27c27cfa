use crate::kinds::Slot;
use std::marker::Model;
use term_values::{Name, Stamp, Tag};

/// A stamp to judge.
#[derive(Clone, Copy, Debug, PartialEq, Eq)]
pub struct Got {
    /// Where it stood.
    pub slot: Slot,
    /// The party that issued it.
    pub sender: Name,
    /// The tag of its body.
    pub tag: Tag,
    /// The stamp.
    pub stamp: Stamp,
}

impl Model for Got {
    ghost use Rattle.mech_rows.specs.Runs.{Got as GotOf};

    ghost Value = { GotOf };

    ghost view = { λ g. record { slot = g.slot; sender = g.sender; tagged = g.tag; stamp = g.stamp } };

    ghost inverse = { λ g. record { slot = g.slot; sender = g.sender; tag = g.tagged; stamp = g.stamp } };
}
