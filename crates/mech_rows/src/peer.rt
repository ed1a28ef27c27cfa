use std::marker::Model;
use term_values::{Name, Part};

/// A party that a node knows, and the long-term part that it shares with it.
#[derive(Clone, Copy, Debug, PartialEq, Eq)]
pub struct Peer {
    /// Its name.
    pub name: Name,
    /// It is a third party.
    pub server: bool,
    /// The long-term part that is shared with it, where there is one.
    pub part: Option<Part>,
}

impl Model for Peer {
    ghost use Rattle.mech_rows.specs.Rings.{Peer as PeerOf};

    ghost Value = { PeerOf };

    ghost view = { λ p. record { name = p.name; is_server = p.server; part = p.part } };

    ghost inverse = { λ p. record { name = p.name; server = p.is_server; part = p.part } };
}
