use std::marker::Model;
use term_values::{Name, StampKind};

/// A party of a world, or a third party.
#[derive(Clone, Copy, Debug, PartialEq, Eq)]
pub struct Party {
    /// Its name.
    pub name: Name,
    /// It is a third party.
    pub server: bool,
    /// The kind of the stamps that it issues and takes.
    pub kind: StampKind,
    /// How far a time stamp may lie from its clock: 0 to 600,000 milliseconds.
    pub window: u32,
}

impl Model for Party {
    ghost use Rattle.agreement_laws.specs.Configs.{Party as PartyOf};

    ghost Value = { PartyOf };

    ghost view = { λ p. record { name = p.name; is_server = p.server; kind = p.kind; window = p.window } };

    ghost inverse = { λ p. record { name = p.name; server = p.is_server; kind = p.kind; window = p.window } };
}
