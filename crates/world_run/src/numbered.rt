use std::marker::Model;
use term_values::Name;

/// A run of a world: its party, and its number there.
#[derive(Clone, Copy, Debug, PartialEq, Eq)]
pub(crate) struct Numbered {
    pub party: Name,
    pub run: u32,
}

impl Model for Numbered {
    ghost use Rattle.agreement_laws.specs.Traces.{RunId};

    ghost Value = { RunId };

    ghost view = { λ n. record { party = n.party; number = n.run } };

    ghost inverse = { λ n. record { party = n.party; run = n.number } };
}
