use crate::pair::Pair;
use crate::party::Party;
use std::marker::Model;
use term_values::Part;

/// What a world begins with. Contracts see the three lists.
#[derive(Debug, Drop)]
pub struct Config {
    /// The parties and third parties: at most 64, no two of one name.
    pub parties: Vec<Party>,
    /// The long-term parts of pairs of them: each of two names that are declared and differ, no two
    /// of the same two names.
    pub pairs: Vec<Pair>,
    /// The attacker's own parts.
    pub own: Vec<Part>,
}

impl Model for Config {
    ghost use Rattle.agreement_laws.specs.Configs.{Config as ConfigOf};

    ghost Value = { ConfigOf };

    ghost view = { λ c. record { parties = c.parties.items; pairs = c.pairs.items; own = c.own.items } };
}
