use std::marker::Model;
use term_values::{Name, Part};

/// The long-term part that two parties share.
#[derive(Clone, Copy, Debug, PartialEq, Eq)]
pub struct Pair {
    /// One of the two.
    pub a: Name,
    /// The other one.
    pub b: Name,
    /// Their part.
    pub part: Part,
    /// The attacker has the part.
    pub revealed: bool,
}

impl Model for Pair {
    ghost use Rattle.agreement_laws.specs.Configs.{LongTerm};

    ghost Value = { LongTerm };

    ghost view = { λ p. record { x = p.a; y = p.b; part = p.part; revealed = p.revealed } };

    ghost inverse = { λ p. record { a = p.x; b = p.y; part = p.part; revealed = p.revealed } };
}
