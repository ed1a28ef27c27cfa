use std::marker::Model;
use term_values::{Key, Term};

/// A protected item with its key and its body.
#[derive(Drop)]
pub struct Opening {
    /// The key that it is under.
    pub key: Key,
    /// The item as it stands in the message.
    pub item: Term,
    /// What it opens to, or what it checks.
    pub body: Term,
}

impl Model for Opening {
    ghost use Rattle.mech_rows.specs.Runs.{Opening as OpeningOf};
    ghost use Rattle.term_values.specs.Codes.{coded_tree};
    ghost use Rattle.std.specs.Coded.{codes};

    ghost Value = { OpeningOf };

    ghost coded = { Prim.hlevel (codes, coded_tree) };

    ghost view = { λ o. record { key = o.key; item = o.item; body = o.body } };
}
