use crate::got::Got;
use crate::opening::Opening;
use crate::stated::Stated;
use std::marker::Model;
use term_values::Term;

/// A message that was judged and taken, before the reply. Contracts see the runs in place of the states; the type keeps
/// that, over some sealing and with some keys, the message fits the run before and leads to the one after.
#[derive(Drop)]
pub struct Prepared<T: Stated> {
    /// The state that took the message.
    pub before: T,
    /// The state that knows what the message showed.
    pub after: T,
    /// The message.
    pub taken: Term,
    /// The protected items that were opened or tested, in the order of the message.
    pub opened: Vec<Opening>,
    /// The stamps to judge, in their order.
    pub got: Vec<Got>,
}

impl<T: Stated> Model for Prepared<T> {
    ghost use Rattle.mech_rows.specs.Moves.{Ready, IsReady};
    ghost use Rattle.term_values.specs.Codes.{coded_tree};
    ghost use Rattle.std.specs.Coded.{codes};

    ghost Value = { Ready };

    ghost coded = { Prim.hlevel (codes, coded_tree) };

    ghost view = { λ p. record { before = T.state_of p.before; after = T.state_of p.after; taken = p.taken; opened = p.opened.items; got = p.got.items } };

    ghost invariant = { λ p. IsReady (record { before = T.state_of p.before; after = T.state_of p.after; taken = p.taken; opened = p.opened.items; got = p.got.items }) };
}
