use crate::got::Got;
use crate::opening::Opening;
use crate::outcome::Outcome;
use crate::stated::Stated;
use std::marker::Model;
use term_values::{Stamp, Term};

/// A step of a run: what it took, and what it said. Contracts see the runs in place of the states; the type keeps that it
/// is a step of its row, over some sealing and with some keys.
#[derive(Drop)]
pub struct Step<T: Stated> {
    /// The state before it.
    pub before: T,
    /// The state after it.
    pub after: T,
    /// The message that it took, where it took one.
    pub taken: Option<Term>,
    /// The protected items of that message that were opened or tested, in the order of the message.
    pub opened: Vec<Opening>,
    /// The stamps to judge, in their order.
    pub got: Vec<Got>,
    /// The stamp that was issued for the reply, where one was.
    pub issued: Option<Stamp>,
    /// The protected items of the reply that the run made, in the order of the message.
    pub sealed: Vec<Opening>,
    /// The reply, where there is one.
    pub reply: Option<Term>,
    /// Whether the run goes on.
    pub outcome: Outcome,
}

impl<T: Stated> Model for Step<T> {
    ghost use Rattle.mech_rows.specs.Moves.{Move, IsMove};
    ghost use Rattle.term_values.specs.Codes.{coded_tree};
    ghost use Rattle.std.specs.Coded.{codes};

    ghost Value = { Move };

    ghost coded = { Prim.hlevel (codes, coded_tree) };

    ghost view = { λ s. record { before = T.state_of s.before; after = T.state_of s.after; taken = s.taken; opened = s.opened.items; got = s.got.items; issued = s.issued; sealed = s.sealed.items; reply = s.reply; outcome = s.outcome } };

    ghost invariant = { λ s. IsMove (record { before = T.state_of s.before; after = T.state_of s.after; taken = s.taken; opened = s.opened.items; got = s.got.items; issued = s.issued; sealed = s.sealed.items; reply = s.reply; outcome = s.outcome }) };
}
