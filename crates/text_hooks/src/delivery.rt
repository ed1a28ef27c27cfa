use crate::hook::Hook;
use mech_rows::Ring;
use std::alloc::Global;
use term_values::Term;

/// A message that is delivered to a run, with what its role judges it by.
#[derive(Drop)]
pub struct Delivery<'a, S> {
    /// Where the run keeps what the message shows.
    pub alloc: Global,
    /// Opens and tests protected items.
    pub sealer: &'a S,
    /// The parts that the role uses.
    pub ring: &'a Ring,
    /// The rules on texts.
    pub hook: &'a Hook,
    /// The message.
    pub term: &'a Term,
}
