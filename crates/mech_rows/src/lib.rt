//! The mechanisms as data, and who takes part in a run.
#![tactic(auto)]

mod agreement;
mod bodies;
mod filled;
mod got;
mod head;
mod kinds;
mod laws;
mod notes;
mod opening;
mod outcome;
mod part_fault;
mod peer;
mod prepared;
mod refusal;
mod ring;
mod session_key;
mod stated;
mod step;
mod tables;
mod texts;

pub use agreement::agreed;
pub use bodies::body_slots;
pub use got::Got;
pub use head::RunHead;
pub use kinds::{Clear, Cover, Kind, Mech, Pass, Role, Row, Slot, Under};
pub use laws::{
    messages_are_said, notes_are_determined, notes_are_lookups, row_facts, verdicts_are_fits,
};
pub use notes::{Notes, Value};
pub use opening::Opening;
pub use outcome::Outcome;
pub use part_fault::PartFault;
pub use peer::Peer;
pub use prepared::Prepared;
pub use refusal::Refusal;
pub use ring::Ring;
pub use session_key::key_of;
pub use stated::Stated;
pub use step::Step;
pub use tables::{passes, row};
pub use texts::Texts;
