//! A and B in the mechanisms with a third party, state by state.
#![tactic(auto)]

mod nonces_a;
mod nonces_b;
mod stamps_a;
mod stamps_b;
mod state;
mod ticket;
mod words;

pub use nonces_a::NoncesA;
pub use nonces_b::NoncesB;
pub use stamps_a::StampsA;
pub use stamps_b::StampsB;
pub use state::TrioState;
pub use ticket::Ticket;
