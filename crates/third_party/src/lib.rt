//! The third party of the mechanisms that have one, state by state.
#![tactic(auto)]

mod family;
mod nonces;
mod pieces;
mod stamps;
mod state;
mod words;

pub use nonces::NoncesP;
pub use stamps::StampsP;
pub use state::PState;
