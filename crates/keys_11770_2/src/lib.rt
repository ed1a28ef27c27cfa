//! A and B in the key mechanisms without a third party, state by state.
#![tactic(auto)]

mod k3;
mod k4;
mod k5;
mod k6;
mod pieces;
mod shown;
mod state;

pub use k3::{K3A, K3B};
pub use k4::{K4A, K4B};
pub use k5::{K5A, K5B};
pub use k6::{K6A, K6B};
pub use shown::PartText;
pub use state::KState;
