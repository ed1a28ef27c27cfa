//! A and B in the mechanisms by encipherment, state by state.
#![tactic(auto)]

mod e1;
mod e2;
mod e3;
mod e4;
mod state;

pub use e1::{E1A, E1B};
pub use e2::{E2A, E2B};
pub use e3::{E3A, E3B};
pub use e4::{E4A, E4B};
pub use state::EState;
