//! A and B in the mechanisms by checks, state by state.
#![tactic(auto)]

mod c1;
mod c2;
mod c3;
mod c4;
mod state;

pub use c1::{C1A, C1B};
pub use c2::{C2A, C2B};
pub use c3::{C3A, C3B};
pub use c4::{C4A, C4B};
pub use state::CState;
