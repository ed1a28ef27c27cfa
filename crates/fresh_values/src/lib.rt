//! Values that are used once: the stamps that a node issues, and what it draws.
#![tactic(auto)]

mod counted;
mod issuer;
mod laws;
mod rng_draws;

pub use counted::Counted;
pub use issuer::{Issuer, StampsSpent};
pub use laws::{counted_values_differ, issued_stamps_rise};
pub use rng_draws::RngDraws;
