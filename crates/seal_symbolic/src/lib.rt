//! Sealing by terms: a seal is the term that says what it seals.
#![tactic(auto)]

mod laws;
mod symbolic;

pub use laws::seals_and_checks_are_terms;
pub use symbolic::Symbolic;
