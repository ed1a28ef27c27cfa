//! Tests of the states of the third party.
#![tactic(auto)]

#[cfg(test)]
mod tests;
