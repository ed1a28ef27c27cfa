//! Tests of the states of roles.
#![tactic(auto)]

#[cfg(test)]
mod tests;
