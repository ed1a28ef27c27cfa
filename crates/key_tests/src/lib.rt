//! Tests of the states of roles in key mechanisms.
#![tactic(auto)]

#[cfg(test)]
mod tests;
