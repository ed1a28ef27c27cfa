//! Tests of key rings.
#![tactic(auto)]

#[cfg(test)]
mod tests;
