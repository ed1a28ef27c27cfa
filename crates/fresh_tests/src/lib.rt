//! Tests of issued stamps and draws.
#![tactic(auto)]

#[cfg(test)]
mod fresh;
