//! Tests of spellings and frames.
#![tactic(auto)]

#[cfg(test)]
mod spellings;
