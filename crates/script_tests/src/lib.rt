//! Tests of terms, lines and refusals as text.
#![tactic(auto)]

#[cfg(test)]
mod scripts;
