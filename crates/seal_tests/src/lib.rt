//! Tests of sealing by encrypt-then-MAC.
#![tactic(auto)]

#[cfg(test)]
mod long_seals;
#[cfg(test)]
mod macs;
#[cfg(test)]
mod seals;
