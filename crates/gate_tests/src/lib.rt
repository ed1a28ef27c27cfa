//! Tests of gates and keepers.
#![tactic(auto)]

#[cfg(test)]
mod gates;
#[cfg(test)]
mod keepers;
