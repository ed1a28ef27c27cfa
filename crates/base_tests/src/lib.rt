//! Tests of the crates on which the roles stand.
#![tactic(auto)]

#[cfg(test)]
mod derivations;
#[cfg(test)]
mod ends;
#[cfg(test)]
mod links;
#[cfg(test)]
mod partners;
#[cfg(test)]
mod seals;
#[cfg(test)]
mod steps;
#[cfg(test)]
mod stores;
#[cfg(test)]
mod tables;
#[cfg(test)]
mod terms;
