//! How protected items are sealed and opened, made as checks and tested.
#![tactic(auto)]

mod sealer;

pub use sealer::Sealer;
