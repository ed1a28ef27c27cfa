//! What a completed run may rely on: nodes, worlds, partners, and the laws over them.
#![tactic(auto)]

mod history;
mod laws;
mod partners;
mod sealing;

pub use history::{Happened, History};
pub use laws::{
    assembled_worlds_are_worlds, claims_are_there, good_parts_stay_secret, items_have_origins,
    keys_of_secrets_are_good, legal_logs_keep_stamps_apart, logs_of_worlds_are_legal,
    pairs_of_completions_are_there, partners_are_determined, replaced_steps_are_symbolic,
    runs_are_of_their_parties, worlds_are_clean_bases, worlds_are_sound,
};
pub use partners::partner;
pub use sealing::Sealing;
