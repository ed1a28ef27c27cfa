//! What an attacker derives from the terms that it knows, after Dolev and Yao.
#![tactic(auto)]

mod knowledge;
mod knowledge_apart;
mod knowledge_builds;
mod knowledge_digest;
mod knowledge_index;
mod knowledge_law;
mod knowledge_taking;
mod laws;

pub use knowledge::Knowledge;
pub use knowledge_law::derivability_is_decided;
pub use laws::{
    cut_law, derivable_terms_are_built, derivation_is_monotone, derivations_have_heights,
};
