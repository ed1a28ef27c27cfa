//! Scripts: reading one, playing it line by line over a world, and printing what is answered.
#![tactic(auto)]

mod claims;
mod cut;
mod events;
mod fitting;
mod game;
mod input;
mod laws;
mod play;
mod printed;
mod reading;
mod reason;
mod script;
mod setup;
mod stop;

pub use laws::{
    claims_of_scripts_have_partners, one_output, printed_claims_have_partners,
    scripts_lead_to_one_world, some_output, worlds_of_scripts_are_sound,
};
pub use reason::Reason;
pub use script::replay;
