//! A world: its parties, one attacker, and what has happened.
#![tactic(auto)]

mod bad_config;
mod beginning;
mod born;
mod conditions;
mod config;
mod given;
mod giving;
mod laws;
mod numbered;
mod opened;
mod opening;
mod pair;
mod parties;
mod party;
mod scene;
mod seat;
mod seating;
mod telling;
mod world;

pub use bad_config::BadConfig;
pub use config::Config;
pub use given::Given;
pub use laws::{
    agreeing_runs_are_found, completions_have_partners, no_run_is_partner_of_two,
    no_stale_step_and_no_failed_draw, one_answer, partners_are_those_of_the_theory, some_answer,
    stays_a_world, worlds_are_sound,
};
pub use opened::Opened;
pub use pair::Pair;
pub use party::Party;
pub use world::World;
