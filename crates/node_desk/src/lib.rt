//! One node: its runs, its stamps and its log.
#![tactic(auto)]

mod commit;
mod delivery;
mod desk;
mod event;
mod laws;
mod live;
mod log;
mod making;
mod openings;
mod run_slot;
mod stamps;
mod suiting;
mod table;

pub use commit::given_up;
pub use delivery::{deliver, reply_of, start};
pub use desk::Desk;
pub use event::Event;
pub use laws::desks_step_over_every_sealing;
pub use live::Live;
pub use log::Log;
pub use making::{make_first, make_step};
