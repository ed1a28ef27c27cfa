//! The outside: what is read, written and drawn, the links to peers, the time and what is kept
//! over restarts, with the faults that came.
#![tactic(auto)]

mod bench;
mod calls;
mod clock;
mod draws;
mod fault;
mod gate;
mod keeper;
mod link;
mod mark;
mod mem_clock;
mod mem_gate;
mod mem_keeper;
mod mem_link;
mod sink;
mod source;
mod sure_keeper;
mod sure_link;
mod unread;

pub use bench::Bench;
pub use clock::Clock;
pub use draws::{Draws, MemDraws};
pub use fault::{Failed, KeepFault, PutFault};
pub use gate::Gate;
pub use keeper::Keeper;
pub use link::Link;
pub use mark::Mark;
pub use mem_clock::MemClock;
pub use mem_gate::MemGate;
pub use mem_keeper::MemKeeper;
pub use mem_link::MemLink;
pub use sink::{MemSink, Sink, SureSink};
pub use source::{MemSource, Source, SureSource};
pub use sure_keeper::SureKeeper;
pub use sure_link::SureLink;
