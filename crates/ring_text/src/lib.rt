//! Key rings, read from JSON: what a node knows from the start.
#![tactic(auto)]

mod doubles;
mod fault;
mod lists;
mod members;
mod ring_file;
mod rings;
mod values;

pub use fault::RingFault;
pub use ring_file::RingFile;
pub use rings::read_ring;
