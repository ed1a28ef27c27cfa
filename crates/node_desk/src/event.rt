use crate::live::Live;
use mech_rows::{Got, RunHead, Step, Texts};
use term_values::Stamp;

/// What happened at a node. Every now is in milliseconds.
#[derive(Drop)]
pub enum Event {
    /// A run was opened, with the texts that it sends.
    Open {
        run: u32,
        head: RunHead,
        texts: Texts,
    },
    /// A stamp was issued.
    Issue {
        now: u64,
        stamp: Stamp,
    },
    /// A step of a run was committed.
    Commit {
        run: u32,
        now: u64,
        step: Step<Live>,
    },
    /// A run was ended before it was done.
    Drop {
        run: u32,
    },
    /// The node lost its open runs and its memory. The issuer goes on from the last number, and
    /// these further stamps count as accepted; what their slot is says nothing.
    Restart {
        now: u64,
        last: u64,
        more: Vec<Got>,
    },
}
