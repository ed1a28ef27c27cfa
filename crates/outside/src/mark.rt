use term_values::{Name, Stamp, Tag};

/// What a party notes before it acts, so that it still knows it after a restart.
#[derive(Clone, Copy, Debug, PartialEq, Eq)]
pub enum Mark {
    /// A stamp was issued.
    Issued {
        /// The party's time then, in milliseconds.
        now: u64,
        /// The number that was issued.
        number: u64,
    },
    /// A stamp was accepted.
    Accepted {
        /// The party's time then, in milliseconds.
        now: u64,
        /// Who sent the stamp.
        sender: Name,
        /// What the stamp was received in.
        tag: Tag,
        /// The stamp.
        stamp: Stamp,
    },
}
