/// What a store says of a received stamp.
#[derive(Clone, Copy, Debug, PartialEq, Eq)]
pub enum Verdict {
    /// The stamp isn't of the kind that the node takes.
    WrongStampKind,
    /// The time lies further ahead of `at`, the moment of judging, than the window is long.
    Early { at: u64 },
    /// The time lies further back than the window is long, and `at` is the moment of judging;
    /// or the sequence number is too far below `at`, the greatest that was accepted from that sender under that tag.
    Late { at: u64 },
    /// The stamp was accepted before; a time only while it is live.
    Repeated,
    /// Of that sender and tag 4,096 or more times are live; `count` is how many, or 4,294,967,295 where there are more.
    StoreFull { count: u32 },
    /// None of these.
    Fit,
}
