/// What a delivery did.
#[derive(Clone, Copy, Debug, PartialEq, Eq)]
pub struct Given {
    /// The pass whose message the run took, from 1.
    pub pass: u8,
    /// The number of the message that the run answered with, from 1, where it answered.
    pub sent: Option<u32>,
    /// The run has acted in its last pass.
    pub done: bool,
}
