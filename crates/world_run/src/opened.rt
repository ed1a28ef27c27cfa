/// What an opening did.
#[derive(Clone, Copy, Debug, PartialEq, Eq)]
pub struct Opened {
    /// The run's number in the world, from 1.
    pub run: u32,
    /// The number of the message that the run said, from 1, where it said the first message.
    pub sent: Option<u32>,
    /// The run has acted in its last pass.
    pub done: bool,
}
