use node_desk::Desk;
use replay_store::WindowStore;

/// A party of a world: its desk, and its clock in milliseconds.
#[derive(Drop)]
pub(crate) struct Seat {
    pub desk: Desk<WindowStore>,
    pub clock: u64,
}
