ghost use Rattle.std.specs.Prelude.{◌≡◌, Some};
ghost use Rattle.node_desk.specs.Helds.{shown_in, state_from};
ghost use Rattle.node_desk.specs.Lives.{live_state};

use crate::event::Event;
use crate::live::Live;

/// A run in the table. Its state stands once: here until its first commit, and then in the log.
#[derive(Drop)]
pub(crate) struct RunSlot {
    /// The state with which it was opened.
    pub start: Live,
    /// Where its last commit stands in the log.
    pub at: Option<usize>,
    /// Whether it is open.
    pub open: bool,
}

impl RunSlot {
    /// Moves on to a commit that will stand there in the log.
    pub fn advance(&mut self, at: usize, going: bool)
        ensures { self.new ≡ record { start = self.old.start; at = Some at; «open» = going } }
    {
        self.at = Some(at);
        self.open = going;
    }
}

/// The state of a run, lent by the log.
pub(crate) fn latest<'a>(run_slot: &'a RunSlot, log: &'a [Event]) -> &'a Live
    ensures state { live_state result.now ≡ (shown_in log.now run_slot.now).state }
{
    let Some(at) = run_slot.at else {
        return &run_slot.start;
    };
    match log.get(at) {
        Some(Event::Commit { step, .. }) => &step.after,
        _ => &run_slot.start,
    }
}
