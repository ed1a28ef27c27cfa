use crate::clock::Clock;
use crate::draws::Draws;
use crate::gate::Gate;

/// What one worker uses.
#[derive(Debug, Drop)]
pub struct Bench<C: Clock, D: Draws, G: Gate> {
    /// What tells it the time.
    pub clock: C,
    /// Where it draws nonces and parts.
    pub draws: D,
    /// Where its connections come from.
    pub gate: G,
}
