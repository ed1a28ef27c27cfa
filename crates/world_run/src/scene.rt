use crate::numbered::Numbered;
use crate::parties::Parties;
use agreement_laws::History;
use attacker_model::Knowledge;
use fresh_values::Counted;

/// What a world is made of: its parties, its draws, the attacker's knowledge, the history, and the
/// runs that have a number.
#[derive(Drop)]
pub(crate) struct Scene {
    pub parties: Parties,
    pub draws: Counted,
    pub knowledge: Knowledge,
    pub history: History,
    pub runs: Vec<Numbered>,
}
