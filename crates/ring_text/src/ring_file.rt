use mech_rows::{Mech, Ring, Slot};
use std::marker::Model;
use term_values::Text;
use text_hooks::Rule;

/// What a key ring says: the node, the rules on the texts that it takes, and the texts that it
/// sends. Contracts see lists. No mechanism and slot stand twice in `texts`.
#[derive(Debug, Drop)]
pub struct RingFile {
    /// The node and its peers.
    pub ring: Ring,
    /// What texts have to be that the node takes.
    pub rules: Vec<Rule>,
    /// What the node sends in the slots of each mechanism.
    pub texts: Vec<(Mech, Slot, Text)>,
}

impl Model for RingFile {
    ghost use Rattle.std.specs.Prelude.{◌≡◌, true};
    ghost use Rattle.ring_text.specs.KeyRings.{KeyRing, all_differ, same_place};

    ghost Value = { KeyRing };

    ghost view = { λ f. record { ring = f.ring; rules = f.rules.items; texts = f.texts.items } };

    ghost invariant = { λ f. all_differ same_place f.texts.items ≡ true };
}
