ghost use Rattle.std.specs.Prelude.{◌≡◌, ◌≤◌, Bool, length};
ghost use Rattle.mech_rows.specs.declared.kinds.Mech.{Mech};
ghost use Rattle.mech_rows.specs.declared.kinds.Slot.{Slot};
ghost use Rattle.text_hooks.specs.Rules.{allowed};

use crate::rule::Rule;
use mech_rows::{Mech, Slot};

/// A judgement on texts in a box: of a mechanism, a slot and a text.
pub type Judgement = Box<dyn Fn(Mech, Slot, &[u8]) -> bool + Send + Sync>;

/// A stored judgement beside the facts that it can be called on every text of at most 1,024 bytes,
/// and that it answers what the rules allow there.
#[derive(Drop)]
pub struct Hook {
    rules: Vec<Rule>,
    judgement: Judgement,
    ghost callable: { (mech : Mech) (slot : Slot) (text : _) → length text.now ≤ 1024 →
        Judgement.pre judgement mech slot text },
    ghost answers: { (mech : Mech) (slot : Slot) (text : _) (answer : Bool) →
        length text.now ≤ 1024 → Judgement.post judgement mech slot text answer →
        answer ≡ allowed rules.items mech slot text.now },
}

impl Hook {
    /// Keeps a judgement that can be called on every text of at most 1,024 bytes, and answers there
    /// what these rules allow. Takes no memory.
    pub fn new(rules: Vec<Rule>, judgement: Judgement) -> Hook
        requires callable { (mech : Mech) (slot : Slot) (text : _) → length text.now ≤ 1024 →
            Judgement.pre judgement mech slot text }
        requires answers { (mech : Mech) (slot : Slot) (text : _) (answer : Bool) →
            length text.now ≤ 1024 → Judgement.post judgement mech slot text answer →
            answer ≡ allowed rules.items mech slot text.now }
        ensures rules { result.rules.items ≡ rules.items }
    {
        Hook { rules, judgement }
    }

    /// The rules. Takes no memory.
    pub fn rules(&self) -> &[Rule]
        ensures rules { result.now ≡ self.now.rules.items }
    {
        &self.rules
    }

    /// Whether the rules allow this text in this slot of this mechanism. The text has at most 1,024
    /// bytes. Takes no memory.
    pub fn judge(&self, mech: Mech, slot: Slot, text: &[u8]) -> bool
        requires { length text.now ≤ 1024 }
        ensures allowed { result ≡ allowed self.now.rules.items mech slot text.now }
    {
        (self.judgement)(mech, slot, text)
    }
}
