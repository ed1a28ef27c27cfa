ghost use Rattle.std.specs.Prelude.{◌≡◌, ◌&&◌, IfOk};
ghost use Rattle.std.specs.List.{list_any};
ghost use Rattle.text_hooks.specs.Rules.{admits, allowed, names};

use mech_rows::{Mech, Slot};
use std::alloc::Global;
use term_values::{OutOfMemory, Text};

/// What a text in a slot of a mechanism has to be.
#[derive(Debug, Drop)]
pub struct Rule {
    pub mech: Mech,
    pub slot: Slot,
    /// The most bytes of the text.
    pub longest: u16,
    /// What the text begins with.
    pub prefix: Text,
}

impl Rule {
    /// An equal rule.
    pub fn copy(&self, alloc: Global) -> Result<Rule, OutOfMemory>
        ensures { IfOk result (λ r. r ≡ self.now) }
    {
        Ok(Rule {
            mech: self.mech,
            slot: self.slot,
            longest: self.longest,
            prefix: self.prefix.copy(alloc)?,
        })
    }

    /// Whether the rule speaks of this slot of this mechanism.
    #[tactic(auto, unfolding(crate::specs::Rules::names))]
    fn names(&self, mech: Mech, slot: Slot) -> bool
        ensures { result ≡ names self.now mech slot }
    {
        self.mech == mech && self.slot == slot
    }

    /// Whether the text is no longer than the rule says and begins with its prefix.
    #[tactic(auto, unfolding(crate::specs::Rules::admits))]
    fn admits(&self, text: &[u8]) -> bool
        ensures { result ≡ admits self.now text.now }
    {
        text.len() <= self.longest as usize && text.starts_with(self.prefix.list())
    }
}

/// Whether a rule speaks of this slot of this mechanism.
fn is_named(rules: &[Rule], mech: Mech, slot: Slot) -> bool
    ensures { result ≡ list_any (λ r. names r mech slot) rules.now }
{
    rules.iter().any(|rule| rule.names(mech, slot))
}

/// Whether a rule that speaks of this slot of this mechanism admits the text.
fn is_admitted(rules: &[Rule], mech: Mech, slot: Slot, text: &[u8]) -> bool
    ensures { result ≡ list_any (λ r. names r mech slot && admits r text.now) rules.now }
{
    rules
        .iter()
        .any(|rule| rule.names(mech, slot) && rule.admits(text))
}

/// Whether the rules let this text stand in this slot of this mechanism: no rule speaks of the
/// slot, or one that does admits the text. It takes no memory.
pub fn judge_by(rules: &[Rule], mech: Mech, slot: Slot, text: &[u8]) -> bool
    ensures { result ≡ allowed rules.now mech slot text.now }
{
    !is_named(rules, mech, slot) || is_admitted(rules, mech, slot, text)
}
