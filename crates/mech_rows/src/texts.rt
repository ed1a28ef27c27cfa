ghost use Rattle.std.specs.Prelude.{◌≡◌, ℕ, List, IfOk};
ghost use Rattle.std.specs.Option.{option_copied};
ghost use Rattle.mech_rows.specs.Found.{found, Once};
ghost use Rattle.mech_rows.specs.declared.kinds.Slot.{Slot as TextSlot};

use crate::kinds::Slot;
use std::alloc::Global;
use std::marker::Model;
use term_values::{OutOfMemory, Text};

/// The texts that a run sends, by their slots, each slot at most once. Contracts see the list.
#[derive(Drop)]
pub struct Texts {
    texts: Vec<(Slot, Text)>,
}

impl Model for Texts {
    ghost Value = { List (TextSlot × List ℕ) };

    ghost view = { λ t. t.texts.items };

    ghost invariant = { λ t. Once t.texts.items };
}

impl Texts {
    /// These texts, of which the caller gives each slot at most once. Takes no memory.
    pub fn new(texts: Vec<(Slot, Text)>) -> Texts
        requires { Once texts.items }
        ensures value { result ≡ texts.items }
    {
        Texts { texts }
    }

    /// The texts with their slots. Takes no memory.
    pub fn list(&self) -> &[(Slot, Text)]
        ensures value { result.now ≡ self.now }
        ensures once { Once result.now }
    {
        self.texts.as_slice()
    }

    /// The text of a slot; None exactly where there is none. Takes no memory.
    pub fn find(&self, slot: Slot) -> Option<&Text>
        ensures value { option_copied result ≡ found self.now slot }
    {
        for text in self.texts.as_slice() {
            if text.0 == slot {
                return Some(&text.1);
            }
        }
        None
    }

    /// Equal texts.
    ///
    /// # Errors
    ///
    /// Want of memory alone.
    pub fn copy(&self, alloc: Global) -> Result<Texts, OutOfMemory>
        ensures equal { IfOk result (λ texts. texts ≡ self.now) }
    {
        let mut texts = Vec::new(alloc);
        for text in self.texts.as_slice() {
            texts.push((text.0, text.1.copy(alloc)?))?;
        }
        Ok(Texts { texts })
    }
}
