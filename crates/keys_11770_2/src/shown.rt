use mech_rows::{Slot, Value};
use std::alloc::Global;
use term_values::{OutOfMemory, Text};
use text_hooks::{NoteList, Shown, add};

/// The text that A seals with its part of the key.
#[derive(Clone, PartialEq, Eq, Drop)]
pub struct PartText {
    /// The sealed text.
    pub x1: Text,
}

impl Shown for PartText {
    ghost use Rattle.keys_11770_2.specs.KShown.{part_text};

    ghost notes_of = { part_text };

    fn note(&self, alloc: Global, notes: &mut NoteList) -> Result<(), OutOfMemory> {
        add(notes, Slot::X1, Value::Text(self.x1.copy(alloc)?))
    }
}
