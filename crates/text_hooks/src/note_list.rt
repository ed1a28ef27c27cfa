ghost use Rattle.std.specs.Prelude.{◌≡◌, ◌++◌, ◌∷◌, [], OnOk, true};
ghost use Rattle.mech_rows.specs.Notes.{are_of_kinds, terms_of, tree_of_value, is_of};
ghost use Rattle.mech_rows.specs.Rows.{kind_of};
ghost use Rattle.mech_rows.specs.Verdict.{Noted};

use mech_rows::{Slot, Value};
use std::alloc::Global;
use term_values::OutOfMemory;

/// Values with their slots, in the order in which they were noted.
pub type NoteList = Vec<(Slot, Value)>;

/// Values in slots, as a message shows them or a run has noted them.
pub trait Shown {
    /// The values with their slots, in the order of noting.
    ghost notes_of: { Self → Noted };

    /// Adds the values to a list.
    ///
    /// # Errors
    ///
    /// Want of memory alone.
    fn note(&self, alloc: Global, notes: &mut NoteList) -> Result<(), OutOfMemory>
        requires kinds { are_of_kinds notes.old.items ≡ true }
        ensures noted { OnOk result
            (terms_of notes.new.items ≡ terms_of notes.old.items ++ notes_of self.now) }
        ensures kinds { OnOk result (are_of_kinds notes.new.items ≡ true) };
}

/// Adds a value to a list.
///
/// # Errors
///
/// Want of memory alone.
#[tactic(auto, using(crate::proofs::NoteLists::added, crate::proofs::NoteLists::still_of_kinds))]
pub fn add(notes: &mut NoteList, slot: Slot, value: Value) -> Result<(), OutOfMemory>
    requires kinds { are_of_kinds notes.old.items ≡ true }
    requires kind { is_of (kind_of slot) value ≡ true }
    ensures noted { OnOk result
        (terms_of notes.new.items ≡ terms_of notes.old.items ++ (slot, tree_of_value value) ∷ []) }
    ensures kinds { OnOk result (are_of_kinds notes.new.items ≡ true) }
{
    notes.push((slot, value))?;
    Ok(())
}
