ghost use Rattle.std.specs.Prelude.{◌≡◌, IfOk};
ghost use Rattle.std.specs.Option.{option_copied};
ghost use Rattle.mech_rows.specs.Found.{found};
ghost use Rattle.mech_rows.specs.Notes.{InOrder};

use crate::kinds::Slot;
use std::alloc::Global;
use std::marker::Model;
use term_values::{Nonce, OutOfMemory, Part, Stamp, Term, Text};

/// What stands in a slot.
#[derive(Drop)]
pub enum Value {
    /// Of Ra, Rb, Ra2.
    Nonce(Nonce),
    /// Of Ta, Tb, Tp.
    Stamp(Stamp),
    /// Of Fa, Fb.
    Part(Part),
    /// Of X1 to X9.
    Text(Text),
    /// Any term, which is forwarded.
    Item(Term),
}

impl Value {
    /// An equal value.
    ///
    /// # Errors
    ///
    /// Want of memory alone.
    pub fn copy(&self, alloc: Global) -> Result<Value, OutOfMemory>
        ensures equal { IfOk result (λ value. value ≡ self.now) }
    {
        Ok(match self {
            Value::Nonce(nonce) => Value::Nonce(*nonce),
            Value::Stamp(stamp) => Value::Stamp(*stamp),
            Value::Part(part) => Value::Part(*part),
            Value::Text(text) => Value::Text(text.copy(alloc)?),
            Value::Item(term) => Value::Item(term.copy(alloc)?),
        })
    }
}

/// Values by their slots, in the order of the slots, each slot at most once. Contracts see the list.
#[derive(Drop)]
pub struct Notes {
    notes: Vec<(Slot, Value)>,
}

impl Model for Notes {
    ghost use Rattle.std.specs.Prelude.{List};
    ghost use Rattle.mech_rows.specs.declared.kinds.Slot.{Slot};
    ghost use Rattle.mech_rows.specs.declared.notes.Value.{Value as NoteValue};
    ghost use Rattle.mech_rows.specs.Notes.{InOrder};
    ghost use Rattle.term_values.specs.Codes.{coded_tree};
    ghost use Rattle.std.specs.Coded.{codes};

    ghost Value = { List (Slot × NoteValue) };

    ghost coded = { Prim.hlevel (codes, coded_tree) };

    ghost view = { λ n. n.notes.items };

    ghost invariant = { λ n. InOrder n.notes.items };
}

impl Notes {
    /// These values, which the caller gives in the order of the slots, each slot at most once. Takes no memory.
    pub fn new(notes: Vec<(Slot, Value)>) -> Notes
        requires { InOrder notes.items }
        ensures value { result ≡ notes.items }
    {
        Notes { notes }
    }

    /// The values with their slots. Takes no memory.
    pub fn list(&self) -> &[(Slot, Value)]
        ensures value { result.now ≡ self.now }
        ensures order { InOrder result.now }
    {
        self.notes.as_slice()
    }

    /// What is noted for a slot; None exactly where nothing is. Takes no memory.
    pub fn find(&self, slot: Slot) -> Option<&Value>
        ensures value { option_copied result ≡ found self.now slot }
    {
        for note in self.notes.as_slice() {
            if note.0 == slot {
                return Some(&note.1);
            }
        }
        None
    }

    /// Equal notes.
    ///
    /// # Errors
    ///
    /// Want of memory alone.
    pub fn copy(&self, alloc: Global) -> Result<Notes, OutOfMemory>
        ensures equal { IfOk result (λ notes. notes ≡ self.now) }
    {
        let mut notes = Vec::new(alloc);
        for note in self.notes.as_slice() {
            notes.push((note.0, note.1.copy(alloc)?))?;
        }
        Ok(Notes { notes })
    }
}
