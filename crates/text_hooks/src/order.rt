ghost use Rattle.std.specs.Prelude.{◌≡◌, ◌++◌, [], IfOk, OnOk, IfSome, true};
ghost use Rattle.std.specs.Option.{option_copied};
ghost use Rattle.mech_rows.specs.Found.{found};
ghost use Rattle.mech_rows.specs.Notes.{are_of_kinds, terms_of};
ghost use Rattle.mech_rows.specs.Replies.{in_order, noted_among, with_slot};

use crate::note_list::{NoteList, add};
use mech_rows::{Notes, Slot, Value};
use std::alloc::Global;
use term_values::OutOfMemory;

fn find(values: &[(Slot, Value)], slot: Slot) -> Option<&Value>
    ensures value { option_copied result ≡ found values.now slot }
{
    for value in values {
        if value.0 == slot {
            return Some(&value.1);
        }
    }
    None
}

/// Adds what is noted for a slot, where something is.
#[tactic(auto, using(crate::proofs::Ordering::kind_found, crate::proofs::Ordering::with_found, crate::proofs::Ordering::with_none))]
fn add_found(
    alloc: Global,
    values: &[(Slot, Value)],
    slot: Slot,
    notes: &mut NoteList,
) -> Result<(), OutOfMemory>
    requires kinds { are_of_kinds values.now ≡ true }
    requires so_far { are_of_kinds notes.old.items ≡ true }
    ensures noted { OnOk result (terms_of notes.new.items
        ≡ terms_of notes.old.items ++ with_slot slot (found (terms_of values.now) slot) []) }
    ensures kinds { OnOk result (are_of_kinds notes.new.items ≡ true) }
{
    match find(values, slot) {
        Some(value) => {
            let copy = value.copy(alloc)?;
            add(notes, slot, copy)?;
            Ok(())
        }
        None => Ok(()),
    }
}

#[tactic(auto, using(crate::proofs::Ordering::one_more))]
fn chosen(alloc: Global, values: &[(Slot, Value)], slots: &[Slot]) -> Result<NoteList, OutOfMemory>
    requires kinds { are_of_kinds values.now ≡ true }
    ensures notes { IfOk result (λ ns.
        terms_of ns.items ≡ noted_among (terms_of values.now) slots.now) }
    ensures kinds { IfOk result (λ ns. are_of_kinds ns.items ≡ true) }
{
    let mut notes = Vec::new(alloc);
    for slot in slots {
        add_found(alloc, values, *slot, &mut notes)?;
    }
    Ok(notes)
}

/// These values in the order of the slots, the first of each slot.
///
/// # Errors
///
/// Want of memory alone.
#[tactic(auto, using(crate::proofs::Ordering::ordered))]
pub fn in_slot_order(alloc: Global, values: &[(Slot, Value)]) -> Result<Notes, OutOfMemory>
    requires kinds { are_of_kinds values.now ≡ true }
    ensures notes { IfOk result (λ ns. terms_of ns ≡ in_order (terms_of values.now)) }
    ensures kinds { IfOk result (λ ns. are_of_kinds ns ≡ true) }
{
    let notes = chosen(
        alloc,
        values,
        &[
            Slot::Ra,
            Slot::Rb,
            Slot::Ra2,
            Slot::Ta,
            Slot::Tb,
            Slot::Tp,
            Slot::Fa,
            Slot::Fb,
            Slot::X1,
            Slot::X2,
            Slot::X3,
            Slot::X4,
            Slot::X5,
            Slot::X6,
            Slot::X7,
            Slot::X8,
            Slot::X9,
            Slot::Fwd,
        ],
    )?;
    Ok(Notes::new(notes))
}
