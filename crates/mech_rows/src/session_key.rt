ghost use Rattle.std.specs.Prelude.{◌≡◌};
ghost use Rattle.mech_rows.specs.Notes.{noted, part_noted};
ghost use Rattle.mech_rows.specs.Runs.{key_of as session_key};

use crate::head::RunHead;
use crate::kinds::{Mech, Role, Slot};
use crate::notes::{Notes, Value};
use term_values::{Form, Key, Part};

/// The session key that these notes give: Fa alone, or Fa and Fb, by the mechanism. None for the third party, for a
/// mechanism that makes no key, and while a part of it isn't noted. Takes no memory.
#[tactic(auto, using(crate::proofs::KeyParts::one_part, crate::proofs::KeyParts::two_parts))]
pub fn key_of(head: &RunHead, notes: &Notes) -> Option<Key>
    ensures key { result ≡ session_key head.now (noted notes.now) }
{
    if head.role == Role::P {
        return None;
    }
    match head.mech {
        Mech::E5 | Mech::E6 | Mech::K3 | Mech::K4 | Mech::K8 | Mech::K9 => {
            Some(Key::One(part_of(notes, Slot::Fa)?))
        }
        Mech::K5 | Mech::K6 => Some(Key::Two(part_of(notes, Slot::Fa)?, part_of(notes, Slot::Fb)?)),
        _ => None,
    }
}

/// The part that is noted for a slot.
fn part_of(notes: &Notes, slot: Slot) -> Option<Part>
    ensures { result ≡ part_noted (noted notes.now slot) }
{
    match notes.find(slot)? {
        Value::Part(part) => Some(*part),
        Value::Item(item) => match item.form() {
            Form::Part(part) => Some(*part),
            _ => None,
        },
        _ => None,
    }
}
