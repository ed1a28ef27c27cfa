ghost use Rattle.std.specs.Prelude.{◌≡◌, true};
ghost use Rattle.mech_rows.specs.Rows.{has_third, tag_of};
ghost use Rattle.text_hooks.specs.Trios.{by_nonces, by_stamps, is_by_nonces, is_by_stamps};
ghost use Rattle.text_hooks.specs.Trios.{nonces_head, stamps_head};

use crate::names::Three;
use mech_rows::{Mech, RunHead};
use term_values::Tag;

/// For what the parties meet: the two mechanisms of a shape have the same passes.
#[derive(Clone, Copy, Debug, PartialEq, Eq)]
pub enum Family {
    /// To authenticate each other.
    Entity,
    /// To have a key.
    Keys,
}

/// The family of a run, and who takes part in it.
#[derive(Clone, Copy, PartialEq, Eq)]
pub struct Trio {
    /// For what they meet.
    pub family: Family,
    /// The names of A, B and the third party.
    pub names: Three,
}

/// The mechanism of the family that goes by stamps. Takes no memory.
pub fn by_stamps(family: Family) -> Mech
    ensures mech { result ≡ by_stamps family }
    ensures third { has_third result ≡ true }
{
    match family {
        Family::Entity => Mech::E5,
        Family::Keys => Mech::K8,
    }
}

/// A tag of the mechanism of the family that goes by stamps: of a pass, from 1, and a place, from 1,
/// or 0 for the message itself. Takes no memory.
pub fn stamps_tag(family: Family, pass: u8, place: u8) -> Tag
    ensures tag { result ≡ tag_of (by_stamps family) pass place }
{
    match family {
        Family::Entity => Tag([1, 5, pass, place]),
        Family::Keys => Tag([3, 8, pass, place]),
    }
}

/// Who takes part in a run by stamps. Takes no memory.
pub fn trio_by_stamps(head: &RunHead) -> Trio
    requires stamps { is_by_stamps head.now.mech ≡ true }
    ensures trio { stamps_head head.now.role result ≡ head.now }
{
    let family = match head.mech {
        Mech::E5 => Family::Entity,
        _ => Family::Keys,
    };
    Trio {
        family,
        names: Three::of(head),
    }
}

/// The mechanism of the family that goes by nonces. Takes no memory.
pub fn by_nonces(family: Family) -> Mech
    ensures mech { result ≡ by_nonces family }
    ensures third { has_third result ≡ true }
{
    match family {
        Family::Entity => Mech::E6,
        Family::Keys => Mech::K9,
    }
}

/// A tag of the mechanism of the family that goes by nonces: of a pass, from 1, and a place, from 1,
/// or 0 for the message itself. Takes no memory.
pub fn nonces_tag(family: Family, pass: u8, place: u8) -> Tag
    ensures tag { result ≡ tag_of (by_nonces family) pass place }
{
    match family {
        Family::Entity => Tag([1, 6, pass, place]),
        Family::Keys => Tag([3, 9, pass, place]),
    }
}

/// Who takes part in a run by nonces. Takes no memory.
pub fn trio_by_nonces(head: &RunHead) -> Trio
    requires nonces { is_by_nonces head.now.mech ≡ true }
    ensures trio { nonces_head head.now.role result ≡ head.now }
{
    let family = match head.mech {
        Mech::E6 => Family::Entity,
        _ => Family::Keys,
    };
    Trio {
        family,
        names: Three::of(head),
    }
}
