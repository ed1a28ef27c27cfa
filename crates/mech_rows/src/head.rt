ghost use Rattle.std.specs.Prelude.{◌≡◌};
ghost use Rattle.mech_rows.specs.Heads.{Head, IsHead, IsHeadOrNone, head_with, me};
ghost use Rattle.mech_rows.specs.Rows.{has_third as third_in};

use crate::kinds::{Mech, Role};
use std::marker::Model;
use term_values::Name;

/// Who takes part in a run, and as what. The third party is named exactly where the mechanism has
/// one, and role P stands only there.
#[derive(Clone, Copy, Debug, PartialEq, Eq)]
pub struct RunHead {
    /// The mechanism.
    pub mech: Mech,
    /// The run's own role in it.
    pub role: Role,
    /// The name on the claimant's side.
    pub a: Name,
    /// The name on the verifier's side.
    pub b: Name,
    /// The third party's name, where the mechanism has one.
    pub p: Option<Name>,
}

impl Model for RunHead {
    ghost Value = { Head };

    ghost view = { λ h. record { mech = h.mech; role = h.role; a = h.a; b = h.b; p = h.p } };

    ghost invariant = { λ h. IsHead (record { mech = h.mech; role = h.role; a = h.a; b = h.b; p = h.p }) };

    ghost inverse = { λ h. record { mech = h.mech; role = h.role; a = h.a; b = h.b; p = h.p } };
}

impl RunHead {
    /// The head of these fields. Takes no memory.
    ///
    /// None where a third party is named and the mechanism has none, where it has one and none is named, and for role P
    /// where none is named; nowhere else.
    pub fn new(mech: Mech, role: Role, a: Name, b: Name, p: Option<Name>) -> Option<RunHead>
        ensures cases { IsHeadOrNone (head_with mech role a b p) result }
    {
        if p.is_some() != has_third(mech) {
            return None;
        }
        if role == Role::P && p.is_none() {
            return None;
        }
        Some(RunHead {
            mech,
            role,
            a,
            b,
            p,
        })
    }

    /// The name of its own role. Takes no memory.
    pub fn me(&self) -> Name
        ensures name { result ≡ me self.now }
    {
        match self.role {
            Role::A => self.a,
            Role::B => self.b,
            Role::P => self.p.unwrap_or(self.a),
        }
    }
}

fn has_third(mech: Mech) -> bool
    ensures { result ≡ third_in mech }
{
    match mech {
        Mech::E5 | Mech::E6 | Mech::K8 | Mech::K9 => true,
        _ => false,
    }
}
