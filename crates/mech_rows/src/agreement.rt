ghost use Rattle.std.specs.Prelude.{◌≡◌};
ghost use Rattle.mech_rows.specs.Table.{filled_agreed};

use crate::filled::six;
use crate::kinds::Slot::{Fa, Fb, Ra, Rb, Ta, Tb, X1, X2, X3, X4, X5, X6, X7, X8};
use crate::kinds::{Mech, Role, Slot};

/// The slots on which a run that completes the mechanism in that role agrees with its partner, first what is there, then None.
/// None as a whole where it claims no agreement.
pub fn agreed(mech: Mech, role: Role) -> Option<[Option<Slot>; 6]>
    ensures { result ≡ filled_agreed mech role }
{
    match role {
        Role::A => agreed_by_a(mech),
        Role::B => Some(agreed_by_b(mech)),
        Role::P => None,
    }
}

fn agreed_by_b(mech: Mech) -> [Option<Slot>; 6]
    ensures { Some result ≡ filled_agreed mech Role.B }
{
    match mech {
        Mech::E1 | Mech::C1 | Mech::E3 | Mech::C3 => six(&[Ta, X1]),
        Mech::E2 | Mech::C2 => six(&[Rb, X2]),
        Mech::E4 | Mech::C4 => six(&[Ra, Rb, X2]),
        Mech::E5 | Mech::K8 => six(&[Fa, Ta, X5]),
        Mech::E6 | Mech::K9 => six(&[Fa, Ra, Rb, X6]),
        Mech::K3 | Mech::K5 => six(&[Ta, Fa, X1]),
        Mech::K4 => six(&[Rb, Fa, X1]),
        Mech::K6 => six(&[Ra, Rb, Fa, X2]),
    }
}

fn agreed_by_a(mech: Mech) -> Option<[Option<Slot>; 6]>
    ensures { result ≡ filled_agreed mech Role.A }
{
    match mech {
        Mech::E3 | Mech::C3 => Some(six(&[Tb, X3])),
        Mech::E4 | Mech::C4 => Some(six(&[Ra, Rb, X2, X4])),
        Mech::E5 | Mech::K8 => Some(six(&[Fa, Ta, X5, Tb, X7])),
        Mech::E6 | Mech::K9 => Some(six(&[Fa, Ra, Rb, X6, X8])),
        Mech::K5 => Some(six(&[Ta, Fa, X1, Tb, Fb, X2])),
        Mech::K6 => Some(six(&[Ra, Rb, Fa, X2, Fb, X3])),
        _ => None,
    }
}
