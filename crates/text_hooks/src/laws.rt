ghost use Rattle.std.specs.Prelude.{◌≡◌};
ghost use Rattle.text_hooks.specs.OneRun.{AreOneRun};

use crate::role_state::RoleState;
use mech_rows::notes_are_lookups;

/// States that differ are runs of the theory that differ, whose notes are functions: two states of one
/// head, one pass and the same values are equal. Takes no memory.
pub fn states_are_runs<T: RoleState>(one: &T, two: &T)
    ensures runs { AreOneRun (T.state_of one.now) (T.state_of two.now) →
        T.state_of one.now ≡ T.state_of two.now }
{
    let _one = one.phase();
    let _two = two.phase();
    notes_are_lookups();
}
