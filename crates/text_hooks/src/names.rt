ghost use Rattle.std.specs.Prelude.{◌≡◌, ◌≢◌, true, false, Some};
ghost use Rattle.mech_rows.specs.Heads.{is_given};
ghost use Rattle.mech_rows.specs.Rows.{has_third};
ghost use Rattle.mech_rows.specs.declared.kinds.Role.TheVariants.{P};
ghost use Rattle.text_hooks.specs.Names.{between, among};

use mech_rows::{Mech, Role, RunHead};
use term_values::Name;

/// The names of A and B.
#[derive(Clone, Copy, PartialEq, Eq)]
pub struct Pair {
    /// The name of A.
    pub a: Name,
    /// The name of B.
    pub b: Name,
}

/// The names of A, B and the third party.
#[derive(Clone, Copy, PartialEq, Eq)]
pub struct Three {
    /// The name of A.
    pub a: Name,
    /// The name of B.
    pub b: Name,
    /// The name of the third party.
    pub p: Name,
}

impl Pair {
    /// The names of a run of two. Takes no memory.
    pub fn of(head: &RunHead) -> Pair
        ensures names { (result.a ≡ head.now.a) × (result.b ≡ head.now.b) }
    {
        Pair {
            a: head.a,
            b: head.b,
        }
    }

    /// The head of a run of two. Takes no memory.
    pub fn head(self, mech: Mech, role: Role) -> RunHead
        requires two { has_third mech ≡ false }
        requires one_of_them { role ≢ P }
        ensures head { result ≡ between mech role self }
    {
        RunHead {
            mech,
            role,
            a: self.a,
            b: self.b,
            p: None,
        }
    }
}

impl Three {
    /// The names of a run of three. Takes no memory.
    pub fn of(head: &RunHead) -> Three
        requires third { is_given head.now.p ≡ true }
        ensures names { (result.a ≡ head.now.a) × (result.b ≡ head.now.b)
            × (Some result.p ≡ head.now.p) }
    {
        match head.p {
            Some(p) => Three {
                a: head.a,
                b: head.b,
                p,
            },
            None => unreachable!(),
        }
    }

    /// The head of a run of three. Takes no memory.
    pub fn head(self, mech: Mech, role: Role) -> RunHead
        requires three { has_third mech ≡ true }
        ensures head { result ≡ among mech role self }
    {
        RunHead {
            mech,
            role,
            a: self.a,
            b: self.b,
            p: Some(self.p),
        }
    }
}
