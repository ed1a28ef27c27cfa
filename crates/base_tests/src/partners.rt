use agreement_laws::{Happened, History, partner};
use mech_rows::{Mech, Notes, Role, RunHead, Slot, Value};
use std::alloc::Global;
use std::test::Fail;
use term_values::{Name, Nonce, Text};

/// Completed runs of E2, by role, the name of B and their nonce, and the run of the history below that is their partner.
const COMPLETED: [(Role, u32, u8, Option<u32>); 4] = [
    (Role::B, 2, 0xaa, Some(4)),
    (Role::B, 3, 0xaa, Some(3)),
    (Role::B, 2, 0xcc, None),
    (Role::A, 2, 0xaa, None),
];

/// A run of E2 of party 1 with party `b`, with that nonce and the empty text.
fn run(alloc: Global, number: u32, role: Role, b: u32, nonce: u8) -> Result<Happened, Fail> {
    let a = Name::new(1).ok_or("no name")?;
    let b = Name::new(b).ok_or("no name")?;
    let head = RunHead::new(Mech::E2, role, a, b, None).ok_or("no head")?;
    Ok(Happened {
        run: number,
        head,
        notes: Notes::new(vec![in alloc;
            (Slot::Rb, Value::Nonce(Nonce([nonce; 16]))),
            (Slot::X2, Value::Text(Text::new(Vec::new(alloc))?)),
        ]?),
        done: true,
        exposed: false,
    })
}

#[test]
fn the_first_run_that_agrees_is_the_partner(rt: HostRuntime) -> Result<(), Fail> {
    let alloc = rt.alloc();
    let history = History {
        revealed: Vec::new(alloc),
        happened: vec![in alloc;
            run(alloc, 1, Role::B, 2, 0xaa)?,
            run(alloc, 2, Role::A, 2, 0xbb)?,
            run(alloc, 3, Role::A, 3, 0xaa)?,
            run(alloc, 4, Role::A, 2, 0xaa)?,
            run(alloc, 5, Role::A, 2, 0xaa)?,
        ]?,
        sent: Vec::new(alloc),
        given: Vec::new(alloc),
    };
    let history = history.copy(alloc)?;
    for (role, b, nonce, found) in COMPLETED {
        let done = run(alloc, 6, role, b, nonce)?.copy(alloc)?;
        assert_eq!(rt; partner(&history, &done), found);
    }
    Ok(())
}
