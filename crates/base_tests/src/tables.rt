use mech_rows::{
    Cover, Mech, Notes, PartFault, Peer, Refusal, Ring, Role, RunHead, Slot, Texts, Under, Value,
    agreed, body_slots, key_of, passes, row,
};
use std::alloc::Global;
use std::test::Fail;
use term_values::{Form, Items, Key, Name, Nonce, Part, Stamp, StampKind, Tag, Term, Text, Why};

const FIRST: Part = Part([0x11; 32]);

const SECOND: Part = Part([0x22; 32]);

/// Of each mechanism: its passes, and on how many slots the completers A and B agree; 0 where there is no claim.
const MECHS: [(Mech, u8, usize, usize); 16] = [
    (Mech::E1, 1, 0, 2),
    (Mech::E2, 2, 0, 2),
    (Mech::E3, 2, 2, 2),
    (Mech::E4, 3, 4, 3),
    (Mech::E5, 4, 5, 3),
    (Mech::E6, 5, 5, 4),
    (Mech::C1, 1, 0, 2),
    (Mech::C2, 2, 0, 2),
    (Mech::C3, 2, 2, 2),
    (Mech::C4, 3, 4, 3),
    (Mech::K3, 1, 0, 3),
    (Mech::K4, 2, 0, 3),
    (Mech::K5, 2, 6, 3),
    (Mech::K6, 3, 6, 4),
    (Mech::K8, 4, 5, 3),
    (Mech::K9, 5, 5, 4),
];

const STAMP: Stamp = Stamp::Time(7);

/// The refusals in the order of their numbers.
const REFUSALS: [(Refusal, u8); 27] = [
    (Refusal::UnknownRun, 1),
    (Refusal::EndedRun, 2),
    (
        Refusal::Malformed {
            place: 26,
            why: Why::Short,
        },
        3,
    ),
    (Refusal::WrongPass, 4),
    (Refusal::Unopened { part: 1 }, 5),
    (Refusal::WrongShape { part: 1 }, 6),
    (Refusal::WrongNames { part: 1 }, 7),
    (
        Refusal::WrongValue {
            part: 1,
            slot: Slot::Ta,
        },
        8,
    ),
    (Refusal::WrongStampKind { slot: Slot::Ta }, 9),
    (
        Refusal::Early {
            slot: Slot::Ta,
            at: 4999,
        },
        10,
    ),
    (
        Refusal::Late {
            slot: Slot::Ta,
            at: 15002,
        },
        11,
    ),
    (Refusal::Repeated { stamp: STAMP }, 12),
    (Refusal::StoreFull { count: 4096 }, 13),
    (Refusal::TextRefused { slot: Slot::X2 }, 14),
    (Refusal::NotDerivable, 20),
    (Refusal::Unborn, 21),
    (Refusal::NoSecret, 22),
    (Refusal::UnknownParty, 30),
    (Refusal::WrongKind, 31),
    (Refusal::SelfPeer, 32),
    (Refusal::NoKey, 33),
    (Refusal::TableFull, 34),
    (Refusal::StampsSpent, 35),
    (Refusal::DrawFault, 36),
    (Refusal::Moved { made: 2, held: 3 }, 37),
    (Refusal::KeeperFault, 38),
    (Refusal::Memory, 40),
];

fn name(number: u32) -> Result<Name, Fail> {
    Ok(Name::new(number).ok_or("no name")?)
}

fn count_slots(slots: Option<[Option<Slot>; 6]>) -> usize {
    slots.unwrap_or([None; 6]).iter().flatten().count()
}

#[test]
fn mechanisms_are_those_of_the_table(rt: HostRuntime) {
    for (mech, count, by_a, by_b) in MECHS {
        assert_eq!(rt; passes(mech), count, "passes of {mech:?}");
        let there = row(mech).passes.iter().flatten().count();
        assert_eq!(rt; there, usize::from(count), "row of {mech:?}");
        assert_eq!(rt; count_slots(agreed(mech, Role::A)), by_a, "A in {mech:?}");
        assert_eq!(rt; count_slots(agreed(mech, Role::B)), by_b, "B in {mech:?}");
        assert!(rt; agreed(mech, Role::P).is_none(), "P in {mech:?}");
    }
    let ticket = Cover {
        check: false,
        under: Under::Pair(Role::B, Role::P),
        tag: Tag([3, 9, 3, 2]),
        slots: [Some(Slot::Rb), Some(Slot::Fa), Some(Slot::X3), None],
        made: false,
        seen: true,
    };
    let covers = row(Mech::K9).passes[3].map(|pass| pass.covers[0]);
    assert!(rt; covers == Some(Some(ticket)));
}

#[test]
fn refusals_have_their_numbers(rt: HostRuntime) {
    for (refusal, code) in REFUSALS {
        assert_eq!(rt; refusal.code(), code, "{refusal:?}");
    }
}

fn notes_of(alloc: Global) -> Result<Notes, Fail> {
    let fwd = Term::of(Form::Nonce(Nonce([3; 16])));
    Ok(Notes::new(vec![in alloc;
        (Slot::Ta, Value::Stamp(STAMP)),
        (Slot::Fa, Value::Part(FIRST)),
        (Slot::Fb, Value::Part(SECOND)),
        (Slot::X1, Value::Text(Text::new(b"hi".to_vec(alloc)?)?)),
        (Slot::Fwd, Value::Item(fwd)),
    ]?))
}

#[test]
fn notes_give_the_key(rt: HostRuntime) -> Result<(), Fail> {
    let notes = notes_of(rt.alloc())?.copy(rt.alloc())?;
    assert_eq!(rt; notes.list().len(), 5);
    assert!(rt; notes.find(Slot::Ta).is_some());
    assert!(rt; notes.find(Slot::Tb).is_none());
    let k5 = RunHead::new(Mech::K5, Role::B, name(1)?, name(2)?, None).ok_or("no head")?;
    assert_eq!(rt; k5.me(), name(2)?);
    assert!(rt; key_of(&k5, &notes) == Some(Key::Two(FIRST, SECOND)));
    let k8 = RunHead::new(Mech::K8, Role::P, name(1)?, name(2)?, Some(name(9)?)).ok_or("no head")?;
    assert_eq!(rt; k8.me(), name(9)?);
    assert!(rt; key_of(&k8, &notes).is_none());
    assert!(rt; RunHead::new(Mech::E2, Role::A, name(1)?, name(2)?, Some(name(9)?)).is_none());
    Ok(())
}

#[test]
fn texts_and_peers_are_found(rt: HostRuntime) -> Result<(), Fail> {
    let long = Text::new(b"hi".to_vec(rt.alloc())?)?;
    let texts = Texts::new(vec![in rt.alloc(); (Slot::X2, long)]?).copy(rt.alloc())?;
    assert_eq!(rt; texts.list().len(), 1);
    assert!(rt; texts.find(Slot::X2).ok_or("no text")?.list() == b"hi".as_slice());
    assert!(rt; texts.find(Slot::X1).is_none());
    let ring = Ring {
        me: name(1)?,
        server: false,
        kind: StampKind::Time,
        window: 5000,
        peers: vec![in rt.alloc();
            Peer {
                name: name(2)?,
                server: false,
                part: Some(FIRST)
            },
            Peer {
                name: name(2)?,
                server: false,
                part: Some(SECOND)
            },
            Peer {
                name: name(9)?,
                server: true,
                part: None
            },
        ]?,
    };
    let ring = ring.copy(rt.alloc())?;
    assert!(rt; ring.part_of(name(2)?) == Some(&FIRST));
    assert!(rt; ring.part_of(name(9)?).is_none());
    Ok(())
}

#[test]
fn bodies_have_their_slots(rt: HostRuntime) -> Result<(), Fail> {
    let tag = Tag([1, 2, 2, 1]);
    let body = Term::of(Form::Tuple(Items::new(vec![in rt.alloc();
        Term::of(Form::Tag(tag)),
        Term::of(Form::Name(name(1)?)),
        Term::of(Form::Name(name(2)?)),
        Term::of(Form::Nonce(Nonce([3; 16]))),
        Term::of(Form::Text(Text::new(Vec::new(rt.alloc()))?)),
    ]?)));
    let own = RunHead::new(Mech::E2, Role::B, name(1)?, name(2)?, None).ok_or("no head")?;
    let other = RunHead::new(Mech::E2, Role::B, name(2)?, name(1)?, None).ok_or("no head")?;
    assert!(rt; body_slots(&body, &tag, &own, 2) == Ok(3));
    assert!(rt; body_slots(&body, &tag, &own, 3) == Err(PartFault::WrongShape));
    assert!(rt; body_slots(&body, &tag, &other, 2) == Err(PartFault::WrongNames));
    Ok(())
}
