//! Each mechanism runs to its end.

use super::acts::{Act, Answer};
use super::fixtures::knows;
use super::tables::{Row, play, played};
use super::worlds::{PARTIES, SHARED, SHARING};
use agreement_laws::{Happened, History, partner};
use mech_rows::{Mech, Role, agreed, passes};
use std::alloc::Global;
use std::process::Abort;
use world_run::World;

/// The mechanisms, each with the role that says its first message.
const MECHS: [(Mech, Role); 8] = [
    (Mech::E1, Role::A),
    (Mech::E2, Role::B),
    (Mech::E3, Role::A),
    (Mech::E4, Role::B),
    (Mech::C1, Role::A),
    (Mech::C2, Role::B),
    (Mech::C3, Role::A),
    (Mech::C4, Role::B),
];

/// The other of the roles A and B.
fn peer(role: Role) -> Role {
    match role {
        Role::A => Role::B,
        _ => Role::A,
    }
}

/// Both runs are opened, the one that says the first message first.
fn openings(mech: Mech, first: Role) -> [Row; 2] {
    let one = Answer::Opened(1, Some(1), passes(mech) == 1);
    let two = Answer::Opened(2, None, false);
    [
        (Act::Open(mech, first, 1, 2), Ok(one)),
        (Act::Open(mech, peer(first), 1, 2), Ok(two)),
    ]
}

/// The message of a pass, of so many, is passed on to its receiver. Each message but the last is answered, and the last that a
/// run sends or takes ends it.
fn passing(pass: u8, count: u8) -> [Row; 1] {
    let number = u32::from(pass);
    let run = if pass % 2 == 1 { 2 } else { 1 };
    let sent = if pass == count {
        None
    } else {
        Some(number.saturating_add(1))
    };
    let is_done = pass.saturating_add(1) >= count;
    [(
        Act::PassOn(run, number),
        Ok(Answer::Given(pass, sent, is_done)),
    )]
}

/// A world that has opened both runs, and has passed each message on to its receiver.
fn exchanged(rt: &impl Abort, alloc: Global, mech: Mech, first: Role) -> World {
    let mut world = played(rt, alloc, &PARTIES, &SHARING, &openings(mech, first));
    let count = passes(mech);
    for pass in 1..=count {
        play(rt, alloc, &mut world, &passing(pass, count)).expect(rt, "memory");
    }
    world
}

/// That one of two runs is done, and has the other one as its partner where it claims agreement.
fn is_done(rt: &impl Abort, history: &History, run: &Happened) {
    assert!(rt; run.done && !run.exposed);
    let other = if run.run == 1 { 2 } else { 1 };
    let wanted = match agreed(run.head.mech, run.head.role) {
        Some(_) => Some(other),
        None => None,
    };
    assert!(rt; partner(history, run) == wanted);
}

/// That both runs are done, and so many messages were sent.
fn are_done(rt: &impl Abort, history: &History, count: u8) {
    assert_eq!(rt; history.happened.as_slice().len(), 2);
    assert_eq!(rt; history.sent.as_slice().len(), count as usize);
    for run in history.happened.as_slice() {
        is_done(rt, history, run);
    }
}

/// That the attacker derives each message, and not the part that both share.
fn is_overheard(rt: &impl Abort, world: &World) {
    for message in world.history().sent.as_slice() {
        assert!(rt; world.knowledge().derives(message).ok() == Some(true));
    }
    assert!(rt; knows(world, SHARED) == Some(false));
}

/// That the mechanism runs to its end.
fn ends(rt: &impl Abort, alloc: Global, mech: Mech, first: Role) {
    let world = exchanged(rt, alloc, mech, first);
    are_done(rt, world.history(), passes(mech));
    is_overheard(rt, &world);
}

#[test]
fn each_mechanism_runs_to_its_end(rt: HostRuntime) {
    for (mech, first) in MECHS {
        ends(&rt, rt.alloc(), mech, first);
    }
}
