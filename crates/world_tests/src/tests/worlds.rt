//! What worlds of parties 1 and 2 and the third party 9 answer, each refusal among it.

use super::acts::Act;
use super::acts::Act::{Clock, Give, Open, OpenWith, PassOn};
use super::acts::Answer::{Dropped, Given, Now, Opened};
use super::fixtures::{OWN, PairRow, PartyRow, begun, knows};
use super::tables::{Row, play, play_strictly, played};
use super::words::Word::{Challenge, Reply, Short};
use agreement_laws::{History, partner};
use mech_rows::Mech::{E1, E2, E3};
use mech_rows::Role::{A, B};
use mech_rows::{Refusal, Slot};
use std::alloc::Global;
use std::process::Abort;
use term_values::Stamp;
use term_values::StampKind::{Seq, Time};
use world_run::World;

pub(super) const PARTIES: [PartyRow; 3] = [(1, Time, 5000), (2, Time, 5000), (9, Time, 5000)];

/// The same, where party 2 counts its messages.
const COUNTING: [PartyRow; 3] = [(1, Time, 5000), (2, Seq, 5000), (9, Time, 5000)];

/// The byte of the part that parties 1 and 2 share.
pub(super) const SHARED: u8 = 0xaa;

pub(super) const SHARING: [PairRow; 1] = [(1, 2, SHARED, false)];

const REVEALED: [PairRow; 1] = [(1, 2, SHARED, true)];

/// Where messages are refused, three runs wait (1 and 4 as B, 2 as A), 3 is over, and there is no fifth. Then run 2 answers run 1,
/// and in the end run 1 takes the answer of run 5.
const DELIVERIES: [Row; 22] = [
    (Open(E2, B, 1, 2), Ok(Opened(1, Some(1), false))),
    (Open(E2, A, 1, 2), Ok(Opened(2, None, false))),
    (Open(E2, B, 1, 2), Ok(Opened(3, Some(2), false))),
    (Open(E2, B, 2, 1), Ok(Opened(4, Some(3), false))),
    (Act::Drop(3), Ok(Dropped)),
    (Act::Drop(3), Err(Refusal::EndedRun)),
    (Act::Drop(0), Err(Refusal::UnknownRun)),
    (Give(1, Reply(SHARED)), Err(Refusal::NotDerivable)),
    (Give(2, Challenge(0xd0, 0, 3)), Err(Refusal::Unborn)),
    (Give(5, Short), Err(Refusal::UnknownRun)),
    (Give(0, Short), Err(Refusal::UnknownRun)),
    (Give(3, Short), Err(Refusal::EndedRun)),
    (Give(1, Short), Err(Refusal::WrongPass)),
    (Give(1, Reply(OWN)), Err(Refusal::Unopened { part: 1 })),
    (Give(2, Short), Err(Refusal::WrongShape { part: 0 })),
    (PassOn(2, 2), Ok(Given(1, Some(4), true))),
    (PassOn(1, 4), Err(OTHER_NONCE)),
    (PassOn(4, 4), Err(Refusal::WrongNames { part: 1 })),
    (PassOn(2, 1), Err(Refusal::EndedRun)),
    (Open(E2, A, 1, 2), Ok(Opened(5, None, false))),
    (PassOn(5, 1), Ok(Given(1, Some(5), true))),
    (PassOn(1, 5), Ok(Given(2, None, true))),
];

const OTHER_NONCE: Refusal = Refusal::WrongValue {
    part: 1,
    slot: Slot::Rb,
};

#[test]
fn deliveries_are_refused(rt: HostRuntime) {
    let _world = played(&rt, rt.alloc(), &PARTIES, &SHARING, &DELIVERIES);
}

/// One nonce was drawn, which ends with 0. A nonce that ends with 256 would be a later one, and one that begins with 0xd1 is no
/// draw.
const DRAWS: [Row; 6] = [
    (Open(E2, B, 1, 2), Ok(Opened(1, Some(1), false))),
    (Open(E2, A, 1, 2), Ok(Opened(2, None, false))),
    (Open(E2, A, 1, 2), Ok(Opened(3, None, false))),
    (Give(2, Challenge(0xd0, 1, 0)), Err(Refusal::Unborn)),
    (Give(2, Challenge(0xd0, 0, 0)), Ok(Given(1, Some(2), true))),
    (Give(3, Challenge(0xd1, 0, 0)), Ok(Given(1, Some(3), true))),
];

#[test]
fn what_was_drawn_or_is_no_draw_is_taken(rt: HostRuntime) {
    let _world = played(&rt, rt.alloc(), &PARTIES, &SHARING, &DRAWS);
}

/// Run 1 sends a stamp of 10,000. Run 2 hears it too early, and then in time.
const EARLY: [Row; 9] = [
    (Clock(1, 10_000), Ok(Now(10_000))),
    (Clock(1, 7), Ok(Now(10_000))),
    (Clock(7, 7), Err(Refusal::UnknownParty)),
    (Open(E1, A, 1, 2), Ok(Opened(1, Some(1), true))),
    (Open(E1, B, 1, 2), Ok(Opened(2, None, false))),
    (Open(E1, B, 1, 2), Ok(Opened(3, None, false))),
    (Clock(2, 4_999), Ok(Now(4_999))),
    (PassOn(2, 1), Err(AHEAD)),
    (Clock(2, 15_000), Ok(Now(15_000))),
];

const AHEAD: Refusal = Refusal::Early {
    slot: Slot::Ta,
    at: 4_999,
};

/// Under a hook that wants another text.
const UNSUITABLE: [Row; 1] = [(PassOn(2, 1), Err(NO_SUCH_TEXT))];

const NO_SUCH_TEXT: Refusal = Refusal::TextRefused { slot: Slot::X1 };

/// Run 2 takes the message, and run 3 hears it again, then too late, and at last takes another one.
const LATE: [Row; 7] = [
    (PassOn(2, 1), Ok(Given(1, None, true))),
    (PassOn(3, 1), Err(AGAIN)),
    (Clock(2, 15_001), Ok(Now(15_001))),
    (PassOn(3, 1), Err(BEHIND)),
    (Clock(1, 15_001), Ok(Now(15_001))),
    (Open(E1, A, 1, 2), Ok(Opened(4, Some(2), true))),
    (PassOn(3, 2), Ok(Given(1, None, true))),
];

const AGAIN: Refusal = Refusal::Repeated {
    stamp: Stamp::Time(10_000),
};

const BEHIND: Refusal = Refusal::Late {
    slot: Slot::Ta,
    at: 15_001,
};

#[test]
fn stamps_and_texts_are_judged(rt: HostRuntime) {
    let mut world = played(&rt, rt.alloc(), &PARTIES, &SHARING, &EARLY);
    play_strictly(&rt, rt.alloc(), &mut world, &UNSUITABLE).expect(&rt, "memory");
    play(&rt, rt.alloc(), &mut world, &LATE).expect(&rt, "memory");
}

/// Under a hook that wants a text in X1 that begins with h: a run takes the first of the messages that has one there.
const TEXTS: [Row; 9] = [
    (Open(E1, B, 1, 2), Ok(Opened(1, None, false))),
    (Open(E1, A, 1, 2), Ok(Opened(2, Some(1), true))),
    (
        OpenWith(E1, A, Slot::X1, b'g'),
        Ok(Opened(3, Some(2), true)),
    ),
    (
        OpenWith(E1, A, Slot::X2, b'h'),
        Ok(Opened(4, Some(3), true)),
    ),
    (
        OpenWith(E1, A, Slot::X1, b'h'),
        Ok(Opened(5, Some(4), true)),
    ),
    (PassOn(1, 1), Err(NO_SUCH_TEXT)),
    (PassOn(1, 2), Err(NO_SUCH_TEXT)),
    (PassOn(1, 3), Err(NO_SUCH_TEXT)),
    (PassOn(1, 4), Ok(Given(1, None, true))),
];

#[test]
fn a_run_sends_the_text_that_it_is_opened_with(rt: HostRuntime) {
    let mut world = begun(&rt, rt.alloc(), &PARTIES, &SHARING);
    play_strictly(&rt, rt.alloc(), &mut world, &TEXTS).expect(&rt, "memory");
}

/// Party 1 issues the greatest stamp, and none after it. Its runs that send no stamp are opened as before.
const STAMPS: [Row; 9] = [
    (Open(E3, A, 2, 1), Ok(Opened(1, Some(1), false))),
    (Open(E3, B, 2, 1), Ok(Opened(2, None, false))),
    (Open(E1, B, 2, 1), Ok(Opened(3, None, false))),
    (PassOn(2, 1), Err(OTHER_KIND)),
    (Clock(1, u64::MAX), Ok(Now(u64::MAX))),
    (Open(E1, A, 1, 2), Ok(Opened(4, Some(2), true))),
    (Open(E1, A, 1, 2), Err(Refusal::StampsSpent)),
    (PassOn(2, 1), Err(Refusal::StampsSpent)),
    (Open(E1, B, 2, 1), Ok(Opened(5, None, false))),
];

const OTHER_KIND: Refusal = Refusal::WrongStampKind { slot: Slot::Ta };

#[test]
fn stamps_run_out(rt: HostRuntime) {
    let _world = played(&rt, rt.alloc(), &COUNTING, &SHARING, &STAMPS);
}

const REFUSED: [Row; 4] = [
    (Open(E2, A, 1, 7), Err(Refusal::UnknownParty)),
    (Open(E2, A, 7, 1), Err(Refusal::UnknownParty)),
    (Open(E2, A, 1, 9), Err(Refusal::WrongKind)),
    (Open(E2, A, 1, 1), Err(Refusal::SelfPeer)),
];

/// Party 1 has 1,024 open runs, and party 2 has none.
const FULL: [Row; 2] = [
    (Open(E2, A, 1, 2), Err(Refusal::TableFull)),
    (Open(E2, B, 1, 2), Ok(Opened(1025, Some(1), false))),
];

/// Opens as many runs of party 1 as it may have.
fn fill(rt: &impl Abort, alloc: Global, world: &mut World) {
    for run in 1..1025 {
        let row = (Open(E2, A, 1, 2), Ok(Opened(run, None, false)));
        play(rt, alloc, world, &[row]).expect(rt, "memory");
    }
}

#[test]
fn openings_are_refused(rt: HostRuntime) {
    let mut world = played(&rt, rt.alloc(), &PARTIES, &SHARING, &REFUSED);
    fill(&rt, rt.alloc(), &mut world);
    play(&rt, rt.alloc(), &mut world, &FULL).expect(&rt, "memory");
}

const KEYLESS: [Row; 1] = [(Open(E2, A, 1, 2), Err(Refusal::NoKey))];

#[test]
fn no_run_is_opened_without_a_key(rt: HostRuntime) {
    let _world = played(&rt, rt.alloc(), &PARTIES, &[], &KEYLESS);
}

/// The attacker itself answers a run.
const FORGERY: [Row; 2] = [
    (Open(E2, B, 1, 2), Ok(Opened(1, Some(1), false))),
    (Give(1, Reply(SHARED)), Ok(Given(2, None, true))),
];

/// That there was one run, and it has no partner.
fn is_alone(rt: &impl Abort, history: &History) {
    assert_eq!(rt; history.happened.as_slice().len(), 1);
    for run in history.happened.as_slice() {
        assert!(rt; partner(history, run).is_none());
    }
}

#[test]
fn revealed_parts_are_known(rt: HostRuntime) {
    let world = played(&rt, rt.alloc(), &PARTIES, &REVEALED, &FORGERY);
    is_alone(&rt, world.history());
    assert!(rt; knows(&world, SHARED) == Some(true));
    assert!(rt; knows(&world, OWN) == Some(true));
}
