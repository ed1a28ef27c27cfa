//! Messages are given to runs: what is taken, and each refusal of a message, a stamp to issue and a draw.

use super::Act::{DropRun, Give, Open, Start};
use super::Answer::{Dropped, Replied, Run, Said, Taken};
use super::Word::{Literal, Message};
use super::*;
use mech_rows::Mech::{C2, C3, C4, E1, E2, E3, E4};
use mech_rows::Role::{A, B};
use outside::MemDraws;
use term_values::Why;

/// What no bytes are.
const EMPTY: Refusal = Refusal::Malformed {
    place: 0,
    why: Why::Short,
};

/// The nonce of another run.
const OTHER_RUN: Refusal = Refusal::WrongValue {
    part: 1,
    slot: Slot::Rb,
};

/// Messages are given to runs.
static DELIVERIES: [Story<'static>; 7] = [
    (
        "an exchange by stamps goes to its end",
        PARTY_1,
        PARTY_2,
        &[
            (ONE, Open(E3, A, 1, 2), Ok(Run(1)), 1),
            (TWO, Open(E3, B, 1, 2), Ok(Run(1)), 1),
            (ONE, Start(1, 10), Ok(Said), 3),
            (TWO, Give(1, Message(0), 12), Ok(Replied), 3),
            (ONE, Give(1, Message(1), 14), Ok(Taken), 4),
            (ONE, Give(1, Message(1), 15), Err(Refusal::EndedRun), 4),
            (ONE, Give(2, Message(1), 15), Err(Refusal::UnknownRun), 4),
        ],
    ),
    (
        "bytes that fit no pass are refused",
        PARTY_1,
        PARTY_2,
        &[
            (ONE, Open(E2, A, 1, 2), Ok(Run(1)), 1),
            (ONE, Give(1, Literal(b""), 1), Err(EMPTY), 1),
            (
                ONE,
                Give(1, Literal(b"\x06\0\0"), 1),
                Err(Refusal::WrongPass),
                1,
            ),
            (
                ONE,
                Give(1, Literal(b"\x08\x01\x07\x01\x02\x01\0"), 1),
                Err(Refusal::WrongShape { part: 0 }),
                1,
            ),
        ],
    ),
    (
        "an answer under another key is refused",
        ALIEN_1,
        PARTY_2,
        &[
            (TWO, Open(E2, B, 1, 2), Ok(Run(1)), 1),
            (TWO, Start(1, 1), Ok(Said), 2),
            (ONE, Open(E2, A, 1, 2), Ok(Run(1)), 1),
            (ONE, Give(1, Message(0), 1), Ok(Replied), 2),
            (
                TWO,
                Give(1, Message(1), 1),
                Err(Refusal::Unopened { part: 1 }),
                2,
            ),
        ],
    ),
    (
        "a reflected message is refused",
        PARTY_1,
        PARTY_2,
        &[
            (TWO, Open(E2, B, 1, 2), Ok(Run(1)), 1),
            (TWO, Start(1, 1), Ok(Said), 2),
            (TWO, Open(E2, A, 2, 1), Ok(Run(2)), 3),
            (TWO, Give(2, Message(0), 1), Ok(Replied), 4),
            (
                TWO,
                Give(1, Message(1), 1),
                Err(Refusal::WrongNames { part: 1 }),
                4,
            ),
        ],
    ),
    (
        "an answer to another run is refused",
        PARTY_1,
        PARTY_2,
        &[
            (TWO, Open(E2, B, 1, 2), Ok(Run(1)), 1),
            (TWO, Open(E2, B, 1, 2), Ok(Run(2)), 2),
            (TWO, Start(1, 1), Ok(Said), 3),
            (TWO, Start(2, 1), Ok(Said), 4),
            (ONE, Open(E2, A, 1, 2), Ok(Run(1)), 1),
            (ONE, Give(1, Message(0), 1), Ok(Replied), 2),
            (TWO, Give(2, Message(2), 1), Err(OTHER_RUN), 4),
            (TWO, Give(1, Message(2), 1), Ok(Taken), 5),
        ],
    ),
    (
        "a text that no rule allows is refused",
        PARTY_1,
        PARTY_2,
        &[
            (TWO, Open(C2, B, 1, 2), Ok(Run(1)), 1),
            (TWO, Start(1, 1), Ok(Said), 2),
            (ONE, Open(C2, A, 1, 2), Ok(Run(1)), 1),
            (
                ONE,
                Give(1, Message(0), 10),
                Err(Refusal::TextRefused { slot: Slot::X1 }),
                1,
            ),
        ],
    ),
    (
        "no reply is made without a stamp",
        PARTY_1,
        SPENT_2,
        &[
            (ONE, Open(C3, A, 1, 2), Ok(Run(1)), 1),
            (ONE, Start(1, 10), Ok(Said), 3),
            (TWO, Open(C3, B, 1, 2), Ok(Run(1)), 1),
            (TWO, Give(1, Message(0), 10), Err(Refusal::StampsSpent), 1),
        ],
    ),
];

#[test]
fn deliveries_are_taken_or_refused(rt: HostRuntime) -> Result<(), Fail> {
    play(&rt, rt.alloc(), &mut Counted::new(), &DELIVERIES)
}

/// Runs are to say their first messages.
static FIRST_MESSAGES: [Story<'static>; 3] = [
    (
        "a run says its first message once",
        PARTY_1,
        PARTY_2,
        &[
            (TWO, Open(C4, B, 1, 2), Ok(Run(1)), 1),
            (TWO, Start(2, 1), Err(Refusal::UnknownRun), 1),
            (TWO, Start(1, 1), Ok(Said), 2),
            (TWO, Start(1, 1), Err(Refusal::WrongPass), 2),
            (TWO, DropRun(1), Ok(Dropped(true)), 3),
            (TWO, Start(1, 1), Err(Refusal::EndedRun), 3),
        ],
    ),
    (
        "a run that hears first says no first message",
        PARTY_1,
        PARTY_2,
        &[
            (ONE, Open(E2, A, 1, 2), Ok(Run(1)), 1),
            (ONE, Start(1, 1), Err(Refusal::WrongPass), 1),
        ],
    ),
    (
        "no first message is made without a stamp",
        SPENT_1,
        PARTY_2,
        &[
            (ONE, Open(E1, A, 1, 2), Ok(Run(1)), 1),
            (ONE, Start(1, 1), Err(Refusal::StampsSpent), 1),
        ],
    ),
];

#[test]
fn first_messages_are_said_or_refused(rt: HostRuntime) -> Result<(), Fail> {
    play(&rt, rt.alloc(), &mut Counted::new(), &FIRST_MESSAGES)
}

/// The first draw fails, and the third.
static FAULTS: [Story<'static>; 1] = [(
    "no message is made without a draw",
    PARTY_1,
    PARTY_2,
    &[
        (TWO, Open(E4, B, 1, 2), Ok(Run(1)), 1),
        (TWO, Start(1, 10), Err(Refusal::DrawFault), 1),
        (TWO, Start(1, 10), Ok(Said), 2),
        (ONE, Open(E4, A, 1, 2), Ok(Run(1)), 1),
        (ONE, Give(1, Message(0), 10), Err(Refusal::DrawFault), 1),
        (ONE, Give(1, Message(0), 10), Ok(Replied), 2),
    ],
)];

#[test]
fn no_message_is_made_without_a_draw(rt: HostRuntime) -> Result<(), Fail> {
    let alloc = rt.alloc();
    let mut failing = MemDraws::new(0xd0, vec![in alloc; 1, 3]?);
    play(&rt, alloc, &mut failing, &FAULTS)
}
