//! Received stamps are judged at the greater of now and the clock, and a refused one leaves now.

use super::Act::{Give, Issue, Open, Start};
use super::Answer::{Issued, Run, Said, Taken};
use super::Word::Message;
use super::*;
use mech_rows::Mech::{E1, E3};
use mech_rows::Role::{A, B};
use mech_rows::Slot::Ta;

/// A stamp of 10,000, which is one too far ahead.
const EARLY: Refusal = Refusal::Early {
    slot: Ta,
    at: 4_999,
};

/// A stamp of 10,000, which is one too far behind.
const LATE: Refusal = Refusal::Late {
    slot: Ta,
    at: 15_001,
};

/// A stamp of 10,000, for the second time.
const REPEATED: Refusal = Refusal::Repeated {
    stamp: Stamp::Time(10_000),
};

/// Party 2 receives a stamp of party 1.
static RECEIVED: [Story<'static>; 3] = [
    (
        "late, early and repeated stamps are refused",
        PARTY_1,
        PARTY_2,
        &[
            (ONE, Open(E1, A, 1, 2), Ok(Run(1)), 1),
            (ONE, Start(1, 10_000), Ok(Said), 3),
            (TWO, Open(E1, B, 1, 2), Ok(Run(1)), 1),
            (TWO, Give(1, Message(0), 4_999), Err(EARLY), 1),
            (TWO, Give(1, Message(0), 15_001), Err(LATE), 1),
            (TWO, Open(E1, B, 1, 2), Ok(Run(2)), 2),
            (TWO, Give(2, Message(0), 5_000), Ok(Taken), 3),
            (TWO, Give(1, Message(0), 15_000), Err(REPEATED), 3),
            (TWO, Issue(15_001), Ok(Issued(Stamp::Time(15_001))), 4),
            (TWO, Give(1, Message(0), 5_000), Err(LATE), 4),
        ],
    ),
    (
        "stamps of the other kind are refused",
        COUNTING_1,
        PARTY_2,
        &[
            (ONE, Open(E1, A, 1, 2), Ok(Run(1)), 1),
            (ONE, Start(1, 1), Ok(Said), 3),
            (TWO, Open(E1, B, 1, 2), Ok(Run(1)), 1),
            (
                TWO,
                Give(1, Message(0), 1),
                Err(Refusal::WrongStampKind { slot: Ta }),
                1,
            ),
        ],
    ),
    (
        "a stamp that was issued stays where the received one is refused",
        PARTY_1,
        PARTY_2,
        &[
            (ONE, Open(E3, A, 1, 2), Ok(Run(1)), 1),
            (ONE, Start(1, 10_000), Ok(Said), 3),
            (TWO, Open(E3, B, 1, 2), Ok(Run(1)), 1),
            (TWO, Give(1, Message(0), 15_001), Err(LATE), 2),
        ],
    ),
];

#[test]
fn received_stamps_are_judged(rt: HostRuntime) -> Result<(), Fail> {
    play(&rt, rt.alloc(), &mut Counted::new(), &RECEIVED)
}

/// What is done after 4,096 rounds: the store is full, and takes a message once a stamp has left it.
static FULL: [Row; 6] = [
    (ONE, Open(E1, A, 1, 2), Ok(Run(4097)), 12_289),
    (ONE, Start(4097, 4_097), Ok(Said), 12_291),
    (TWO, Open(E1, B, 1, 2), Ok(Run(4097)), 8_193),
    (
        TWO,
        Give(4097, Message(4096), 5_001),
        Err(Refusal::StoreFull { count: 4096 }),
        8_193,
    ),
    (TWO, Open(E1, B, 1, 2), Ok(Run(4098)), 8_194),
    (TWO, Give(4098, Message(4096), 5_002), Ok(Taken), 8_195),
];

/// In the round after so many, party 1 tells party 2 one stamp, and it is taken.
fn add_round(rows: &mut Vec<Row>, before: usize, run: u32, clock: u64) -> Result<(), OutOfMemory> {
    let told = before.saturating_mul(3);
    let heard = before.saturating_mul(2);
    rows.extend_from_slice(&[
        (ONE, Open(E1, A, 1, 2), Ok(Run(run)), told.saturating_add(1)),
        (ONE, Start(run, clock), Ok(Said), told.saturating_add(3)),
        (
            TWO,
            Open(E1, B, 1, 2),
            Ok(Run(run)),
            heard.saturating_add(1),
        ),
        (
            TWO,
            Give(run, Message(before), clock),
            Ok(Taken),
            heard.saturating_add(2),
        ),
    ])
}

#[test]
fn no_more_than_4096_stamps_of_a_sender_live(rt: HostRuntime) -> Result<(), Fail> {
    let alloc = rt.alloc();
    let mut rows = Vec::new(alloc);
    for before in 0..4096u32 {
        let run = before.saturating_add(1);
        add_round(&mut rows, before as usize, run, u64::from(run))?;
    }
    rows.extend_from_slice(&FULL)?;
    let story = (
        "no more than 4,096 stamps live",
        PARTY_1,
        PARTY_2,
        rows.as_slice(),
    );
    play(&rt, alloc, &mut Counted::new(), &[story])
}
