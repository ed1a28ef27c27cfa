//! Runs are opened up to the limits, and dropped; stamps are issued.

use super::Act::{DropRun, Issue, Look, Open};
use super::Answer::{Dropped, IsOpen, Issued, Run};
use super::*;
use mech_rows::Mech::E2;
use mech_rows::Role::A;

/// Openings by party 2.
static OPENINGS: [Story<'static>; 1] = [(
    "openings are refused in their order",
    PARTY_1,
    PARTY_2,
    &[
        (TWO, Open(E2, A, 2, 5), Err(Refusal::UnknownParty), 0),
        (TWO, Open(E2, A, 2, 3), Err(Refusal::WrongKind), 0),
        (TWO, Open(E2, A, 2, 2), Err(Refusal::SelfPeer), 0),
        (TWO, Open(E2, A, 2, 4), Err(Refusal::NoKey), 0),
    ],
)];

#[test]
fn openings_are_refused(rt: HostRuntime) -> Result<(), Fail> {
    play(&rt, rt.alloc(), &mut Counted::new(), &OPENINGS)
}

/// What is done at a desk with 1,024 open runs.
static FULL: [Row; 8] = [
    (TWO, Open(E2, A, 2, 1), Err(Refusal::TableFull), 1024),
    (TWO, DropRun(5), Ok(Dropped(true)), 1025),
    (TWO, DropRun(5), Ok(Dropped(false)), 1025),
    (TWO, DropRun(1025), Ok(Dropped(false)), 1025),
    (TWO, Look(5), Err(Refusal::EndedRun), 1025),
    (TWO, Look(1025), Err(Refusal::UnknownRun), 1025),
    (TWO, Look(1024), Ok(IsOpen), 1025),
    (TWO, Open(E2, A, 2, 1), Ok(Run(1025)), 1026),
];

#[test]
fn no_more_than_1024_runs_are_open(rt: HostRuntime) -> Result<(), Fail> {
    let alloc = rt.alloc();
    let mut rows = Vec::new(alloc);
    for run in 1..1025u32 {
        rows.push((TWO, Open(E2, A, 2, 1), Ok(Run(run)), run as usize))?;
    }
    rows.extend_from_slice(&FULL)?;
    let story = (
        "no more than 1,024 runs are open",
        PARTY_1,
        PARTY_2,
        rows.as_slice(),
    );
    play(&rt, alloc, &mut Counted::new(), &[story])
}

/// Stamps that party 2 issues.
static ISSUES: [Story<'static>; 2] = [
    (
        "stamps rise",
        PARTY_1,
        PARTY_2,
        &[
            (TWO, Issue(7), Ok(Issued(Stamp::Time(7))), 1),
            (TWO, Issue(3), Ok(Issued(Stamp::Time(8))), 2),
        ],
    ),
    (
        "no stamp is issued after the last",
        PARTY_1,
        SPENT_2,
        &[(TWO, Issue(7), Err(Refusal::StampsSpent), 0)],
    ),
];

#[test]
fn stamps_are_issued(rt: HostRuntime) -> Result<(), Fail> {
    play(&rt, rt.alloc(), &mut Counted::new(), &ISSUES)
}
