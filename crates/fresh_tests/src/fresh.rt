use fresh_values::{Counted, Issuer, RngDraws, StampsSpent};
use outside::{Draws, Failed};
use rand_core::{Infallible, TryRng};
use std::fmt;
use term_values::{Nonce, Part, Stamp, StampKind};

/// A source that numbers its fills from 1. Each of four in turn fails where that is said of it; the others
/// give their number over and over.
#[derive(Drop)]
struct Numbered {
    fills: u8,
    fails: [bool; 4],
}

impl TryRng for Numbered {
    type Error = fmt::Error;

    fn try_next_u32(&mut self) -> Result<u32, fmt::Error> {
        Ok(u32::from(self.fills))
    }

    fn try_next_u64(&mut self) -> Result<u64, fmt::Error> {
        Ok(u64::from(self.fills))
    }

    fn try_fill_bytes(&mut self, dst: &mut [u8]) -> Result<(), fmt::Error> {
        let fails = self.fails[usize::from(self.fills % 4)];
        self.fills = self.fills.saturating_add(1);
        if fails {
            return Err(fmt::Error);
        }
        dst.fill(self.fills);
        Ok(())
    }
}

/// A source that gives one byte over and over and never fails.
#[derive(Drop)]
struct Sure {
    byte: u8,
}

impl TryRng for Sure {
    type Error = Infallible;

    fn try_next_u32(&mut self) -> Result<u32, Infallible> {
        Ok(u32::from(self.byte))
    }

    fn try_next_u64(&mut self) -> Result<u64, Infallible> {
        Ok(u64::from(self.byte))
    }

    fn try_fill_bytes(&mut self, dst: &mut [u8]) -> Result<(), Infallible> {
        dst.fill(self.byte);
        Ok(())
    }
}

/// Whether a nonce, a part, a nonce and a part of the source are these, with so many faults in the end.
fn gives<R: TryRng + Drop>(
    source: R,
    first: Result<Nonce, Failed>,
    second: Result<Part, Failed>,
    third: Result<Nonce, Failed>,
    fourth: Result<Part, Failed>,
    faults: u64,
) -> bool {
    let mut draws = RngDraws::new(source);
    let is_first = draws.nonce() == first;
    let is_second = draws.part() == second;
    let is_third = draws.nonce() == third;
    let is_fourth = draws.part() == fourth;
    is_first && is_second && is_third && is_fourth && draws.faults() == faults
}

/// A source of which these fills fail.
fn failing(fails: [bool; 4]) -> Numbered {
    Numbered { fills: 0, fails }
}

/// A nonce that is this byte over and over.
fn nonce(byte: u8) -> Result<Nonce, Failed> {
    Ok(Nonce([byte; 16]))
}

/// A part that is this byte over and over.
fn part(byte: u8) -> Result<Part, Failed> {
    Ok(Part([byte; 32]))
}

#[test]
fn stamps_are_issued(rt: HostRuntime) {
    let spent = Err(StampsSpent);
    for (kind, last, now, want) in [
        (StampKind::Time, 0, 0, Ok(Stamp::Time(1))),
        (StampKind::Time, 0, 5_000, Ok(Stamp::Time(5_000))),
        (StampKind::Time, 10_000, 10_000, Ok(Stamp::Time(10_001))),
        (StampKind::Time, 10_000, 4_000, Ok(Stamp::Time(10_001))),
        (StampKind::Seq, 0, 5_000, Ok(Stamp::Seq(1))),
        (StampKind::Seq, u64::MAX - 1, 0, Ok(Stamp::Seq(u64::MAX))),
        (StampKind::Time, u64::MAX, 0, spent),
        (StampKind::Seq, u64::MAX, 0, spent),
    ] {
        assert_eq!(rt; Issuer::new(kind, last).issue(now), want, "after {last}");
    }
    assert_eq!(rt; Issuer::new(StampKind::Seq, 7).last(), 7);
}

#[test]
fn values_are_counted(rt: HostRuntime) {
    let mut draws = Counted::new();
    let first = Nonce([0xd0, 0, 0, 0, 0, 0, 0, 0, 0, 0, 0, 0, 0, 0, 0, 0]);
    let mut second = [0; 32];
    second[0] = 0xd1;
    second[31] = 1;
    assert_eq!(rt; draws.nonce(), Ok(first));
    assert_eq!(rt; draws.part(), Ok(Part(second)));
    assert_eq!(rt; draws.count(), 2);
    assert_eq!(rt; draws.faults(), 0);
    let mut last = Counted::after(u64::MAX);
    assert_eq!(rt; last.part(), Err(Failed));
    assert_eq!(rt; last.nonce(), Err(Failed));
    assert_eq!(rt; last.faults(), 2);
    assert_eq!(rt; last.count(), u64::MAX);
}

#[test]
fn a_source_is_drawn_from(rt: HostRuntime) {
    let none = Err(Failed);
    let no_part = Err(Failed);
    let late = failing([false, false, true, true]);
    assert!(rt; gives(late, nonce(1), part(2), none, no_part, 2));
    let sure = Sure { byte: 5 };
    assert!(rt; gives(sure, nonce(5), part(5), nonce(5), part(5), 0));
}

#[test]
fn a_failed_fill_is_not_asked_again(rt: HostRuntime) {
    let first = failing([true, false, false, false]);
    assert!(rt; gives(first, Err(Failed), part(2), nonce(3), part(4), 1));
    let second = failing([false, true, false, false]);
    assert!(rt; gives(second, nonce(1), Err(Failed), nonce(3), part(4), 1));
}
