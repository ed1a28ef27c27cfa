ghost use Rattle.std.specs.Prelude.{◌≡◌, false, length, true};
ghost use Rattle.mech_rows.specs.Rows.{C, S, family as family_of, forwarded as forwarded_of};
ghost use Rattle.mech_rows.specs.Rows.{number as number_of, pass_from, row_of, tag_of as tag_for};
ghost use Rattle.mech_rows.specs.Rows.{third_by_nonces as nonces_of, third_by_stamps as stamps_of};
ghost use Rattle.mech_rows.specs.Rows.{unread as unread_of};
ghost use Rattle.mech_rows.specs.Table.{filled_cover, filled_pass, filled_passes, filled_row, fill};
ghost use Rattle.mech_rows.specs.Table.{pass_with};

use crate::filled::{five, four, two};
use crate::kinds::Clear::{NameOfB, Slot as Shown};
use crate::kinds::Role::{A, B, P};
use crate::kinds::Slot::{Fa, Fb, Ra, Ra2, Rb, Ta, Tb, Tp, X1, X2, X3, X4, X5, X6, X7, X8, X9};
use crate::kinds::Under::{Drawn, Pair};
use crate::kinds::{Clear, Cover, Mech, Pass, Role, Row, Slot, Under};
use term_values::Tag;

/// The mechanism as data; unused places of an array come last and are None.
pub fn row(mech: Mech) -> Row
    ensures { result ≡ filled_row mech }
{
    let passes = match mech {
        Mech::E1 => e1(),
        Mech::E2 => e2(),
        Mech::E3 => e3(),
        Mech::E4 => e4(),
        Mech::C1 => c1(),
        Mech::C2 => c2(),
        Mech::C3 => c3(),
        Mech::C4 => c4(),
        Mech::K3 => k3(),
        Mech::K4 => k4(),
        Mech::K5 => k5(),
        Mech::K6 => k6(),
        Mech::E5 | Mech::K8 => third_by_stamps(mech),
        Mech::E6 | Mech::K9 => third_by_nonces(mech),
    };
    Row { passes }
}

fn e1() -> [Option<Pass>; 5]
    ensures { result ≡ filled_passes (row_of Mech.E1) }
{
    let first = sealed(Mech::E1, 1, 1, Pair(A, B), &[Ta, X1]);
    five(&[pass(A, B, &[Shown(X2)], &[first])])
}

fn e2() -> [Option<Pass>; 5]
    ensures { result ≡ filled_passes (row_of Mech.E2) }
{
    let second = sealed(Mech::E2, 2, 1, Pair(A, B), &[Rb, X2]);
    five(&[
        pass(B, A, &[Shown(Rb), Shown(X1)], &[]),
        pass(A, B, &[Shown(X3)], &[second]),
    ])
}

fn e3() -> [Option<Pass>; 5]
    ensures { result ≡ filled_passes (row_of Mech.E3) }
{
    let first = sealed(Mech::E3, 1, 1, Pair(A, B), &[Ta, X1]);
    let second = sealed(Mech::E3, 2, 1, Pair(A, B), &[Tb, X3]);
    five(&[
        pass(A, B, &[Shown(X2)], &[first]),
        pass(B, A, &[Shown(X4)], &[second]),
    ])
}

fn e4() -> [Option<Pass>; 5]
    ensures { result ≡ filled_passes (row_of Mech.E4) }
{
    let second = sealed(Mech::E4, 2, 1, Pair(A, B), &[Ra, Rb, X2]);
    let third = sealed(Mech::E4, 3, 1, Pair(A, B), &[Rb, Ra, X4]);
    five(&[
        pass(B, A, &[Shown(Rb), Shown(X1)], &[]),
        pass(A, B, &[Shown(X3)], &[second]),
        pass(B, A, &[Shown(X5)], &[third]),
    ])
}

fn c1() -> [Option<Pass>; 5]
    ensures { result ≡ filled_passes (row_of Mech.C1) }
{
    let first = checked(Mech::C1, 1, 1, Pair(A, B), &[Ta, X1]);
    five(&[pass(A, B, &[Shown(Ta), Shown(X1), Shown(X2)], &[first])])
}

fn c2() -> [Option<Pass>; 5]
    ensures { result ≡ filled_passes (row_of Mech.C2) }
{
    let second = checked(Mech::C2, 2, 1, Pair(A, B), &[Rb, X2]);
    five(&[
        pass(B, A, &[Shown(Rb), Shown(X1)], &[]),
        pass(A, B, &[Shown(X2), Shown(X3)], &[second]),
    ])
}

fn c3() -> [Option<Pass>; 5]
    ensures { result ≡ filled_passes (row_of Mech.C3) }
{
    let first = checked(Mech::C3, 1, 1, Pair(A, B), &[Ta, X1]);
    let second = checked(Mech::C3, 2, 1, Pair(A, B), &[Tb, X3]);
    five(&[
        pass(A, B, &[Shown(Ta), Shown(X1), Shown(X2)], &[first]),
        pass(B, A, &[Shown(Tb), Shown(X3), Shown(X4)], &[second]),
    ])
}

fn c4() -> [Option<Pass>; 5]
    ensures { result ≡ filled_passes (row_of Mech.C4) }
{
    let second = checked(Mech::C4, 2, 1, Pair(A, B), &[Ra, Rb, X2]);
    let third = checked(Mech::C4, 3, 1, Pair(A, B), &[Rb, Ra, X4]);
    five(&[
        pass(B, A, &[Shown(Rb), Shown(X1)], &[]),
        pass(A, B, &[Shown(Ra), Shown(X2), Shown(X3)], &[second]),
        pass(B, A, &[Shown(X4), Shown(X5)], &[third]),
    ])
}

fn k3() -> [Option<Pass>; 5]
    ensures { result ≡ filled_passes (row_of Mech.K3) }
{
    let first = sealed(Mech::K3, 1, 1, Pair(A, B), &[Ta, Fa, X1]);
    five(&[pass(A, B, &[], &[first])])
}

fn k4() -> [Option<Pass>; 5]
    ensures { result ≡ filled_passes (row_of Mech.K4) }
{
    let second = sealed(Mech::K4, 2, 1, Pair(A, B), &[Rb, Fa, X1]);
    five(&[pass(B, A, &[Shown(Rb)], &[]), pass(A, B, &[], &[second])])
}

fn k5() -> [Option<Pass>; 5]
    ensures { result ≡ filled_passes (row_of Mech.K5) }
{
    let first = sealed(Mech::K5, 1, 1, Pair(A, B), &[Ta, Fa, X1]);
    let second = sealed(Mech::K5, 2, 1, Pair(A, B), &[Tb, Ta, Fb, X2]);
    five(&[pass(A, B, &[], &[first]), pass(B, A, &[], &[second])])
}

fn k6() -> [Option<Pass>; 5]
    ensures { result ≡ filled_passes (row_of Mech.K6) }
{
    let second = sealed(Mech::K6, 2, 1, Pair(A, B), &[Ra, Rb, Fa, X2]);
    let third = sealed(Mech::K6, 3, 1, Pair(A, B), &[Rb, Ra, Fb, X3]);
    five(&[
        pass(B, A, &[Shown(Rb), Shown(X1)], &[]),
        pass(A, B, &[], &[second]),
        pass(B, A, &[], &[third]),
    ])
}

/// E5 and K8.
fn third_by_stamps(mech: Mech) -> [Option<Pass>; 5]
    ensures { result ≡ filled_passes (stamps_of mech) }
{
    let for_a = sealed(mech, 2, 1, Pair(A, P), &[Ra, Fa, X3]);
    let for_b = sealed(mech, 2, 2, Pair(B, P), &[Tp, Fa, X2]);
    let sealed_ticket = unread(&for_b);
    let ticket = forwarded(&for_b);
    let from_a = sealed(mech, 3, 2, Drawn, &[Ta, X5]);
    let from_b = sealed(mech, 4, 1, Drawn, &[Tb, X7]);
    five(&[
        pass(A, P, &[Shown(Ra), NameOfB, Shown(X1)], &[]),
        pass(P, A, &[Shown(X4)], &[for_a, sealed_ticket]),
        pass(A, B, &[Shown(X6)], &[ticket, from_a]),
        pass(B, A, &[Shown(X8)], &[from_b]),
    ])
}

/// E6 and K9.
fn third_by_nonces(mech: Mech) -> [Option<Pass>; 5]
    ensures { result ≡ filled_passes (nonces_of mech) }
{
    let for_a = sealed(mech, 3, 1, Pair(A, P), &[Ra2, Fa, X4]);
    let for_b = sealed(mech, 3, 2, Pair(B, P), &[Rb, Fa, X3]);
    let sealed_ticket = unread(&for_b);
    let ticket = forwarded(&for_b);
    let from_a = sealed(mech, 4, 2, Drawn, &[Ra, Rb, X6]);
    let from_b = sealed(mech, 5, 1, Drawn, &[Rb, Ra, X8]);
    five(&[
        pass(B, A, &[Shown(Rb), Shown(X1)], &[]),
        pass(A, P, &[Shown(Ra2), Shown(Rb), NameOfB, Shown(X2)], &[]),
        pass(P, A, &[Shown(X5)], &[for_a, sealed_ticket]),
        pass(A, B, &[Shown(X7)], &[ticket, from_a]),
        pass(B, A, &[Shown(X9)], &[from_b]),
    ])
}

fn pass(from: Role, to: Role, clear: &[Clear], covers: &[Cover]) -> Pass
    ensures { result ≡ pass_with from to clear.now covers.now }
{
    Pass {
        from,
        to,
        clear: four(clear),
        covers: two(covers),
    }
}

/// A seal, made by the sender and opened by the receiver.
fn sealed(mech: Mech, pass: u8, place: u8, under: Under, slots: &[Slot]) -> Cover
    ensures { result ≡ filled_cover (S mech pass place under slots.now) }
{
    Cover {
        check: false,
        under,
        tag: tag_of(mech, pass, place),
        slots: four(slots),
        made: true,
        seen: true,
    }
}

/// A check, made by the sender and tested by the receiver.
fn checked(mech: Mech, pass: u8, place: u8, under: Under, slots: &[Slot]) -> Cover
    ensures { result ≡ filled_cover (C mech pass place under slots.now) }
{
    Cover {
        check: true,
        ..sealed(mech, pass, place, under, slots)
    }
}

/// That item, which its receiver doesn't open.
fn unread(cover: &Cover) -> Cover
    ensures { result ≡ record cover.now { seen = false } }
{
    Cover {
        seen: false,
        ..*cover
    }
}

/// That item, which its sender forwards.
fn forwarded(cover: &Cover) -> Cover
    ensures { result ≡ record cover.now { made = false; seen = true } }
{
    Cover {
        made: false,
        seen: true,
        ..*cover
    }
}

fn tag_of(mech: Mech, pass: u8, place: u8) -> Tag
    ensures { result ≡ tag_for mech pass place }
{
    Tag([family(mech), number(mech), pass, place])
}

fn family(mech: Mech) -> u8
    ensures { result ≡ family_of mech }
{
    match mech {
        Mech::E1 | Mech::E2 | Mech::E3 | Mech::E4 | Mech::E5 | Mech::E6 => 1,
        Mech::C1 | Mech::C2 | Mech::C3 | Mech::C4 => 2,
        Mech::K3 | Mech::K4 | Mech::K5 | Mech::K6 | Mech::K8 | Mech::K9 => 3,
    }
}

fn number(mech: Mech) -> u8
    ensures { result ≡ number_of mech }
{
    match mech {
        Mech::E1 | Mech::C1 => 1,
        Mech::E2 | Mech::C2 => 2,
        Mech::E3 | Mech::C3 | Mech::K3 => 3,
        Mech::E4 | Mech::C4 | Mech::K4 => 4,
        Mech::E5 | Mech::K5 => 5,
        Mech::E6 | Mech::K6 => 6,
        Mech::K8 => 8,
        Mech::K9 => 9,
    }
}

/// How many passes there are, 1 to 5.
pub fn passes(mech: Mech) -> u8
    ensures { result ≡ length (row_of mech) }
{
    match mech {
        Mech::E1 | Mech::C1 | Mech::K3 => 1,
        Mech::E2 | Mech::E3 | Mech::C2 | Mech::C3 | Mech::K4 | Mech::K5 => 2,
        Mech::E4 | Mech::C4 | Mech::K6 => 3,
        Mech::E5 | Mech::K8 => 4,
        Mech::E6 | Mech::K9 => 5,
    }
}
