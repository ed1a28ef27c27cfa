//! What the tables say of the mechanisms by encipherment, and what their receivers refuse.

use super::Exchange;
use term_values::StampKind;

/// A sends X2, S(Ta X1).
pub const E1: Exchange = Exchange {
    kind: StampKind::Time,
    draws: 0,
    notes: 3,
    passes: [
        "
3 E1.1                                | Malformed { place: 7, why: Short }
3 E1.1 long seal 5 E1.1.1 A B M5 X1   | Malformed { place: 9, why: LongText }
3 E1.1 X2 seal 5 E1.1.1 zero B M5 X1  | Malformed { place: 56, why: ZeroName }
3 E1.1 X2 seal 5 E1.1.1 A B M5        | Malformed { place: 71, why: Short }
3 E1.1 X2 seal 5 E1.1.1 A B M5 X1 X1  | Malformed { place: 75, why: Extra }
3 E3.1 X2 seal 5 E3.1.1 A B M5 X1     | WrongPass
3 E1.1.1 X2 seal 5 E1.1.1 A B M5 X1   | WrongPass
X2                                    | WrongPass
0                                     | WrongPass
2 E1.1 X2                             | WrongShape { part: 0 }
4 E1.1 X2 seal 5 E1.1.1 A B M5 X1 X2  | WrongShape { part: 0 }
3 E1.1 N0 seal 5 E1.1.1 A B M5 X1     | WrongShape { part: 0 }
3 E1.1 N0 odd-seal 5 E1.1.1 A B M5 X1 | WrongShape { part: 0 }
3 E1.1 X2 odd-seal 5 E1.1.1 A B M5 X1 | Unopened { part: 1 }
3 E1.1 X2 check 5 E1.1.1 A B M5 X1    | Unopened { part: 1 }
3 E1.1 X2 X1                          | Unopened { part: 1 }
3 E1.1 no odd-seal 5 E1.1.1 B A M5 X1 | Unopened { part: 1 }
3 E1.1 X2 seal 5 E1.1 A B M5 X1       | WrongShape { part: 1 }
3 E1.1 X2 seal 5 E3.1.1 A B M5 X1     | WrongShape { part: 1 }
3 E1.1 X2 seal 5 C1.1.1 A B M5 X1     | WrongShape { part: 1 }
3 E1.1 X2 seal 4 E1.1.1 A B M5        | WrongShape { part: 1 }
3 E1.1 X2 seal 6 E1.1.1 A B M5 X1 X1  | WrongShape { part: 1 }
3 E1.1 X2 seal 5 E1.1.1 A X1 M5 X1    | WrongShape { part: 1 }
3 E1.1 X2 seal 5 E1.1.1 B A N0 X1     | WrongShape { part: 1 }
3 E1.1 X2 seal 5 E1.1.1 A B M5 M5     | WrongShape { part: 1 }
3 E1.1 X2 seal X1                     | WrongShape { part: 1 }
3 E1.1 X2 seal 5 E1.1.1 B A M5 X1     | WrongNames { part: 1 }
3 E1.1 X2 seal 5 E1.1.1 C B M5 X1     | WrongNames { part: 1 }
3 E1.1 X2 seal 5 E1.1.1 A C M5 X1     | WrongNames { part: 1 }
3 E1.1 no seal 5 E1.1.1 B A M5 no     | WrongNames { part: 1 }
3 E1.1 no seal 5 E1.1.1 A B M5 X1     | TextRefused { slot: X2 }
3 E1.1 no seal 5 E1.1.1 A B M5 no     | TextRefused { slot: X2 }
3 E1.1 X2 seal 5 E1.1.1 A B M5 no     | TextRefused { slot: X1 }
3 E1.1 X2 seal 5 E1.1.1 A B M5 X1     | taken Ta 1 [1, 1, 1, 1] Time(5)
",
        "",
        "",
    ],
};

/// B sends Rb, X1; A answers X3, S(Rb X2).
pub const E2: Exchange = Exchange {
    kind: StampKind::Time,
    draws: 1,
    notes: 4,
    passes: [
        "
3 E2.1          | Malformed { place: 7, why: Short }
3 E2.1 N0 long  | Malformed { place: 26, why: LongText }
3 E2.1 N0 X1 X1 | Malformed { place: 28, why: Extra }
3 E4.1 N0 X1    | WrongPass
3 C2.1 N0 X1    | WrongPass
3 E2.2 N0 X1    | WrongPass
X1              | WrongPass
0               | WrongPass
2 E2.1 N0       | WrongShape { part: 0 }
4 E2.1 N0 X1 X1 | WrongShape { part: 0 }
3 E2.1 M5 X1    | WrongShape { part: 0 }
3 E2.1 N0 N0    | WrongShape { part: 0 }
3 E2.1 M5 no    | WrongShape { part: 0 }
3 E2.1 N0 no    | TextRefused { slot: X1 }
3 E2.1 N0 X1    | taken
",
        "
3 E2.2                                | Malformed { place: 7, why: Short }
3 E2.2 long seal 5 E2.2.1 A B N0 X2   | Malformed { place: 9, why: LongText }
3 E2.2 X3 seal 5 E2.2.1 zero B N0 X2  | Malformed { place: 56, why: ZeroName }
3 E2.2 X3 seal 5 E2.2.1 A B N0        | Malformed { place: 79, why: Short }
3 E2.2 X3 seal 5 E2.2.1 A B N0 X2 X2  | Malformed { place: 83, why: Extra }
3 E2.1 N0 X1                          | WrongPass
3 E4.2 X3 seal 5 E2.2.1 A B N0 X2     | WrongPass
3 E2.2.1 X3 seal 5 E2.2.1 A B N0 X2   | WrongPass
X3                                    | WrongPass
0                                     | WrongPass
2 E2.2 X3                             | WrongShape { part: 0 }
4 E2.2 X3 seal 5 E2.2.1 A B N0 X2 X3  | WrongShape { part: 0 }
3 E2.2 M5 seal 5 E2.2.1 A B N0 X2     | WrongShape { part: 0 }
3 E2.2 M5 odd-seal 5 E2.2.1 A B N0 X2 | WrongShape { part: 0 }
3 E2.2 X3 odd-seal 5 E2.2.1 A B N0 X2 | Unopened { part: 1 }
3 E2.2 X3 check 5 E2.2.1 A B N0 X2    | Unopened { part: 1 }
3 E2.2 X3 X2                          | Unopened { part: 1 }
3 E2.2 no odd-seal 5 E2.2.1 B A N0 X2 | Unopened { part: 1 }
3 E2.2 X3 seal 5 E2.2 A B N0 X2       | WrongShape { part: 1 }
3 E2.2 X3 seal 5 C2.2.1 A B N0 X2     | WrongShape { part: 1 }
3 E2.2 X3 seal 6 E4.2.1 A B N1 N0 X2  | WrongShape { part: 1 }
3 E2.2 X3 seal 5 E1.1.1 A B M5 X1     | WrongShape { part: 1 }
3 E2.2 X3 seal 4 E2.2.1 A B N0        | WrongShape { part: 1 }
3 E2.2 X3 seal 6 E2.2.1 A B N0 X2 X2  | WrongShape { part: 1 }
3 E2.2 X3 seal 5 E2.2.1 A X2 N0 X2    | WrongShape { part: 1 }
3 E2.2 X3 seal 5 E2.2.1 B A M5 X2     | WrongShape { part: 1 }
3 E2.2 X3 seal 5 E2.2.1 A B N0 N0     | WrongShape { part: 1 }
3 E2.2 X3 seal X2                     | WrongShape { part: 1 }
3 E2.2 X3 seal 5 E2.2.1 B A N0 X2     | WrongNames { part: 1 }
3 E2.2 X3 seal 5 E2.2.1 C B N0 X2     | WrongNames { part: 1 }
3 E2.2 X3 seal 5 E2.2.1 A C N0 X2     | WrongNames { part: 1 }
3 E2.2 no seal 5 E2.2.1 B A N1 no     | WrongNames { part: 1 }
3 E2.2 X3 seal 5 E2.2.1 A B N1 X2     | WrongValue { part: 1, slot: Rb }
3 E2.2 no seal 5 E2.2.1 A B N1 no     | WrongValue { part: 1, slot: Rb }
3 E2.2 no seal 5 E2.2.1 A B N0 X2     | TextRefused { slot: X3 }
3 E2.2 no seal 5 E2.2.1 A B N0 no     | TextRefused { slot: X3 }
3 E2.2 X3 seal 5 E2.2.1 A B N0 no     | TextRefused { slot: X2 }
3 E2.2 X3 seal 5 E2.2.1 A B N0 X2     | taken
",
        "",
    ],
};

/// A sends X2, S(Ta X1); B answers X4, S(Tb X3).
pub const E3: Exchange = Exchange {
    kind: StampKind::Time,
    draws: 0,
    notes: 6,
    passes: [
        "
3 E3.1                                | Malformed { place: 7, why: Short }
3 E3.1 long seal 5 E3.1.1 A B M5 X1   | Malformed { place: 9, why: LongText }
3 E3.1 X2 seal 5 E3.1.1 zero B M5 X1  | Malformed { place: 56, why: ZeroName }
3 E3.1 X2 seal 5 E3.1.1 A B M5        | Malformed { place: 71, why: Short }
3 E3.1 X2 seal 5 E3.1.1 A B M5 X1 X1  | Malformed { place: 75, why: Extra }
3 E1.1 X2 seal 5 E1.1.1 A B M5 X1     | WrongPass
3 E3.2 X4 seal 5 E3.2.1 A B M6 X3     | WrongPass
3 E3.1.1 X2 seal 5 E3.1.1 A B M5 X1   | WrongPass
X2                                    | WrongPass
0                                     | WrongPass
2 E3.1 X2                             | WrongShape { part: 0 }
4 E3.1 X2 seal 5 E3.1.1 A B M5 X1 X2  | WrongShape { part: 0 }
3 E3.1 N0 seal 5 E3.1.1 A B M5 X1     | WrongShape { part: 0 }
3 E3.1 N0 odd-seal 5 E3.1.1 A B M5 X1 | WrongShape { part: 0 }
3 E3.1 X2 odd-seal 5 E3.1.1 A B M5 X1 | Unopened { part: 1 }
3 E3.1 X2 check 5 E3.1.1 A B M5 X1    | Unopened { part: 1 }
3 E3.1 X2 X1                          | Unopened { part: 1 }
3 E3.1 no odd-seal 5 E3.1.1 B A M5 X1 | Unopened { part: 1 }
3 E3.1 X2 seal 5 E3.1 A B M5 X1       | WrongShape { part: 1 }
3 E3.1 X2 seal 5 E1.1.1 A B M5 X1     | WrongShape { part: 1 }
3 E3.1 X2 seal 5 E3.2.1 A B M6 X3     | WrongShape { part: 1 }
3 E3.1 X2 seal 4 E3.1.1 A B M5        | WrongShape { part: 1 }
3 E3.1 X2 seal 6 E3.1.1 A B M5 X1 X1  | WrongShape { part: 1 }
3 E3.1 X2 seal 5 E3.1.1 A X1 M5 X1    | WrongShape { part: 1 }
3 E3.1 X2 seal 5 E3.1.1 B A N0 X1     | WrongShape { part: 1 }
3 E3.1 X2 seal 5 E3.1.1 A B M5 M5     | WrongShape { part: 1 }
3 E3.1 X2 seal X1                     | WrongShape { part: 1 }
3 E3.1 X2 seal 5 E3.1.1 B A M5 X1     | WrongNames { part: 1 }
3 E3.1 X2 seal 5 E3.1.1 C B M5 X1     | WrongNames { part: 1 }
3 E3.1 X2 seal 5 E3.1.1 A C M5 X1     | WrongNames { part: 1 }
3 E3.1 no seal 5 E3.1.1 B A M5 no     | WrongNames { part: 1 }
3 E3.1 no seal 5 E3.1.1 A B M5 X1     | TextRefused { slot: X2 }
3 E3.1 no seal 5 E3.1.1 A B M5 no     | TextRefused { slot: X2 }
3 E3.1 X2 seal 5 E3.1.1 A B M5 no     | TextRefused { slot: X1 }
3 E3.1 X2 seal 5 E3.1.1 A B M5 X1     | taken Ta 1 [1, 3, 1, 1] Time(5)
",
        "
3 E3.2                                | Malformed { place: 7, why: Short }
3 E3.2 long seal 5 E3.2.1 A B M6 X3   | Malformed { place: 9, why: LongText }
3 E3.2 X4 seal 5 E3.2.1 zero B M6 X3  | Malformed { place: 56, why: ZeroName }
3 E3.2 X4 seal 5 E3.2.1 A B M6        | Malformed { place: 71, why: Short }
3 E3.2 X4 seal 5 E3.2.1 A B M6 X3 X3  | Malformed { place: 75, why: Extra }
3 E3.1 X2 seal 5 E3.1.1 A B M5 X1     | WrongPass
3 E3.2.1 X4 seal 5 E3.2.1 A B M6 X3   | WrongPass
X4                                    | WrongPass
0                                     | WrongPass
2 E3.2 X4                             | WrongShape { part: 0 }
4 E3.2 X4 seal 5 E3.2.1 A B M6 X3 X4  | WrongShape { part: 0 }
3 E3.2 N0 seal 5 E3.2.1 A B M6 X3     | WrongShape { part: 0 }
3 E3.2 N0 odd-seal 5 E3.2.1 A B M6 X3 | WrongShape { part: 0 }
3 E3.2 X4 odd-seal 5 E3.2.1 A B M6 X3 | Unopened { part: 1 }
3 E3.2 X4 check 5 E3.2.1 A B M6 X3    | Unopened { part: 1 }
3 E3.2 X4 X3                          | Unopened { part: 1 }
3 E3.2 no odd-seal 5 E3.2.1 B A M6 X3 | Unopened { part: 1 }
3 E3.2 X4 seal 5 E3.2 A B M6 X3       | WrongShape { part: 1 }
3 E3.2 X4 seal 5 E3.1.1 A B M5 X1     | WrongShape { part: 1 }
3 E3.2 X4 seal 5 C3.2.1 A B M6 X3     | WrongShape { part: 1 }
3 E3.2 X4 seal 4 E3.2.1 A B M6        | WrongShape { part: 1 }
3 E3.2 X4 seal 6 E3.2.1 A B M6 X3 X3  | WrongShape { part: 1 }
3 E3.2 X4 seal 5 E3.2.1 A X3 M6 X3    | WrongShape { part: 1 }
3 E3.2 X4 seal 5 E3.2.1 B A N0 X3     | WrongShape { part: 1 }
3 E3.2 X4 seal 5 E3.2.1 A B M6 M6     | WrongShape { part: 1 }
3 E3.2 X4 seal X3                     | WrongShape { part: 1 }
3 E3.2 X4 seal 5 E3.2.1 B A M6 X3     | WrongNames { part: 1 }
3 E3.2 X4 seal 5 E3.2.1 C B M6 X3     | WrongNames { part: 1 }
3 E3.2 X4 seal 5 E3.2.1 A C M6 X3     | WrongNames { part: 1 }
3 E3.2 no seal 5 E3.2.1 B A M6 no     | WrongNames { part: 1 }
3 E3.2 no seal 5 E3.2.1 A B M6 X3     | TextRefused { slot: X4 }
3 E3.2 no seal 5 E3.2.1 A B M6 no     | TextRefused { slot: X4 }
3 E3.2 X4 seal 5 E3.2.1 A B M6 no     | TextRefused { slot: X3 }
3 E3.2 X4 seal 5 E3.2.1 A B M6 X3     | taken Tb 2 [1, 3, 2, 1] Time(6)
",
        "",
    ],
};

/// B sends Rb, X1; A answers X3, S(Ra Rb X2); B ends with X5, S(Rb Ra X4).
pub const E4: Exchange = Exchange {
    kind: StampKind::Time,
    draws: 2,
    notes: 7,
    passes: [
        "
3 E4.1          | Malformed { place: 7, why: Short }
3 E4.1 N0 long  | Malformed { place: 26, why: LongText }
3 E4.1 N0 X1 X1 | Malformed { place: 28, why: Extra }
3 E2.1 N0 X1    | WrongPass
3 C4.1 N0 X1    | WrongPass
3 E4.3 N0 X1    | WrongPass
X1              | WrongPass
0               | WrongPass
2 E4.1 N0       | WrongShape { part: 0 }
4 E4.1 N0 X1 X1 | WrongShape { part: 0 }
3 E4.1 M5 X1    | WrongShape { part: 0 }
3 E4.1 N0 N0    | WrongShape { part: 0 }
3 E4.1 M5 no    | WrongShape { part: 0 }
3 E4.1 N0 no    | TextRefused { slot: X1 }
3 E4.1 N0 X1    | taken
",
        "
3 E4.2                                   | Malformed { place: 7, why: Short }
3 E4.2 long seal 6 E4.2.1 A B N1 N0 X2   | Malformed { place: 9, why: LongText }
3 E4.2 X3 seal 6 E4.2.1 zero B N1 N0 X2  | Malformed { place: 56, why: ZeroName }
3 E4.2 X3 seal 6 E4.2.1 A B N1 N0        | Malformed { place: 96, why: Short }
3 E4.2 X3 seal 6 E4.2.1 A B N1 N0 X2 X2  | Malformed { place: 100, why: Extra }
3 E4.1 N0 X1                             | WrongPass
3 E4.3 X5 seal 6 E4.3.1 A B N0 N1 X4     | WrongPass
3 E4.2.1 X3 seal 6 E4.2.1 A B N1 N0 X2   | WrongPass
X3                                       | WrongPass
0                                        | WrongPass
2 E4.2 X3                                | WrongShape { part: 0 }
4 E4.2 X3 seal 6 E4.2.1 A B N1 N0 X2 X3  | WrongShape { part: 0 }
3 E4.2 M5 seal 6 E4.2.1 A B N1 N0 X2     | WrongShape { part: 0 }
3 E4.2 M5 odd-seal 6 E4.2.1 A B N1 N0 X2 | WrongShape { part: 0 }
3 E4.2 X3 odd-seal 6 E4.2.1 A B N1 N0 X2 | Unopened { part: 1 }
3 E4.2 X3 check 6 E4.2.1 A B N1 N0 X2    | Unopened { part: 1 }
3 E4.2 X3 X2                             | Unopened { part: 1 }
3 E4.2 no odd-seal 6 E4.2.1 B A N1 N0 X2 | Unopened { part: 1 }
3 E4.2 X3 seal 6 E4.2 A B N1 N0 X2       | WrongShape { part: 1 }
3 E4.2 X3 seal 6 E4.3.1 A B N0 N1 X4     | WrongShape { part: 1 }
3 E4.2 X3 seal 5 E2.2.1 A B N0 X2        | WrongShape { part: 1 }
3 E4.2 X3 seal 5 E4.2.1 A B N1 N0        | WrongShape { part: 1 }
3 E4.2 X3 seal 7 E4.2.1 A B N1 N0 X2 X2  | WrongShape { part: 1 }
3 E4.2 X3 seal 6 E4.2.1 A X2 N1 N0 X2    | WrongShape { part: 1 }
3 E4.2 X3 seal 6 E4.2.1 B A M5 N0 X2     | WrongShape { part: 1 }
3 E4.2 X3 seal 6 E4.2.1 A B N1 N0 N1     | WrongShape { part: 1 }
3 E4.2 X3 seal X2                        | WrongShape { part: 1 }
3 E4.2 X3 seal 6 E4.2.1 B A N1 N0 X2     | WrongNames { part: 1 }
3 E4.2 X3 seal 6 E4.2.1 C B N1 N0 X2     | WrongNames { part: 1 }
3 E4.2 X3 seal 6 E4.2.1 A C N1 N0 X2     | WrongNames { part: 1 }
3 E4.2 no seal 6 E4.2.1 B A N1 N1 no     | WrongNames { part: 1 }
3 E4.2 X3 seal 6 E4.2.1 A B N1 N1 X2     | WrongValue { part: 1, slot: Rb }
3 E4.2 X3 seal 6 E4.2.1 A B N0 N1 X2     | WrongValue { part: 1, slot: Rb }
3 E4.2 no seal 6 E4.2.1 A B N1 N1 no     | WrongValue { part: 1, slot: Rb }
3 E4.2 no seal 6 E4.2.1 A B N1 N0 X2     | TextRefused { slot: X3 }
3 E4.2 no seal 6 E4.2.1 A B N1 N0 no     | TextRefused { slot: X3 }
3 E4.2 X3 seal 6 E4.2.1 A B N1 N0 no     | TextRefused { slot: X2 }
3 E4.2 X3 seal 6 E4.2.1 A B N1 N0 X2     | taken
",
        "
3 E4.3                                   | Malformed { place: 7, why: Short }
3 E4.3 long seal 6 E4.3.1 A B N0 N1 X4   | Malformed { place: 9, why: LongText }
3 E4.3 X5 seal 6 E4.3.1 zero B N0 N1 X4  | Malformed { place: 56, why: ZeroName }
3 E4.3 X5 seal 6 E4.3.1 A B N0 N1        | Malformed { place: 96, why: Short }
3 E4.3 X5 seal 6 E4.3.1 A B N0 N1 X4 X4  | Malformed { place: 100, why: Extra }
3 E4.1 N0 X1                             | WrongPass
3 E4.2 X3 seal 6 E4.2.1 A B N1 N0 X2     | WrongPass
3 E4.3.1 X5 seal 6 E4.3.1 A B N0 N1 X4   | WrongPass
X5                                       | WrongPass
0                                        | WrongPass
2 E4.3 X5                                | WrongShape { part: 0 }
4 E4.3 X5 seal 6 E4.3.1 A B N0 N1 X4 X5  | WrongShape { part: 0 }
3 E4.3 M5 seal 6 E4.3.1 A B N0 N1 X4     | WrongShape { part: 0 }
3 E4.3 M5 odd-seal 6 E4.3.1 A B N0 N1 X4 | WrongShape { part: 0 }
3 E4.3 X5 odd-seal 6 E4.3.1 A B N0 N1 X4 | Unopened { part: 1 }
3 E4.3 X5 check 6 E4.3.1 A B N0 N1 X4    | Unopened { part: 1 }
3 E4.3 X5 X4                             | Unopened { part: 1 }
3 E4.3 no odd-seal 6 E4.3.1 B A N0 N1 X4 | Unopened { part: 1 }
3 E4.3 X5 seal 6 E4.3 A B N0 N1 X4       | WrongShape { part: 1 }
3 E4.3 X5 seal 6 E4.2.1 A B N1 N0 X2     | WrongShape { part: 1 }
3 E4.3 X5 seal 6 C4.3.1 A B N0 N1 X4     | WrongShape { part: 1 }
3 E4.3 X5 seal 5 E4.3.1 A B N0 N1        | WrongShape { part: 1 }
3 E4.3 X5 seal 7 E4.3.1 A B N0 N1 X4 X4  | WrongShape { part: 1 }
3 E4.3 X5 seal 6 E4.3.1 A X4 N0 N1 X4    | WrongShape { part: 1 }
3 E4.3 X5 seal 6 E4.3.1 B A M5 N1 X4     | WrongShape { part: 1 }
3 E4.3 X5 seal 6 E4.3.1 A B N0 N1 N0     | WrongShape { part: 1 }
3 E4.3 X5 seal X4                        | WrongShape { part: 1 }
3 E4.3 X5 seal 6 E4.3.1 B A N0 N1 X4     | WrongNames { part: 1 }
3 E4.3 X5 seal 6 E4.3.1 C B N0 N1 X4     | WrongNames { part: 1 }
3 E4.3 X5 seal 6 E4.3.1 A C N0 N1 X4     | WrongNames { part: 1 }
3 E4.3 no seal 6 E4.3.1 B A N1 N0 no     | WrongNames { part: 1 }
3 E4.3 X5 seal 6 E4.3.1 A B N1 N0 X4     | WrongValue { part: 1, slot: Rb }
3 E4.3 X5 seal 6 E4.3.1 A B N1 N1 X4     | WrongValue { part: 1, slot: Rb }
3 E4.3 no seal 6 E4.3.1 A B N1 N0 no     | WrongValue { part: 1, slot: Rb }
3 E4.3 X5 seal 6 E4.3.1 A B N0 N0 X4     | WrongValue { part: 1, slot: Ra }
3 E4.3 no seal 6 E4.3.1 A B N0 N1 X4     | TextRefused { slot: X5 }
3 E4.3 no seal 6 E4.3.1 A B N0 N1 no     | TextRefused { slot: X5 }
3 E4.3 X5 seal 6 E4.3.1 A B N0 N1 no     | TextRefused { slot: X4 }
3 E4.3 X5 seal 6 E4.3.1 A B N0 N1 X4     | taken
",
    ],
};

/// E1 under sequence numbers.
pub const E1_BY_NUMBERS: Exchange = Exchange {
    kind: StampKind::Seq,
    draws: 0,
    notes: 3,
    passes: [
        "
3 E1.1 X2 seal 5 E1.1.1 A B Q5 X1 | taken Ta 1 [1, 1, 1, 1] Seq(5)
",
        "",
        "",
    ],
};

/// E3 under sequence numbers.
pub const E3_BY_NUMBERS: Exchange = Exchange {
    kind: StampKind::Seq,
    draws: 0,
    notes: 6,
    passes: [
        "
3 E3.1 X2 seal 5 E3.1.1 A B Q5 X1 | taken Ta 1 [1, 3, 1, 1] Seq(5)
",
        "
3 E3.2 X4 seal 5 E3.2.1 A B Q6 X3 | taken Tb 2 [1, 3, 2, 1] Seq(6)
",
        "",
    ],
};
