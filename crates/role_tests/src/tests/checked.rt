//! What the tables say of the mechanisms by checks, and what their receivers refuse.

use super::Exchange;
use term_values::StampKind;

/// A sends Ta, X1, X2, C(Ta X1).
pub const C1: Exchange = Exchange {
    kind: StampKind::Time,
    draws: 0,
    notes: 3,
    passes: [
        "
5 C1.1                                       | Malformed { place: 7, why: Short }
5 C1.1 M5 X1 long check 5 C1.1.1 A B M5 X1   | Malformed { place: 22, why: LongText }
5 C1.1 M5 X1 X2 check 5 C1.1.1 A zero M5 X1  | Malformed { place: 74, why: ZeroName }
5 C1.1 M5 X1 X2 check 5 C1.1.1 A B M5        | Malformed { place: 84, why: Short }
5 C1.1 M5 X1 X2 check 5 C1.1.1 A B M5 X1 X1  | Malformed { place: 88, why: Extra }
5 C3.1 M5 X1 X2 check 5 C3.1.1 A B M5 X1     | WrongPass
3 E1.1 X2 seal 5 E1.1.1 A B M5 X1            | WrongPass
5 C1.1.1 M5 X1 X2 check 5 C1.1.1 A B M5 X1   | WrongPass
X1                                           | WrongPass
0                                            | WrongPass
4 C1.1 M5 X1 X2                              | WrongShape { part: 0 }
6 C1.1 M5 X1 X2 check 5 C1.1.1 A B M5 X1 X1  | WrongShape { part: 0 }
5 C1.1 N0 X1 X2 check 5 C1.1.1 A B M5 X1     | WrongShape { part: 0 }
5 C1.1 M5 A X2 check 5 C1.1.1 A B M5 X1      | WrongShape { part: 0 }
5 C1.1 M5 X1 A check 5 C1.1.1 A B M5 X1      | WrongShape { part: 0 }
5 C1.1 M5 X1 A odd-check 5 C1.1.1 A B M5 X1  | WrongShape { part: 0 }
5 C1.1 M5 X1 X2 odd-check 5 C1.1.1 A B M5 X1 | Unopened { part: 1 }
5 C1.1 M5 X1 X2 seal 5 C1.1.1 A B M5 X1      | Unopened { part: 1 }
5 C1.1 M5 X1 X2 X1                           | Unopened { part: 1 }
5 C1.1 M5 X1 X2 check 5 C1.1 A B M5 X1       | Unopened { part: 1 }
5 C1.1 M5 X1 X2 check 5 C3.1.1 A B M5 X1     | Unopened { part: 1 }
5 C1.1 M5 X1 X2 check 5 E1.1.1 A B M5 X1     | Unopened { part: 1 }
5 C1.1 M5 X1 X2 check 5 C1.1.1 B A M5 X1     | Unopened { part: 1 }
5 C1.1 M5 X1 X2 check 5 C1.1.1 C B M5 X1     | Unopened { part: 1 }
5 C1.1 M5 X1 X2 check 5 C1.1.1 A C M5 X1     | Unopened { part: 1 }
5 C1.1 M5 X1 X2 check 5 C1.1.1 A B M6 X1     | Unopened { part: 1 }
5 C1.1 M5 X1 X2 check 5 C1.1.1 A B Q5 X1     | Unopened { part: 1 }
5 C1.1 M5 X1 X2 check 5 C1.1.1 A B M5 X2     | Unopened { part: 1 }
5 C1.1 M5 X1 X2 check 6 C1.1.1 A B M5 X1 X2  | Unopened { part: 1 }
5 C1.1 M5 no X2 check 5 C1.1.1 A B M5 X1     | Unopened { part: 1 }
5 C1.1 M5 X1 X2 check 5 C1.1.1 A B M5 no     | Unopened { part: 1 }
5 C1.1 M5 X1 no check 5 C1.1.1 B A M5 X1     | Unopened { part: 1 }
5 C1.1 M5 no X2 check 5 C1.1.1 A B M5 no     | TextRefused { slot: X1 }
5 C1.1 M5 no no check 5 C1.1.1 A B M5 no     | TextRefused { slot: X1 }
5 C1.1 M5 X1 no check 5 C1.1.1 A B M5 X1     | TextRefused { slot: X2 }
5 C1.1 M5 X1 X2 check 5 C1.1.1 A B M5 X1     | taken Ta 1 [2, 1, 1, 1] Time(5)
",
        "",
        "",
    ],
};

/// B sends Rb, X1; A answers X2, X3, C(Rb X2).
pub const C2: Exchange = Exchange {
    kind: StampKind::Time,
    draws: 1,
    notes: 4,
    passes: [
        "
3 C2.1          | Malformed { place: 7, why: Short }
3 C2.1 N0 long  | Malformed { place: 26, why: LongText }
3 C2.1 N0 X1 X1 | Malformed { place: 28, why: Extra }
3 C4.1 N0 X1    | WrongPass
3 E2.1 N0 X1    | WrongPass
3 C2.2 N0 X1    | WrongPass
X1              | WrongPass
0               | WrongPass
2 C2.1 N0       | WrongShape { part: 0 }
4 C2.1 N0 X1 X1 | WrongShape { part: 0 }
3 C2.1 M5 X1    | WrongShape { part: 0 }
3 C2.1 N0 N0    | WrongShape { part: 0 }
3 C2.1 M5 no    | WrongShape { part: 0 }
3 C2.1 N0 no    | TextRefused { slot: X1 }
3 C2.1 N0 X1    | taken
",
        "
4 C2.2                                    | Malformed { place: 7, why: Short }
4 C2.2 X2 long check 5 C2.2.1 A B N0 X2   | Malformed { place: 13, why: LongText }
4 C2.2 X2 X3 check 5 C2.2.1 A zero N0 X2  | Malformed { place: 65, why: ZeroName }
4 C2.2 X2 X3 check 5 C2.2.1 A B N0        | Malformed { place: 83, why: Short }
4 C2.2 X2 X3 check 5 C2.2.1 A B N0 X2 X2  | Malformed { place: 87, why: Extra }
3 C2.1 N0 X1                              | WrongPass
4 C4.2 X2 X3 check 5 C2.2.1 A B N0 X2     | WrongPass
4 C2.2.1 X2 X3 check 5 C2.2.1 A B N0 X2   | WrongPass
X2                                        | WrongPass
0                                         | WrongPass
3 C2.2 X2 X3                              | WrongShape { part: 0 }
5 C2.2 X2 X3 check 5 C2.2.1 A B N0 X2 X2  | WrongShape { part: 0 }
4 C2.2 A X3 check 5 C2.2.1 A B N0 X2      | WrongShape { part: 0 }
4 C2.2 X2 A check 5 C2.2.1 A B N0 X2      | WrongShape { part: 0 }
4 C2.2 X2 A odd-check 5 C2.2.1 A B N0 X2  | WrongShape { part: 0 }
4 C2.2 X2 X3 odd-check 5 C2.2.1 A B N0 X2 | Unopened { part: 1 }
4 C2.2 X2 X3 seal 5 C2.2.1 A B N0 X2      | Unopened { part: 1 }
4 C2.2 X2 X3 X2                           | Unopened { part: 1 }
4 C2.2 X2 X3 check 5 C2.2 A B N0 X2       | Unopened { part: 1 }
4 C2.2 X2 X3 check 5 E2.2.1 A B N0 X2     | Unopened { part: 1 }
4 C2.2 X2 X3 check 6 C4.2.1 A B N1 N0 X2  | Unopened { part: 1 }
4 C2.2 X2 X3 check 5 C2.2.1 B A N0 X2     | Unopened { part: 1 }
4 C2.2 X2 X3 check 5 C2.2.1 C B N0 X2     | Unopened { part: 1 }
4 C2.2 X2 X3 check 5 C2.2.1 A C N0 X2     | Unopened { part: 1 }
4 C2.2 X2 X3 check 5 C2.2.1 A B N1 X2     | Unopened { part: 1 }
4 C2.2 X2 X3 check 5 C2.2.1 A B N0 X3     | Unopened { part: 1 }
4 C2.2 X2 X3 check 6 C2.2.1 A B N0 X2 X3  | Unopened { part: 1 }
4 C2.2 no X3 check 5 C2.2.1 A B N0 X2     | Unopened { part: 1 }
4 C2.2 X2 X3 check 5 C2.2.1 A B N0 no     | Unopened { part: 1 }
4 C2.2 X2 no check 5 C2.2.1 B A N0 X2     | Unopened { part: 1 }
4 C2.2 no X3 check 5 C2.2.1 A B N0 no     | TextRefused { slot: X2 }
4 C2.2 no no check 5 C2.2.1 A B N0 no     | TextRefused { slot: X2 }
4 C2.2 X2 no check 5 C2.2.1 A B N0 X2     | TextRefused { slot: X3 }
4 C2.2 X2 X3 check 5 C2.2.1 A B N0 X2     | taken
",
        "",
    ],
};

/// A sends Ta, X1, X2, C(Ta X1); B answers Tb, X3, X4, C(Tb X3).
pub const C3: Exchange = Exchange {
    kind: StampKind::Time,
    draws: 0,
    notes: 6,
    passes: [
        "
5 C3.1                                       | Malformed { place: 7, why: Short }
5 C3.1 M5 X1 long check 5 C3.1.1 A B M5 X1   | Malformed { place: 22, why: LongText }
5 C3.1 M5 X1 X2 check 5 C3.1.1 A zero M5 X1  | Malformed { place: 74, why: ZeroName }
5 C3.1 M5 X1 X2 check 5 C3.1.1 A B M5        | Malformed { place: 84, why: Short }
5 C3.1 M5 X1 X2 check 5 C3.1.1 A B M5 X1 X1  | Malformed { place: 88, why: Extra }
5 C1.1 M5 X1 X2 check 5 C1.1.1 A B M5 X1     | WrongPass
5 C3.2 M6 X3 X4 check 5 C3.2.1 A B M6 X3     | WrongPass
5 C3.1.1 M5 X1 X2 check 5 C3.1.1 A B M5 X1   | WrongPass
X1                                           | WrongPass
0                                            | WrongPass
4 C3.1 M5 X1 X2                              | WrongShape { part: 0 }
6 C3.1 M5 X1 X2 check 5 C3.1.1 A B M5 X1 X1  | WrongShape { part: 0 }
5 C3.1 N0 X1 X2 check 5 C3.1.1 A B M5 X1     | WrongShape { part: 0 }
5 C3.1 M5 A X2 check 5 C3.1.1 A B M5 X1      | WrongShape { part: 0 }
5 C3.1 M5 X1 A check 5 C3.1.1 A B M5 X1      | WrongShape { part: 0 }
5 C3.1 M5 X1 A odd-check 5 C3.1.1 A B M5 X1  | WrongShape { part: 0 }
5 C3.1 M5 X1 X2 odd-check 5 C3.1.1 A B M5 X1 | Unopened { part: 1 }
5 C3.1 M5 X1 X2 seal 5 C3.1.1 A B M5 X1      | Unopened { part: 1 }
5 C3.1 M5 X1 X2 X1                           | Unopened { part: 1 }
5 C3.1 M5 X1 X2 check 5 C3.1 A B M5 X1       | Unopened { part: 1 }
5 C3.1 M5 X1 X2 check 5 C1.1.1 A B M5 X1     | Unopened { part: 1 }
5 C3.1 M5 X1 X2 check 5 C3.2.1 A B M5 X1     | Unopened { part: 1 }
5 C3.1 M5 X1 X2 check 5 C3.1.1 B A M5 X1     | Unopened { part: 1 }
5 C3.1 M5 X1 X2 check 5 C3.1.1 C B M5 X1     | Unopened { part: 1 }
5 C3.1 M5 X1 X2 check 5 C3.1.1 A C M5 X1     | Unopened { part: 1 }
5 C3.1 M5 X1 X2 check 5 C3.1.1 A B M6 X1     | Unopened { part: 1 }
5 C3.1 M5 X1 X2 check 5 C3.1.1 A B Q5 X1     | Unopened { part: 1 }
5 C3.1 M5 X1 X2 check 5 C3.1.1 A B M5 X2     | Unopened { part: 1 }
5 C3.1 M5 X1 X2 check 6 C3.1.1 A B M5 X1 X2  | Unopened { part: 1 }
5 C3.1 M5 no X2 check 5 C3.1.1 A B M5 X1     | Unopened { part: 1 }
5 C3.1 M5 X1 X2 check 5 C3.1.1 A B M5 no     | Unopened { part: 1 }
5 C3.1 M5 X1 no check 5 C3.1.1 B A M5 X1     | Unopened { part: 1 }
5 C3.1 M5 no X2 check 5 C3.1.1 A B M5 no     | TextRefused { slot: X1 }
5 C3.1 M5 no no check 5 C3.1.1 A B M5 no     | TextRefused { slot: X1 }
5 C3.1 M5 X1 no check 5 C3.1.1 A B M5 X1     | TextRefused { slot: X2 }
5 C3.1 M5 X1 X2 check 5 C3.1.1 A B M5 X1     | taken Ta 1 [2, 3, 1, 1] Time(5)
",
        "
5 C3.2                                       | Malformed { place: 7, why: Short }
5 C3.2 M6 X3 long check 5 C3.2.1 A B M6 X3   | Malformed { place: 22, why: LongText }
5 C3.2 M6 X3 X4 check 5 C3.2.1 A zero M6 X3  | Malformed { place: 74, why: ZeroName }
5 C3.2 M6 X3 X4 check 5 C3.2.1 A B M6        | Malformed { place: 84, why: Short }
5 C3.2 M6 X3 X4 check 5 C3.2.1 A B M6 X3 X3  | Malformed { place: 88, why: Extra }
5 C3.1 M5 X1 X2 check 5 C3.1.1 A B M5 X1     | WrongPass
5 C3.2.1 M6 X3 X4 check 5 C3.2.1 A B M6 X3   | WrongPass
X3                                           | WrongPass
0                                            | WrongPass
4 C3.2 M6 X3 X4                              | WrongShape { part: 0 }
6 C3.2 M6 X3 X4 check 5 C3.2.1 A B M6 X3 X3  | WrongShape { part: 0 }
5 C3.2 N0 X3 X4 check 5 C3.2.1 A B M6 X3     | WrongShape { part: 0 }
5 C3.2 M6 A X4 check 5 C3.2.1 A B M6 X3      | WrongShape { part: 0 }
5 C3.2 M6 X3 A check 5 C3.2.1 A B M6 X3      | WrongShape { part: 0 }
5 C3.2 M6 X3 A odd-check 5 C3.2.1 A B M6 X3  | WrongShape { part: 0 }
5 C3.2 M6 X3 X4 odd-check 5 C3.2.1 A B M6 X3 | Unopened { part: 1 }
5 C3.2 M6 X3 X4 seal 5 C3.2.1 A B M6 X3      | Unopened { part: 1 }
5 C3.2 M6 X3 X4 X3                           | Unopened { part: 1 }
5 C3.2 M6 X3 X4 check 5 C3.2 A B M6 X3       | Unopened { part: 1 }
5 C3.2 M6 X3 X4 check 5 C3.1.1 A B M6 X3     | Unopened { part: 1 }
5 C3.2 M6 X3 X4 check 5 E3.2.1 A B M6 X3     | Unopened { part: 1 }
5 C3.2 M6 X3 X4 check 5 C3.2.1 B A M6 X3     | Unopened { part: 1 }
5 C3.2 M6 X3 X4 check 5 C3.2.1 C B M6 X3     | Unopened { part: 1 }
5 C3.2 M6 X3 X4 check 5 C3.2.1 A C M6 X3     | Unopened { part: 1 }
5 C3.2 M6 X3 X4 check 5 C3.2.1 A B M5 X3     | Unopened { part: 1 }
5 C3.2 M6 X3 X4 check 5 C3.2.1 A B Q6 X3     | Unopened { part: 1 }
5 C3.2 M6 X3 X4 check 5 C3.2.1 A B M6 X4     | Unopened { part: 1 }
5 C3.2 M6 X3 X4 check 6 C3.2.1 A B M6 X3 X4  | Unopened { part: 1 }
5 C3.2 M6 no X4 check 5 C3.2.1 A B M6 X3     | Unopened { part: 1 }
5 C3.2 M6 X3 X4 check 5 C3.2.1 A B M6 no     | Unopened { part: 1 }
5 C3.2 M6 X3 no check 5 C3.2.1 B A M6 X3     | Unopened { part: 1 }
5 C3.2 M6 no X4 check 5 C3.2.1 A B M6 no     | TextRefused { slot: X3 }
5 C3.2 M6 no no check 5 C3.2.1 A B M6 no     | TextRefused { slot: X3 }
5 C3.2 M6 X3 no check 5 C3.2.1 A B M6 X3     | TextRefused { slot: X4 }
5 C3.2 M6 X3 X4 check 5 C3.2.1 A B M6 X3     | taken Tb 2 [2, 3, 2, 1] Time(6)
",
        "",
    ],
};

/// B sends Rb, X1; A answers Ra, X2, X3, C(Ra Rb X2); B ends with X4, X5, C(Rb Ra X4).
pub const C4: Exchange = Exchange {
    kind: StampKind::Time,
    draws: 2,
    notes: 7,
    passes: [
        "
3 C4.1          | Malformed { place: 7, why: Short }
3 C4.1 N0 long  | Malformed { place: 26, why: LongText }
3 C4.1 N0 X1 X1 | Malformed { place: 28, why: Extra }
3 C2.1 N0 X1    | WrongPass
3 E4.1 N0 X1    | WrongPass
3 C4.3 N0 X1    | WrongPass
X1              | WrongPass
0               | WrongPass
2 C4.1 N0       | WrongShape { part: 0 }
4 C4.1 N0 X1 X1 | WrongShape { part: 0 }
3 C4.1 M5 X1    | WrongShape { part: 0 }
3 C4.1 N0 N0    | WrongShape { part: 0 }
3 C4.1 M5 no    | WrongShape { part: 0 }
3 C4.1 N0 no    | TextRefused { slot: X1 }
3 C4.1 N0 X1    | taken
",
        "
5 C4.2                                          | Malformed { place: 7, why: Short }
5 C4.2 N1 X2 long check 6 C4.2.1 A B N1 N0 X2   | Malformed { place: 30, why: LongText }
5 C4.2 N1 X2 X3 check 6 C4.2.1 A zero N1 N0 X2  | Malformed { place: 82, why: ZeroName }
5 C4.2 N1 X2 X3 check 6 C4.2.1 A B N1 N0        | Malformed { place: 117, why: Short }
5 C4.2 N1 X2 X3 check 6 C4.2.1 A B N1 N0 X2 X2  | Malformed { place: 121, why: Extra }
3 C4.1 N0 X1                                    | WrongPass
4 C4.3 X4 X5 check 6 C4.3.1 A B N0 N1 X4        | WrongPass
5 C4.2.1 N1 X2 X3 check 6 C4.2.1 A B N1 N0 X2   | WrongPass
X2                                              | WrongPass
0                                               | WrongPass
4 C4.2 N1 X2 X3                                 | WrongShape { part: 0 }
6 C4.2 N1 X2 X3 check 6 C4.2.1 A B N1 N0 X2 X2  | WrongShape { part: 0 }
5 C4.2 M5 X2 X3 check 6 C4.2.1 A B N1 N0 X2     | WrongShape { part: 0 }
5 C4.2 N1 A X3 check 6 C4.2.1 A B N1 N0 X2      | WrongShape { part: 0 }
5 C4.2 N1 X2 A check 6 C4.2.1 A B N1 N0 X2      | WrongShape { part: 0 }
5 C4.2 N1 X2 A odd-check 6 C4.2.1 A B N1 N0 X2  | WrongShape { part: 0 }
5 C4.2 N1 X2 X3 odd-check 6 C4.2.1 A B N1 N0 X2 | Unopened { part: 1 }
5 C4.2 N1 X2 X3 seal 6 C4.2.1 A B N1 N0 X2      | Unopened { part: 1 }
5 C4.2 N1 X2 X3 X2                              | Unopened { part: 1 }
5 C4.2 N1 X2 X3 check 6 C4.2 A B N1 N0 X2       | Unopened { part: 1 }
5 C4.2 N1 X2 X3 check 6 C4.3.1 A B N1 N0 X2     | Unopened { part: 1 }
5 C4.2 N1 X2 X3 check 5 C2.2.1 A B N0 X2        | Unopened { part: 1 }
5 C4.2 N1 X2 X3 check 6 C4.2.1 B A N1 N0 X2     | Unopened { part: 1 }
5 C4.2 N1 X2 X3 check 6 C4.2.1 C B N1 N0 X2     | Unopened { part: 1 }
5 C4.2 N1 X2 X3 check 6 C4.2.1 A C N1 N0 X2     | Unopened { part: 1 }
5 C4.2 N1 X2 X3 check 6 C4.2.1 A B N1 N1 X2     | Unopened { part: 1 }
5 C4.2 N1 X2 X3 check 6 C4.2.1 A B N0 N0 X2     | Unopened { part: 1 }
5 C4.2 N1 X2 X3 check 6 C4.2.1 A B N0 N1 X2     | Unopened { part: 1 }
5 C4.2 N1 X2 X3 check 6 C4.2.1 A B N1 N0 X3     | Unopened { part: 1 }
5 C4.2 N1 X2 X3 check 7 C4.2.1 A B N1 N0 X2 X3  | Unopened { part: 1 }
5 C4.2 N1 no X3 check 6 C4.2.1 A B N1 N0 X2     | Unopened { part: 1 }
5 C4.2 N1 X2 X3 check 6 C4.2.1 A B N1 N0 no     | Unopened { part: 1 }
5 C4.2 N1 X2 no check 6 C4.2.1 B A N1 N0 X2     | Unopened { part: 1 }
5 C4.2 N1 no X3 check 6 C4.2.1 A B N1 N0 no     | TextRefused { slot: X2 }
5 C4.2 N1 no no check 6 C4.2.1 A B N1 N0 no     | TextRefused { slot: X2 }
5 C4.2 N1 X2 no check 6 C4.2.1 A B N1 N0 X2     | TextRefused { slot: X3 }
5 C4.2 N1 X2 X3 check 6 C4.2.1 A B N1 N0 X2     | taken
",
        "
4 C4.3                                       | Malformed { place: 7, why: Short }
4 C4.3 X4 long check 6 C4.3.1 A B N0 N1 X4   | Malformed { place: 13, why: LongText }
4 C4.3 X4 X5 check 6 C4.3.1 A zero N0 N1 X4  | Malformed { place: 65, why: ZeroName }
4 C4.3 X4 X5 check 6 C4.3.1 A B N0 N1        | Malformed { place: 100, why: Short }
4 C4.3 X4 X5 check 6 C4.3.1 A B N0 N1 X4 X4  | Malformed { place: 104, why: Extra }
3 C4.1 N0 X1                                 | WrongPass
5 C4.2 N1 X2 X3 check 6 C4.2.1 A B N1 N0 X2  | WrongPass
4 C4.3.1 X4 X5 check 6 C4.3.1 A B N0 N1 X4   | WrongPass
X4                                           | WrongPass
0                                            | WrongPass
3 C4.3 X4 X5                                 | WrongShape { part: 0 }
5 C4.3 X4 X5 check 6 C4.3.1 A B N0 N1 X4 X4  | WrongShape { part: 0 }
4 C4.3 A X5 check 6 C4.3.1 A B N0 N1 X4      | WrongShape { part: 0 }
4 C4.3 X4 A check 6 C4.3.1 A B N0 N1 X4      | WrongShape { part: 0 }
4 C4.3 X4 A odd-check 6 C4.3.1 A B N0 N1 X4  | WrongShape { part: 0 }
4 C4.3 X4 X5 odd-check 6 C4.3.1 A B N0 N1 X4 | Unopened { part: 1 }
4 C4.3 X4 X5 seal 6 C4.3.1 A B N0 N1 X4      | Unopened { part: 1 }
4 C4.3 X4 X5 X4                              | Unopened { part: 1 }
4 C4.3 X4 X5 check 6 C4.3 A B N0 N1 X4       | Unopened { part: 1 }
4 C4.3 X4 X5 check 6 C4.2.1 A B N0 N1 X4     | Unopened { part: 1 }
4 C4.3 X4 X5 check 6 E4.3.1 A B N0 N1 X4     | Unopened { part: 1 }
4 C4.3 X4 X5 check 6 C4.3.1 B A N0 N1 X4     | Unopened { part: 1 }
4 C4.3 X4 X5 check 6 C4.3.1 C B N0 N1 X4     | Unopened { part: 1 }
4 C4.3 X4 X5 check 6 C4.3.1 A C N0 N1 X4     | Unopened { part: 1 }
4 C4.3 X4 X5 check 6 C4.3.1 A B N1 N1 X4     | Unopened { part: 1 }
4 C4.3 X4 X5 check 6 C4.3.1 A B N0 N0 X4     | Unopened { part: 1 }
4 C4.3 X4 X5 check 6 C4.3.1 A B N1 N0 X4     | Unopened { part: 1 }
4 C4.3 X4 X5 check 6 C4.3.1 A B N0 N1 X5     | Unopened { part: 1 }
4 C4.3 X4 X5 check 7 C4.3.1 A B N0 N1 X4 X5  | Unopened { part: 1 }
4 C4.3 no X5 check 6 C4.3.1 A B N0 N1 X4     | Unopened { part: 1 }
4 C4.3 X4 X5 check 6 C4.3.1 A B N0 N1 no     | Unopened { part: 1 }
4 C4.3 X4 no check 6 C4.3.1 B A N0 N1 X4     | Unopened { part: 1 }
4 C4.3 no X5 check 6 C4.3.1 A B N0 N1 no     | TextRefused { slot: X4 }
4 C4.3 no no check 6 C4.3.1 A B N0 N1 no     | TextRefused { slot: X4 }
4 C4.3 X4 no check 6 C4.3.1 A B N0 N1 X4     | TextRefused { slot: X5 }
4 C4.3 X4 X5 check 6 C4.3.1 A B N0 N1 X4     | taken
",
    ],
};

/// C1 under sequence numbers.
pub const C1_BY_NUMBERS: Exchange = Exchange {
    kind: StampKind::Seq,
    draws: 0,
    notes: 3,
    passes: [
        "
5 C1.1 Q5 X1 X2 check 5 C1.1.1 A B Q5 X1 | taken Ta 1 [2, 1, 1, 1] Seq(5)
",
        "",
        "",
    ],
};

/// C3 under sequence numbers.
pub const C3_BY_NUMBERS: Exchange = Exchange {
    kind: StampKind::Seq,
    draws: 0,
    notes: 6,
    passes: [
        "
5 C3.1 Q5 X1 X2 check 5 C3.1.1 A B Q5 X1 | taken Ta 1 [2, 3, 1, 1] Seq(5)
",
        "
5 C3.2 Q6 X3 X4 check 5 C3.2.1 A B Q6 X3 | taken Tb 2 [2, 3, 2, 1] Seq(6)
",
        "",
    ],
};
