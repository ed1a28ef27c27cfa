//! What the tables say of the key mechanisms in which both draw a part, and what their receivers
//! refuse.

use super::Exchange;
use term_values::StampKind;

/// A sends S(Ta Fa X1); B answers S(Tb Ta Fb X2).
pub const K5: Exchange = Exchange {
    kind: StampKind::Time,
    draws: 2,
    notes: 6,
    parts: &[0, 1],
    passes: [
        "
2 K5.1                                | Malformed { place: 7, why: Short }
2 K3.1 seal 6 K3.1.1 A B M5 F0 X1     | WrongPass
2 K5.2 seal 7 K5.2.1 A B M6 M5 F1 X2  | WrongPass
2 K5.1.1 seal 6 K5.1.1 A B M5 F0 X1   | WrongPass
X1                                    | WrongPass
1 K5.1                                | WrongShape { part: 0 }
3 K5.1 X1 seal 6 K5.1.1 A B M5 F0 X1  | WrongShape { part: 0 }
2 K5.1 odd-seal 6 K5.1.1 A B M5 F0 X1 | Unopened { part: 1 }
2 K5.1 check 6 K5.1.1 A B M5 F0 X1    | Unopened { part: 1 }
2 K5.1 seal 6 K3.1.1 A B M5 F0 X1     | WrongShape { part: 1 }
2 K5.1 seal 7 K5.2.1 A B M6 M5 F1 X2  | WrongShape { part: 1 }
2 K5.1 seal 5 K5.1.1 A B M5 F0        | WrongShape { part: 1 }
2 K5.1 seal 6 K5.1.1 A B F0 M5 X1     | WrongShape { part: 1 }
2 K5.1 seal 6 K5.1.1 A B N0 F0 X1     | WrongShape { part: 1 }
2 K5.1 seal 6 K5.1.1 A B M5 N0 X1     | WrongShape { part: 1 }
2 K5.1 seal 6 K5.1.1 B A M5 F0 X1     | WrongNames { part: 1 }
2 K5.1 seal 6 K5.1.1 A C M5 F0 no     | WrongNames { part: 1 }
2 K5.1 seal 6 K5.1.1 A B M5 F0 no     | TextRefused { slot: X1 }
2 K5.1 seal 6 K5.1.1 A B Q5 F9 X1     | taken Ta 1 [3, 5, 1, 1] Seq(5)
2 K5.1 seal 6 K5.1.1 A B M5 F0 X1     | taken Ta 1 [3, 5, 1, 1] Time(5)
",
        "
2 K5.2                                   | Malformed { place: 7, why: Short }
2 K5.1 seal 6 K5.1.1 A B M5 F0 X1        | WrongPass
2 K6.2 seal 7 K6.2.1 A B N1 N0 F1 X2     | WrongPass
1 K5.2                                   | WrongShape { part: 0 }
3 K5.2 X2 seal 7 K5.2.1 A B M6 M5 F1 X2  | WrongShape { part: 0 }
2 K5.2 odd-seal 7 K5.2.1 A B M6 M5 F1 X2 | Unopened { part: 1 }
2 K5.2 F1                                | Unopened { part: 1 }
2 K5.2 seal 6 K5.1.1 A B M5 F0 X1        | WrongShape { part: 1 }
2 K5.2 seal 7 K6.2.1 A B N1 N0 F1 X2     | WrongShape { part: 1 }
2 K5.2 seal 6 K5.2.1 A B M6 M5 F1        | WrongShape { part: 1 }
2 K5.2 seal 7 K5.2.1 A B M6 F1 M5 X2     | WrongShape { part: 1 }
2 K5.2 seal 7 K5.2.1 B A M6 M7 F1 X2     | WrongNames { part: 1 }
2 K5.2 seal 7 K5.2.1 A C M6 M5 F1 X2     | WrongNames { part: 1 }
2 K5.2 seal 7 K5.2.1 A B M6 M4 F1 X2     | WrongValue { part: 1, slot: Ta }
2 K5.2 seal 7 K5.2.1 A B M5 M6 F1 X2     | WrongValue { part: 1, slot: Ta }
2 K5.2 seal 7 K5.2.1 A B M6 Q5 F1 no     | WrongValue { part: 1, slot: Ta }
2 K5.2 seal 7 K5.2.1 A B M6 M5 F1 no     | TextRefused { slot: X2 }
2 K5.2 seal 7 K5.2.1 A B M5 M5 F0 X2     | taken Tb 2 [3, 5, 2, 1] Time(5)
2 K5.2 seal 7 K5.2.1 A B M6 M5 F1 X2     | taken Tb 2 [3, 5, 2, 1] Time(6)
",
        "",
    ],
};

/// B sends Rb, X1; A answers S(Ra Rb Fa X2); B answers S(Rb Ra Fb X3).
pub const K6: Exchange = Exchange {
    kind: StampKind::Seq,
    draws: 3,
    notes: 7,
    parts: &[2, 3],
    passes: [
        "
3 K6.1 N0    | Malformed { place: 24, why: Short }
2 K6.1 N0    | WrongShape { part: 0 }
3 E4.1 N0 X1 | WrongPass
2 K4.1 N0    | WrongPass
3 K6.2 N0 X1 | WrongPass
2 K6.1 N0 X1 | Malformed { place: 24, why: Extra }
3 K6.1 X1 N0 | WrongShape { part: 0 }
3 K6.1 M5 X1 | WrongShape { part: 0 }
3 K6.1 N0 no | TextRefused { slot: X1 }
3 K6.1 N9 X1 | taken
3 K6.1 N0 X1 | taken
",
        "
2 K6.2                                   | Malformed { place: 7, why: Short }
3 K6.1 N0 X1                             | WrongPass
2 K6.3 seal 7 K6.3.1 A B N0 N1 F3 X3     | WrongPass
2 K4.2 seal 6 K4.2.1 A B N0 F2 X1        | WrongPass
1 K6.2                                   | WrongShape { part: 0 }
3 K6.2 X2 seal 7 K6.2.1 A B N1 N0 F2 X2  | WrongShape { part: 0 }
2 K6.2 odd-seal 7 K6.2.1 A B N1 N0 F2 X2 | Unopened { part: 1 }
2 K6.2 check 7 K6.2.1 A B N1 N0 F2 X2    | Unopened { part: 1 }
2 K6.2 seal 7 K6.3.1 A B N0 N1 F3 X3     | WrongShape { part: 1 }
2 K6.2 seal 6 K6.2.1 A B N1 N0 F2        | WrongShape { part: 1 }
2 K6.2 seal 7 K6.2.1 A B N1 F2 N0 X2     | WrongShape { part: 1 }
2 K6.2 seal 7 K6.2.1 B A N1 N0 F2 X2     | WrongNames { part: 1 }
2 K6.2 seal 7 K6.2.1 C B N1 N9 F2 X2     | WrongNames { part: 1 }
2 K6.2 seal 7 K6.2.1 A B N0 N1 F2 X2     | WrongValue { part: 1, slot: Rb }
2 K6.2 seal 7 K6.2.1 A B N1 N9 F2 no     | WrongValue { part: 1, slot: Rb }
2 K6.2 seal 7 K6.2.1 A B N1 N0 F2 no     | TextRefused { slot: X2 }
2 K6.2 seal 7 K6.2.1 A B N0 N0 F9 X2     | taken
2 K6.2 seal 7 K6.2.1 A B N1 N0 F2 X2     | taken
",
        "
2 K6.3                                   | Malformed { place: 7, why: Short }
3 K6.1 N0 X1                             | WrongPass
2 K6.2 seal 7 K6.2.1 A B N1 N0 F2 X2     | WrongPass
1 K6.3                                   | WrongShape { part: 0 }
2 K6.3 odd-seal 7 K6.3.1 A B N0 N1 F3 X3 | Unopened { part: 1 }
2 K6.3 seal 7 K6.2.1 A B N1 N0 F2 X2     | WrongShape { part: 1 }
2 K6.3 seal 7 K6.3.1 A B N0 F3 N1 X3     | WrongShape { part: 1 }
2 K6.3 seal 7 K6.3.1 B A N0 N1 F3 X3     | WrongNames { part: 1 }
2 K6.3 seal 7 K6.3.1 A B N1 N0 F3 X3     | WrongValue { part: 1, slot: Rb }
2 K6.3 seal 7 K6.3.1 A B N0 N0 F3 X3     | WrongValue { part: 1, slot: Ra }
2 K6.3 seal 7 K6.3.1 A B N0 N9 F3 no     | WrongValue { part: 1, slot: Ra }
2 K6.3 seal 7 K6.3.1 A B N0 N1 F3 no     | TextRefused { slot: X3 }
2 K6.3 seal 7 K6.3.1 A B N0 N1 F2 X3     | taken
2 K6.3 seal 7 K6.3.1 A B N0 N1 F3 X3     | taken
",
    ],
};
