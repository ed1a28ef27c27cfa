//! What the tables say of the key mechanisms without a third party, and what their receivers
//! refuse.

use super::Exchange;
use term_values::StampKind;

/// A sends S(Ta Fa X1).
pub const K3: Exchange = Exchange {
    kind: StampKind::Time,
    draws: 1,
    notes: 3,
    parts: &[0],
    passes: [
        "
2 K3.1                                | Malformed { place: 7, why: Short }
2 K3.1 seal 6 K3.1.1 zero B M5 F0 X1  | Malformed { place: 52, why: ZeroName }
2 K3.1 seal 6 K3.1.1 A B M5 F0        | Malformed { place: 100, why: Short }
2 K3.1 seal 6 K3.1.1 A B M5 F0 long   | Malformed { place: 102, why: LongText }
2 K3.1 seal 6 K3.1.1 A B M5 F0 X1 X1  | Malformed { place: 104, why: Extra }
2 K5.1 seal 6 K5.1.1 A B M5 F0 X1     | WrongPass
2 K4.2 seal 6 K4.2.1 A B N0 F0 X1     | WrongPass
3 E3.1 X2 seal 5 E3.1.1 A B M5 X1     | WrongPass
2 K3.1.1 seal 6 K3.1.1 A B M5 F0 X1   | WrongPass
X1                                    | WrongPass
0                                     | WrongPass
1 K3.1                                | WrongShape { part: 0 }
3 K3.1 X1 seal 6 K3.1.1 A B M5 F0 X1  | WrongShape { part: 0 }
3 K3.1 seal 6 K3.1.1 A B M5 F0 X1 X1  | WrongShape { part: 0 }
2 K3.1 odd-seal 6 K3.1.1 A B M5 F0 X1 | Unopened { part: 1 }
2 K3.1 odd-seal 6 K3.1.1 B A M5 F0 X1 | Unopened { part: 1 }
2 K3.1 check 6 K3.1.1 A B M5 F0 X1    | Unopened { part: 1 }
2 K3.1 F0                             | Unopened { part: 1 }
2 K3.1 seal 6 K3.1 A B M5 F0 X1       | WrongShape { part: 1 }
2 K3.1 seal 6 K5.1.1 A B M5 F0 X1     | WrongShape { part: 1 }
2 K3.1 seal 6 K4.2.1 A B N0 F0 X1     | WrongShape { part: 1 }
2 K3.1 seal 5 K3.1.1 A B M5 F0        | WrongShape { part: 1 }
2 K3.1 seal 7 K3.1.1 A B M5 F0 X1 X1  | WrongShape { part: 1 }
2 K3.1 seal 6 K3.1.1 A X1 M5 F0 X1    | WrongShape { part: 1 }
2 K3.1 seal 6 K3.1.1 A B F0 M5 X1     | WrongShape { part: 1 }
2 K3.1 seal 6 K3.1.1 A B M5 N0 X1     | WrongShape { part: 1 }
2 K3.1 seal 6 K3.1.1 A B M5 F0 F0     | WrongShape { part: 1 }
2 K3.1 seal 6 K3.1.1 B A N0 F0 X1     | WrongShape { part: 1 }
2 K3.1 seal F0                        | WrongShape { part: 1 }
2 K3.1 seal 6 K3.1.1 B A M5 F0 X1     | WrongNames { part: 1 }
2 K3.1 seal 6 K3.1.1 C B M5 F0 X1     | WrongNames { part: 1 }
2 K3.1 seal 6 K3.1.1 A C M5 F0 X1     | WrongNames { part: 1 }
2 K3.1 seal 6 K3.1.1 B A M5 F0 no     | WrongNames { part: 1 }
2 K3.1 seal 6 K3.1.1 A B M5 F0 no     | TextRefused { slot: X1 }
2 K3.1 seal 6 K3.1.1 A B M5 F9 X1     | taken Ta 1 [3, 3, 1, 1] Time(5)
2 K3.1 seal 6 K3.1.1 A B M6 F0 X1     | taken Ta 1 [3, 3, 1, 1] Time(6)
2 K3.1 seal 6 K3.1.1 A B M5 F0 X1     | taken Ta 1 [3, 3, 1, 1] Time(5)
",
        "",
        "",
    ],
};

/// B sends Rb; A answers S(Rb Fa X1).
pub const K4: Exchange = Exchange {
    kind: StampKind::Time,
    draws: 2,
    notes: 3,
    parts: &[1],
    passes: [
        "
2 K4.1       | Malformed { place: 7, why: Short }
2 K4.1 N0 N0 | Malformed { place: 24, why: Extra }
2 E4.1 N0    | WrongPass
2 K6.1 N0    | WrongPass
2 K4.2 N0    | WrongPass
2 K4.1.1 N0  | WrongPass
N0           | WrongPass
0            | WrongPass
1 K4.1       | WrongShape { part: 0 }
3 K4.1 N0 X1 | WrongShape { part: 0 }
2 K4.1 M5    | WrongShape { part: 0 }
2 K4.1 F0    | WrongShape { part: 0 }
2 K4.1 X1    | WrongShape { part: 0 }
2 K4.1 N9    | taken
2 K4.1 N0    | taken
",
        "
2 K4.2                                | Malformed { place: 7, why: Short }
2 K4.2 seal 6 K4.2.1 zero B N0 F1 X1  | Malformed { place: 52, why: ZeroName }
2 K4.2 seal 6 K4.2.1 A B N0 F1        | Malformed { place: 108, why: Short }
2 K4.2 seal 6 K4.2.1 A B N0 F1 long   | Malformed { place: 110, why: LongText }
2 K4.2 seal 6 K4.2.1 A B N0 F1 X1 X1  | Malformed { place: 112, why: Extra }
2 K4.1 N0                             | WrongPass
2 K3.1 seal 6 K3.1.1 A B M5 F1 X1     | WrongPass
3 E4.2 X3 seal 6 E4.2.1 A B N1 N0 X2  | WrongPass
2 K4.2.1 seal 6 K4.2.1 A B N0 F1 X1   | WrongPass
X1                                    | WrongPass
0                                     | WrongPass
1 K4.2                                | WrongShape { part: 0 }
3 K4.2 X1 seal 6 K4.2.1 A B N0 F1 X1  | WrongShape { part: 0 }
3 K4.2 seal 6 K4.2.1 A B N0 F1 X1 X1  | WrongShape { part: 0 }
2 K4.2 odd-seal 6 K4.2.1 A B N0 F1 X1 | Unopened { part: 1 }
2 K4.2 odd-seal 6 K4.2.1 B A N0 F1 X1 | Unopened { part: 1 }
2 K4.2 check 6 K4.2.1 A B N0 F1 X1    | Unopened { part: 1 }
2 K4.2 F1                             | Unopened { part: 1 }
2 K4.2 seal 6 K4.2 A B N0 F1 X1       | WrongShape { part: 1 }
2 K4.2 seal 6 K3.1.1 A B M5 F1 X1     | WrongShape { part: 1 }
2 K4.2 seal 7 K6.2.1 A B N1 N0 F1 X2  | WrongShape { part: 1 }
2 K4.2 seal 5 K4.2.1 A B N0 F1        | WrongShape { part: 1 }
2 K4.2 seal 7 K4.2.1 A B N0 F1 X1 X1  | WrongShape { part: 1 }
2 K4.2 seal 6 K4.2.1 A X1 N0 F1 X1    | WrongShape { part: 1 }
2 K4.2 seal 6 K4.2.1 A B F1 N0 X1     | WrongShape { part: 1 }
2 K4.2 seal 6 K4.2.1 A B N0 N0 X1     | WrongShape { part: 1 }
2 K4.2 seal 6 K4.2.1 A B N0 F1 F1     | WrongShape { part: 1 }
2 K4.2 seal 6 K4.2.1 B A M5 F1 X1     | WrongShape { part: 1 }
2 K4.2 seal F1                        | WrongShape { part: 1 }
2 K4.2 seal 6 K4.2.1 B A N0 F1 X1     | WrongNames { part: 1 }
2 K4.2 seal 6 K4.2.1 C B N0 F1 X1     | WrongNames { part: 1 }
2 K4.2 seal 6 K4.2.1 A C N0 F1 X1     | WrongNames { part: 1 }
2 K4.2 seal 6 K4.2.1 B A N1 F1 no     | WrongNames { part: 1 }
2 K4.2 seal 6 K4.2.1 A B N1 F1 X1     | WrongValue { part: 1, slot: Rb }
2 K4.2 seal 6 K4.2.1 A B N1 F1 no     | WrongValue { part: 1, slot: Rb }
2 K4.2 seal 6 K4.2.1 A B N0 F1 no     | TextRefused { slot: X1 }
2 K4.2 seal 6 K4.2.1 A B N0 F9 X1     | taken
2 K4.2 seal 6 K4.2.1 A B N0 F1 X1     | taken
",
        "",
    ],
};

/// K3 under sequence numbers.
pub const K3_BY_NUMBERS: Exchange = Exchange {
    kind: StampKind::Seq,
    draws: 1,
    notes: 3,
    parts: &[0],
    passes: [
        "
2 K3.1 seal 6 K3.1.1 A B Q5 F0 X1 | taken Ta 1 [3, 3, 1, 1] Seq(5)
",
        "",
        "",
    ],
};

/// The first message of K4 between 1 and 2.
pub const K4_FIRST: [u8; 24] = [
    0x08, 0x02, 0x07, 0x03, 0x04, 0x01, 0x00, 0x04, 0xd0, 0x00, 0x00, 0x00, 0x00, 0x00, 0x00, 0x00,
    0x00, 0x00, 0x00, 0x00, 0x00, 0x00, 0x00, 0x00,
];

/// The second one, where X1 is empty.
pub const K4_SECOND: [u8; 111] = [
    0x08, 0x02, 0x07, 0x03, 0x04, 0x02, 0x00, 0x09, 0x0b, 0x11, 0x11, 0x11, 0x11, 0x11, 0x11, 0x11,
    0x11, 0x11, 0x11, 0x11, 0x11, 0x11, 0x11, 0x11, 0x11, 0x11, 0x11, 0x11, 0x11, 0x11, 0x11, 0x11,
    0x11, 0x11, 0x11, 0x11, 0x11, 0x11, 0x11, 0x11, 0x11, 0x08, 0x06, 0x07, 0x03, 0x04, 0x02, 0x01,
    0x01, 0x00, 0x00, 0x00, 0x01, 0x01, 0x00, 0x00, 0x00, 0x02, 0x04, 0xd0, 0x00, 0x00, 0x00, 0x00,
    0x00, 0x00, 0x00, 0x00, 0x00, 0x00, 0x00, 0x00, 0x00, 0x00, 0x00, 0x05, 0xd1, 0x00, 0x00, 0x00,
    0x00, 0x00, 0x00, 0x00, 0x00, 0x00, 0x00, 0x00, 0x00, 0x00, 0x00, 0x00, 0x00, 0x00, 0x00, 0x00,
    0x00, 0x00, 0x00, 0x00, 0x00, 0x00, 0x00, 0x00, 0x00, 0x00, 0x00, 0x01, 0x06, 0x00, 0x00,
];
