//! What the third party takes and answers, as the tables say.

use term_values::{Stamp, StampKind};

/// What happens to a run of the third party.
pub struct Service {
    /// The stamps that it issues.
    pub kind: StampKind,
    /// It issues a stamp.
    pub issues: bool,
    /// The stamp that it has, where it issues one.
    pub stamp: Stamp,
    /// How many nonces were drawn before it draws.
    pub drawn: u8,
    /// How many values it has noted at its end.
    pub notes: usize,
    /// What it is given, one after the other, and what it answers: what that is spelled from, and
    /// the answer, beside each other in a line. The last line is the request, which it takes.
    pub requests: &'static str,
    /// What its reply is spelled from.
    pub reply: &'static str,
}

/// A asks with Ra; the part goes to A with Ra, and to B with Tp.
pub const E5: Service = Service {
    kind: StampKind::Time,
    issues: true,
    stamp: Stamp::Time(5),
    drawn: 1,
    notes: 7,
    requests: "
4 E5.1 N0 B                 | Malformed { place: 29, why: Short }
4 E5.1 N0 zero X1           | Malformed { place: 28, why: ZeroName }
4 E5.1 N0 B long            | Malformed { place: 31, why: LongText }
4 E5.1 N0 B X1 X1           | Malformed { place: 33, why: Extra }
4 K8.1 N0 B X1              | WrongPass
5 E6.2 N1 N0 B X2           | WrongPass
4 E5.1.1 N0 B X1            | WrongPass
4 E5.3 X6 for-b F1 for-a F1 | WrongPass
X1                          | WrongPass
0                           | WrongPass
1 E5.1                      | WrongShape { part: 0 }
3 E5.1 N0 B                 | WrongShape { part: 0 }
3 E5.1 N0 X1                | WrongShape { part: 0 }
5 E5.1 N0 B X1 X1           | WrongShape { part: 0 }
4 E5.1 M5 B X1              | WrongShape { part: 0 }
4 E5.1 B N0 X1              | WrongShape { part: 0 }
4 E5.1 N0 F0 X1             | WrongShape { part: 0 }
4 E5.1 N0 B F0              | WrongShape { part: 0 }
4 E5.1 N0 C F0              | WrongShape { part: 0 }
4 E5.1 N0 C X1              | WrongNames { part: 0 }
4 E5.1 N0 A no              | WrongNames { part: 0 }
4 E5.1 N0 P X1              | WrongNames { part: 0 }
4 E5.1 N0 B no              | TextRefused { slot: X1 }
4 E5.1 N0 B X2              | TextRefused { slot: X1 }
4 E5.1 N7 B X1              | taken
4 E5.1 N0 B X1              | taken
",
    reply: "4 E5.2 X4 for-a 7 E5.2.1 A B P N0 F1 X3 for-b 7 E5.2.2 A B P M5 F1 X2",
};

/// K8 has the passes of E5.
pub const K8: Service = Service {
    kind: StampKind::Seq,
    issues: true,
    stamp: Stamp::Seq(6),
    drawn: 3,
    notes: 7,
    requests: "
4 K8.1 N2 B       | Malformed { place: 29, why: Short }
4 E5.1 N2 B X1    | WrongPass
5 K9.2 N2 N0 B X2 | WrongPass
3 K6.1 N2 X1      | WrongPass
3 K8.1 N2 X1      | WrongShape { part: 0 }
4 K8.1 Q5 B X1    | WrongShape { part: 0 }
4 K8.1 N2 A X1    | WrongNames { part: 0 }
4 K8.1 N2 B no    | TextRefused { slot: X1 }
4 K8.1 N2 B X1    | taken
",
    reply: "4 K8.2 X4 for-a 7 K8.2.1 A B P N2 F3 X3 for-b 7 K8.2.2 A B P Q6 F3 X2",
};

/// A asks with Ra2 and Rb; the part goes to A with Ra2, and to B with Rb.
pub const E6: Service = Service {
    kind: StampKind::Time,
    issues: false,
    stamp: Stamp::Time(5),
    drawn: 2,
    notes: 7,
    requests: "
5 E6.2 N1 N0 B       | Malformed { place: 46, why: Short }
5 E6.2 N1 N0 zero X2 | Malformed { place: 45, why: ZeroName }
5 E6.2 N1 N0 B X2 X2 | Malformed { place: 50, why: Extra }
5 K9.2 N1 N0 B X2    | WrongPass
3 E6.1 N0 X1         | WrongPass
4 E5.1 N1 B X1       | WrongPass
5 E6.2.1 N1 N0 B X2  | WrongPass
F1                   | WrongPass
1 E6.2               | WrongShape { part: 0 }
4 E6.2 N1 B X2       | WrongShape { part: 0 }
6 E6.2 N1 N0 B X2 X2 | WrongShape { part: 0 }
5 E6.2 M5 N0 B X2    | WrongShape { part: 0 }
5 E6.2 N1 M5 B X2    | WrongShape { part: 0 }
5 E6.2 N1 B N0 X2    | WrongShape { part: 0 }
5 E6.2 N1 N0 X2 B    | WrongShape { part: 0 }
5 E6.2 N1 N0 A F1    | WrongShape { part: 0 }
5 E6.2 N1 N0 A no    | WrongNames { part: 0 }
5 E6.2 N1 N0 C X2    | WrongNames { part: 0 }
5 E6.2 N1 N0 B no    | TextRefused { slot: X2 }
5 E6.2 N1 N0 B X1    | TextRefused { slot: X2 }
5 E6.2 N0 N0 B X2    | taken
5 E6.2 N1 N0 B X2    | taken
",
    reply: "4 E6.3 X5 for-a 7 E6.3.1 A B P N1 F2 X4 for-b 7 E6.3.2 A B P N0 F2 X3",
};

/// K9 has the passes of E6.
pub const K9: Service = Service {
    kind: StampKind::Seq,
    issues: false,
    stamp: Stamp::Seq(6),
    drawn: 2,
    notes: 7,
    requests: "
5 K9.2 N0 N1 B    | Malformed { place: 46, why: Short }
5 E6.2 N0 N1 B X2 | WrongPass
4 K8.1 N0 B X1    | WrongPass
4 K9.2 N0 B X2    | WrongShape { part: 0 }
5 K9.2 N0 F1 B X2 | WrongShape { part: 0 }
5 K9.2 N0 N1 P X2 | WrongNames { part: 0 }
5 K9.2 N0 N1 B no | TextRefused { slot: X2 }
5 K9.2 N0 N1 B X2 | taken
",
    reply: "4 K9.3 X5 for-a 7 K9.3.1 A B P N0 F2 X4 for-b 7 K9.3.2 A B P N1 F2 X3",
};

/// E5 without texts, where the third party's first stamp is 1.
pub const E5_WITHOUT_TEXTS: Service = Service {
    kind: StampKind::Time,
    issues: true,
    stamp: Stamp::Time(1),
    drawn: 1,
    notes: 7,
    requests: "
4 E5.1 N0 B X | taken
",
    reply: "4 E5.2 X for-a 7 E5.2.1 A B P N0 F1 X for-b 7 E5.2.2 A B P M1 F1 X",
};
