use mech_rows::{RunHead, Texts};
use term_values::{Name, Part, StampKind, Term};
use text_hooks::Rule;

/// What a line of a script says.
#[derive(Drop)]
pub enum Line {
    /// A party with its kind of stamps and its window in milliseconds, at most 600,000; 5,000 where it takes sequence numbers.
    Party {
        name: Name,
        kind: StampKind,
        window: u32,
    },
    /// A long-term part of two parties, which the attacker has too where it is revealed.
    Pair {
        a: Name,
        b: Name,
        part: Part,
        revealed: bool,
    },
    /// A part that the attacker has.
    Own {
        part: Part,
    },
    /// A rule on the texts of a slot.
    Allow {
        rule: Rule,
    },
    /// The clock of a party, in milliseconds.
    Clock {
        name: Name,
        ms: u64,
    },
    /// A run to begin, with the texts that it sends.
    Open {
        head: RunHead,
        texts: Texts,
    },
    /// A term to give to a run.
    Give {
        run: u32,
        term: Term,
    },
    /// A run to drop.
    Drop {
        run: u32,
    },
    /// An empty line, or a comment.
    Empty,
}
