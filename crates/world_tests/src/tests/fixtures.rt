//! What the tests begin with: configurations and worlds.

use std::alloc::Global;
use std::process::Abort;
use term_values::{Form, Name, OutOfMemory, Part, StampKind, Term, Text};
use world_run::{Config, Pair, Party, World};

/// A party by its name, the kind of its stamps, and its window. Party 9 is a third party.
pub(super) type PartyRow = (u32, StampKind, u32);

/// A pair by its two names, the byte of its part, and whether the attacker has that part.
pub(super) type PairRow = (u32, u32, u8, bool);

/// The byte of the attacker's own part.
pub(super) const OWN: u8 = 0xee;

pub(super) fn name(rt: &impl Abort, number: u32) -> Name {
    Name::new(number).expect(rt, "a name")
}

/// The part of 32 bytes like this one.
pub(super) fn part(byte: u8) -> Part {
    Part([byte; 32])
}

pub(super) fn text(rt: &impl Abort, alloc: Global, bytes: &[u8]) -> Result<Text, OutOfMemory> {
    let bytes = bytes.to_vec(alloc)?;
    Ok(Text::new(bytes).expect(rt, "a short text"))
}

fn party(rt: &impl Abort, row: PartyRow) -> Party {
    let (number, kind, window) = row;
    Party {
        name: name(rt, number),
        server: number == 9,
        kind,
        window,
    }
}

fn pair(rt: &impl Abort, row: PairRow) -> Pair {
    let (a, b, byte, revealed) = row;
    Pair {
        a: name(rt, a),
        b: name(rt, b),
        part: part(byte),
        revealed,
    }
}

pub(super) fn add_parties(
    rt: &impl Abort,
    parties: &mut Vec<Party>,
    rows: &[PartyRow],
) -> Result<(), OutOfMemory> {
    for row in rows {
        parties.push(party(rt, *row))?;
    }
    Ok(())
}

pub(super) fn add_pairs(
    rt: &impl Abort,
    pairs: &mut Vec<Pair>,
    rows: &[PairRow],
) -> Result<(), OutOfMemory> {
    for row in rows {
        pairs.push(pair(rt, *row))?;
    }
    Ok(())
}

/// Adds the parts of these bytes.
pub(super) fn add_parts(parts: &mut Vec<Part>, bytes: &[u8]) -> Result<(), OutOfMemory> {
    for byte in bytes {
        parts.push(part(*byte))?;
    }
    Ok(())
}

/// The configuration of these parties and pairs, where the attacker has the parts of these bytes.
pub(super) fn configured(
    rt: &impl Abort,
    alloc: Global,
    parties: &[PartyRow],
    pairs: &[PairRow],
    own: &[u8],
) -> Config {
    let mut config = Config {
        parties: Vec::new(alloc),
        pairs: Vec::new(alloc),
        own: Vec::new(alloc),
    };
    add_parties(rt, &mut config.parties, parties).expect(rt, "memory");
    add_pairs(rt, &mut config.pairs, pairs).expect(rt, "memory");
    add_parts(&mut config.own, own).expect(rt, "memory");
    config
}

/// A world of these parties and pairs, where the attacker has one part of its own.
pub(super) fn begun(
    rt: &impl Abort,
    alloc: Global,
    parties: &[PartyRow],
    pairs: &[PairRow],
) -> World {
    let config = configured(rt, alloc, parties, pairs, &[OWN]);
    World::new(alloc, &config).expect(rt, "a world")
}

/// Whether the attacker derives the part of this byte; None for want of memory.
pub(super) fn knows(world: &World, byte: u8) -> Option<bool> {
    let part = Term::of(Form::Part(part(byte)));
    world.knowledge().derives(&part).ok()
}
