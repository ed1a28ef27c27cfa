//! A world begins with a configuration that keeps each condition, and with no other.

use super::fixtures::{
    OWN, PairRow, PartyRow, add_pairs, add_parties, add_parts, configured, knows,
};
use std::alloc::Global;
use std::process::Abort;
use term_values::StampKind::Time;
use world_run::BadConfig::Condition;
use world_run::{BadConfig, Config, World};

/// The base, to which rows are added.
const PARTIES: [PartyRow; 3] = [(1, Time, 0), (2, Time, 5000), (9, Time, 600_000)];

const PAIRS: [PairRow; 3] = [
    (1, 2, 0xaa, false),
    (1, 9, 0xbb, false),
    (9, 2, 0xcc, false),
];

/// One party, by its name and window, and one pair that are added to the base, and why no world begins so.
const ADDED: [((u32, u32), (u32, u32, u8), Option<BadConfig>); 13] = [
    ((3, 600_000), (3, 1, 0xdd), None),
    ((3, 0), (3, 1, 0xcf), None),
    ((3, 0), (3, 1, 0xd2), None),
    ((2, 0), (2, 9, 0xdd), Some(Condition)),
    ((3, 600_001), (3, 1, 0xdd), Some(Condition)),
    ((3, 0), (4, 1, 0xdd), Some(Condition)),
    ((3, 0), (3, 3, 0xdd), Some(Condition)),
    ((3, 0), (1, 2, 0xdd), Some(Condition)),
    ((3, 0), (2, 1, 0xdd), Some(Condition)),
    ((3, 0), (3, 1, 0xaa), Some(Condition)),
    ((3, 0), (3, 1, 0xee), Some(Condition)),
    ((3, 0), (3, 1, 0xd0), Some(Condition)),
    ((3, 0), (3, 1, 0xd1), Some(Condition)),
];

/// Parts by their bytes, and whether the attacker has them where that of the added pair is revealed.
const KNOWN: [(u8, bool); 4] = [(0xaa, false), (0xbb, false), (0xdd, true), (OWN, true)];

/// The base and these rows.
fn base_and(rt: &impl Abort, alloc: Global, parties: &[PartyRow], pairs: &[PairRow]) -> Config {
    let mut config = configured(rt, alloc, &PARTIES, &PAIRS, &[OWN]);
    add_parties(rt, &mut config.parties, parties).expect(rt, "memory");
    add_pairs(rt, &mut config.pairs, pairs).expect(rt, "memory");
    config
}

/// That no world begins with the configuration, for this reason, or that one does.
fn is_judged(rt: &impl Abort, alloc: Global, config: &Config, wanted: Option<BadConfig>) {
    let answer = World::new(alloc, config).err();
    assert!(rt; answer == wanted, "{answer:?} in place of {wanted:?}");
}

/// That this answer is given where one party and one pair are added to the base.
fn is_added(
    rt: &impl Abort,
    alloc: Global,
    party: PartyRow,
    pair: PairRow,
    wanted: Option<BadConfig>,
) {
    let config = base_and(rt, alloc, &[party], &[pair]);
    is_judged(rt, alloc, &config, wanted);
}

/// Adds parties up to one more than there may be.
fn add_many(rt: &impl Abort, alloc: Global, config: &mut Config) {
    for name in 10..72 {
        is_judged(rt, alloc, config, None);
        add_parties(rt, &mut config.parties, &[(name, Time, 0)]).expect(rt, "memory");
    }
}

#[test]
fn each_condition_is_judged(rt: HostRuntime) {
    for ((name, window), (a, b, byte), wanted) in ADDED {
        let party = (name, Time, window);
        let pair = (a, b, byte, false);
        is_added(&rt, rt.alloc(), party, pair, wanted);
    }
}

#[test]
fn a_world_has_at_most_64_parties(rt: HostRuntime) {
    let mut config = base_and(&rt, rt.alloc(), &[], &[]);
    add_many(&rt, rt.alloc(), &mut config);
    assert_eq!(rt; config.parties.as_slice().len(), 65);
    is_judged(&rt, rt.alloc(), &config, Some(Condition));
}

#[test]
fn own_parts_differ(rt: HostRuntime) {
    let config = configured(&rt, rt.alloc(), &PARTIES, &PAIRS, &[OWN, OWN]);
    is_judged(&rt, rt.alloc(), &config, Some(Condition));
}

/// What a world begins with where the pair of parties 3 and 1 is revealed.
fn is_revealed(rt: &impl Abort, world: &World) {
    let revealed = world.history().revealed.as_slice();
    assert_eq!(rt; revealed.len(), 1);
    for (a, b) in revealed {
        assert_eq!(rt; (a.get(), b.get()), (3, 1));
    }
    for (byte, known) in KNOWN {
        assert!(rt; knows(world, byte) == Some(known));
    }
    assert!(rt; world.message(0).is_none() && world.message(1).is_none());
}

#[test]
fn a_world_begins_with_what_is_revealed(rt: HostRuntime) {
    let mut config = base_and(&rt, rt.alloc(), &[(3, Time, 0)], &[(3, 1, 0xdd, true)]);
    let world = World::new(rt.alloc(), &config).expect(&rt, "a world");
    is_revealed(&rt, &world);
    add_parts(&mut config.own, &[0xaa]).expect(&rt, "memory");
    is_judged(&rt, rt.alloc(), &config, Some(Condition));
}
