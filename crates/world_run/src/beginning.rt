ghost use Rattle.std.specs.Prelude.{◌≡◌, ◌≤◌, ◌++◌, [], map, IfOk};
ghost use Rattle.term_values.specs.Trees.{Among, part as a_part};
ghost use Rattle.agreement_laws.specs.Configs.{Party as PartyOf, is_of as is_of_pair, part_among};
ghost use Rattle.agreement_laws.specs.Configs.{revealed_parts as revealed_of};
ghost use Rattle.agreement_laws.specs.Worlds.{peers_by};
ghost use Rattle.world_run.specs.Beginnings.{AreNewSeats, IsNewSeat};
ghost use Rattle.world_run.specs.Conditions.{KeepsConditions};
ghost use Rattle.world_run.specs.Views.{revealed_names as names_of_revealed};

use crate::config::Config;
use crate::pair::Pair;
use crate::parties::Parties;
use crate::party::Party;
use crate::seat::Seat;
use fresh_values::Issuer;
use mech_rows::{Peer, Ring};
use node_desk::Desk;
use replay_store::WindowStore;
use std::alloc::Global;
use term_values::{Name, OutOfMemory, Part};

/// Whether the pair is of these two names, in either order.
fn is_of(pair: &Pair, one: Name, other: Name) -> bool
    ensures { result ≡ is_of_pair one other pair.now }
{
    let same = pair.a.get() == one.get() && pair.b.get() == other.get();
    same || (pair.a.get() == other.get() && pair.b.get() == one.get())
}

/// The part of the first pair of these two names, in either order.
fn part_for(pairs: &[Pair], one: Name, other: Name) -> Option<Part>
    ensures { result ≡ part_among pairs.now one other }
{
    for pair in pairs {
        if is_of(pair, one, other) {
            return Some(pair.part);
        }
    }
    None
}

/// All parties but the own one, with the parts that they share with it.
fn peers_for(alloc: Global, config: &Config, me: Name) -> Result<Vec<Peer>, OutOfMemory>
    ensures { IfOk result (λ peers. peers.items ≡ peers_by config.now me config.now.parties) }
{
    let mut peers = Vec::new(alloc);
    for party in config.parties.as_slice() {
        if party.name.get() != me.get() {
            peers.push(Peer {
                name: party.name,
                server: party.server,
                part: part_for(config.pairs.as_slice(), me, party.name),
            })?;
        }
    }
    Ok(peers)
}

/// A party that did nothing yet.
fn seat_for(alloc: Global, config: &Config, party: &Party) -> Result<Seat, OutOfMemory>
    requires window { party.now.window ≤ 600_000 }
    ensures { IfOk result (λ seat. IsNewSeat config.now party.now seat) }
{
    let ring = Ring {
        me: party.name,
        server: party.server,
        kind: party.kind,
        window: party.window,
        peers: peers_for(alloc, config, party.name)?,
    };
    let issuer = Issuer::new(party.kind, 0);
    let store = WindowStore::new(alloc, party.window);
    Ok(Seat {
        desk: Desk::new(alloc, ring, issuer, store),
        clock: 0,
    })
}

/// All parties, none of which did anything yet.
fn seats_for(alloc: Global, config: &Config) -> Result<Vec<Seat>, OutOfMemory>
    requires windows { (p : PartyOf) → Among p config.now.parties → p.window ≤ 600_000 }
    ensures { IfOk result (λ seats. AreNewSeats config.now config.now.parties seats.items) }
{
    let mut seats = Vec::new(alloc);
    for party in config.parties.as_slice() {
        seats.push(seat_for(alloc, config, party)?)?;
    }
    Ok(seats)
}

/// The parties of a configuration that meets the conditions, which did nothing yet.
pub(crate) fn parties_for(alloc: Global, config: &Config) -> Result<Parties, OutOfMemory>
    requires conditions { KeepsConditions config.now }
    ensures config { IfOk result (λ parties. parties.config ≡ config.now) }
    ensures acts { IfOk result (λ parties. parties.acts ≡ []) }
    ensures clocks { IfOk result (λ parties.
        parties.clocks ≡ map (λ (p : PartyOf). 0) config.now.parties) }
{
    let seats = seats_for(alloc, config)?;
    let config = copied(alloc, config)?;
    Ok(Parties::new(alloc, config, seats))
}

/// The attacker's own parts, then those of the revealed pairs.
pub(crate) fn known_parts(alloc: Global, config: &Config) -> Result<Vec<Part>, OutOfMemory>
    ensures { IfOk result (λ parts. map a_part parts.items
        ≡ map a_part config.now.own ++ revealed_of config.now.pairs) }
{
    let mut parts = config.own.to_vec(alloc)?;
    for pair in config.pairs.as_slice() {
        if pair.revealed {
            parts.push(pair.part)?;
        }
    }
    Ok(parts)
}

/// The names of the revealed pairs.
pub(crate) fn revealed_names(
    alloc: Global,
    config: &Config,
) -> Result<Vec<(Name, Name)>, OutOfMemory>
    ensures { IfOk result (λ names. names.items ≡ names_of_revealed config.now.pairs) }
{
    let mut names = Vec::new(alloc);
    for pair in config.pairs.as_slice() {
        if pair.revealed {
            names.push((pair.a, pair.b))?;
        }
    }
    Ok(names)
}

/// An equal configuration.
fn copied(alloc: Global, config: &Config) -> Result<Config, OutOfMemory>
    ensures { IfOk result (λ copy. copy ≡ config.now) }
{
    Ok(Config {
        parties: config.parties.to_vec(alloc)?,
        pairs: config.pairs.to_vec(alloc)?,
        own: config.own.to_vec(alloc)?,
    })
}
