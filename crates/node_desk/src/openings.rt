ghost use Rattle.std.specs.Prelude.{◌≡◌, ◌==◌, is_some};
ghost use Rattle.std.specs.List.{list_any};
ghost use Rattle.std.specs.Option.{option_copied};
ghost use Rattle.mech_rows.specs.Rings.{Peer as PeerOf, keys_in};
ghost use Rattle.mech_rows.specs.Heads.{IsHead};
ghost use Rattle.mech_rows.specs.Openings.{has_parts as ring_has_parts};
ghost use Rattle.agreement_laws.specs.Nodes.{knows as ring_knows, serves as ring_serves};
ghost use Rattle.node_desk.specs.Openings.{are_known, have_wrong_kinds};
ghost use Rattle.node_desk.specs.Openings.{head_refusal as refusal_by_ring, opening_by};

use mech_rows::{Peer, Refusal, Ring, Role, RunHead};
use term_values::{Name, Part};

/// How many runs of a node may be open.
const OPEN_LIMIT: usize = 1024;

/// How many runs a node may open.
const RUN_LIMIT: usize = 4_294_967_295;

fn has_peer(peers: &[Peer], name: Name) -> bool
    ensures { result ≡ list_any (λ (p : PeerOf). p.name == name) peers.now }
{
    peers.iter().any(|peer| peer.name.get() == name.get())
}

fn knows(ring: &Ring, name: Name) -> bool
    ensures { result ≡ ring_knows ring.now name }
{
    name == ring.me || has_peer(&ring.peers, name)
}

fn serves(ring: &Ring, name: Name) -> bool
    ensures { result ≡ ring_serves ring.now name }
{
    if name == ring.me {
        return ring.server;
    }
    for peer in ring.peers.as_slice() {
        if peer.name == name {
            return peer.server;
        }
    }
    false
}

/// The part that the ring has for a pair of names.
pub(crate) fn part_between(ring: &Ring, one: Name, other: Name) -> Option<&Part>
    ensures { option_copied result ≡ keys_in ring.now one other }
{
    if one == ring.me {
        return ring.part_of(other);
    }
    if other == ring.me {
        return ring.part_of(one);
    }
    None
}

fn shares(ring: &Ring, one: Name, other: Name) -> bool
    ensures { result ≡ is_some (keys_in ring.now one other) }
{
    part_between(ring, one, other).is_some()
}

/// Whether the ring has each long-term part that the role uses.
fn has_parts(ring: &Ring, head: &RunHead) -> bool
    ensures { result ≡ ring_has_parts ring.now head.now }
{
    let Some(third) = head.p else {
        return shares(ring, head.a, head.b);
    };
    match head.role {
        Role::A => shares(ring, head.a, third),
        Role::B => shares(ring, head.b, third),
        Role::P => shares(ring, head.a, third) && shares(ring, head.b, third),
    }
}

fn knows_all(ring: &Ring, head: &RunHead) -> bool
    ensures { result ≡ are_known ring.now head.now }
{
    knows(ring, head.a)
        && knows(ring, head.b)
        && match head.p {
            Some(third) => knows(ring, third),
            None => true,
        }
}

/// Whether A or B is a third party, or the third party is none.
fn has_wrong_kinds(ring: &Ring, head: &RunHead) -> bool
    ensures { result ≡ have_wrong_kinds ring.now head.now }
{
    serves(ring, head.a)
        || serves(ring, head.b)
        || match head.p {
            Some(third) => !serves(ring, third),
            None => false,
        }
}

fn head_refusal(ring: &Ring, head: &RunHead) -> Option<Refusal>
    ensures { result ≡ refusal_by_ring ring.now head.now }
{
    if !knows_all(ring, head) {
        Some(Refusal::UnknownParty)
    } else if has_wrong_kinds(ring, head) {
        Some(Refusal::WrongKind)
    } else if head.a == head.b {
        Some(Refusal::SelfPeer)
    } else if !has_parts(ring, head) {
        Some(Refusal::NoKey)
    } else {
        None
    }
}

/// A copy of the head.
pub(crate) fn copied(head: &RunHead) -> RunHead
    ensures value { result ≡ head.now }
    ensures is_head { IsHead result }
{
    let _mech = head.mech;
    *head
}

/// Why no run of this head is opened, where so many runs are open and so many were opened; the
/// first refusal that holds.
pub(crate) fn opening_refusal(
    ring: &Ring,
    running: usize,
    opened: usize,
    head: &RunHead,
) -> Option<Refusal>
    ensures { result ≡ opening_by ring.now running opened head.now }
{
    let refusal = head_refusal(ring, head);
    if refusal.is_some() {
        return refusal;
    }
    if running >= OPEN_LIMIT || opened >= RUN_LIMIT {
        return Some(Refusal::TableFull);
    }
    None
}
