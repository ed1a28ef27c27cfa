ghost use Rattle.std.specs.Prelude.{◌≡◌, ◌==◌};
ghost use Rattle.std.specs.List.{list_any};
ghost use Rattle.ring_text.specs.KeyRings.{all_differ, same_key, same_name, same_part, same_place};

use mech_rows::{Mech, Peer, Slot};
use term_values::{Name, Part, Text};

/// Whether a peer has that name.
pub(crate) fn is_named(peers: &[Peer], name: Name) -> bool
    ensures { result ≡ list_any (λ p. p.name == name) peers.now }
{
    peers.iter().any(|peer| peer.name == name)
}

/// Whether the names of peers differ from each other.
pub(crate) fn names_differ(peers: &[Peer]) -> bool
    ensures { result ≡ all_differ same_name peers.now }
{
    match peers {
        [] => true,
        [peer, rest @ ..] => !is_named(rest, peer.name) && names_differ(rest),
    }
}

/// Whether both have a key, and it is the same.
fn is_same_part(one: Option<Part>, other: Option<Part>) -> bool
    ensures { result ≡ same_part one other }
{
    match (one, other) {
        (Some(one), Some(other)) => one == other,
        _ => false,
    }
}

/// Whether a peer has that key.
fn has_part(peers: &[Peer], part: Option<Part>) -> bool
    ensures { result ≡ list_any (λ p. same_part part p.part) peers.now }
{
    peers.iter().any(|peer| is_same_part(part, peer.part))
}

/// Whether the keys of peers differ from each other.
pub(crate) fn keys_differ(peers: &[Peer]) -> bool
    ensures { result ≡ all_differ same_key peers.now }
{
    match peers {
        [] => true,
        [peer, rest @ ..] => !has_part(rest, peer.part) && keys_differ(rest),
    }
}

/// Whether two texts are of the same mechanism and slot.
#[tactic(auto, unfolding(crate::specs::KeyRings::same_place))]
fn is_same_place(one: &(Mech, Slot, Text), other: &(Mech, Slot, Text)) -> bool
    ensures { result ≡ same_place one.now other.now }
{
    one.0 == other.0 && one.1 == other.1
}

/// Whether a text of the same mechanism and slot is there.
fn has_place(texts: &[(Mech, Slot, Text)], text: &(Mech, Slot, Text)) -> bool
    ensures { result ≡ list_any (same_place text.now) texts.now }
{
    texts.iter().any(|other| is_same_place(text, other))
}

/// Whether no two texts are of the same mechanism and slot.
pub(crate) fn places_differ(texts: &[(Mech, Slot, Text)]) -> bool
    ensures { result ≡ all_differ same_place texts.now }
{
    match texts {
        [] => true,
        [text, rest @ ..] => !has_place(rest, text) && places_differ(rest),
    }
}
