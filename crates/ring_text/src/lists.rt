ghost use Rattle.std.specs.Prelude.{◌≡◌, [], option_map};
ghost use Rattle.serde_json.specs.View.{items_view, view};
ghost use Rattle.ring_text.specs.Faults.{Gives};
ghost use Rattle.ring_text.specs.KeyRings.{key_in, peer_in, placed_in, rule_in};
ghost use Rattle.ring_text.specs.Members.{each, listed, said_or};

use crate::fault::RingFault;
use crate::members::{is_among, items, needed};
use crate::values;
use mech_rows::{Mech, Peer, Slot};
use serde_json::Value;
use std::alloc::Global;
use term_values::{Part, Text};
use text_hooks::Rule;

/// A key that may be missing.
fn key(peer: &Value) -> Result<Option<Part>, RingFault>
    ensures { Gives (λ k. k) result (key_in (view peer.now)) }
{
    match peer.get("key") {
        Some(key) => Ok(Some(values::part(key)?)),
        None => Ok(None),
    }
}

#[tactic(auto, unfolding(crate::specs::KeyRings::peer_in))]
fn peer(value: &Value) -> Result<Peer, RingFault>
    ensures { Gives (λ p. p) result (peer_in (view value.now)) }
{
    if !is_among(value, &["name", "kind", "key"]) {
        return Err(RingFault::Bad);
    }
    Ok(Peer {
        name: values::name(needed(value, "name")?)?,
        server: values::server(needed(value, "kind")?)?,
        part: key(value)?,
    })
}

#[tactic(auto, unfolding(crate::specs::KeyRings::rule_in))]
fn rule(alloc: Global, value: &Value) -> Result<Rule, RingFault>
    ensures { Gives (λ r. r) result (rule_in (view value.now)) }
{
    if !is_among(value, &["mech", "slot", "length", "prefix"]) {
        return Err(RingFault::Bad);
    }
    Ok(Rule {
        mech: values::mech(needed(value, "mech")?)?,
        slot: values::slot(needed(value, "slot")?)?,
        longest: values::longest(needed(value, "length")?)?,
        prefix: values::text(alloc, needed(value, "prefix")?)?,
    })
}

/// A text that the node sends, with its mechanism and slot.
#[tactic(auto, unfolding(crate::specs::KeyRings::placed_in))]
fn placed_text(alloc: Global, value: &Value) -> Result<(Mech, Slot, Text), RingFault>
    ensures { Gives (λ t. (t.0, t.1, t.2)) result (placed_in (view value.now)) }
{
    if !is_among(value, &["mech", "slot", "text"]) {
        return Err(RingFault::Bad);
    }
    let mech = values::mech(needed(value, "mech")?)?;
    let slot = values::slot(needed(value, "slot")?)?;
    let text = values::text(alloc, needed(value, "text")?)?;
    Ok((mech, slot, text))
}

/// The peers of a list.
fn peers_of(alloc: Global, values: &[Value]) -> Result<Vec<Peer>, RingFault>
    ensures { Gives (λ p. p.items) result (each peer_in (items_view values.now)) }
{
    let mut peers = Vec::new(alloc);
    for value in values {
        peers.push(peer(value)?)?;
    }
    Ok(peers)
}

/// The rules of a list.
fn rules_of(alloc: Global, values: &[Value]) -> Result<Vec<Rule>, RingFault>
    ensures { Gives (λ r. r.items) result (each rule_in (items_view values.now)) }
{
    let mut rules = Vec::new(alloc);
    for value in values {
        rules.push(rule(alloc, value)?)?;
    }
    Ok(rules)
}

/// The texts of a list.
fn texts_of(alloc: Global, values: &[Value]) -> Result<Vec<(Mech, Slot, Text)>, RingFault>
    ensures { Gives (λ t. t.items) result (each placed_in (items_view values.now)) }
{
    let mut texts = Vec::new(alloc);
    for value in values {
        texts.push(placed_text(alloc, value)?)?;
    }
    Ok(texts)
}

/// The peers of a member, in their order.
pub(crate) fn peers(alloc: Global, list: &Value) -> Result<Vec<Peer>, RingFault>
    ensures { Gives (λ p. p.items) result (listed peer_in (view list.now)) }
{
    peers_of(alloc, items(list)?)
}

/// The rules of a member; none where it is missing.
pub(crate) fn rules(alloc: Global, list: Option<&Value>) -> Result<Vec<Rule>, RingFault>
    ensures { Gives (λ r. r.items) result
        (said_or [] (listed rule_in) (option_map (λ v. view v.now) list.entry)) }
{
    match list {
        Some(list) => rules_of(alloc, items(list)?),
        None => Ok(Vec::new(alloc)),
    }
}

/// The texts of a member; none where it is missing.
pub(crate) fn texts(
    alloc: Global,
    list: Option<&Value>,
) -> Result<Vec<(Mech, Slot, Text)>, RingFault>
    ensures { Gives (λ t. t.items) result
        (said_or [] (listed placed_in) (option_map (λ v. view v.now) list.entry)) }
{
    match list {
        Some(list) => texts_of(alloc, items(list)?),
        None => Ok(Vec::new(alloc)),
    }
}
