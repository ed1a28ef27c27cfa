ghost use Rattle.std.specs.Prelude.{◌≡◌, Err, IfOk, option_map};
ghost use Rattle.serde_json.specs.Data.{Data};
ghost use Rattle.serde_json.specs.View.{view};
ghost use Rattle.ring_text.specs.Faults.{Gives};
ghost use Rattle.ring_text.specs.KeyRings.{IsJson, IsKeyRing, KeyRing, SaysRing};
ghost use Rattle.ring_text.specs.Members.{said_or};
ghost use Rattle.ring_text.specs.Rings.{are_fit, ring_in};
ghost use Rattle.ring_text.specs.Values.{window_in};

use crate::doubles::{is_named, keys_differ, names_differ, places_differ};
use crate::fault::RingFault;
use crate::lists::{peers, rules, texts};
use crate::members::{is_among, needed};
use crate::ring_file::RingFile;
use crate::values;
use mech_rows::{Peer, Ring};
use serde_json::Value;
use std::alloc::Global;
use term_values::Name;

/// The members that a ring may have.
const MEMBERS: [&str; 7] = ["me", "kind", "stamps", "window", "peers", "allow", "texts"];

/// The window of a ring that names none, in milliseconds.
const WINDOW: u32 = 5000;

/// The most peers of a ring.
const PEERS_MAX: usize = 64;

/// The window of a member; 5,000 milliseconds where it is missing.
fn window(member: Option<&Value>) -> Result<u32, RingFault>
    ensures { Gives (λ n. n) result (said_or 5000 window_in
        (option_map (λ v. view v.now) member.entry)) }
{
    match member {
        Some(member) => values::window(member),
        None => Ok(WINDOW),
    }
}

/// Whether a node of that name may have these peers: they are few, their names differ from each
/// other and from its own, and their keys differ.
fn are_fit(me: Name, peers: &[Peer]) -> bool
    ensures { result ≡ are_fit me peers.now }
{
    peers.len() <= PEERS_MAX && !is_named(peers, me) && names_differ(peers) && keys_differ(peers)
}

/// The node and its peers.
#[tactic(auto, unfolding(crate::specs::Rings::ring_in))]
fn ring_of(alloc: Global, value: &Value) -> Result<Ring, RingFault>
    ensures { Gives (λ r. r) result (ring_in (view value.now)) }
{
    let me = values::name(needed(value, "me")?)?;
    let server = values::server(needed(value, "kind")?)?;
    let kind = values::stamps(needed(value, "stamps")?)?;
    let window = window(value.get("window"))?;
    let peers = peers(alloc, needed(value, "peers")?)?;
    if !are_fit(me, &peers) {
        return Err(RingFault::Bad);
    }
    Ok(Ring {
        me,
        server,
        kind,
        window,
        peers,
    })
}

/// The key ring that a JSON value is.
fn file_of(alloc: Global, value: &Value) -> Result<RingFile, RingFault>
    ensures ok { IfOk result (λ f. IsKeyRing (view value.now) f) }
    ensures bad { result ≡ Err RingFault.Bad → (k : KeyRing) → IsKeyRing (view value.now) k → ⊥ }
{
    if !is_among(value, &MEMBERS) {
        return Err(RingFault::Bad);
    }
    let ring = ring_of(alloc, value)?;
    let rules = rules(alloc, value.get("allow"))?;
    let texts = texts(alloc, value.get("texts"))?;
    if !places_differ(&texts) {
        return Err(RingFault::Bad);
    }
    Ok(RingFile { ring, rules, texts })
}

/// The JSON value of a text.
fn json_of(alloc: Global, text: &[u8]) -> Result<Value, RingFault>
    ensures ok { IfOk result (λ v. IsJson text.now (view v)) }
    ensures bad { result ≡ Err RingFault.Bad → (d : Data) → IsJson text.now d → ⊥ }
{
    match Value::from_slice(alloc, text) {
        Ok(value) => Ok(value),
        Err(error) if error.is_memory() => Err(RingFault::Memory),
        Err(_) => Err(RingFault::Bad),
    }
}

/// The key ring that a text says: a JSON object with the members `me`, `kind`, `stamps` and
/// `peers`, perhaps `window` (5,000 where it is missing), `allow` and `texts`, and no others. Of a
/// member that stands twice the last value counts. The caller keeps the limit on the text's length.
///
/// # Errors
///
/// [`RingFault::Bad`] exactly where the bytes are no JSON, or no ring by the rules of key rings.
/// [`RingFault::Memory`] for want of memory alone.
pub fn read_ring(alloc: Global, text: &[u8]) -> Result<RingFile, RingFault>
    ensures ok { IfOk result (λ ring. SaysRing text.now ring) }
    ensures bad { result ≡ Err RingFault.Bad → (k : KeyRing) → SaysRing text.now k → ⊥ }
{
    let value = json_of(alloc, text)?;
    file_of(alloc, &value)
}
