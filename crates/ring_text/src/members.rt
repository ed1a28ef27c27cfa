ghost use Rattle.std.specs.List.{list_any};
ghost use Rattle.std.specs.Prelude.{◌≡◌, map};
ghost use Rattle.std.specs.Str.{bytes_eq};
ghost use Rattle.serde_json.specs.Find.{as_array, get};
ghost use Rattle.serde_json.specs.View.{items_view, members_view, view};
ghost use Rattle.ring_text.specs.Faults.{Gives};
ghost use Rattle.ring_text.specs.Members.{is_among, named_among};

use crate::fault::RingFault;
use serde_json::{Map, Value};

/// Whether a key is one of the names.
fn is_one_of(key: &str, names: &[&str]) -> bool
    ensures { result ≡ list_any (bytes_eq key.now) (map (λ n. n.now) names.now) }
{
    names.iter().any(|name| key == *name)
}

/// Whether each key is one of the names.
fn are_named(members: &Map<String, Value>, names: &[&str]) -> bool
    ensures { result ≡ named_among (map (λ n. n.now) names.now) (members_view members.now.entries) }
{
    members.keys().all(|key| is_one_of(key.as_str(), names))
}

/// Whether the value is an object with members of these names, and of no others.
pub(crate) fn is_among(value: &Value, names: &[&str]) -> bool
    ensures { result ≡ is_among (map (λ n. n.now) names.now) (view value.now) }
{
    match value.as_object() {
        Some(members) => are_named(members, names),
        None => false,
    }
}

/// The member of that name, which has to be there.
pub(crate) fn needed<'v>(value: &'v Value, name: &str) -> Result<&'v Value, RingFault>
    ensures { Gives (λ v. view v.now) result (get name.now (view value.now)) }
{
    value.get(name).ok_or(RingFault::Bad)
}

/// The items of a list.
pub(crate) fn items(value: &Value) -> Result<&[Value], RingFault>
    ensures { Gives (λ v. items_view v.now) result (as_array (view value.now)) }
{
    match value.as_array() {
        Some(items) => Ok(items.as_slice()),
        None => Err(RingFault::Bad),
    }
}
