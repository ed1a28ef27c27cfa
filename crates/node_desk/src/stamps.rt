ghost use Rattle.std.specs.Prelude.{◌≡◌, ◌+◌, ◌≤◌, ◌++◌, List, map, max, length};
ghost use Rattle.replay_store.specs.Stamps.{Accepted};
ghost use Rattle.agreement_laws.specs.Nodes.{accepted_of};
ghost use Rattle.node_desk.specs.Refusals.{refusal_of as refusal_for, stamps_refusal};

use mech_rows::{Got, Refusal};
use replay_store::{Store, Verdict};
use term_values::StampKind;

fn refusal_of(got: &Got, verdict: Verdict) -> Option<Refusal>
    ensures { result ≡ refusal_for got.now verdict }
{
    let slot = got.slot;
    match verdict {
        Verdict::WrongStampKind => Some(Refusal::WrongStampKind { slot }),
        Verdict::Early { at } => Some(Refusal::Early { slot, at }),
        Verdict::Late { at } => Some(Refusal::Late { slot, at }),
        Verdict::Repeated => Some(Refusal::Repeated { stamp: got.stamp }),
        Verdict::StoreFull { count } => Some(Refusal::StoreFull { count }),
        Verdict::Fit => None,
    }
}

/// Judges received stamps at the greater of now and the clock; the first refusal that holds.
pub(crate) fn judge_all<T: Store>(
    store: &T,
    clock: u64,
    kind: StampKind,
    got: &[Got],
) -> Option<Refusal>
    ensures { (accepted : List Accepted) → T.stands_for store.now accepted →
        result ≡ stamps_refusal (T.window store.now)
        (max (T.now store.now) clock) accepted kind got.now }
{
    for each in got {
        let verdict = store.probe(clock, kind, each.sender, &each.tag, &each.stamp);
        let refusal = refusal_of(each, verdict);
        if refusal.is_some() {
            return refusal;
        }
    }
    None
}

/// Records received stamps.
pub(crate) fn record_all<T: Store>(store: &mut T, kind: StampKind, got: &[Got])
    requires room { length got.now ≤ T.spare store.old }
    ensures added { (accepted : List Accepted) → T.stands_for store.old accepted →
        T.stands_for store.new (accepted ++ map accepted_of got.now) }
    ensures room { T.spare store.old ≤ T.spare store.new + length got.now }
    ensures window { T.window store.new ≡ T.window store.old }
    ensures moment { T.now store.new ≡ T.now store.old }
{
    for each in got {
        store.record(kind, each.sender, &each.tag, &each.stamp);
    }
}
