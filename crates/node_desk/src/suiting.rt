ghost use Rattle.std.specs.Prelude.{◌≡◌, ◌↔◌, Some, None, IsTrue};
ghost use Rattle.std.specs.List.{list_any};
ghost use Rattle.std.specs.Option.{option_copied};
ghost use Rattle.term_values.specs.declared.small.Key.TheVariants.{One};
ghost use Rattle.replay_store.specs.Stores.{same_stamp};
ghost use Rattle.mech_rows.specs.Rings.{keys_in};
ghost use Rattle.mech_rows.specs.Runs.{bytes_or_empty};
ghost use Rattle.node_desk.specs.Events.{log_of};
ghost use Rattle.node_desk.specs.Desks.{IsMadeWith, IsUnused};
ghost use Rattle.node_desk.specs.Suits.{AreUnder, issues as event_issues, uses as event_uses};

use crate::event::Event;
use crate::live::Live;
use crate::openings::part_between;
use mech_rows::{Opening, Ring, Step};
use term_values::{Key, Part, Stamp};
use text_hooks::RoleState;

/// Whether the key is this part alone; where there is none, whether it is of no bytes, as no key
/// is.
fn is_key(key: &Key, part: Option<&Part>) -> bool
    ensures { IsTrue result ↔ (key.now ≡ One (bytes_or_empty (option_copied part.entry))) }
{
    let Key::One(own) = key else {
        return false;
    };
    match part {
        Some(part) => own == part,
        None => own.0.is_empty(),
    }
}

/// Whether each of the items is under this part alone.
fn are_under(part: Option<&Part>, items: &[Opening]) -> bool
    ensures { IsTrue result ↔ AreUnder (One (bytes_or_empty (option_copied part.entry))) items.now }
{
    for item in items {
        if !is_key(&item.key, part) {
            return false;
        }
    }
    true
}

/// Whether the step was made with the ring's keys. The mechanisms whose states there are have one
/// long-term key, that of A and B, and no other.
pub(crate) fn has_keys(ring: &Ring, step: &Step<Live>) -> bool
    ensures { IsTrue result ↔ IsMadeWith (keys_in ring.now) step.now }
{
    let head = step.before.head();
    let part = part_between(ring, head.a, head.b);
    are_under(part, &step.opened) && are_under(part, &step.sealed)
}

fn is_same(one: Stamp, other: Stamp) -> bool
    ensures { result ≡ same_stamp one other }
{
    match (one, other) {
        (Stamp::Time(one), Stamp::Time(other)) => other == one,
        (Stamp::Seq(one), Stamp::Seq(other)) => other == one,
        _ => false,
    }
}

fn issues(event: &Event, stamp: Stamp) -> bool
    ensures { result ≡ event_issues stamp event.now }
{
    match event {
        Event::Issue { stamp: own, .. } => is_same(*own, stamp),
        _ => false,
    }
}

/// The stamp that a step issued.
pub(crate) fn issued_by(step: &Step<Live>) -> Option<Stamp>
    ensures { result ≡ step.now.issued }
{
    step.issued
}

fn uses(event: &Event, stamp: Stamp) -> bool
    ensures { result ≡ event_uses stamp event.now }
{
    let Event::Commit { step, .. } = event else {
        return false;
    };
    match issued_by(step) {
        Some(own) => is_same(own, stamp),
        None => false,
    }
}

fn was_issued(log: &[Event], stamp: Stamp) -> bool
    ensures { result ≡ list_any (event_issues stamp) log.now }
{
    log.iter().any(|event| issues(event, stamp))
}

fn was_used(log: &[Event], stamp: Stamp) -> bool
    ensures { result ≡ list_any (event_uses stamp) log.now }
{
    log.iter().any(|event| uses(event, stamp))
}

/// Whether the stamp, where there is one, was issued, and no commit has used it.
pub(crate) fn is_unused(log: &[Event], issued: Option<Stamp>) -> bool
    ensures { IsTrue result ↔ IsUnused issued (log_of log.now) }
{
    match issued {
        Some(stamp) => was_issued(log, stamp) && !was_used(log, stamp),
        None => true,
    }
}
