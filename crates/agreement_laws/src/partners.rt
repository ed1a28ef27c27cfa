ghost use Rattle.std.specs.Prelude.{◌≡◌, ◌&&◌, ◌↔◌, IsTrue};
ghost use Rattle.agreement_laws.specs.Partners.{agrees_filled, alike_filled, first_where, is_peer};
ghost use Rattle.agreement_laws.specs.Partners.{partner_of, same_names, same_noted, same_third};
ghost use Rattle.mech_rows.specs.Facts.{peer_of, same_mech, same_role};
ghost use Rattle.mech_rows.specs.Notes.{noted, tree_of_value};
ghost use Rattle.term_values.specs.Trees as tree;

use crate::history::{Happened, History};
use mech_rows::{Notes, Role, RunHead, Slot, Value, agreed};
use term_values::{Form, Name, Nonce, Part, Stamp, Text};

/// The partner of a completed run: the first run of the history, in the order of opening, with the other of the roles A and
/// B, the same mechanism and names, and equal values in all slots that the completed run claims agreement on. Takes no memory.
///
/// None exactly where there is no such run, or where the completed run's role claims no agreement.
#[tactic(auto, using(crate::proofs::Filled::partner_none))]
pub fn partner(history: &History, done: &Happened) -> Option<u32>
    ensures first { result ≡ partner_of history.now.happened done.now }
{
    match agreed(done.head.mech, done.head.role) {
        Some(slots) => first_agreeing(history.happened.as_slice(), done, &slots),
        None => None,
    }
}

fn first_agreeing(runs: &[Happened], done: &Happened, slots: &[Option<Slot>]) -> Option<u32>
    ensures first { result ≡ first_where (λ r.
        agrees_filled (peer_of done.now.head.role) slots.now r done.now) runs.now }
{
    for run in runs {
        if is_partner(run, done) && are_alike(&run.notes, &done.notes, slots) {
            return Some(run.run);
        }
    }
    None
}

/// Whether the run has the other of the roles A and B, and mechanism and names alike with the completed one.
fn is_partner(run: &Happened, done: &Happened) -> bool
    ensures test { result ≡ is_peer (peer_of done.now.head.role) run.now done.now }
{
    same_kind(run, done) && have_same_names(&run.head, &done.head)
}

fn same_kind(run: &Happened, done: &Happened) -> bool
    ensures test { result ≡ (same_mech run.now.head.mech done.now.head.mech
        && same_role run.now.head.role (peer_of done.now.head.role)) }
{
    run.head.mech == done.head.mech && run.head.role == peer(done.head.role)
}

fn peer(role: Role) -> Role
    ensures other { result ≡ peer_of role }
{
    match role {
        Role::A => Role::B,
        Role::B => Role::A,
        Role::P => Role::P,
    }
}

#[tactic(auto, using(crate::proofs::Filled::names_are))]
fn have_same_names(head: &RunHead, other: &RunHead) -> bool
    ensures test { result ≡ same_names head.now other.now }
{
    head.a == other.a && head.b == other.b && have_same_third(head.p, other.p)
}

fn have_same_third(third: Option<Name>, other: Option<Name>) -> bool
    ensures test { result ≡ same_third third other }
{
    match third {
        Some(name) => match other {
            Some(found) => name == found,
            None => false,
        },
        None => other.is_none(),
    }
}

/// Whether each of the slots is noted in both, with equal values.
fn are_alike(notes: &Notes, other: &Notes, slots: &[Option<Slot>]) -> bool
    ensures test { result ≡ alike_filled (noted notes.now) (noted other.now) slots.now }
{
    for slot in slots {
        if let Some(slot) = *slot {
            if !is_alike(notes, other, slot) {
                return false;
            }
        }
    }
    true
}

fn is_alike(notes: &Notes, other: &Notes, slot: Slot) -> bool
    ensures test { result ≡ same_noted (noted notes.now slot) (noted other.now slot) }
{
    match notes.find(slot) {
        Some(value) => match other.find(slot) {
            Some(found) => is_same(value, found),
            None => false,
        },
        None => false,
    }
}

/// Whether the two values are one term.
fn is_same(value: &Value, other: &Value) -> bool
    ensures same { IsTrue result ↔ (tree_of_value value.now ≡ tree_of_value other.now) }
{
    match value {
        Value::Nonce(held) => is_nonce(other, held),
        Value::Stamp(held) => is_stamp(other, *held),
        Value::Part(held) => is_part(other, held),
        Value::Text(held) => is_text(other, held),
        Value::Item(term) => match other {
            Value::Nonce(held) => is_nonce(value, held),
            Value::Stamp(held) => is_stamp(value, *held),
            Value::Part(held) => is_part(value, held),
            Value::Text(held) => is_text(value, held),
            Value::Item(found) => term.same(found),
        },
    }
}

fn is_nonce(value: &Value, held: &Nonce) -> bool
    ensures same { IsTrue result ↔ (tree_of_value value.now ≡ tree.nonce held.now) }
{
    match value {
        Value::Nonce(found) => found == held,
        Value::Item(term) => match term.form() {
            Form::Nonce(found) => found == held,
            _ => false,
        },
        _ => false,
    }
}

fn is_stamp(value: &Value, held: Stamp) -> bool
    ensures same { IsTrue result ↔ (tree_of_value value.now ≡ tree.stamp held) }
{
    match value {
        Value::Stamp(found) => *found == held,
        Value::Item(term) => match term.form() {
            Form::Stamp(found) => *found == held,
            _ => false,
        },
        _ => false,
    }
}

fn is_part(value: &Value, held: &Part) -> bool
    ensures same { IsTrue result ↔ (tree_of_value value.now ≡ tree.part held.now) }
{
    match value {
        Value::Part(found) => found == held,
        Value::Item(term) => match term.form() {
            Form::Part(found) => found == held,
            _ => false,
        },
        _ => false,
    }
}

fn is_text(value: &Value, held: &Text) -> bool
    ensures same { IsTrue result ↔ (tree_of_value value.now ≡ tree.text held.now) }
{
    match value {
        Value::Text(found) => found.list() == held.list(),
        Value::Item(term) => match term.form() {
            Form::Text(found) => found.list() == held.list(),
            _ => false,
        },
        _ => false,
    }
}
