ghost use Rattle.std.specs.Prelude.{◌≡◌, ◌+◌, ◌↔◌, IsTrue, is_some, length};
ghost use Rattle.term_values.specs.Trees.{item_of, tag as tag_term};
ghost use Rattle.mech_rows.specs.Bodies.{HasShape, IsPlaceOrFault, TheseNames, count_in};
ghost use Rattle.mech_rows.specs.Bodies.{name_at as name_of, names_in};

use crate::head::RunHead;
use crate::part_fault::PartFault;
use term_values::{Form, Name, Tag, Term};

/// Where the slots begin in a body that has this tag, names this run's parties and holds `count` slots. Takes no memory.
///
/// What stands in the slots is left to the caller.
///
/// # Errors
///
/// `WrongShape` for everything that isn't a tuple of this tag, a name for each party, and `count` more items;
/// `WrongNames` for such a tuple with a name of another party.
pub fn body_slots(body: &Term, tag: &Tag, head: &RunHead, count: usize) -> Result<usize, PartFault>
    ensures place { IsPlaceOrFault head.now tag.now count body.now result }
{
    if !has_shape(body, tag, head, count) {
        return Err(PartFault::WrongShape);
    }
    if !has_names(body, head) {
        return Err(PartFault::WrongNames);
    }
    Ok(1 + names(head))
}

/// How many names the run has.
fn names(head: &RunHead) -> usize
    ensures { result ≡ length (names_in head.now) }
{
    match head.p {
        None => 2,
        Some(_) => 3,
    }
}

fn has_shape(body: &Term, tag: &Tag, head: &RunHead, count: usize) -> bool
    ensures { IsTrue result ↔ HasShape head.now tag.now count body.now }
{
    if !has_items(body, 1 + names(head), count) {
        return false;
    }
    if !has_tag(body, tag) {
        return false;
    }
    let both = is_name(body, 1) && is_name(body, 2);
    match head.p {
        None => both,
        Some(_) => both && is_name(body, 3),
    }
}

fn has_names(body: &Term, head: &RunHead) -> bool
    ensures { IsTrue result ↔ TheseNames body.now 1 (names_in head.now) }
{
    let both = name_at(body, 1) == Some(head.a) && name_at(body, 2) == Some(head.b);
    match head.p {
        None => both,
        Some(p) => both && name_at(body, 3) == Some(p),
    }
}

/// Whether it is a tuple of so many items and so many more.
fn has_items(body: &Term, some: usize, more: usize) -> bool
    ensures { IsTrue result ↔ (count_in body.now ≡ Some (some + more)) }
{
    match items_in(body) {
        None => false,
        Some(all) => some <= all && all - some == more,
    }
}

/// How many items a tuple has.
#[tactic(auto, using(term_values::proofs::Trees::count_trees))]
fn items_in(body: &Term) -> Option<usize>
    ensures { result ≡ count_in body.now }
{
    match body.form() {
        Form::Tuple(items) => Some(items.list().len()),
        _ => None,
    }
}

fn has_tag(body: &Term, tag: &Tag) -> bool
    ensures { IsTrue result ↔ (item_of body.now 0 ≡ Some (tag_term tag.now)) }
{
    match body.item(0) {
        None => false,
        Some(item) => match item.form() {
            Form::Tag(found) => found == tag,
            _ => false,
        },
    }
}

fn is_name(body: &Term, place: usize) -> bool
    ensures { result ≡ is_some (name_of body.now place) }
{
    name_at(body, place).is_some()
}

/// The name in an item, counted from 0.
fn name_at(body: &Term, place: usize) -> Option<Name>
    ensures { result ≡ name_of body.now place }
{
    match body.item(place)?.form() {
        Form::Name(name) => Some(*name),
        _ => None,
    }
}
