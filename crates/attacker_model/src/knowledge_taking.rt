ghost use Rattle.std.specs.Prelude.{◌≡◌, ◌++◌, ◌∷◌, [], ◌&&◌, OnOk, OnErr, IfOk, length, take};
ghost use Rattle.term_values.specs.Trees.{part as a_part};
ghost use Rattle.term_values.specs.SameBytes.{same_bytes};
ghost use Rattle.attacker_model.specs.Knowledge.{Differ, IsTakenApart};
ghost use Rattle.attacker_model.specs.Saturated.{IsSaturated};
ghost use Rattle.attacker_model.specs.Taken.{IsLookedAt, comes_out, has_part, key_known, opened_by};

use crate::knowledge_apart::Apart;
use std::alloc::Global;
use term_values::{Form, Key, OutOfMemory, Part, Term};

#[tactic(auto, using(crate::proofs::KnowledgeTaking::same_bytes_test))]
fn is_same(first: &Part, second: &Part) -> bool
    ensures same { result ≡ same_bytes first.now second.now }
{
    first == second
}

/// Whether the key has this part and is known with it.
fn is_opened_by(known: &Apart, part: &Part, key: &Key) -> bool
    ensures opened { result ≡ (has_part key.now part.now && key_known
        (a_part part.now ∷ known.now) key.now) }
{
    match key {
        Key::One(only) => is_same(only, part),
        Key::Two(first, second) => {
            let is_first = is_same(first, part);
            let is_second = is_same(second, part);
            (is_first || is_second)
                && (is_first || known.knows_part(known.len(), first))
                && (is_second || known.knows_part(known.len(), second))
        }
    }
}

/// Adds the body to those terms that wait, where the term is a seal that a new part opens.
fn wait_for_body(
    alloc: Global,
    known: &Apart,
    part: &Part,
    term: &Term,
    waiting: &mut Vec<Term>,
) -> Result<(), OutOfMemory>
    ensures waits { OnOk result (waiting.new.items
        ≡ waiting.old.items ++ opened_by known.now part.now (term.now ∷ [])) }
{
    if let Form::Seal(key, body) = term.form() {
        if is_opened_by(known, part, key) {
            waiting.push(body.copy(alloc)?)?;
        }
    }
    Ok(())
}

/// Adds the bodies that a new part opens to those terms that wait. Looks at no term but those that
/// are entered under the part.
fn wait_for_opened(
    alloc: Global,
    known: &Apart,
    part: &Part,
    waiting: &mut Vec<Term>,
) -> Result<(), OutOfMemory>
    ensures waits { OnOk result (waiting.new.items
        ≡ waiting.old.items ++ opened_by known.now part.now known.now) }
{
    let mut from = 0;
    while let Some(place) = known.next_under(part, from) {
        wait_for_body(alloc, known, part, &known.list()[place], waiting)?;
        from = place + 1;
    }
    Ok(())
}

/// Adds the items of a tuple to those terms that wait.
fn wait_for_items(alloc: Global, items: &[Term], waiting: &mut Vec<Term>) -> Result<(), OutOfMemory>
    ensures waits { OnOk result (waiting.new.items ≡ waiting.old.items ++ items.now) }
{
    for item in items {
        waiting.push(item.copy(alloc)?)?;
    }
    Ok(())
}

/// Adds what comes out once this term is known to those terms that wait.
#[tactic(auto, using(term_values::proofs::Trees::untrees_trees))]
fn wait_for_what_comes(
    alloc: Global,
    known: &Apart,
    term: &Term,
    waiting: &mut Vec<Term>,
) -> Result<(), OutOfMemory>
    ensures waits { OnOk result (waiting.new.items
        ≡ waiting.old.items ++ comes_out known.now term.now) }
{
    match term.form() {
        Form::Tuple(items) => wait_for_items(alloc, items.list(), waiting),
        Form::Part(part) => wait_for_opened(alloc, known, part, waiting),
        Form::Seal(key, body) => {
            if known.knows_key(known.len(), key) {
                waiting.push(body.copy(alloc)?)?;
            }
            Ok(())
        }
        _ => Ok(()),
    }
}

/// Looks at the next term that waits: where it isn't known it is added, and what comes out waits.
fn look_at(
    alloc: Global,
    known: &mut Apart,
    next: Term,
    waiting: &mut Vec<Term>,
) -> Result<(), OutOfMemory>
    ensures looked { OnOk result (IsLookedAt known.old waiting.old.items next known.new
        waiting.new.items) }
    ensures failed { OnErr result (known.new ≡ known.old) }
{
    if known.knows(known.len(), &next) {
        return Ok(());
    }
    wait_for_what_comes(alloc, known, &next, waiting)?;
    known.add(next)
}

/// Adds a term to known ones that are taken apart, and all that comes of it. After an `Err` some of
/// it may stand behind those that were known.
#[tactic(auto, using(crate::proofs::KnowledgeLooks::start, crate::proofs::KnowledgeLooks::done, crate::proofs::KnowledgeLooks::take_all))]
pub(crate) fn take_apart(alloc: Global, known: &mut Apart, term: Term) -> Result<(), OutOfMemory>
    requires saturated { IsSaturated known.old }
    requires differ { Differ known.old }
    ensures taken { OnOk result (IsTakenApart (term ∷ known.old) known.new) }
    ensures differ { Differ known.new }
    ensures kept { take (length known.old) known.new ≡ known.old }
{
    let mut waiting = Vec::new(alloc);
    waiting.push(term)?;
    while let Some(next) = waiting.pop() {
        look_at(alloc, known, next, &mut waiting)?;
    }
    Ok(())
}
