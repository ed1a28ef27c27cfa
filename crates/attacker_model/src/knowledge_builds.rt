ghost use Rattle.std.specs.Prelude.{◌≡◌, ◌↔◌, IsTrue, take};
ghost use Rattle.attacker_model.specs.Saturated.{AllBuilt, Built};
ghost use Rattle.term_values.specs.Trees.{trees};

use crate::knowledge_apart::Apart;
use term_values::{Form, Term};

/// Whether a term is built of the first known ones.
#[cycle(builds)]
#[tactic(auto, using(crate::proofs::KnowledgeTaking::key_known_is, crate::proofs::KnowledgeTaking::key_known_if))]
pub(crate) fn builds(known: &Apart, count: usize, term: &Term) -> bool
    ensures built { IsTrue result ↔ Built (take count known.now) term.now }
{
    match term.form() {
        Form::Part(_) => known.knows(count, term),
        Form::Tuple(items) => known.knows(count, term) || builds_all(known, count, items.list()),
        Form::Seal(key, body) | Form::Check(key, body) => {
            known.knows(count, term) || known.knows_key(count, key) && builds(known, count, body)
        }
        _ => true,
    }
}

#[cycle(builds)]
#[tactic(auto, using(term_values::proofs::Trees::item_smaller))]
fn builds_all(known: &Apart, count: usize, items: &[Term]) -> bool
    ensures built { IsTrue result ↔ AllBuilt (take count known.now) (trees items.now) }
{
    for item in items {
        if !builds(known, count, item) {
            return false;
        }
    }
    true
}
