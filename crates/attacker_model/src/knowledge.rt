ghost use Rattle.std.specs.Prelude.{◌≡◌, ◌↔◌, ◌++◌, ◌∷◌, [], IsTrue, IsSome, IfOk, IsOk, OnOk};
ghost use Rattle.std.specs.Prelude.{OnErr, Option, None, Some, if◌then◌else◌, is_ok, map, List};
ghost use Rattle.std.specs.Prelude.{take};
ghost use Rattle.std.specs.Option.{option_to_list};
ghost use Rattle.term_values.specs.Trees.{Among, Tree, Trees, IsItem, part as a_part, seal, tuple};
ghost use Rattle.term_values.specs.declared.small.Key.{Key as AnyKey};
ghost use Rattle.attacker_model.specs.Derivation.{Derivable, KeyDerivable};
ghost use Rattle.attacker_model.specs.Knowledge.{Differ};

use crate::knowledge_apart::Apart;
use crate::knowledge_builds::builds;
use crate::knowledge_taking::take_apart;
use std::alloc::Global;
use std::marker::Model;
use term_values::{Form, OutOfMemory, Part, Term};

/// What an attacker knows: parts and terms that it was given, kept taken apart as it learns.
/// Contracts see the terms given so far, first to last, and the term that is due to be learnt.
/// What is known is looked up by digests: learning takes a few look-ups for each term that comes
/// out, asking a few for each term in the question. A new part leads to the seals whose keys have
/// it. No call but `copy` passes over all that is known.
#[derive(Drop)]
pub struct Knowledge {
    apart: Apart,
    settled: usize,
    given: Vec<Term>,
    due: Option<Term>,
}

impl Model for Knowledge {
    ghost use Rattle.attacker_model.specs.Knowledge.{Learnt, coded_learnt, IsStored};

    ghost Value = { Learnt };

    ghost coded = { coded_learnt };

    ghost use Rattle.std.specs.Prelude.{◌≡◌, ◌<◌, Some, vec_len, vec_capacity};
    ghost use Rattle.term_values.specs.Trees.{Tree};

    ghost view = { λ k. record { given = k.given.items; due = k.due } };

    ghost invariant = { λ k. IsStored k.apart k.settled k.given.items k.due × ((t : Tree) → k.due ≡ Some t → vec_len k.given < vec_capacity k.given) };
}

impl Knowledge {
    /// Knowledge of these parts, with no term due.
    ///
    /// # Errors
    ///
    /// [`OutOfMemory`] for want of memory alone.
    pub fn new(alloc: Global, parts: &[Part]) -> Result<Knowledge, OutOfMemory>
        ensures given { IfOk result (λ knowledge. knowledge.given ≡ map a_part parts.now) }
        ensures due { IfOk result (λ knowledge. knowledge.due ≡ None) }
    {
        let mut knowledge = Knowledge::empty(alloc);
        for part in parts {
            knowledge.learn(alloc, &Term::of(Form::Part(*part)))?;
        }
        Ok(knowledge)
    }

    fn empty(alloc: Global) -> Knowledge
        ensures given { result.given ≡ [] }
        ensures due { result.due ≡ None }
    {
        Knowledge {
            apart: Apart::new(alloc),
            settled: 0,
            given: Vec::new(alloc),
            due: None,
        }
    }

    /// Takes all memory that learning this term needs; a term that was due before is due no more.
    ///
    /// # Errors
    ///
    /// [`OutOfMemory`] for want of memory alone; then no term is due.
    pub fn ready(&mut self, alloc: Global, term: &Term) -> Result<(), OutOfMemory>
        ensures given { self.new.given ≡ self.old.given }
        ensures due { self.new.due ≡ (if is_ok result then Some term.now else None) }
    {
        self.due = None;
        self.apart.truncate(self.settled);
        self.given.reserve(1)?;
        let due = term.copy(alloc)?;
        take_apart(alloc, &mut self.apart, term.copy(alloc)?)?;
        self.due = Some(due);
        Ok(())
    }

    /// Learns the term that is due, and leaves none due. Takes no memory.
    pub fn learn_due(&mut self)
        requires due { IsSome self.old.due }
        ensures given { self.new.given ≡ self.old.given ++ option_to_list self.old.due }
        ensures due { self.new.due ≡ None }
    {
        if let Some(term) = self.due.take() {
            let _pushed = self.given.push(term);
            self.settled = self.apart.len();
        }
    }

    /// Learns this term; a term that was due before is due no more.
    ///
    /// # Errors
    ///
    /// [`OutOfMemory`] for want of memory alone; then what was known stays, and no term is due.
    pub fn learn(&mut self, alloc: Global, term: &Term) -> Result<(), OutOfMemory>
        ensures given { self.new.given ≡ (if is_ok result then self.old.given ++ term.now
            ∷ [] else self.old.given) }
        ensures due { self.new.due ≡ None }
    {
        self.ready(alloc, term)?;
        self.learn_due();
        Ok(())
    }

    /// Whether the term is derivable from the terms given so far, by the seven rules of derivation.
    /// A term that is due does not count. Takes no memory, so the answer is never an `Err`.
    pub fn derives(&self, term: &Term) -> Result<bool, OutOfMemory>
        ensures answered { IsOk result }
        ensures exact { IfOk result (λ derivable. IsTrue derivable
            ↔ Derivable self.now.given term.now) }
    {
        Ok(builds(&self.apart, self.settled, term))
    }

    /// The known terms, taken apart as far as they go, each once. Takes no memory.
    pub fn taken_apart(&self) -> &[Term]
        ensures differ { Differ result.now }
        ensures given { (t : Tree) → Among t self.now.given → Among t result.now }
        ensures derivable { (t : Tree) → Among t result.now → Derivable self.now.given t }
        ensures items { (t : Tree) (ts : Trees) → Among (tuple ts) result.now → IsItem t ts →
            Among t result.now }
        ensures bodies { (k : AnyKey) (t : Tree) → Among (seal k t) result.now →
            KeyDerivable self.now.given k → Among t result.now }
    {
        let (known, _) = self.apart.list().split_at(self.settled);
        known
    }

    /// Knowledge of the same terms, with the same term due.
    ///
    /// # Errors
    ///
    /// [`OutOfMemory`] for want of memory alone.
    pub fn copy(&self, alloc: Global) -> Result<Knowledge, OutOfMemory>
        ensures equal { IfOk result (λ copied. copied ≡ self.now) }
    {
        let mut given = copy_terms(alloc, self.given.as_slice())?;
        given.reserve(1)?;
        let due = match &self.due {
            Some(term) => Some(term.copy(alloc)?),
            None => None,
        };
        let apart = self.apart.copy(alloc)?;
        Ok(Knowledge {
            apart,
            settled: self.settled,
            given,
            due,
        })
    }
}

fn copy_terms(alloc: Global, terms: &[Term]) -> Result<Vec<Term>, OutOfMemory>
    ensures equal { IfOk result (λ copied. copied.items ≡ terms.now) }
{
    let mut copied = Vec::new(alloc);
    for term in terms {
        copied.push(term.copy(alloc)?)?;
    }
    Ok(copied)
}
