ghost use Rattle.std.specs.Prelude.{◌≡◌, ◌↔◌, ◌++◌, ◌∷◌, [], ℕ, ◌≤◌, ◌<◌, IsTrue, IfOk, IfSome};
ghost use Rattle.std.specs.Prelude.{None, OnOk, true, if◌then◌else◌, is_ok, length, take, drop};
ghost use Rattle.term_values.specs.Trees.{Among, Bytes as SomeBytes, Tree, seal};
ghost use Rattle.term_values.specs.declared.small.Key.{Key as AnyKey};
ghost use Rattle.attacker_model.specs.Digests.{HasPlace, StandsAt, digest_bytes, digest_term};
ghost use Rattle.attacker_model.specs.Taken.{has_part, key_known, opened_by, part_known};

use crate::knowledge_digest::{lock_of, place_of};
use crate::knowledge_index::{Index, enter, leave, next_place};
use std::alloc::Global;
use std::collections::BTreeSet;
use std::marker::Model;
use term_values::{Form, Key, OutOfMemory, Part, Term};

/// Known terms in the order in which they came. Contracts see the list of their trees. The place of
/// each is entered under its digest, and that of a seal also under the digest of each part of its
/// key; terms that are taken away take their entries with them.
#[derive(Drop)]
pub(crate) struct Apart {
    terms: Vec<Term>,
    places: Index,
    locks: Index,
}

impl Model for Apart {
    ghost use Rattle.std.specs.Prelude.{List};
    ghost use Rattle.std.specs.Coded.{coded_list};
    ghost use Rattle.term_values.specs.Trees.{Tree};
    ghost use Rattle.term_values.specs.Codes.{coded_tree};

    ghost Value = { List Tree };

    ghost coded = { coded_list coded_tree };

    ghost use Rattle.attacker_model.specs.Digests.{IsIndexed};

    ghost view = { λ a. a.terms.items };

    ghost invariant = { λ a. IsIndexed a.terms.items a.places a.locks };
}

impl Apart {
    /// No terms.
    #[tactic(auto, using(crate::proofs::KnowledgeIndexed::none_indexed))]
    pub(crate) fn new(alloc: Global) -> Apart
        ensures empty { result ≡ [] }
    {
        Apart {
            terms: Vec::new(alloc),
            places: BTreeSet::new(alloc),
            locks: BTreeSet::new(alloc),
        }
    }

    /// The terms.
    pub(crate) fn list(&self) -> &[Term]
        ensures value { result.now ≡ self.now }
    {
        self.terms.as_slice()
    }

    /// How many terms there are.
    pub(crate) fn len(&self) -> usize
        ensures value { result ≡ length self.now }
    {
        self.terms.len()
    }

    /// Keeps the first terms alone.
    #[tactic(auto, using(crate::proofs::KnowledgeIndexed::fewer_indexed))]
    pub(crate) fn truncate(&mut self, count: usize)
        ensures first { self.new ≡ take count self.old }
    {
        leave_all(
            &mut self.places,
            &mut self.locks,
            self.terms.as_slice(),
            count,
        );
        self.terms.truncate(count);
    }

    /// Adds a term at the end.
    pub(crate) fn add(&mut self, term: Term) -> Result<(), OutOfMemory>
        ensures added { self.new ≡ (if is_ok result then self.old ++ term ∷ [] else self.old) }
    {
        let place = self.len();
        index(&mut self.places, &mut self.locks, &term, place)?;
        self.terms.push(term)?;
        Ok(())
    }

    /// The same terms.
    pub(crate) fn copy(&self, alloc: Global) -> Result<Apart, OutOfMemory>
        ensures equal { IfOk result (λ copied. copied ≡ self.now) }
    {
        let mut copied = Apart::new(alloc);
        for term in self.list() {
            copied.add(term.copy(alloc)?)?;
        }
        Ok(copied)
    }

    /// Whether the term is among the first ones.
    pub(crate) fn knows(&self, count: usize, term: &Term) -> bool
        ensures known { IsTrue result ↔ Among term.now (take count self.now) }
    {
        let (first, _) = self.list().split_at(count.min(self.len()));
        is_found(&self.places, first, term)
    }

    /// Whether the part is among the first ones.
    pub(crate) fn knows_part(&self, count: usize, part: &Part) -> bool
        ensures known { result ≡ part_known (take count self.now) part.now }
    {
        self.knows(count, &Term::of(Form::Part(*part)))
    }

    /// Whether each part of the key is among the first ones.
    pub(crate) fn knows_key(&self, count: usize, key: &Key) -> bool
        ensures known { result ≡ key_known (take count self.now) key.now }
    {
        match key {
            Key::One(part) => self.knows_part(count, part),
            Key::Two(first, second) => {
                self.knows_part(count, first) && self.knows_part(count, second)
            }
        }
    }

    /// The next place, from this one on, that is entered under the part's digest: no term before it
    /// is opened by the part.
    pub(crate) fn next_under(&self, part: &Part, from: usize) -> Option<usize>
        ensures within { IfSome result (λ place. place < length self.now) }
        ensures from { IfSome result (λ place. from ≤ place) }
        ensures passed { IfSome result (λ place.
            opened_by self.now part.now (drop from self.now) ≡ opened_by self.now part.now
            (drop place self.now)) }
        ensures none { result ≡ None → opened_by self.now part.now (drop from self.now) ≡ [] }
    {
        match next_place(&self.locks, lock_of(part), from) {
            Some(place) if place < self.len() => Some(place),
            _ => None,
        }
    }
}

/// Whether the term stands at one of the places of its digest.
#[tactic(auto, using(crate::proofs::KnowledgeLists::among_at))]
fn is_found(places: &Index, terms: &[Term], wanted: &Term) -> bool
    ensures among { IsTrue result → Among wanted.now terms.now }
    ensures found { (q : ℕ) → StandsAt wanted.now terms.now q →
        HasPlace places.now (digest_term 1 wanted.now) q → IsTrue result }
{
    let number = place_of(wanted);
    let mut from = 0;
    while let Some(place) = next_place(places, number, from) {
        if place >= terms.len() {
            return false;
        }
        if wanted.same(&terms[place]) {
            return true;
        }
        from = place + 1;
    }
    false
}

/// Takes out the entries of each part of the key.
fn unlock(locks: &mut Index, key: &Key, place: usize)
    ensures kept { (n q : ℕ) → q < place → HasPlace locks.old n q → HasPlace locks.new n q }
{
    match key {
        Key::One(part) => leave(locks, lock_of(part), place),
        Key::Two(first, second) => {
            leave(locks, lock_of(first), place);
            leave(locks, lock_of(second), place);
        }
    }
}

/// Takes out the entries of each part of the key, where the term is a seal.
fn unlock_seal(locks: &mut Index, term: &Term, place: usize)
    ensures kept { (n q : ℕ) → q < place → HasPlace locks.old n q → HasPlace locks.new n q }
{
    if let Form::Seal(key, _) = term.form() {
        unlock(locks, key, place);
    }
}

/// Takes out the entries of all terms but the first ones.
fn leave_all(places: &mut Index, locks: &mut Index, terms: &[Term], count: usize)
    ensures places { (n q : ℕ) → q < count → HasPlace places.old n q → HasPlace places.new n q }
    ensures locks { (n q : ℕ) → q < count → HasPlace locks.old n q → HasPlace locks.new n q }
{
    for place in count..terms.len() {
        let term = &terms[place];
        leave(places, place_of(term), place);
        unlock_seal(locks, term, place);
    }
}

/// Adds an entry for each part of the key.
fn lock(locks: &mut Index, key: &Key, place: usize) -> Result<(), OutOfMemory>
    ensures kept { (n q : ℕ) → HasPlace locks.old n q → HasPlace locks.new n q }
    ensures entered { OnOk result ((p : SomeBytes) → has_part key.now p ≡ true →
        HasPlace locks.new (digest_bytes 1 p) place) }
{
    match key {
        Key::One(part) => enter(locks, lock_of(part), place),
        Key::Two(first, second) => {
            enter(locks, lock_of(first), place)?;
            enter(locks, lock_of(second), place)
        }
    }
}

/// Adds an entry for each part of the key, where the term is a seal.
fn lock_seal(locks: &mut Index, term: &Term, place: usize) -> Result<(), OutOfMemory>
    ensures kept { (n q : ℕ) → HasPlace locks.old n q → HasPlace locks.new n q }
    ensures locked { OnOk result ((k : AnyKey) (u : Tree) (p : SomeBytes) → term.now ≡ seal k u →
        has_part k p ≡ true → HasPlace locks.new (digest_bytes 1 p) place) }
{
    match term.form() {
        Form::Seal(key, _) => lock(locks, key, place),
        _ => Ok(()),
    }
}

/// Adds the entries of a term.
fn index(
    places: &mut Index,
    locks: &mut Index,
    term: &Term,
    place: usize,
) -> Result<(), OutOfMemory>
    ensures places { (n q : ℕ) → HasPlace places.old n q → HasPlace places.new n q }
    ensures locks { (n q : ℕ) → HasPlace locks.old n q → HasPlace locks.new n q }
    ensures found { OnOk result (HasPlace places.new (digest_term 1 term.now) place) }
    ensures locked { OnOk result ((k : AnyKey) (u : Tree) (p : SomeBytes) → term.now ≡ seal k u →
        has_part k p ≡ true → HasPlace locks.new (digest_bytes 1 p) place) }
{
    lock_seal(locks, term, place)?;
    enter(places, place_of(term), place)
}
