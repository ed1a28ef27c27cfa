ghost use Rattle.std.specs.Prelude.{◌≡◌, ◌+◌, ◌-◌, ◌≤◌, ◌^◌, ◌↔◌, IsTrue, IfOk, min};
ghost use Rattle.std.specs.Option.{option_copied};
ghost use Rattle.term_values.specs.Trees.{depth_of, item_of, Occurs, OccursBelow, StandsInKey};
ghost use Rattle.term_values.specs.Lengths.{IsLeft, length_of};
ghost use Rattle.term_values.specs.TreeOf.{tree_of};

use crate::OutOfMemory;
use crate::bytes::{Bytes, Text};
use crate::items::{Items, item_at};
use crate::lengths::{left_by, left_by_key};
use crate::small::{Key, Name, Nonce, Part, Stamp, Tag};
use std::alloc::Global;
use std::marker::Model;

/// What a term is, at its root. Contracts see one layer of the tree, with trees below.
#[cycle(term)]
#[derive(Drop)]
pub enum Form {
    /// The name of a party.
    Name(Name),
    /// A time stamp or a sequence number.
    Stamp(Stamp),
    /// A nonce.
    Nonce(Nonce),
    /// A part of a key.
    Part(Part),
    /// A text.
    Text(Text),
    /// A tag.
    Tag(Tag),
    /// Items in their order.
    Tuple(Items),
    /// A body sealed under a key.
    Seal(Key, Box<Term>),
    /// The check value of a body under a key.
    Check(Key, Box<Term>),
    /// Bytes that stand for themselves.
    Blob(Bytes),
}

/// A term: one form, and through it all that stands below. A contract reads a term as its `Tree`,
/// where boxes and vectors are gone and a tuple holds its items' trees in their order.
#[cycle(term)]
#[derive(Drop)]
pub struct Term {
    form: Form,
}

impl Model for Term {
    ghost use Rattle.term_values.specs.Trees.{Tree, size_of};
    ghost use Rattle.term_values.specs.Codes.{coded_tree};

    ghost Value = { Tree };

    ghost coded = { coded_tree };

    ghost use Rattle.term_values.specs.TreeOf.{tree_of};

    ghost view = { λ t. tree_of t.form };

    ghost size = { size_of };

    ghost use Rattle.term_values.specs.Falls.{form_falls};

    ghost size_decreases = { λ t h. form_falls t.form };
}

impl Term {
    /// The term of this form. Takes no memory.
    pub fn of(form: Form) -> Term
        ensures tree { result ≡ tree_of form }
    {
        Term { form }
    }

    /// The form of this term. Takes no memory.
    pub fn form(&self) -> &Form
        ensures tree { tree_of result.now ≡ self.now }
    {
        &self.form
    }

    /// The form of this term, which it gives up. Takes no memory.
    pub fn into_form(self) -> Form
        ensures tree { tree_of result ≡ self }
    {
        let Term { form } = self;
        form
    }

    /// How many levels this term has. What holds no term has 1, as has a tuple with no items; every
    /// other term has one level on top of its deepest item or its body. Past 4,294,967,295 levels
    /// the answer stays at that number. Takes no memory.
    #[tactic(auto, using(crate::proofs::Trees::item_smaller))]
    pub fn depth(&self) -> u32
        ensures depth { result ≡ min (depth_of self.now) (2 ^ 32 - 1) }
    {
        match &self.form {
            Form::Tuple(items) => {
                let mut most = 0;
                for item in items.list() {
                    most = most.max(item.depth());
                }
                most.saturating_add(1)
            }
            Form::Seal(_, body) | Form::Check(_, body) => body.depth().saturating_add(1),
            _ => 1,
        }
    }

    /// Whether the layouts of this term, added up, take at most so many bytes. Takes no memory.
    pub fn within(&self, most: u32) -> bool
        ensures length { IsTrue result ↔ (length_of self.now ≤ most) }
    {
        self.left_of(most).is_some()
    }

    /// Whether both are equal. Takes no memory.
    #[cycle(same)]
    #[tactic(auto, using(crate::proofs::Trees::trees_inj, crate::proofs::Trees::item_smaller))]
    pub fn same(&self, other: &Term) -> bool
        ensures equal { IsTrue result ↔ (self.now ≡ other.now) }
    {
        match &self.form {
            Form::Name(a) => match &other.form {
                Form::Name(b) => a == b,
                _ => false,
            },
            Form::Stamp(a) => match &other.form {
                Form::Stamp(b) => a == b,
                _ => false,
            },
            Form::Nonce(a) => match &other.form {
                Form::Nonce(b) => a == b,
                _ => false,
            },
            Form::Part(a) => match &other.form {
                Form::Part(b) => a == b,
                _ => false,
            },
            Form::Text(a) => match &other.form {
                Form::Text(b) => a.list() == b.list(),
                _ => false,
            },
            Form::Tag(a) => match &other.form {
                Form::Tag(b) => a == b,
                _ => false,
            },
            Form::Tuple(a) => match &other.form {
                Form::Tuple(b) => same_items(a.list(), b.list()),
                _ => false,
            },
            Form::Seal(k, a) => match &other.form {
                Form::Seal(l, b) => k == l && a.same(b),
                _ => false,
            },
            Form::Check(k, a) => match &other.form {
                Form::Check(l, b) => k == l && a.same(b),
                _ => false,
            },
            Form::Blob(a) => match &other.form {
                Form::Blob(b) => a.list() == b.list(),
                _ => false,
            },
        }
    }

    /// Whether this term holds the value at any level, its own root among them. The parts of a key
    /// count as terms for this search. Takes no memory.
    #[cycle(occurs)]
    pub fn occurs(&self, value: &Term) -> bool
        ensures occurs { IsTrue result ↔ Occurs value.now self.now }
    {
        self.same(value) || self.occurs_below(value)
    }

    #[cycle(occurs)]
    #[tactic(auto, using(crate::proofs::Trees::item_smaller, crate::proofs::Trees::stands_in_item))]
    fn occurs_below(&self, value: &Term) -> bool
        ensures below { IsTrue result ↔ OccursBelow value.now self.now }
    {
        match &self.form {
            Form::Tuple(items) => {
                for item in items.list() {
                    if item.occurs(value) {
                        return true;
                    }
                }
                false
            }
            Form::Seal(key, body) | Form::Check(key, body) => {
                value.is_in_key(key) || body.occurs(value)
            }
            _ => false,
        }
    }

    fn is_in_key(&self, key: &Key) -> bool
        ensures in_key { IsTrue result ↔ StandsInKey self.now key.now }
    {
        match &self.form {
            Form::Part(part) => match key {
                Key::One(p) => part == p,
                Key::Two(p, q) => part == p || part == q,
            },
            _ => false,
        }
    }

    /// The item at index k, where the first has index 0; `None` for an index past the last item, and
    /// for every term but a tuple, and only then. Takes no memory.
    #[tactic(auto, using(crate::proofs::Trees::untrees_trees))]
    pub fn item(&self, k: usize) -> Option<&Term>
        ensures item { option_copied result ≡ item_of self.now k }
    {
        match &self.form {
            Form::Tuple(items) => item_at(items.list(), k),
            _ => None,
        }
    }

    /// An equal term.
    ///
    /// # Errors
    ///
    /// [`OutOfMemory`] for want of memory alone.
    #[cycle(copy)]
    #[tactic(auto, using(crate::proofs::Trees::item_smaller))]
    pub fn copy(&self, alloc: Global) -> Result<Term, OutOfMemory>
        ensures equal { IfOk result (λ term. term ≡ self.now) }
    {
        let form = match &self.form {
            Form::Name(name) => Form::Name(*name),
            Form::Stamp(stamp) => Form::Stamp(*stamp),
            Form::Nonce(nonce) => Form::Nonce(*nonce),
            Form::Part(part) => Form::Part(*part),
            Form::Text(text) => Form::Text(text.copy(alloc)?),
            Form::Tag(tag) => Form::Tag(*tag),
            Form::Tuple(items) => Form::Tuple(Items::new(copy_items(alloc, items.list())?)),
            Form::Seal(key, body) => Form::Seal(*key, Box::new(alloc, body.copy(alloc)?)?),
            Form::Check(key, body) => { Form::Check(*key, Box::new(alloc, body.copy(alloc)?)?) }
            Form::Blob(bytes) => Form::Blob(bytes.copy(alloc)?),
        };
        Ok(Term { form })
    }

    /// What is left of so many bytes after the layouts of this term.
    #[tactic(auto, using(crate::proofs::Trees::item_smaller))]
    fn left_of(&self, most: u32) -> Option<u32>
        ensures left { IsLeft most (length_of self.now) result }
    {
        match &self.form {
            Form::Name(_) | Form::Tag(_) => most.checked_sub(5),
            Form::Stamp(_) => most.checked_sub(9),
            Form::Nonce(_) => most.checked_sub(17),
            Form::Part(_) => most.checked_sub(33),
            Form::Text(text) => left_by(most, text.list()),
            Form::Blob(blob) => left_by(most, blob.list()),
            Form::Tuple(items) => {
                let mut left = most.checked_sub(2)?;
                for item in items.list() {
                    left = item.left_of(left)?;
                }
                Some(left)
            }
            Form::Seal(key, body) | Form::Check(key, body) => {
                body.left_of(left_by_key(most.checked_sub(1)?, key)?)
            }
        }
    }
}

#[cycle(same)]
#[tactic(auto, using(crate::proofs::Trees::item_smaller))]
fn same_items(some: &[Term], others: &[Term]) -> bool
    ensures equal { IsTrue result ↔ (some.now ≡ others.now) }
{
    if some.len() != others.len() {
        return false;
    }
    for i in 0..some.len() {
        if !some[i].same(&others[i]) {
            return false;
        }
    }
    true
}

#[cycle(copy)]
#[tactic(auto, using(crate::proofs::Trees::item_smaller))]
fn copy_items(alloc: Global, items: &[Term]) -> Result<Vec<Term>, OutOfMemory>
    ensures equal { IfOk result (λ copied. copied.items ≡ items.now) }
{
    let mut copied = Vec::new(alloc);
    for item in items {
        copied.push(item.copy(alloc)?)?;
    }
    Ok(copied)
}
