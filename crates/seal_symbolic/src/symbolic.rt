ghost use Rattle.std.specs.Prelude.{◌≡◌, IfOk};
ghost use Rattle.std.specs.Option.{option_copied};
ghost use Rattle.term_values.specs.Same.{same};
ghost use Rattle.term_values.specs.SameBytes.{same_bytes};
ghost use Rattle.term_values.specs.Trees.{check, seal};
ghost use Rattle.term_values.specs.Limits.{IsKey};
ghost use Rattle.seal_symbolic.specs.Symbolic.{body_of, is_check, same_key};

use seal_trait::Sealer;
use std::alloc::Global;
use term_values::{Form, Key, Nonce, OutOfMemory, Part, Term};

/// The sealer whose items are terms: a seal opens under its own key alone, to its body, and a check
/// checks its own body under its own key alone. It wants no nonce.
#[derive(Clone, Copy, Debug, PartialEq, Eq, Drop)]
pub struct Symbolic;

impl Symbolic {
    /// The sealer. Takes no memory.
    pub fn new() -> Symbolic {
        Symbolic
    }
}

/// Whether both parts are the same bytes.
#[tactic(auto, using(crate::proofs::Keys::pointwise_is))]
fn same_part(a: &Part, b: &Part) -> bool
    ensures { result ≡ same_bytes a.now b.now }
{
    a.list() == b.list()
}

/// Whether both keys have the same parts in the same order.
fn same_key(a: &Key, b: &Key) -> bool
    ensures { result ≡ same_key a.now b.now }
{
    match (a, b) {
        (Key::One(p), Key::One(q)) => same_part(p, q),
        (Key::Two(p, q), Key::Two(r, s)) => same_part(p, r) && same_part(q, s),
        _ => false,
    }
}

/// Whether both terms are the same.
fn same_term(a: &Term, b: &Term) -> bool
    ensures { result ≡ same a.now b.now }
{
    a.same(b)
}

/// Each part of a key is whole: it has 32 bytes.
fn see_parts(key: &Key)
    ensures { IsKey key.now }
{
    match key {
        Key::One(p) => {
            let _bytes = p.list();
        }
        Key::Two(p, q) => {
            let _bytes = p.list();
            let _more = q.list();
        }
    }
}

/// The seal of the body under the key.
fn seal_of(alloc: Global, key: &Key, body: &Term) -> Result<Term, OutOfMemory>
    ensures item { IfOk result (λ item. item ≡ seal key.now body.now) }
    ensures parts { IsKey key.now }
{
    see_parts(key);
    let body = Box::new(alloc, body.copy(alloc)?)?;
    Ok(Term::of(Form::Seal(*key, body)))
}

/// The check of the body under the key.
fn check_of(alloc: Global, key: &Key, body: &Term) -> Result<Term, OutOfMemory>
    ensures item { IfOk result (λ item. item ≡ check key.now body.now) }
    ensures parts { IsKey key.now }
{
    see_parts(key);
    let body = Box::new(alloc, body.copy(alloc)?)?;
    Ok(Term::of(Form::Check(*key, body)))
}

/// The body under the key, where the item is a seal under it.
fn seal_body<'a>(key: &Key, item: &'a Term) -> Option<&'a Term>
    ensures { option_copied result ≡ body_of key.now item.now }
{
    match item.form() {
        Form::Seal(under, body) if same_key(under, key) => Some(body),
        _ => None,
    }
}

/// Whether the item is the check of the body under the key.
fn is_check(key: &Key, body: &Term, item: &Term) -> bool
    ensures { result ≡ is_check key.now body.now item.now }
{
    match item.form() {
        Form::Check(under, checked) => same_key(under, key) && same_term(checked, body),
        _ => false,
    }
}

impl Sealer for Symbolic {
    ghost use Rattle.std.specs.Prelude.{false, None};
    ghost use Rattle.seal_symbolic.specs.Symbolic.{body_of, is_check};

    ghost opens = { body_of };

    ghost checks = { is_check };

    ghost iv_of = { λ item. None };

    ghost wants_iv = { λ s. false };

    fn wants_iv(&self) -> bool {
        false
    }

    #[tactic(auto, using(crate::proofs::Keys::seal_limits))]
    fn seal(
        &self,
        alloc: Global,
        key: &Key,
        body: &Term,
        _iv: Option<&Nonce>,
    ) -> Result<Term, OutOfMemory> {
        let item = seal_of(alloc, key, body)?;
        Ok(item)
    }

    fn open(&self, alloc: Global, key: &Key, item: &Term) -> Result<Option<Term>, OutOfMemory> {
        match seal_body(key, item) {
            Some(body) => Ok(Some(body.copy(alloc)?)),
            None => Ok(None),
        }
    }

    #[tactic(auto, using(crate::proofs::Keys::check_checks, crate::proofs::Keys::check_limits))]
    fn check(&self, alloc: Global, key: &Key, body: &Term) -> Result<Term, OutOfMemory> {
        let item = check_of(alloc, key, body)?;
        Ok(item)
    }

    fn test(
        &self,
        _alloc: Global,
        key: &Key,
        body: &Term,
        item: &Term,
    ) -> Result<bool, OutOfMemory> {
        Ok(is_check(key, body, item))
    }
}
