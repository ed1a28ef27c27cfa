ghost use Rattle.std.specs.Prelude.{◌≡◌, ℕ, Bool, true, List, Option, Some, is_some, IfOk};
ghost use Rattle.std.specs.Option.{option_copied};
ghost use Rattle.term_values.specs.Trees.{Tree};
ghost use Rattle.term_values.specs.declared.small.Key.{Key};
ghost use Rattle.seal_trait.specs.Items.{IsItemOf, IsShort};

use std::alloc::Global;
use term_values::{Key, Nonce, OutOfMemory, Term};

/// Seals bodies under keys and opens them, and makes check values and tests them.
///
/// What an item opens to, and what it checks, depends on the key, the body and the item alone.
pub trait Sealer {
    /// The body to which the item opens under the key, where it opens: of a key and an item.
    ghost opens: { Key → Tree → Option Tree };

    /// Whether the item checks the body under the key: of a key, a body and an item.
    ghost checks: { Key → Tree → Tree → Bool };

    /// The nonce with which the item was sealed, where it has one.
    ghost iv_of: { Tree → Option (List ℕ) };

    /// Whether each seal takes a nonce.
    ghost wants_iv: { Self → Bool };

    /// Whether each seal takes a nonce; always the same for one sealer. Takes no memory.
    fn wants_iv(&self) -> bool
        ensures wanted { result ≡ wants_iv self.now };

    /// An item that opens under the key to the body, sealed with the nonce where one is given.
    /// The body has a spelling of at most 2,048 bytes, and a nonce is given exactly where the sealer wants one.
    ///
    /// # Errors
    ///
    /// [`OutOfMemory`] for want of memory alone.
    fn seal(
        &self,
        alloc: Global,
        key: &Key,
        body: &Term,
        iv: Option<&Nonce>,
    ) -> Result<Term, OutOfMemory>
        requires short { IsShort body.now }
        requires given { is_some iv ≡ wants_iv self.now }
        ensures opens { IfOk result (λ item. opens key.now item ≡ Some body.now) }
        ensures iv { IfOk result (λ item. iv_of item ≡ option_copied iv.entry) }
        ensures limits { IfOk result (λ item. IsItemOf body.now item) };

    /// The body to which the item opens under the key; `None` exactly where it doesn't open.
    ///
    /// # Errors
    ///
    /// [`OutOfMemory`] for want of memory alone.
    fn open(&self, alloc: Global, key: &Key, item: &Term) -> Result<Option<Term>, OutOfMemory>
        ensures body { IfOk result (λ body. body ≡ opens key.now item.now) };

    /// A check of the body under the key. The body has a spelling of at most 2,048 bytes.
    ///
    /// # Errors
    ///
    /// [`OutOfMemory`] for want of memory alone.
    fn check(&self, alloc: Global, key: &Key, body: &Term) -> Result<Term, OutOfMemory>
        requires short { IsShort body.now }
        ensures checks { IfOk result (λ item. checks key.now body.now item ≡ true) }
        ensures limits { IfOk result (λ item. IsItemOf body.now item) };

    /// Whether the item checks the body under the key. The body has a spelling of at most 2,048 bytes.
    ///
    /// # Errors
    ///
    /// [`OutOfMemory`] for want of memory alone.
    fn test(&self, alloc: Global, key: &Key, body: &Term, item: &Term) -> Result<bool, OutOfMemory>
        requires short { IsShort body.now }
        ensures tested { IfOk result (λ answer. answer ≡ checks key.now body.now item.now) };
}
