ghost use Rattle.std.specs.Prelude.{Bool};
ghost use Rattle.term_values.specs.Trees.{Tree};
ghost use Rattle.term_values.specs.declared.small.Key.{Key};

/// Any sealing, as the laws over working sealings see it.
pub trait Sealing {
    /// Whether the item opens to the body under the key, or, for a check, checks it.
    ghost opens: { Bool → Key → Tree → Tree → Type 0 };
}
