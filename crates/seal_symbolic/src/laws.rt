ghost use Rattle.std.specs.Prelude.{◌≡◌, ◌↔◌, ℕ, true, List, Some, None};
ghost use Rattle.term_values.specs.Trees.{Tree, blob, check, seal};
ghost use Rattle.term_values.specs.declared.small.Key.{Key};
ghost use Rattle.seal_symbolic.specs.Symbolic.{body_of, is_check};

/// A term opens exactly where it is a seal under that key, and then to its body; no blob opens, and no
/// check; a term is a check exactly where it is the check of that key and body.
pub fn seals_and_checks_are_terms()
    ensures opens { (key : Key) (item body : Tree) → (body_of key item ≡ Some body)
        ↔ (item ≡ seal key body) }
    ensures blobs { (key : Key) (bytes : List ℕ) → body_of key (blob bytes) ≡ None }
    ensures no_check { (key under : Key) (body : Tree) → body_of key (check under body) ≡ None }
    ensures checks { (key : Key) (body item : Tree) → (is_check key body item ≡ true)
        ↔ (item ≡ check key body) }
{}
