ghost use Rattle.std.specs.Prelude.{◌∷◌, ◌↔◌, List, ℕ};
ghost use Rattle.attacker_model.specs.Derivation.{Derivable};
ghost use Rattle.attacker_model.specs.Heights.{HasHeight};
ghost use Rattle.attacker_model.specs.Saturated.{Built, IsSaturated};
ghost use Rattle.term_values.specs.Trees.{Among, Tree};

/// What is derivable from known terms is derivable from more.
#[tactic(auto, using(crate::proofs::Derivations::more_known))]
pub fn derivation_is_monotone()
    ensures more { (K L : List Tree) → ((u : Tree) → Among u K → Among u L) → (t : Tree) →
        Derivable K t → Derivable L t }
{}

/// The cut law: a derivable term teaches nothing.
#[tactic(auto, using(crate::proofs::Derivations::cut))]
pub fn cut_law()
    ensures cut { (K : List Tree) (t u : Tree) → Derivable K t → Derivable (t ∷ K) u →
        Derivable K u }
{}

/// From known terms that are taken apart as far as they go, the derivable terms are those that are built.
#[tactic(auto, using(crate::proofs::Saturated::derivable_is_built, crate::proofs::Saturated::built_is_derivable))]
pub fn derivable_terms_are_built()
    ensures built { (K : List Tree) → IsSaturated K → (t : Tree) → Derivable K t ↔ Built K t }
{}

/// A term is derivable exactly where it has a derivation of some finite height.
#[tactic(auto, using(crate::proofs::Heights::to_height, crate::proofs::Heights::from_height))]
pub fn derivations_have_heights()
    ensures height { (K : List Tree) → (t : Tree) → Derivable K t ↔ ((n : ℕ) × HasHeight K n t) }
{}
