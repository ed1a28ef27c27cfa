ghost use Rattle.std.specs.Prelude.{◌↔◌, IsTrue, List};
ghost use Rattle.attacker_model.specs.Decided.{is_derivable};
ghost use Rattle.attacker_model.specs.Derivation.{Derivable};
ghost use Rattle.term_values.specs.Trees.{Tree};

/// Derivability is decided: a test that computes holds exactly where a term is derivable.
#[tactic(auto, using(crate::proofs::Decided::decided))]
pub fn derivability_is_decided()
    ensures decided { (K : List Tree) (t : Tree) → IsTrue (is_derivable K t) ↔ Derivable K t }
{}
