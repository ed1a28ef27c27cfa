ghost use Rattle.std.specs.Prelude.{◌≡◌, List, ℕ};
ghost use Rattle.replay_store.specs.Stamps.{accept, Accepted, stamp_verdict};
ghost use Rattle.replay_store.specs.Stores.{HoldSame};
ghost use Rattle.replay_store.specs.declared.verdict.Verdict.TheVariants.{Fit};
ghost use Rattle.term_values.specs.Trees.{Among, Bytes};
ghost use Rattle.term_values.specs.declared.small.Stamp.{Stamp};
ghost use Rattle.term_values.specs.declared.small.StampKind.{StampKind};

/// A stamp that is fit was not accepted before, from that sender under that tag.
#[tactic(auto, using(crate::proofs::Stamps::fit_is_new))]
pub fn fit_stamps_are_new()
    ensures new { (window now : ℕ) (accepted : List Accepted) (kind : StampKind) (sender : ℕ)
        (tag : Bytes) (stamp : Stamp) → stamp_verdict window now accepted kind sender tag stamp
        ≡ Fit → Among (accept sender tag stamp) accepted → ⊥ }
{}

/// The verdict on a stamp rests on the live times of its sender and tag, on the greatest sequence number, and on
/// those in the window below it, and on nothing else.
pub fn verdicts_rest_on_what_is_kept()
    ensures same { (window now : ℕ) (xs ys : List Accepted) (kind : StampKind) (sender : ℕ)
        (tag : Bytes) (stamp : Stamp) → HoldSame window now sender tag xs ys →
        stamp_verdict window now xs kind sender tag stamp
        ≡ stamp_verdict window now ys kind sender tag stamp }
{}
