ghost use Rattle.std.specs.Prelude.{◌≡◌, ◌<◌, ◌^◌, ℕ, Some};
ghost use Rattle.outside.specs.Told.{DrawKind};
ghost use Rattle.replay_store.specs.Stamps.{next_stamp, number_of};
ghost use Rattle.term_values.specs.declared.small.Stamp.{Stamp};
ghost use Rattle.term_values.specs.declared.small.StampKind.{StampKind};
ghost use Rattle.fresh_values.specs.Counts.{counted_value};

/// No two counted values are equal: equal ones are the same draw of the same kind.
pub fn counted_values_differ()
    ensures differ { (a b : DrawKind) (j k : ℕ) → j < 2 ^ 64 → k < 2 ^ 64 →
        counted_value a j ≡ counted_value b k → (a ≡ b) × (j ≡ k) }
{}

/// The next stamp has a greater number than the last one.
#[tactic(auto, using(crate::proofs::Issued::rises))]
pub fn issued_stamps_rise()
    ensures rise { (kind : StampKind) (last now : ℕ) (stamp : Stamp) →
        next_stamp kind last now ≡ Some stamp → last < number_of stamp }
{}
