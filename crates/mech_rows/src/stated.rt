ghost use Rattle.mech_rows.specs.Verdict.{State};

/// What stands for a run.
pub trait Stated: Drop {
    /// The run that it stands for: its head, its next pass, and its notes in the order in which they were taken.
    ghost state_of: { Self → State };
}
