/// What becomes of a run by a step.
#[derive(Clone, Copy, Debug, PartialEq, Eq)]
pub enum Outcome {
    /// It goes on.
    Going,
    /// It has acted in its last pass.
    Done,
}
