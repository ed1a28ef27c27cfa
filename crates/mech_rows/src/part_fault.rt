/// Why a body isn't one of the run's.
#[derive(Clone, Copy, Debug, PartialEq, Eq)]
pub enum PartFault {
    /// It hasn't that tag, a name for each party and so many slots.
    WrongShape,
    /// It has them, and one of the names is another party's.
    WrongNames,
}
