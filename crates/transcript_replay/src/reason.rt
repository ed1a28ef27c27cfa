/// Why a line of a script is bad.
#[derive(Clone, Copy, Debug, PartialEq, Eq)]
pub enum Reason {
    /// It is no line, or a value of it is outside its limits.
    Grammar,
    /// It is a configuration line, and an event line has come.
    Order,
    /// It points to a message that was not sent, or to an item that is not there.
    Reference,
    /// It breaks a condition on configurations.
    Config,
}
