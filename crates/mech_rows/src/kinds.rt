use term_values::Tag;

/// A mechanism: E by encipherment, C by check values, K for keys. Names and numbers are this project's own.
#[derive(Clone, Copy, Debug, PartialEq, Eq)]
pub enum Mech {
    E1,
    E2,
    E3,
    E4,
    E5,
    E6,
    C1,
    C2,
    C3,
    C4,
    K3,
    K4,
    K5,
    K6,
    K8,
    K9,
}

/// The part that a run plays: the claimant's side, the verifier's side, or the third party.
#[derive(Clone, Copy, Debug, PartialEq, Eq)]
pub enum Role {
    /// The claimant's side.
    A,
    /// The verifier's side.
    B,
    /// The third party.
    P,
}

/// A field of the messages: nonces, stamps and parts by the role that makes them, the texts by number, and an item
/// that is handed on unread.
#[derive(Clone, Copy, Debug, PartialEq, Eq)]
pub enum Slot {
    Ra,
    Rb,
    Ra2,
    Ta,
    Tb,
    Tp,
    Fa,
    Fb,
    X1,
    X2,
    X3,
    X4,
    X5,
    X6,
    X7,
    X8,
    X9,
    Fwd,
}

/// What may stand in a slot.
#[derive(Clone, Copy, Debug, PartialEq, Eq)]
pub enum Kind {
    /// A nonce: Ra, Rb, Ra2.
    Nonce,
    /// A stamp: Ta, Tb, Tp.
    Stamp,
    /// A part of a key: Fa, Fb.
    Part,
    /// A text: X1 to X9.
    Text,
    /// An item that is handed on unread: Fwd.
    Item,
}

/// An item of a message that is not protected.
#[derive(Clone, Copy, Debug, PartialEq, Eq)]
pub enum Clear {
    /// The value of a slot.
    Slot(Slot),
    /// The name of B.
    NameOfB,
}

/// The key of a protected item.
#[derive(Clone, Copy, Debug, PartialEq, Eq)]
pub enum Under {
    /// The long-term part of these two roles' names.
    Pair(Role, Role),
    /// The part that the third party drew for the run.
    Drawn,
}

/// A protected item of a message.
#[derive(Clone, Copy, Debug, PartialEq, Eq)]
pub struct Cover {
    /// It is a check, and else a seal.
    pub check: bool,
    /// Its key.
    pub under: Under,
    /// The tag of its body.
    pub tag: Tag,
    /// The slots of its body, then None.
    pub slots: [Option<Slot>; 4],
    /// The sender makes it.
    pub made: bool,
    /// The receiver opens or tests it.
    pub seen: bool,
}

/// One message of a mechanism.
#[derive(Clone, Copy, Debug, PartialEq, Eq)]
pub struct Pass {
    /// Who sends it.
    pub from: Role,
    /// Who receives it.
    pub to: Role,
    /// The items between the clear tag and the protected ones, then None.
    pub clear: [Option<Clear>; 4],
    /// The protected items, then None.
    pub covers: [Option<Cover>; 2],
}

/// A mechanism as data.
#[derive(Clone, Copy, Debug, PartialEq, Eq)]
pub struct Row {
    /// Its messages in order, then None.
    pub passes: [Option<Pass>; 5],
}
