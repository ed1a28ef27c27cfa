ghost use Rattle.std.specs.Prelude.{◌≡◌, ℕ, ◌<◌, ◌↔◌, List, length, IsNone, IfSome};

use std::marker::Model;

/// The name of a party, from 1 to 4,294,967,295. Contracts see the number.
#[derive(Clone, Copy, Debug, PartialEq, Eq)]
pub struct Name {
    number: u32,
}

impl Model for Name {
    ghost Value = { ℕ };

    ghost view = { λ n. n.number };

    ghost invariant = { λ n. 0 < n.number };

    ghost inverse = { λ n. record { number = n } };
}

impl Name {
    /// The name of this number; `None` exactly where it is 0. Takes no memory.
    pub fn new(number: u32) -> Option<Name>
        ensures none { IsNone result ↔ (number ≡ 0) }
        ensures some { IfSome result (λ n. n ≡ number) }
    {
        if number == 0 {
            return None;
        }
        Some(Name { number })
    }

    /// The number, which is never 0. Takes no memory.
    pub fn get(self) -> u32
        ensures value { result ≡ self }
        ensures positive { 0 < result }
    {
        self.number
    }
}

/// What shows that a message is fresh.
#[derive(Clone, Copy, Debug, PartialEq, Eq)]
pub enum Stamp {
    /// A time in milliseconds.
    Time(u64),
    /// A number in the sequence of its sender.
    Seq(u64),
}

/// Which of the two stamps a party exchanges.
#[derive(Clone, Copy, Debug, PartialEq, Eq)]
pub enum StampKind {
    /// Times in milliseconds.
    Time,
    /// Sequence numbers.
    Seq,
}

/// A number that is used once, of 16 bytes. Contracts see the list of them.
#[derive(Clone, Copy, Debug, PartialEq, Eq)]
pub struct Nonce(pub [u8; 16]);

impl Model for Nonce {
    ghost Value = { List ℕ };

    ghost view = { λ b. b.0 };

    ghost invariant = { λ b. length b.0 ≡ 16 };

    ghost inverse = { λ b. record { 0 = b } };
}

impl Nonce {
    /// The 16 bytes. Takes no memory.
    pub fn list(&self) -> &[u8]
        ensures value { result.now ≡ self.now }
        ensures length { length result.now ≡ 16 }
    {
        &self.0
    }
}

/// A part of a key, of 32 bytes. Contracts see the list of them.
#[derive(Clone, Copy, Debug, PartialEq, Eq)]
pub struct Part(pub [u8; 32]);

impl Model for Part {
    ghost Value = { List ℕ };

    ghost view = { λ b. b.0 };

    ghost invariant = { λ b. length b.0 ≡ 32 };

    ghost inverse = { λ b. record { 0 = b } };
}

impl Part {
    /// The 32 bytes. Takes no memory.
    pub fn list(&self) -> &[u8]
        ensures value { result.now ≡ self.now }
        ensures length { length result.now ≡ 32 }
    {
        &self.0
    }
}

/// What tells which message this is, or which protected body: 4 bytes. Contracts see the list of
/// them.
#[derive(Clone, Copy, Debug, PartialEq, Eq)]
pub struct Tag(pub [u8; 4]);

impl Model for Tag {
    ghost Value = { List ℕ };

    ghost view = { λ b. b.0 };

    ghost invariant = { λ b. length b.0 ≡ 4 };

    ghost inverse = { λ b. record { 0 = b } };
}

impl Tag {
    /// The 4 bytes. Takes no memory.
    pub fn list(&self) -> &[u8]
        ensures value { result.now ≡ self.now }
        ensures length { length result.now ≡ 4 }
    {
        &self.0
    }
}

/// A key of one part, or of two in their order.
#[derive(Clone, Copy, Debug, PartialEq, Eq)]
pub enum Key {
    /// The key of one part.
    One(Part),
    /// The key of two parts; exchanged, they are another key.
    Two(Part, Part),
}
