ghost use Rattle.std.specs.Prelude.{◌≡◌, ℕ, ◌<◌, ◌≤◌, length, List, IfOk, OnOk, OnErr};

use crate::OutOfMemory;
use std::alloc::Global;
use std::marker::Model;

/// The most bytes of a text.
const TEXT_MAX: usize = 1024;

/// A text would have more than 1,024 bytes.
#[derive(Clone, Copy, Debug, PartialEq, Eq)]
pub struct LongText;

/// The text of a slot, of at most 1,024 bytes. Contracts see the list of its bytes.
#[derive(Debug, Drop)]
pub struct Text {
    bytes: Vec<u8>,
}

impl Model for Text {
    ghost Value = { List ℕ };

    ghost view = { λ t. t.bytes.items };

    ghost invariant = { λ t. length t.bytes.items ≤ 1024 };
}

impl Clone for Text {
    ghost is_clone = { λ t u. u ≡ t };

    fn clone(&self) -> Result<Text, OutOfMemory> {
        Ok(Text {
            bytes: self.bytes.clone()?,
        })
    }
}

impl PartialEq for Text {
    ghost use Rattle.std.specs.Cmp.Rules.{comparing};
    ghost use Rattle.std.specs.Cmp.Lexicographic.{pointwise};
    ghost use Rattle.std.specs.Prelude.{◌==◌};
    ghost use Rattle.std.proofs.Common.{rules};

    ghost eq = { pointwise ◌==◌ };

    ghost laws = { Prim.search (comparing, rules) };

    fn eq(&self, other: &Text) -> bool {
        self.bytes.as_slice() == other.bytes.as_slice()
    }
}

impl Eq for Text {
    ghost use Rattle.std.specs.Cmp.Rules.{comparing};
    ghost use Rattle.std.proofs.Common.{rules};

    ghost laws = { Prim.search (comparing, rules) };
}

impl Text {
    /// The text of these bytes. Takes no memory.
    ///
    /// # Errors
    ///
    /// [`LongText`] exactly where there are more than 1,024 bytes.
    pub fn new(bytes: Vec<u8>) -> Result<Text, LongText>
        ensures value { IfOk result (λ text. text ≡ bytes.items) }
        ensures short { OnOk result (length bytes.items ≤ 1024) }
        ensures long { OnErr result (1024 < length bytes.items) }
    {
        if bytes.len() > TEXT_MAX {
            return Err(LongText);
        }
        Ok(Text { bytes })
    }

    /// The bytes, at most 1,024 of them. Takes no memory.
    pub fn list(&self) -> &[u8]
        ensures value { result.now ≡ self.now }
        ensures short { length result.now ≤ 1024 }
    {
        self.bytes.as_slice()
    }

    /// An equal text.
    ///
    /// # Errors
    ///
    /// [`OutOfMemory`] for want of memory alone.
    pub fn copy(&self, alloc: Global) -> Result<Text, OutOfMemory>
        ensures equal { IfOk result (λ text. text ≡ self.now) }
    {
        Ok(Text {
            bytes: self.bytes.to_vec(alloc)?,
        })
    }
}

/// Bytes of any length. Contracts see the list of them.
#[derive(Debug, Drop)]
pub struct Bytes {
    bytes: Vec<u8>,
}

impl Model for Bytes {
    ghost Value = { List ℕ };

    ghost view = { λ b. b.bytes.items };
}

impl Clone for Bytes {
    ghost is_clone = { λ b c. c ≡ b };

    fn clone(&self) -> Result<Bytes, OutOfMemory> {
        Ok(Bytes {
            bytes: self.bytes.clone()?,
        })
    }
}

impl PartialEq for Bytes {
    ghost use Rattle.std.specs.Cmp.Rules.{comparing};
    ghost use Rattle.std.specs.Cmp.Lexicographic.{pointwise};
    ghost use Rattle.std.specs.Prelude.{◌==◌};
    ghost use Rattle.std.proofs.Common.{rules};

    ghost eq = { pointwise ◌==◌ };

    ghost laws = { Prim.search (comparing, rules) };

    fn eq(&self, other: &Bytes) -> bool {
        self.bytes.as_slice() == other.bytes.as_slice()
    }
}

impl Eq for Bytes {
    ghost use Rattle.std.specs.Cmp.Rules.{comparing};
    ghost use Rattle.std.proofs.Common.{rules};

    ghost laws = { Prim.search (comparing, rules) };
}

impl Bytes {
    /// These bytes. Takes no memory.
    pub fn new(bytes: Vec<u8>) -> Bytes
        ensures value { result ≡ bytes.items }
    {
        Bytes { bytes }
    }

    /// The bytes. Takes no memory.
    pub fn list(&self) -> &[u8]
        ensures value { result.now ≡ self.now }
    {
        self.bytes.as_slice()
    }

    /// Equal bytes.
    ///
    /// # Errors
    ///
    /// [`OutOfMemory`] for want of memory alone.
    pub fn copy(&self, alloc: Global) -> Result<Bytes, OutOfMemory>
        ensures equal { IfOk result (λ bytes. bytes ≡ self.now) }
    {
        Ok(Bytes {
            bytes: self.bytes.to_vec(alloc)?,
        })
    }
}
