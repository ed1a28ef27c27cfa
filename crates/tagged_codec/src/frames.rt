ghost use Rattle.std.specs.Prelude.{◌≡◌, ◌↔◌, ◌<◌, ◌≤◌, ◌++◌, ℕ, List, [], length, drop, Ok, Err};
ghost use Rattle.std.specs.Prelude.{Some, None, IfOk, IfSome, IfNone, OnOk, OnErr, MatchOption};
ghost use Rattle.std.specs.Prelude.{MatchResult};
ghost use Rattle.tagged_codec.specs.Frames.{frame_of, HoldsNoFrame, IsTooLong, TakesFirst};

use crate::kinds::SPELLING_MAX;
use std::alloc::Global;
use std::marker::Model;
use term_values::OutOfMemory;

/// Why no message was taken.
#[derive(Clone, Copy, Debug, PartialEq, Eq)]
pub enum FrameFault {
    /// The next two bytes announce a message of this length, which is above 8,192.
    TooLong { length: u16 },
    /// Memory ran out.
    Memory,
}

impl From<OutOfMemory> for FrameFault {
    ghost use Rattle.tagged_codec.specs.declared.frames.FrameFault.TheVariants.{Memory};
    ghost use Rattle.std.specs.Prelude.{◌≡◌};

    ghost from_gives = { λ _ e. e ≡ Memory };

    fn from(_: OutOfMemory) -> FrameFault {
        FrameFault::Memory
    }
}

/// The length of the message, of at most 8,192 bytes, as two bytes, the greater first, and the message. Fails only
/// when memory runs out.
pub fn frame(alloc: Global, message: &[u8]) -> Result<Vec<u8>, OutOfMemory>
    requires { length message.now ≤ 8192 }
    ensures { IfOk result (λ v. v.items ≡ frame_of message.now) }
{
    let mut out = Vec::new(alloc);
    out.extend_from_slice(&(message.len() as u16).to_be_bytes())?;
    out.extend_from_slice(message)?;
    Ok(out)
}

/// The first message that the bytes hold whole, or the length above 8,192 that they announce.
fn first_message(bytes: &[u8]) -> Result<Option<&[u8]>, u16>
    ensures whole { IfOk result (λ first. MatchOption first (HoldsNoFrame bytes.now)
        (λ message. TakesFirst bytes.now message.now
        (drop (length (frame_of message.now)) bytes.now))) }
    ensures long { (n : ℕ) → (result ≡ Err n) ↔ IsTooLong bytes.now n }
    ensures few { result ≡ Ok None → length bytes.now < 8194 }
{
    let [high, low, rest @ ..] = bytes else {
        return Ok(None);
    };
    let length = u16::from_be_bytes([*high, *low]);
    if usize::from(length) > SPELLING_MAX {
        return Err(length);
    }
    if rest.len() < usize::from(length) {
        return Ok(None);
    }
    Ok(Some(&rest[..usize::from(length)]))
}

/// Takes a stream of frames apart. Contracts see the bytes that were fed and not yet taken.
#[derive(Debug, Drop)]
pub struct Deframer {
    bytes: Vec<u8>,
    start: usize,
}

impl Model for Deframer {
    ghost use Rattle.std.specs.Prelude.{ℕ, ◌≤◌, List, drop, length};

    ghost Value = { List ℕ };

    ghost view = { λ d. drop d.start d.bytes.items };

    ghost invariant = { λ d. d.start ≤ length d.bytes.items };
}

impl Deframer {
    /// No bytes are kept.
    pub fn new(alloc: Global) -> Deframer
        ensures { result ≡ [] }
    {
        Deframer {
            bytes: Vec::new(alloc),
            start: 0,
        }
    }

    /// Moves the kept bytes to the front of the buffer, so that it does not grow with the stream. It is called where at
    /// least as many bytes were taken since, so all moves together cost no more than what was fed.
    fn compact(&mut self)
        ensures { self.new ≡ self.old }
    {
        let end = self.bytes.len();
        self.bytes.copy_within(self.start..end, 0);
        self.bytes.truncate(end - self.start);
        self.start = 0;
    }

    /// Appends the piece. When memory runs out, the kept bytes stay as they were.
    pub fn feed(&mut self, piece: &[u8]) -> Result<(), OutOfMemory>
        ensures ok { OnOk result (self.new ≡ self.old ++ piece.now) }
        ensures err { OnErr result (self.new ≡ self.old) }
    {
        if self.start >= self.bytes.len() - self.start {
            self.compact();
        }
        self.bytes.extend_from_slice(piece)
    }

    /// Takes the first whole frame's message off. `None` where the kept bytes hold no whole frame and announce no
    /// length above 8,192; they are then fewer than 8,194. After an `Err`, for want of memory too, they stay as they
    /// were, so after `TooLong` each later call answers the same.
    pub fn next(&mut self) -> Result<Option<Vec<u8>>, FrameFault>
        ensures taken { IfOk result (λ first.
            IfSome first (λ message. TakesFirst self.old message.items self.new)) }
        ensures none { result ≡ Ok None → HoldsNoFrame self.old × (self.new ≡ self.old) }
        ensures few { result ≡ Ok None → length self.new < 8194 }
        ensures long { (n : ℕ) → (result ≡ Err (FrameFault.TooLong n)) ↔ IsTooLong self.old n }
        ensures err { OnErr result (self.new ≡ self.old) }
    {
        match first_message(&self.bytes[self.start..]) {
            Ok(None) => Ok(None),
            Ok(Some(message)) => {
                let taken = Vec::from_slice(*self.bytes.allocator(), message)?;
                self.start += 2 + message.len();
                Ok(Some(taken))
            }
            Err(length) => Err(FrameFault::TooLong { length }),
        }
    }
}
