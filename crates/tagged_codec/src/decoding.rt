ghost use Rattle.std.specs.Prelude.{◌≡◌, ◌≤◌, ◌++◌, ℕ, List, length, take, IfOk, MatchResult, Err};
ghost use Rattle.term_values.specs.declared.Why.{Why};
ghost use Rattle.term_values.specs.Trees.{Tree};
ghost use Rattle.tagged_codec.specs.Faults.{IsFault, IsWholeFault, reason_of};
ghost use Rattle.tagged_codec.specs.Grammar.{IsSpelling};

use crate::kinds::{LEVELS_MAX, SPELLING_MAX};
use crate::reading::{ReadFault, Reader};
use std::alloc::Global;
use term_values::{Term, Why};

/// Why no term was read.
#[derive(Clone, Copy, Debug, PartialEq, Eq)]
pub enum DecodeFault {
    /// The bytes before the place, a number of bytes of the input, begin a spelling, were its whole length not limited.
    /// With the byte at the place they begin none, or the input or its first 8,192 bytes end there.
    Malformed { place: usize, why: Why },
    /// Memory ran out.
    Memory,
}

/// The bytes that can be part of a spelling.
fn first_bytes(bytes: &[u8]) -> &[u8]
    ensures { result.now ≡ take 8192 bytes.now }
{
    if bytes.len() > SPELLING_MAX {
        return &bytes[..SPELLING_MAX];
    }
    bytes
}

/// The reason for the whole input, where reading its first bytes stopped for this one.
fn reason(why: Why, length: usize) -> Why
    ensures { result ≡ reason_of why length }
{
    match why {
        Why::Short if length > SPELLING_MAX => Why::LongMessage,
        _ => why,
    }
}

/// The term whose spelling begins the bytes, and the length of the spelling. `Malformed` exactly where no front of the
/// bytes is a spelling.
pub fn decode(alloc: Global, bytes: &[u8]) -> Result<(Term, usize), DecodeFault>
    ensures found { IfOk result (λ f. (f.1 ≤ length bytes.now)
        × IsSpelling f.0 (take f.1 bytes.now)) }
    ensures malformed { (place : ℕ) (why : Why) → result ≡ Err (DecodeFault.Malformed place why) →
        IsFault bytes.now place why }
    // What was encoded is read again, whatever follows it, unless memory runs out.
    ensures again { (t : Tree) (text rest : List ℕ) → IsSpelling t text → bytes.now ≡ text ++ rest →
        MatchResult result (λ f. (f.0 ≡ t) × (f.1 ≡ length text)) (λ e. e ≡ DecodeFault.Memory) }
{
    let front = first_bytes(bytes);
    let mut reader = Reader { rest: front };
    match reader.term(alloc, LEVELS_MAX) {
        Ok(term) => {
            let left = reader.rest.len();
            prove!(left <= front.len());
            Ok((term, front.len() - left))
        }
        Err(ReadFault::Malformed(why)) => {
            let left = reader.rest.len();
            prove!(left <= front.len());
            Err(DecodeFault::Malformed {
                place: front.len() - left,
                why: reason(why, bytes.len()),
            })
        }
        Err(ReadFault::Memory) => Err(DecodeFault::Memory),
    }
}

/// The term whose spelling is all of the bytes. `Malformed` exactly where they are no spelling; `Extra` where only a
/// front of them is one.
pub fn decode_whole(alloc: Global, bytes: &[u8]) -> Result<Term, DecodeFault>
    ensures found { IfOk result (λ t. IsSpelling t bytes.now) }
    ensures malformed { (place : ℕ) (why : Why) → result ≡ Err (DecodeFault.Malformed place why) →
        IsWholeFault bytes.now place why }
    // What was encoded is read again, unless memory runs out.
    ensures again { (t : Tree) → IsSpelling t bytes.now →
        MatchResult result (λ u. u ≡ t) (λ e. e ≡ DecodeFault.Memory) }
{
    let (term, used) = decode(alloc, bytes)?;
    let left = bytes.len() - used;
    if left > 0 {
        return Err(DecodeFault::Malformed {
            place: used,
            why: Why::Extra,
        });
    }
    Ok(term)
}
