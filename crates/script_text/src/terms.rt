ghost use Rattle.std.specs.Prelude.{◌≡◌, ◌↔◌, ◌==◌, ℕ, List, IfOk, IsTrue, Err};
ghost use Rattle.std.specs.List.{count_by};
ghost use Rattle.term_values.specs.Trees.{Tree};
ghost use Rattle.tagged_codec.specs.Grammar.{IsInLimits};
ghost use Rattle.script_text.specs.Notation.{IsReadAs, IsReadUnnamed, IsReading, ReadAlike};
ghost use Rattle.script_text.specs.Notation.{Written};

use crate::bad::BadLine;
use crate::reading::{Marks, ReadFault, Reader};
use std::alloc::Global;
use tagged_codec::{EncodeFault, encode};
use term_values::Term;

/// The most bytes of a spelling.
const SPELLING_MAX: u32 = 8192;

/// The most levels of a term.
const LEVELS_MAX: u32 = 8;

/// Whether the term has a spelling.
fn in_limits(alloc: Global, term: &Term) -> Result<bool, ReadFault>
    ensures answer { IfOk result (λ b. IsTrue b ↔ IsInLimits term.now) }
    ensures memory { result ≡ Err ReadFault.Malformed → ⊥ }
{
    match encode(alloc, term) {
        Ok(_) => Ok(true),
        Err(EncodeFault::TooLarge) => Ok(false),
        Err(EncodeFault::Memory) => Err(ReadFault::Memory),
    }
}

/// How many commas a text has.
fn count_commas(text: &[u8]) -> usize
    ensures { result ≡ count_by (λ c. c == 44) text.now }
{
    text.iter().filter(|c| **c == b',').count()
}

/// The term that the text writes, in which `@m` stands for message m of those sent, from 1, and `@m.i` for its item i,
/// from 0. It reads no deeper than 8 levels, copies no more of the messages than a spelling may hold, and reads nothing of a
/// text with more commas than a spelling has bytes.
///
/// # Errors
///
/// [`BadLine::Grammar`] exactly where the text is no notation, or the term has no spelling; an `@` that names nothing
/// counts as the empty tuple here. [`BadLine::Reference`] exactly where it has no such fault and an `@` names nothing.
/// [`BadLine::Memory`] for want of memory alone.
pub fn read_term(alloc: Global, text: &[u8], sent: &[Term]) -> Result<Term, BadLine>
    ensures ok { IfOk result (λ t. IsReadAs sent.now text.now t) }
    ensures reference { result ≡ Err BadLine.Reference → IsReadUnnamed sent.now text.now }
    ensures grammar { result ≡ Err BadLine.Grammar → (w : Written) → IsReading sent.now text.now w →
        ⊥ }
{
    if count_commas(text) > SPELLING_MAX as usize {
        return Err(BadLine::Grammar);
    }
    let mut reader = Reader { rest: text };
    let mut marks = Marks {
        left: SPELLING_MAX,
        named: true,
    };
    let term = reader.term(alloc, sent, &mut marks, LEVELS_MAX)?;
    if !reader.rest.is_empty() {
        return Err(BadLine::Grammar);
    }
    if !in_limits(alloc, &term)? {
        return Err(BadLine::Grammar);
    }
    if !marks.named {
        return Err(BadLine::Reference);
    }
    Ok(term)
}

/// What a text says is determined: two readings of it give one term, and name what is there alike.
pub fn one_reading()
    ensures { (sent : List Tree) (bytes : List ℕ) (v w : Written) → IsReading sent bytes v →
        IsReading sent bytes w → ReadAlike sent v w }
{}
