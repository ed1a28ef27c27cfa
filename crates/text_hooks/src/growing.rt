ghost use Rattle.std.specs.Prelude.{◌≡◌, ◌≢◌, ◌∷◌, [], Ok, Err, IfOk, IfErr};
ghost use Rattle.mech_rows.specs.Runs.{Got as GotView};
ghost use Rattle.mech_rows.specs.declared.refusal.Refusal.TheVariants.{Memory};

use crate::openings::{one_opening, one_stamp};
use crate::role_state::Reply;
use crate::saying::Said;
use mech_rows::{Got, Opening, Refusal};
use std::alloc::Global;
use term_values::Term;

/// What is known, and what was read.
///
/// # Errors
///
/// The refusal of what was read; want of memory.
pub fn grown<K: Clone, V: Drop>(known: &K, read: Result<V, Refusal>) -> Result<(K, V), Refusal>
    ensures grown { IfOk result (λ p. (K.is_clone known.now p.0) × (read ≡ Ok p.1)) }
    ensures refused { IfErr result (λ e. e ≢ Memory → read ≡ Err e) }
{
    let new = read?;
    let old = known.clone()?;
    Ok((old, new))
}

/// What is held, beside what was read or made.
///
/// # Errors
///
/// The refusal of what was read or made.
pub fn beside<T: Drop, U: Drop>(held: T, new: Result<U, Refusal>) -> Result<(T, U), Refusal>
    ensures both { IfOk result (λ p. (p.0 ≡ held) × (new ≡ Ok p.1)) }
    ensures refused { IfErr result (λ e. new ≡ Err e) }
{
    let new = new?;
    Ok((held, new))
}

/// What was read of an item, which was opened or tested, and a list of that item.
///
/// # Errors
///
/// The refusal of what was read; want of memory.
pub fn read_by<V: Drop>(
    alloc: Global,
    read: Result<V, Refusal>,
    item: Opening,
) -> Result<(V, Vec<Opening>), Refusal>
    ensures read { IfOk result (λ p. (read ≡ Ok p.0) × (p.1.items ≡ item ∷ [])) }
    ensures refused { IfErr result (λ e. e ≢ Memory → read ≡ Err e) }
{
    let new = read?;
    let opened = one_opening(alloc, item)?;
    Ok((new, opened))
}

/// What is known and what was read of an item, which was opened or tested, and a list of that item.
///
/// # Errors
///
/// The refusal of what was read; want of memory.
pub fn grown_by<K: Clone, V: Drop>(
    alloc: Global,
    known: &K,
    read: Result<V, Refusal>,
    item: Opening,
) -> Result<(K, V, Vec<Opening>), Refusal>
    ensures grown { IfOk result (λ p.
        (K.is_clone known.now p.0) × (read ≡ Ok p.1) × (p.2.items ≡ item ∷ [])) }
    ensures refused { IfErr result (λ e. e ≢ Memory → read ≡ Err e) }
{
    let (old, new) = grown(known, read)?;
    let opened = one_opening(alloc, item)?;
    Ok((old, new, opened))
}

/// What was read of an item with a stamp to judge, and lists of that item and of that stamp.
///
/// # Errors
///
/// The refusal of what was read; want of memory.
pub fn judged_by<V: Drop>(
    alloc: Global,
    read: Result<(V, Got), Refusal>,
    item: Opening,
) -> Result<(V, Vec<Opening>, Vec<Got>), Refusal>
    ensures read { IfOk result (λ p. (g : GotView)
        × (read ≡ Ok (p.0, g)) × (p.1.items ≡ item ∷ []) × (p.2.items ≡ g ∷ [])) }
    ensures refused { IfErr result (λ e. e ≢ Memory → read ≡ Err e) }
{
    let (new, got) = read?;
    let opened = one_opening(alloc, item)?;
    let got = one_stamp(alloc, got)?;
    Ok((new, opened, got))
}

/// What is known, what was read of an item with a stamp to judge, and lists of that item and of
/// that stamp.
///
/// # Errors
///
/// The refusal of what was read; want of memory.
pub fn grown_and_judged<K: Clone, V: Drop>(
    alloc: Global,
    known: &K,
    read: Result<(V, Got), Refusal>,
    item: Opening,
) -> Result<(K, V, Vec<Opening>, Vec<Got>), Refusal>
    ensures grown { IfOk result (λ p. K.is_clone known.now p.0) }
    ensures read { IfOk result (λ p. (g : GotView)
        × (read ≡ Ok (p.1, g)) × (p.2.items ≡ item ∷ []) × (p.3.items ≡ g ∷ [])) }
    ensures refused { IfErr result (λ e. e ≢ Memory → read ≡ Err e) }
{
    let (new, opened, got) = judged_by(alloc, read, item)?;
    let old = known.clone()?;
    Ok((old, new, opened, got))
}

/// What is known, and the message with its item.
///
/// # Errors
///
/// Want of memory alone.
pub fn said_still<K: Clone>(alloc: Global, known: &K, said: Said) -> Result<Reply<K>, Refusal>
    ensures after { IfOk result (λ r. K.is_clone known.now r.after) }
    ensures message { IfOk result (λ r. r.message ≡ said.message) }
    ensures sealed { IfOk result (λ r. r.sealed.items ≡ said.item ∷ []) }
    ensures memory { IfErr result (λ e. e ≡ Memory) }
{
    let after = known.clone()?;
    let (message, sealed) = parts_of(alloc, said)?;
    Ok(Reply {
        after,
        message,
        sealed,
    })
}

/// What is known, and a message with the items that were made for it.
///
/// # Errors
///
/// Want of memory alone.
pub fn said_with<K: Clone>(known: &K, said: (Term, Vec<Opening>)) -> Result<Reply<K>, Refusal>
    ensures after { IfOk result (λ r. K.is_clone known.now r.after) }
    ensures message { IfOk result (λ r. r.message ≡ said.0) }
    ensures sealed { IfOk result (λ r. r.sealed.items ≡ said.1.items) }
    ensures memory { IfErr result (λ e. e ≡ Memory) }
{
    let (message, sealed) = said;
    let after = known.clone()?;
    Ok(Reply {
        after,
        message,
        sealed,
    })
}

/// What is known, and a message with no item.
///
/// # Errors
///
/// Want of memory alone.
pub fn asked<K: Clone>(alloc: Global, known: &K, message: Term) -> Result<Reply<K>, Refusal>
    ensures after { IfOk result (λ r. K.is_clone known.now r.after) }
    ensures message { IfOk result (λ r. r.message ≡ message) }
    ensures sealed { IfOk result (λ r. r.sealed.items ≡ []) }
    ensures memory { IfErr result (λ e. e ≡ Memory) }
{
    let after = known.clone()?;
    Ok(Reply {
        after,
        message,
        sealed: Vec::new(alloc),
    })
}

/// The message, and a list of the item that was made for it.
///
/// # Errors
///
/// Want of memory alone.
pub fn parts_of(alloc: Global, said: Said) -> Result<(Term, Vec<Opening>), Refusal>
    ensures parts { IfOk result (λ p. (p.0 ≡ said.message) × (p.1.items ≡ said.item ∷ [])) }
    ensures memory { IfErr result (λ e. e ≡ Memory) }
{
    let Said { message, item } = said;
    let sealed = one_opening(alloc, item)?;
    Ok((message, sealed))
}
