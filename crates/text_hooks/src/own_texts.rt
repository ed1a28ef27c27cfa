ghost use Rattle.std.specs.Prelude.{◌≡◌, [], IfOk};
ghost use Rattle.mech_rows.specs.Openings.{text_for};

use mech_rows::{Slot, Texts};
use std::alloc::Global;
use term_values::{OutOfMemory, Text};

/// The text that was given for the slot, and else the empty text.
///
/// # Errors
///
/// Want of memory alone.
#[tactic(auto, using(crate::proofs::Texts::text_some, crate::proofs::Texts::text_none))]
pub fn own_text(alloc: Global, texts: &Texts, slot: Slot) -> Result<Text, OutOfMemory>
    ensures text { IfOk result (λ t. t ≡ text_for texts.now slot) }
{
    match texts.find(slot) {
        Some(text) => text.copy(alloc),
        None => empty_text(alloc),
    }
}

fn empty_text(alloc: Global) -> Result<Text, OutOfMemory>
    ensures empty { IfOk result (λ t. t ≡ []) }
{
    match Text::new(Vec::new(alloc)) {
        Ok(text) => Ok(text),
        Err(_) => unreachable!(),
    }
}
