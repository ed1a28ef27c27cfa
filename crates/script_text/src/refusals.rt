ghost use Rattle.std.specs.Prelude.{◌≡◌, ◌∷◌, ◌++◌, OnOk, IfOk};
ghost use Rattle.std.specs.Fmt.{decimal};
ghost use Rattle.script_text.specs.Notation.{stamp_notation};
ghost use Rattle.script_text.specs.Refusals.{field, refusal_fields, refusal_name, refusal_text};
ghost use Rattle.script_text.specs.Refusals.{slot_name, why_name};

use mech_rows::{Refusal, Slot};
use std::alloc::Global;
use term_values::{OutOfMemory, Stamp, Why};

fn why_name(why: Why) -> &'static str
    ensures { result.now ≡ why_name why }
{
    match why {
        Why::Kind => "Kind",
        Why::Short => "Short",
        Why::ZeroName => "ZeroName",
        Why::LongText => "LongText",
        Why::LongBlob => "LongBlob",
        Why::ManyItems => "ManyItems",
        Why::Deep => "Deep",
        Why::LongMessage => "LongMessage",
        Why::Extra => "Extra",
    }
}

fn slot_name(slot: Slot) -> &'static str
    ensures { result.now ≡ slot_name slot }
{
    match slot {
        Slot::Ra => "Ra",
        Slot::Rb => "Rb",
        Slot::Ra2 => "Ra2",
        Slot::Ta => "Ta",
        Slot::Tb => "Tb",
        Slot::Tp => "Tp",
        Slot::Fa => "Fa",
        Slot::Fb => "Fb",
        Slot::X1 => "X1",
        Slot::X2 => "X2",
        Slot::X3 => "X3",
        Slot::X4 => "X4",
        Slot::X5 => "X5",
        Slot::X6 => "X6",
        Slot::X7 => "X7",
        Slot::X8 => "X8",
        Slot::X9 => "X9",
        Slot::Fwd => "Fwd",
    }
}

fn refusal_name(refusal: &Refusal) -> &'static str
    ensures { result.now ≡ refusal_name refusal.now }
{
    match refusal {
        Refusal::UnknownRun => "UnknownRun",
        Refusal::EndedRun => "EndedRun",
        Refusal::Malformed { .. } => "Malformed",
        Refusal::WrongPass => "WrongPass",
        Refusal::Unopened { .. } => "Unopened",
        Refusal::WrongShape { .. } => "WrongShape",
        Refusal::WrongNames { .. } => "WrongNames",
        Refusal::WrongValue { .. } => "WrongValue",
        Refusal::WrongStampKind { .. } => "WrongStampKind",
        Refusal::Early { .. } => "Early",
        Refusal::Late { .. } => "Late",
        Refusal::Repeated { .. } => "Repeated",
        Refusal::StoreFull { .. } => "StoreFull",
        Refusal::TextRefused { .. } => "TextRefused",
        Refusal::NotDerivable => "NotDerivable",
        Refusal::Unborn => "Unborn",
        Refusal::NoSecret => "NoSecret",
        Refusal::UnknownParty => "UnknownParty",
        Refusal::WrongKind => "WrongKind",
        Refusal::SelfPeer => "SelfPeer",
        Refusal::NoKey => "NoKey",
        Refusal::TableFull => "TableFull",
        Refusal::StampsSpent => "StampsSpent",
        Refusal::DrawFault => "DrawFault",
        Refusal::Moved { .. } => "Moved",
        Refusal::KeeperFault => "KeeperFault",
        Refusal::Memory => "Memory",
    }
}

fn put_decimal(alloc: Global, out: &mut Vec<u8>, number: u64) -> Result<(), OutOfMemory>
    ensures { OnOk result (out.new.items ≡ out.old.items ++ decimal number) }
{
    let digits = format!(in alloc; "{number}")?;
    out.extend_from_slice(digits.as_bytes())
}

/// Appends a blank and a number.
fn put_count(alloc: Global, out: &mut Vec<u8>, number: u64) -> Result<(), OutOfMemory>
    ensures { OnOk result (out.new.items ≡ out.old.items ++ field (decimal number)) }
{
    out.push(b' ')?;
    put_decimal(alloc, out, number)
}

/// Appends a blank and a word.
fn put_word(out: &mut Vec<u8>, word: &str) -> Result<(), OutOfMemory>
    ensures { OnOk result (out.new.items ≡ out.old.items ++ field word.now) }
{
    out.push(b' ')?;
    out.extend_from_slice(word.as_bytes())
}

/// Appends a blank and the notation of a stamp.
fn put_stamp(alloc: Global, out: &mut Vec<u8>, stamp: Stamp) -> Result<(), OutOfMemory>
    ensures { OnOk result (out.new.items ≡ out.old.items ++ field (stamp_notation stamp)) }
{
    match stamp {
        Stamp::Time(ms) => {
            put_word(out, "T:")?;
            put_decimal(alloc, out, ms)
        }
        Stamp::Seq(number) => {
            put_word(out, "Q:")?;
            put_decimal(alloc, out, number)
        }
    }
}

fn put_fields(alloc: Global, out: &mut Vec<u8>, refusal: &Refusal) -> Result<(), OutOfMemory>
    ensures { OnOk result (out.new.items ≡ out.old.items ++ refusal_fields refusal.now) }
{
    match *refusal {
        Refusal::Malformed { place, why } => {
            put_count(alloc, out, place as u64)?;
            put_word(out, why_name(why))
        }
        Refusal::Unopened { part } => put_count(alloc, out, u64::from(part)),
        Refusal::WrongShape { part } => put_count(alloc, out, u64::from(part)),
        Refusal::WrongNames { part } => put_count(alloc, out, u64::from(part)),
        Refusal::WrongValue { part, slot } => {
            put_count(alloc, out, u64::from(part))?;
            put_word(out, slot_name(slot))
        }
        Refusal::WrongStampKind { slot } => put_word(out, slot_name(slot)),
        Refusal::Early { slot, at } => {
            put_word(out, slot_name(slot))?;
            put_count(alloc, out, at)
        }
        Refusal::Late { slot, at } => {
            put_word(out, slot_name(slot))?;
            put_count(alloc, out, at)
        }
        Refusal::Repeated { stamp } => put_stamp(alloc, out, stamp),
        Refusal::StoreFull { count } => put_count(alloc, out, u64::from(count)),
        Refusal::TextRefused { slot } => put_word(out, slot_name(slot)),
        Refusal::Moved { made, held } => {
            put_count(alloc, out, u64::from(made))?;
            put_count(alloc, out, u64::from(held))
        }
        Refusal::UnknownRun
        | Refusal::EndedRun
        | Refusal::WrongPass
        | Refusal::NotDerivable
        | Refusal::Unborn
        | Refusal::NoSecret
        | Refusal::UnknownParty
        | Refusal::WrongKind
        | Refusal::SelfPeer
        | Refusal::NoKey
        | Refusal::TableFull
        | Refusal::StampsSpent
        | Refusal::DrawFault
        | Refusal::KeeperFault
        | Refusal::Memory => Ok(()),
    }
}

/// A refusal as lines print it: its number, its name and its fields in their order, one blank between two of
/// them. A slot and a reason of malformed bytes print as their names, a stamp in its notation, a number in decimal.
///
/// # Errors
///
/// [`OutOfMemory`] for want of memory alone.
pub fn print_refusal(alloc: Global, refusal: &Refusal) -> Result<Vec<u8>, OutOfMemory>
    ensures text { IfOk result (λ v. v.items ≡ refusal_text refusal.now) }
{
    let mut out = Vec::new(alloc);
    put_decimal(alloc, &mut out, u64::from(refusal.code()))?;
    put_word(&mut out, refusal_name(refusal))?;
    put_fields(alloc, &mut out, refusal)?;
    Ok(out)
}
