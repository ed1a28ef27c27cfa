ghost use Rattle.std.specs.Prelude.{◌≡◌, ◌++◌, codes, OnOk, IfOk};
ghost use Rattle.std.specs.Fmt.{decimal};
ghost use Rattle.script_text.specs.Lines.{mech_name as mech_word_of, role_name as role_word_of};
ghost use Rattle.script_text.specs.Notation.{notation, plain};
ghost use Rattle.transcript_replay.specs.Printed.{bad_line, claim_word, clock_line, done_line};
ghost use Rattle.transcript_replay.specs.Printed.{dropped_line, partner_word};
ghost use Rattle.transcript_replay.specs.Printed.{reason_word as reason_word_of, refused_line};
ghost use Rattle.transcript_replay.specs.Printed.{run_line, sent_line, took_line, who_words};

use crate::reason::Reason;
use mech_rows::{Mech, Refusal, Role, RunHead};
use script_text::{print_refusal, print_term};
use std::alloc::Global;
use term_values::{Name, OutOfMemory, Term};

/// Appends a word.
fn put_word(out: &mut Vec<u8>, word: &str) -> Result<(), OutOfMemory>
    ensures { OnOk result (out.new.items ≡ out.old.items ++ word.now) }
{
    out.extend_from_slice(word.as_bytes())
}

/// Appends a number in decimal.
fn put_number(alloc: Global, out: &mut Vec<u8>, number: u64) -> Result<(), OutOfMemory>
    ensures { OnOk result (out.new.items ≡ out.old.items ++ decimal number) }
{
    let digits = format!(in alloc; "{number}")?;
    out.extend_from_slice(digits.as_bytes())
}

/// The line of a clock.
pub(crate) fn print_clock(alloc: Global, name: Name, now: u64) -> Result<Vec<u8>, OutOfMemory>
    ensures { IfOk result (λ v. v.items ≡ clock_line name now) }
{
    let mut out = Vec::new(alloc);
    put_word(&mut out, "clock ")?;
    put_number(alloc, &mut out, u64::from(name.get()))?;
    put_word(&mut out, " ")?;
    put_number(alloc, &mut out, now)?;
    put_word(&mut out, "\n")?;
    Ok(out)
}

/// Appends the line of a run that was opened.
pub(crate) fn put_run(alloc: Global, out: &mut Vec<u8>, run: u32) -> Result<(), OutOfMemory>
    ensures { OnOk result (out.new.items ≡ out.old.items ++ run_line run) }
{
    put_word(out, "run ")?;
    put_number(alloc, out, u64::from(run))?;
    put_word(out, "\n")
}

/// Appends the line of a run that took a message.
pub(crate) fn put_took(
    alloc: Global,
    out: &mut Vec<u8>,
    run: u32,
    pass: u8,
) -> Result<(), OutOfMemory>
    ensures { OnOk result (out.new.items ≡ out.old.items ++ took_line run pass) }
{
    put_word(out, "took ")?;
    put_number(alloc, out, u64::from(run))?;
    put_word(out, " ")?;
    put_number(alloc, out, u64::from(pass))?;
    put_word(out, "\n")
}

/// The line of a run that was dropped.
pub(crate) fn print_dropped(alloc: Global, run: u32) -> Result<Vec<u8>, OutOfMemory>
    ensures { IfOk result (λ v. v.items ≡ dropped_line run) }
{
    let mut out = Vec::new(alloc);
    put_word(&mut out, "dropped ")?;
    put_number(alloc, &mut out, u64::from(run))?;
    put_word(&mut out, "\n")?;
    Ok(out)
}

/// The line of an event that was refused.
pub(crate) fn print_refused(alloc: Global, refusal: &Refusal) -> Result<Vec<u8>, OutOfMemory>
    ensures { IfOk result (λ v. v.items ≡ refused_line refusal.now) }
{
    let mut out = Vec::new(alloc);
    put_word(&mut out, "refused ")?;
    let text = print_refusal(alloc, refusal)?;
    out.extend_from_slice(&text)?;
    put_word(&mut out, "\n")?;
    Ok(out)
}

/// Appends the line of a message that a run sent.
pub(crate) fn put_sent(
    alloc: Global,
    out: &mut Vec<u8>,
    message: usize,
    run: u32,
    term: &Term,
) -> Result<(), OutOfMemory>
    ensures { OnOk result (out.new.items ≡ out.old.items ++ sent_line message run term.now) }
{
    put_word(out, "sent ")?;
    put_number(alloc, out, message as u64)?;
    put_word(out, " ")?;
    put_number(alloc, out, u64::from(run))?;
    put_word(out, " ")?;
    let text = print_term(alloc, term)?;
    out.extend_from_slice(&text)?;
    put_word(out, "\n")
}

fn mech_word(mech: Mech) -> &'static str
    ensures { result.now ≡ mech_word_of mech }
{
    match mech {
        Mech::E1 => "E1",
        Mech::E2 => "E2",
        Mech::E3 => "E3",
        Mech::E4 => "E4",
        Mech::E5 => "E5",
        Mech::E6 => "E6",
        Mech::C1 => "C1",
        Mech::C2 => "C2",
        Mech::C3 => "C3",
        Mech::C4 => "C4",
        Mech::K3 => "K3",
        Mech::K4 => "K4",
        Mech::K5 => "K5",
        Mech::K6 => "K6",
        Mech::K8 => "K8",
        Mech::K9 => "K9",
    }
}

fn role_word(role: Role) -> &'static str
    ensures { result.now ≡ role_word_of role }
{
    match role {
        Role::A => "A",
        Role::B => "B",
        Role::P => "P",
    }
}

/// Appends what a completed run may rely on.
fn put_claim(
    alloc: Global,
    out: &mut Vec<u8>,
    claim: Option<Option<u32>>,
) -> Result<(), OutOfMemory>
    ensures { OnOk result (out.new.items ≡ out.old.items ++ claim_word claim) }
{
    match claim {
        None => put_word(out, "no-claim"),
        Some(None) => put_word(out, "partner -"),
        Some(Some(run)) => {
            put_word(out, "partner ")?;
            put_number(alloc, out, u64::from(run))
        }
    }
}

/// Appends a run's number, its mechanism and its role.
fn put_who(alloc: Global, out: &mut Vec<u8>, run: u32, head: &RunHead) -> Result<(), OutOfMemory>
    ensures { OnOk result (out.new.items ≡ out.old.items ++ who_words run head.now) }
{
    put_number(alloc, out, u64::from(run))?;
    put_word(out, " ")?;
    put_word(out, mech_word(head.mech))?;
    put_word(out, " ")?;
    put_word(out, role_word(head.role))
}

/// Appends the line of a run that is done.
pub(crate) fn put_done(
    alloc: Global,
    out: &mut Vec<u8>,
    run: u32,
    head: &RunHead,
    claim: Option<Option<u32>>,
) -> Result<(), OutOfMemory>
    ensures { OnOk result (out.new.items ≡ out.old.items ++ done_line run head.now claim) }
{
    put_word(out, "done ")?;
    put_who(alloc, out, run, head)?;
    put_word(out, " - ")?;
    put_claim(alloc, out, claim)?;
    put_word(out, "\n")
}

fn reason_word(reason: Reason) -> &'static str
    ensures { result.now ≡ reason_word_of reason }
{
    match reason {
        Reason::Grammar => "Grammar",
        Reason::Order => "Order",
        Reason::Reference => "Reference",
        Reason::Config => "Config",
    }
}

/// The line of a line that is bad.
pub(crate) fn print_bad(
    alloc: Global,
    number: usize,
    reason: Reason,
) -> Result<Vec<u8>, OutOfMemory>
    ensures { IfOk result (λ v. v.items ≡ bad_line number reason) }
{
    let mut out = Vec::new(alloc);
    put_word(&mut out, "bad ")?;
    put_number(alloc, &mut out, number as u64)?;
    put_word(&mut out, " ")?;
    put_word(&mut out, reason_word(reason))?;
    put_word(&mut out, "\n")?;
    Ok(out)
}
