ghost use Rattle.std.specs.Prelude.{◌≡◌, ◌+◌, ◌↔◌, ℕ, Option, Some, IsErr, IfOk, OnOk, OnErr};
ghost use Rattle.std.specs.Prelude.{is_err};
ghost use Rattle.outside.specs.Causes.{HasCause};
ghost use Rattle.outside.specs.Tally.{IsToFail, no_calls, tally_after};
ghost use Rattle.outside.specs.Told.{Told, IsDrawn, nonce_draw, part_draw, counted_draw};

use crate::calls::Calls;
use crate::fault::Failed;
use std::marker::Model;
use term_values::{Nonce, Part};

/// Where nonces and parts are drawn.
pub trait Draws {
    /// The place of the next draw and what each draw gives, where that is told.
    ghost told: { Self → Option Told };

    /// How often the outside has failed.
    ghost fault_count: { Self → ℕ };

    /// How often the outside has failed. The count never falls; one that stands at
    /// 18,446,744,073,709,551,615 stands still.
    fn faults(&self) -> u64
        ensures count { result ≡ fault_count self.now };

    /// The nonce at the place of the next draw, which rises by one.
    ///
    /// # Errors
    ///
    /// [`Failed`] only where the count of faults rose in this call; the place stays. After Ok the count stays.
    fn nonce(&mut self) -> Result<Nonce, Failed>
        ensures drawn { IfOk result (λ nonce.
            IsDrawn nonce_draw (told self.old) (told self.new) nonce) }
        ensures stays { OnErr result (told self.new ≡ told self.old) }
        ensures quiet { OnOk result (fault_count self.new ≡ fault_count self.old) }
        ensures cause { HasCause (fault_count self.old) (fault_count self.new) result };

    /// The part at the place of the next draw, which rises by one.
    ///
    /// # Errors
    ///
    /// [`Failed`] only where the count of faults rose in this call; the place stays. After Ok the count stays.
    fn part(&mut self) -> Result<Part, Failed>
        ensures drawn { IfOk result (λ part.
            IsDrawn part_draw (told self.old) (told self.new) part) }
        ensures stays { OnErr result (told self.new ≡ told self.old) }
        ensures quiet { OnOk result (fault_count self.new ≡ fault_count self.old) }
        ensures cause { HasCause (fault_count self.old) (fault_count self.new) result };
}

/// Draws in memory, which count from 0, and some of whose calls fail. Contracts see the byte that
/// each begins with, how many were made, and the calls.
#[derive(Debug, Drop)]
pub struct MemDraws {
    lead: u8,
    place: u64,
    calls: Calls,
}

impl Model for MemDraws {
    ghost use Rattle.std.specs.Prelude.{◌≤◌};
    ghost use Rattle.outside.specs.Memory.{DrawParts};

    ghost Value = { DrawParts };

    ghost view = { λ d. record { lead = d.lead; place = d.place; calls = d.calls } };

    ghost invariant = { λ d. d.place ≤ d.calls.done };
}

impl MemDraws {
    /// Draws that are numbered from 0: each is this byte, then its number in big-endian order, which
    /// fills the 15 bytes left of a nonce or the 31 of a part. The calls are numbered together from 1; those
    /// whose numbers are listed fail. Takes no memory.
    pub fn new(lead: u8, failing: Vec<u64>) -> MemDraws
        ensures lead { result.lead ≡ lead }
        ensures place { result.place ≡ 0 }
        ensures calls { result.calls ≡ no_calls failing.items }
    {
        MemDraws {
            lead,
            place: 0,
            calls: Calls::new(failing),
        }
    }

    /// The place of this draw, which the next one leaves behind.
    fn next_place(&mut self) -> Result<u64, Failed>
        ensures place { IfOk result (λ place. (place ≡ self.old.place)
            × (self.new.place ≡ self.old.place + 1)) }
        ensures stays { OnErr result (self.new.place ≡ self.old.place) }
        ensures lead { self.new.lead ≡ self.old.lead }
        ensures fails { IsErr result ↔ IsToFail self.old.calls }
        ensures counted { self.new.calls ≡ tally_after (is_err result) self.old.calls }
        ensures cause { HasCause self.old.calls.faults self.new.calls.faults result }
    {
        self.calls.count()?;
        let place = self.place;
        self.place += 1;
        Ok(place)
    }
}

/// Draw k of nonces: the byte and k as 15 bytes, the greater byte first.
#[tactic(auto, unfolding(crate::specs::Told::counted_draw))]
fn nonce_at(lead: u8, k: u64) -> Nonce
    ensures value { result ≡ counted_draw lead nonce_draw k }
{
    let mut bytes = u128::from(k).to_be_bytes();
    bytes[0] = lead;
    Nonce(bytes)
}

/// Draw k of parts: the byte and k as 31 bytes, the greater byte first.
#[tactic(auto, unfolding(crate::specs::Told::counted_draw))]
fn part_at(lead: u8, k: u64) -> Part
    ensures value { result ≡ counted_draw lead part_draw k }
{
    let mut bytes = [0; 32];
    bytes[16..].copy_from_slice(&u128::from(k).to_be_bytes());
    bytes[0] = lead;
    Part(bytes)
}

impl Draws for MemDraws {
    ghost told = { λ d. Some (record { place = d.place; value = counted_draw d.lead }) };

    ghost fault_count = { λ d. d.calls.faults };

    fn faults(&self) -> u64 {
        self.calls.faults()
    }

    /// The nonce at the place of the next draw, which rises by one.
    ///
    /// # Errors
    ///
    /// [`Failed`] exactly where the number of this call is listed or above
    /// 18,446,744,073,709,551,615; the place stays.
    fn nonce(&mut self) -> Result<Nonce, Failed>
        ensures drawn { IfOk result (λ nonce.
            (nonce ≡ counted_draw self.old.lead nonce_draw self.old.place)
            × (self.new.place ≡ self.old.place + 1)) }
        ensures stays { OnErr result (self.new.place ≡ self.old.place) }
        ensures lead { self.new.lead ≡ self.old.lead }
        ensures fails { IsErr result ↔ IsToFail self.old.calls }
        ensures counted { self.new.calls ≡ tally_after (is_err result) self.old.calls }
        ensures cause { HasCause self.old.calls.faults self.new.calls.faults result }
    {
        let place = self.next_place()?;
        Ok(nonce_at(self.lead, place))
    }

    /// The part at the place of the next draw, which rises by one.
    ///
    /// # Errors
    ///
    /// [`Failed`] exactly where the number of this call is listed or above
    /// 18,446,744,073,709,551,615; the place stays.
    fn part(&mut self) -> Result<Part, Failed>
        ensures drawn { IfOk result (λ part.
            (part ≡ counted_draw self.old.lead part_draw self.old.place)
            × (self.new.place ≡ self.old.place + 1)) }
        ensures stays { OnErr result (self.new.place ≡ self.old.place) }
        ensures lead { self.new.lead ≡ self.old.lead }
        ensures fails { IsErr result ↔ IsToFail self.old.calls }
        ensures counted { self.new.calls ≡ tally_after (is_err result) self.old.calls }
        ensures cause { HasCause self.old.calls.faults self.new.calls.faults result }
    {
        let place = self.next_place()?;
        Ok(part_at(self.lead, place))
    }
}
