ghost use Rattle.std.specs.Prelude.{◌≡◌, ◌+◌, ◌-◌, ◌^◌, ◌↔◌, IsErr, IfOk, OnErr, OnOk};
ghost use Rattle.outside.specs.Causes.{HasCause};
ghost use Rattle.outside.specs.Tally.{one_more};
ghost use Rattle.outside.specs.Told.{nonce_draw, part_draw};
ghost use Rattle.fresh_values.specs.Counts.{counted_value, failed_draws};

use outside::{Draws, Failed};
use std::marker::Model;
use term_values::{Nonce, Part};

/// The first byte of a counted nonce.
const NONCE_LEAD: u8 = 0xd0;

/// The first byte of a counted part.
const PART_LEAD: u8 = 0xd1;

/// Draws that count: one counter for nonces and parts. The type keeps that none has failed before the counter's end. Contracts see
/// the counter and the count of faults.
#[derive(Debug, Drop)]
pub struct Counted {
    counter: u64,
    faults: u64,
}

impl Model for Counted {
    ghost use Rattle.std.specs.Prelude.{◌≡◌, ◌<◌, ◌-◌, ◌^◌};
    ghost use Rattle.fresh_values.specs.Counts.{Counts};

    ghost Value = { Counts };

    ghost view = { λ c. record { place = c.counter; faults = c.faults } };

    ghost invariant = { λ c. c.counter < 2 ^ 64 - 1 → c.faults ≡ 0 };
}

impl Counted {
    /// Draws from number 0 on. Takes no memory.
    pub fn new() -> Counted
        ensures { result ≡ record { place = 0; faults = 0 } }
    {
        Counted::after(0)
    }

    /// Draws from number n on. Takes no memory.
    pub fn after(n: u64) -> Counted
        ensures { result ≡ record { place = n; faults = 0 } }
    {
        Counted {
            counter: n,
            faults: 0,
        }
    }

    /// The number of the next draw. Takes no memory.
    pub fn count(&self) -> u64
        ensures { result ≡ self.now.place }
    {
        self.counter
    }

    /// The number of this draw.
    fn next(&mut self) -> Result<u64, Failed>
        ensures drawn { IfOk result (λ k. (k ≡ self.old.place)
            × (self.new ≡ record self.old { place = self.old.place + 1 })) }
        ensures spent { IsErr result ↔ (self.old.place ≡ 2 ^ 64 - 1) }
        ensures stays { OnErr result (self.new
            ≡ record self.old { faults = one_more self.old.faults }) }
        ensures quiet { OnOk result (failed_draws self.new ≡ failed_draws self.old) }
        ensures cause { HasCause self.old.faults self.new.faults result }
    {
        let k = self.counter;
        match k.checked_add(1) {
            Some(next) => {
                self.counter = next;
                Ok(k)
            }
            None => {
                self.faults = self.faults.saturating_add(1);
                Err(Failed)
            }
        }
    }
}

/// Nonce number k: its first byte and k as 15 bytes, the greater byte first.
#[tactic(auto, unfolding(outside::specs::Told::counted_draw))]
fn nonce_at(k: u64) -> Nonce
    ensures value { result ≡ counted_value nonce_draw k }
{
    let mut bytes = u128::from(k).to_be_bytes();
    bytes[0] = NONCE_LEAD;
    Nonce(bytes)
}

/// Part number k: its first byte and k as 31 bytes, the greater byte first.
#[tactic(auto, unfolding(outside::specs::Told::counted_draw))]
fn part_at(k: u64) -> Part
    ensures value { result ≡ counted_value part_draw k }
{
    let mut bytes = [0; 32];
    bytes[16..].copy_from_slice(&u128::from(k).to_be_bytes());
    bytes[0] = PART_LEAD;
    Part(bytes)
}

impl Draws for Counted {
    ghost use Rattle.std.specs.Prelude.{Some};
    ghost use Rattle.fresh_values.specs.Counts.{counted_value, failed_draws};

    ghost told = { λ c. Some (record { place = c.place; value = counted_value }) };

    ghost fault_count = { failed_draws };

    fn faults(&self) -> u64 {
        self.faults
    }

    /// The nonce of the next number.
    ///
    /// # Errors
    ///
    /// [`Failed`] exactly where the counter is 18,446,744,073,709,551,615; it stays, and the count of faults rises.
    fn nonce(&mut self) -> Result<Nonce, Failed>
        ensures drawn { IfOk result (λ nonce. (nonce ≡ counted_value nonce_draw self.old.place)
            × (self.new ≡ record self.old { place = self.old.place + 1 })) }
        ensures spent { IsErr result ↔ (self.old.place ≡ 2 ^ 64 - 1) }
        ensures stays { OnErr result (self.new
            ≡ record self.old { faults = one_more self.old.faults }) }
        ensures quiet { OnOk result (failed_draws self.new ≡ failed_draws self.old) }
        ensures cause { HasCause self.old.faults self.new.faults result }
    {
        let k = self.next()?;
        Ok(nonce_at(k))
    }

    /// The part of the next number.
    ///
    /// # Errors
    ///
    /// [`Failed`] exactly where the counter is 18,446,744,073,709,551,615; it stays, and the count of faults rises.
    fn part(&mut self) -> Result<Part, Failed>
        ensures drawn { IfOk result (λ part. (part ≡ counted_value part_draw self.old.place)
            × (self.new ≡ record self.old { place = self.old.place + 1 })) }
        ensures spent { IsErr result ↔ (self.old.place ≡ 2 ^ 64 - 1) }
        ensures stays { OnErr result (self.new
            ≡ record self.old { faults = one_more self.old.faults }) }
        ensures quiet { OnOk result (failed_draws self.new ≡ failed_draws self.old) }
        ensures cause { HasCause self.old.faults self.new.faults result }
    {
        let k = self.next()?;
        Ok(part_at(k))
    }
}
