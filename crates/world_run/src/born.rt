ghost use Rattle.std.specs.Prelude.{◌≡◌, ◌-◌, ◌^◌, ◌↔◌, IsTrue, min};
ghost use Rattle.term_values.specs.declared.small.Key.{Key as AnyKey};
ghost use Rattle.outside.specs.Told.{nonce_draw, part_draw};
ghost use Rattle.fresh_values.specs.Counts.{first_byte};
ghost use Rattle.world_run.specs.Born.{BeginsLater, HasUnborn, HoldsLater, IsLaterDraw};
ghost use Rattle.world_run.specs.Born.{KeyHoldsLater, number_from};

use term_values::{Form, Key, Part, Term};

/// The first byte of a drawn nonce.
pub(crate) const NONCE_LEAD: u8 = 0xd0;

/// The first byte of a drawn part.
pub(crate) const PART_LEAD: u8 = 0xd1;

/// Whether a nonce or part occurs in the term that begins as drawn ones do, and whose number isn't
/// below so many draws.
#[tactic(auto, using(crate::proofs::Numbers::unborn_of, crate::proofs::Numbers::of_unborn))]
pub(crate) fn has_unborn(term: &Term, draws: u64) -> bool
    ensures { IsTrue result ↔ HasUnborn draws term.now }
{
    holds_later(term, draws)
}

#[tactic(auto, using(crate::proofs::Numbers::holds_in_item, crate::proofs::Numbers::held_by_rest, crate::proofs::Numbers::held_by_none, term_values::proofs::Trees::item_smaller))]
fn holds_later(term: &Term, draws: u64) -> bool
    ensures { IsTrue result ↔ HoldsLater draws term.now }
{
    match term.form() {
        Form::Nonce(nonce) => is_later(NONCE_LEAD, draws, nonce.list()),
        Form::Part(part) => is_later_part(draws, part),
        Form::Tuple(items) => {
            for item in items.list() {
                if holds_later(item, draws) {
                    return true;
                }
            }
            false
        }
        Form::Seal(key, body) | Form::Check(key, body) => {
            key_holds_later(key, draws) || holds_later(body, draws)
        }
        _ => false,
    }
}

fn key_holds_later(key: &Key, draws: u64) -> bool
    ensures { IsTrue result ↔ KeyHoldsLater draws key.now }
{
    match key {
        Key::One(part) => is_later_part(draws, part),
        Key::Two(first, second) => is_later_part(draws, first) || is_later_part(draws, second),
    }
}

fn is_later_part(draws: u64, part: &Part) -> bool
    ensures { IsTrue result ↔ IsLaterDraw part_draw draws part.now }
{
    is_later(PART_LEAD, draws, part.list())
}

/// Whether the bytes begin with that one, and the others spell this number or a greater one.
fn is_later(lead: u8, draws: u64, bytes: &[u8]) -> bool
    ensures { IsTrue result ↔ BeginsLater lead draws bytes.now }
{
    match bytes.split_first() {
        Some((first, rest)) => *first == lead && draws <= number_of(rest),
        None => false,
    }
}

/// The number that the bytes spell, the greater byte first; 18,446,744,073,709,551,615 for a
/// greater one.
#[tactic(auto, using(crate::proofs::Numbers::read_on, crate::proofs::Numbers::all_read))]
fn number_of(bytes: &[u8]) -> u64
    ensures { result ≡ min (number_from 0 bytes.now) (2 ^ 64 - 1) }
{
    let mut number = 0u64;
    for byte in bytes {
        number = number.saturating_mul(256).saturating_add(u64::from(*byte));
    }
    number
}
