ghost use Rattle.std.specs.Prelude.{◌≡◌, ℕ, ◌≤◌, ◌<◌, IfSome, OnOk, None};
ghost use Rattle.attacker_model.specs.Digests.{HasPlace};

use std::collections::BTreeSet;
use term_values::OutOfMemory;

/// Numbers with places, in order: a number may have several places.
pub(crate) type Index = BTreeSet<(u128, usize)>;

/// Enters a number with a place.
pub(crate) fn enter(index: &mut Index, number: u128, place: usize) -> Result<(), OutOfMemory>
    ensures kept { (n q : ℕ) → HasPlace index.old n q → HasPlace index.new n q }
    ensures entered { OnOk result (HasPlace index.new number place) }
{
    index.insert((number, place))?;
    Ok(())
}

/// Takes a number with a place out.
pub(crate) fn leave(index: &mut Index, number: u128, place: usize)
    ensures kept { (n q : ℕ) → q < place → HasPlace index.old n q → HasPlace index.new n q }
{
    let _removed = index.remove(&(number, place));
}

/// The first place of a number, from this one on.
pub(crate) fn next_place(index: &Index, number: u128, from: usize) -> Option<usize>
    ensures from { IfSome result (λ place. from ≤ place) }
    ensures first { (q : ℕ) → from ≤ q → HasPlace index.now number q →
        IfSome result (λ place. place ≤ q) }
    ensures none { result ≡ None → (q : ℕ) → from ≤ q → HasPlace index.now number q → ⊥ }
{
    match index.range((number, from)..).next() {
        Some((found, place)) if *found == number => Some(*place),
        _ => None,
    }
}
