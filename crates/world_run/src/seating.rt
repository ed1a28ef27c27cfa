ghost use Rattle.std.specs.Prelude.{true, ◌≡◌, ◌<◌, ◌+◌, ◌++◌, ◌∷◌, ◌==◌, [], length, map, get_or};
ghost use Rattle.std.specs.Prelude.{nat_lt, vec_len, vec_capacity, if◌then◌else◌};
ghost use Rattle.std.specs.List.{list_any};
ghost use Rattle.term_values.specs.Trees.{Among};
ghost use Rattle.node_desk.specs.Desks.{IsLegalLog};
ghost use Rattle.world_run.specs.declared.seat.Seat.{Seat as SeatOf};
ghost use Rattle.world_run.specs.Parties.{seat_name};

use crate::seat::Seat;
use term_values::Name;

/// Whether a party has that name.
pub(crate) fn has_name(seats: &[Seat], name: Name) -> bool
    ensures { result ≡ list_any (λ (s : SeatOf). seat_name s == name) seats.now }
{
    seats
        .iter()
        .any(|seat| seat.desk.ring().me.get() == name.get())
}

/// The place of the party of that name.
#[tactic(auto, using(crate::proofs::Seats::named_on, crate::proofs::Seats::named_none))]
pub(crate) fn place_of(seats: &[Seat], name: Name) -> usize
    requires { Among name (map seat_name seats.now) }
    ensures within { result < length seats.now }
    ensures named { (d : SeatOf) → seat_name (get_or seats.now result d) ≡ name }
{
    for (place, seat) in seats.iter().enumerate() {
        if seat.desk.ring().me.get() == name.get() {
            return place;
        }
    }
    unreachable!()
}

/// How many events the party has had.
pub(crate) fn events_of(seat: &Seat) -> usize
    ensures { result ≡ length seat.now.desk.log }
{
    seat.desk.log().list().len()
}

/// The log of a party is legal.
pub(crate) fn see_legal(seat: &Seat)
    ensures { IsLegalLog seat.now.desk.ring seat.now.desk.first seat.now.desk.log }
{
    let _log = seat.desk.log();
}

/// Notes the party's name where it has had more events than before.
pub(crate) fn note(order: &mut Vec<Name>, name: Name, before: usize, after: usize)
    requires room { vec_len order.old < vec_capacity order.old }
    ensures items { order.new.items ≡ (if nat_lt before after then order.old.items ++ name
        ∷ [] else order.old.items) }
    ensures len { vec_len order.new ≡ (if nat_lt before after then vec_len order.old + 1 else
        vec_len order.old) }
    ensures capacity { vec_capacity order.new ≡ vec_capacity order.old }
{
    if before < after {
        order.push_reserved(name);
    }
}
