//! Seats.

use crate::counted::Counted;
use crate::known::Known;
use std::marker::Model;

// A seat of the table.
pub(crate) type Place<V> = atomic_table::Seat<Option<V>, Known<<V as Counted>::Event>>;

/// What one caller takes turns with. It holds what its owner has seen, and which events are its
/// own. The seat that `TurnLock::new` gives has the number 0, those that are split off it 1, 2 and
/// so on.
#[derive(Drop)]
pub struct Seat<V: Counted> {
    pub(crate) place: Place<V>,
    pub(crate) seats: u64,
}

impl<V: Counted> Model for Seat<V> {
    ghost use Rattle.std.specs.Prelude.{◌≡◌};
    ghost use Rattle.turn_lock.specs.Seat.{SeatView, held_at};

    ghost Value = { SeatView V.Event };

    ghost view = { λ s. record { lock = s.place.table_id; known = s.place.me.0 } };

    ghost invariant = { λ s. (s.place.me.0.seats ≡ s.seats)
        × (s.place.me.1 ≡ held_at s.place.me.0.stage) };
}
