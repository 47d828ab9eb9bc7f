//! The state of a lock, out with the seat that has the turn.
ghost use Rattle.std.specs.Prelude.{◌≡◌};
ghost use Rattle.seen_lock.specs.Seats.{IsHolding};

use crate::journaled::Journaled;
use crate::known::Known;
use atomic_table::Seat;

/// The place in the table of the seat that has the turn, and the length of the history when the turn came.
pub(crate) struct Turn<S, E> {
    pub(crate) place: Seat<Option<S>, Known<E>>,
    pub(crate) before: u64,
    ghost ready: { IsHolding place.me before },
}

/// The state, in the turn of one seat. It must be spent, by `SeenLock::leave`: until then no other seat
/// gets a turn.
pub struct Held<S: Journaled> {
    pub(crate) state: S,
    pub(crate) turn: Turn<S, S::Entry>,
}
