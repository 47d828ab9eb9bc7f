//! The seats of a lock.
ghost use Rattle.std.specs.Prelude.{◌≡◌};

use crate::known::Known;
use atomic_table::Badge;
use std::marker::Model;

/// A seat of a lock: the right to take turns at its state.
///
/// Contracts see which lock it is of, its number, what it has seen of the history, which entries it made,
/// and whether it is held, which it is from its `enter` to its `leave`. It names the type of the entries
/// alone and no lifetime, so it may go into a thread and come back in what the thread returns.
#[derive(Drop)]
pub struct Seat<E> {
    pub(crate) badge: Badge<Known<E>>,
    pub(crate) number: u32,
}

impl<E> Model for Seat<E> {
    ghost use Rattle.seen_lock.specs.Views.{SeatView, seat_view};
    ghost use Rattle.seen_lock.specs.Seats.{IsReady};

    ghost Value = { SeatView E };

    ghost view = { λ s. seat_view s.badge.table_id s.number s.badge.views };

    ghost invariant = { λ s. IsReady s.badge.views s.number };
}

impl<E> Seat<E> {
    /// Its number: the seats of a lock are numbered from 0. `O(1)`.
    pub fn number(&self) -> u32
        ensures { result ≡ self.now.number }
    {
        self.number
    }
}
