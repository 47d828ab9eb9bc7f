//! How a lock begins and ends.
ghost use Rattle.std.specs.Prelude.{◌≡◌, ◌<◌, ◌≤◌, [], false, length, Some, vec_len, vec_capacity, IfOk, IfErr};
ghost use Rattle.seen_lock.specs.Words.{id_of, origin_of, seats_of};
ghost use Rattle.seen_lock.specs.Order.{newcomer};
ghost use Rattle.seen_lock.specs.Lists.{new_seats, AreFree, HasAll};
ghost use Rattle.seen_lock.specs.Taken.{AreTaken, IsSame};

use crate::journaled::Journaled;
use crate::lock::{Origin, Place, SeenLock};
use crate::plays::{Gather, Make};
use crate::seat::Seat;
use atomic_table::{Refused, Table};
use ifc_base::Memory;
use std::alloc::Global;
use std::snapshot::Snapshot;

impl<S: Journaled> SeenLock<S> {
    /// The first seat makes the others, up to this number.
    fn deal(
        &self,
        mut first: Place<S, S::Entry>,
        mut made: Vec<Seat<S::Entry>>,
        seats: u32,
    ) -> Vec<Seat<S::Entry>>
        requires seats { (0 < seats) × (made.items ≡ []) × (seats ≤ vec_capacity made) }
        requires first { (first.table_id ≡ id_of self.now) × (first.me ≡ (newcomer (S.entries (origin_of self.now)) seats, [])) }
        ensures { result.items ≡ new_seats (id_of self.now) (S.entries (origin_of self.now)) 0 seats }
    {
        for number in 1..seats {
            let badge = self
                .table
                .shared
                .split_seat::<Make>(&mut first)
                .into_badge();
            made.push_reserved(Seat { badge, number });
        }
        let badge = first.into_badge();
        match made.insert(0, Seat { badge, number: 0 }) {
            Ok(()) => made,
            Err(_) => unreachable!(),
        }
    }

    /// A lock over the state, and its seats, at least one, in the order of their numbers from 0. They have
    /// seen the history of the state, and made nothing. For want of memory the state comes back.
    /// `O(seats)`, without the state.
    pub fn new(
        alloc: Global,
        state: S,
        seats: u32,
    ) -> Result<(SeenLock<S>, Vec<Seat<S::Entry>>), (Memory, S)>
        requires { 0 < seats }
        ensures lock { IfOk result (λ r. (origin_of r.0 ≡ state) × (seats_of r.0 ≡ seats)) }
        ensures seats { IfOk result (λ r. r.1.items ≡ new_seats (id_of r.0) (S.entries state) 0 seats) }
        ensures back { IfErr result (λ e. e.1 ≡ state) }
    {
        let Ok(made) = Vec::with_capacity(alloc, seats as usize) else {
            return Err((Memory, state));
        };
        let Ok(mut slots) = Vec::with_capacity(alloc, 1) else {
            return Err((Memory, state));
        };
        let about = Origin {
            state: Snapshot::of(&state),
            seats,
        };
        let length = state.length();
        slots.push_reserved(Some(state));
        match Table::new(alloc, &[0, 0, length], slots, &about) {
            Ok((table, first)) => {
                let lock = SeenLock { table };
                let made = lock.deal(first, made, seats);
                Ok((lock, made))
            }
            Err(Refused { mut slots }) => {
                let state = slots.pop().unwrap().unwrap();
                slots.destroy_empty();
                Err((Memory, state))
            }
        }
    }

    /// The first seat takes in the others.
    fn gather(&self, first: &mut Place<S, S::Entry>, mut seats: Vec<Seat<S::Entry>>)
        requires first { (first.old.table_id ≡ id_of self.now) × (first.old.me.0.holds ≡ false)
            × (first.old.me.1 ≡ []) }
        requires seats { AreFree (id_of self.now) 1 seats.items }
        ensures first { (first.new.table_id ≡ first.old.table_id) × (first.new.id ≡ first.old.id)
            × IsSame first.old.me.0 first.new.me.0 × (first.new.me.1 ≡ []) }
        ensures taken { AreTaken first.new.me.0 seats.items }
    {
        while let Some(seat) = seats.pop() {
            let Seat { badge, number: _ } = seat;
            self.table
                .shared
                .join_seat::<Gather>(first, badge.into_seat());
        }
        seats.destroy_empty();
    }

    /// Ends the lock, and gives the state. It asks for all seats of `new`, in the order of their numbers,
    /// and that none is held.
    ///
    /// The state has the ground of the start. Its history begins with that of the start and with all that
    /// each seat has seen; the entries of each seat since the start are that seat's own list; and every
    /// entry since the start is of one of the seats. `O(seats)`, without the state.
    pub fn close(self, mut seats: Vec<Seat<S::Entry>>) -> S
        requires { (vec_len seats ≡ seats_of self) × AreFree (id_of self) 0 seats.items }
        ensures ground { S.ground result ≡ S.ground (origin_of self) }
        ensures history { HasAll S.maker (S.entries (origin_of self)) (S.entries result) seats.items }
    {
        let maker = seats.remove(0);
        let Seat { badge, number: _ } = maker;
        let mut first = badge.into_seat::<Option<S>>();
        self.gather(&mut first, seats);
        let SeenLock { table } = self;
        let mut closed = table.close_with(first);
        let state = closed.take(0).unwrap();
        closed.free();
        state
    }
}
