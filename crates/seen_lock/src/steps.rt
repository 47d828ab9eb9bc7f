//! The steps of a turn, in their order: draw, look, take, add, put, pass.
ghost use Rattle.std.specs.Prelude.{◌≡◌, ◌%◌, [], ◌∷◌, ◌++◌, true, length, Some, None};
ghost use Rattle.seen_lock.specs.Words.{id_of, origin_of};
ghost use Rattle.seen_lock.specs.Order.{modulus};
ghost use Rattle.seen_lock.specs.Seats.{IsIdle, IsWaiting};
ghost use Rattle.seen_lock.specs.Steps.{with_ticket, added, passed, Looked};

use crate::journaled::Journaled;
use crate::lock::{Place, SeenLock};
use crate::plays::{Add, Draw, Entries, Home, Look, Pass};

/// The word that has the number whose turn it is.
pub(crate) const TURN: usize = 0;

/// The word that has the next number to be drawn.
const TICKET: usize = 1;

/// The word that has the length of the history.
const COUNT: usize = 2;

impl<S: Journaled> SeenLock<S> {
    /// Draws the next number for the seat.
    pub(crate) fn draw(&self, seat: &mut Place<S, S::Entry>) -> u64
        requires seat { seat.old.table_id ≡ id_of self.now }
        requires idle { IsIdle seat.old.me.0 }
        ensures seat { (seat.new.table_id ≡ seat.old.table_id) × (seat.new.id ≡ seat.old.id) }
        ensures drew { seat.new.me ≡ (with_ticket seat.old.me.0 seat.new.me.0.ticket, seat.old.me.1) }
        ensures number { result ≡ seat.new.me.0.ticket % modulus }
    {
        self.table.shared.fetch_add::<Draw>(seat, TICKET, 1)
    }

    /// Looks whose turn it is. Where it is the seat's own, the seat has the slot.
    pub(crate) fn look<B: Home<S>>(&self, seat: &mut Place<S, S::Entry>) -> u64
        requires seat { seat.old.table_id ≡ id_of self.now }
        requires fits { (y : S) → S.ground y ≡ S.ground (origin_of self.now) → B.fits y }
        requires from { B.from ≡ length (S.entries (origin_of self.now)) }
        requires waits { IsWaiting seat.old.me }
        ensures seat { (seat.new.table_id ≡ seat.old.table_id) × (seat.new.id ≡ seat.old.id) }
        ensures looked { Looked S.entries S.maker B.fits B.from seat.old.me result seat.new.me }
    {
        self.table.shared.load::<Look<B>>(seat, TURN)
    }

    /// Moves the state out of the slot that the seat has.
    pub(crate) fn take(&self, place: &mut Place<S, S::Entry>) -> S
        requires seat { place.old.table_id ≡ id_of self.now }
        requires carried { (y : S) × (place.old.me.1 ≡ (0, Some y) ∷ []) }
        ensures seat { (place.new.table_id ≡ place.old.table_id) × (place.new.id ≡ place.old.id) }
        ensures took { (place.old.me.1 ≡ (0, Some result) ∷ []) × (place.new.me ≡ (place.old.me.0, (0, None) ∷ [])) }
    {
        self.table.shared.exchange(place, 0, None).unwrap()
    }

    /// Counts the entry that the state has more than the seat has seen.
    pub(crate) fn add<B: Entries<S::Entry>>(&self, place: &mut Place<S, S::Entry>, state: &S)
        requires seat { place.old.table_id ≡ id_of self.now }
        requires holds { (place.old.me.0.holds ≡ true) × (place.old.me.0.live ≡ true) }
        requires new { (e : S.Entry) × (B.new ≡ e ∷ []) × (S.maker e ≡ place.old.me.0.number)
            × (S.entries state.now ≡ place.old.me.0.seen ++ e ∷ []) }
        ensures seat { (place.new.table_id ≡ place.old.table_id) × (place.new.id ≡ place.old.id) }
        ensures added { place.new.me ≡ (added place.old.me.0 B.new, place.old.me.1) }
    {
        let _ = state;
        self.table.shared.fetch_add::<Add<B>>(place, COUNT, 1);
    }

    /// Moves the state back into the slot.
    pub(crate) fn put(&self, place: &mut Place<S, S::Entry>, state: S)
        requires seat { place.old.table_id ≡ id_of self.now }
        requires carried { place.old.me.1 ≡ (0, None) ∷ [] }
        ensures seat { (place.new.table_id ≡ place.old.table_id) × (place.new.id ≡ place.old.id) }
        ensures put { place.new.me ≡ (place.old.me.0, (0, Some state) ∷ []) }
    {
        match self.table.shared.exchange(place, 0, Some(state)) {
            None => {}
            Some(_) => unreachable!(),
        }
    }

    /// Passes the turn on to the next number, and gives the slot back.
    pub(crate) fn pass(&self, place: &mut Place<S, S::Entry>)
        requires seat { place.old.table_id ≡ id_of self.now }
        requires holds { (place.old.me.0.holds ≡ true) × (place.old.me.0.live ≡ true) }
        requires carried { (y : S) × (place.old.me.1 ≡ (0, Some y) ∷ []) × (S.entries y ≡ place.old.me.0.seen)
            × (S.ground y ≡ S.ground (origin_of self.now)) }
        ensures seat { (place.new.table_id ≡ place.old.table_id) × (place.new.id ≡ place.old.id) }
        ensures passed { place.new.me ≡ (passed place.old.me.0, []) }
    {
        self.table.shared.fetch_add::<Pass>(place, TURN, 1);
    }
}
