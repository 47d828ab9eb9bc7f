//! Turns: a seat waits for its turn, gets the state, and gives it back.
ghost use Rattle.std.specs.Prelude.{◌≡◌, ◌%◌, [], ◌∷◌, ◌++◌, true, false, length, Some, None};
ghost use Rattle.std.specs.Borrow.{Lends, sem};
ghost use Rattle.ifc_base.specs.Histories.{StartsWith, entries_since, entries_of};
ghost use Rattle.seen_lock.specs.contracts.held.Held.{the_row};
ghost use Rattle.seen_lock.specs.Words.{id_of, origin_of, state_of, with_state, turn_of};
ghost use Rattle.seen_lock.specs.Order.{modulus, since};
ghost use Rattle.seen_lock.specs.Seats.{IsTurn, IsWaiting};
ghost use Rattle.seen_lock.specs.Steps.{holding};

use crate::held::{Held, Turn};
use crate::journaled::Journaled;
use crate::lock::{Place, SeenLock};
use crate::seat::Seat;
use crate::steps::TURN;
use atomic_table::Badge;
use std::marker::Brand;
use std::mem::replace;
use std::sync::Wait;

/// The bits of a word that a thread parks on.
fn low(word: u64) -> u32 {
    (word % (1 << 32)) as u32
}

impl<S: Journaled> Held<S> {
    /// The state, to be read and changed. `O(1)`.
    pub fn state(&mut self) -> &mut S
        ensures* writes_back { sem 𝓛 (Lends (the_row S.row S.Entry.row) S.row self.entry result
            (λ w. with_state self.old w)) }
        ensures value { result.now ≡ state_of self.old }
    {
        &mut self.state
    }
}

impl<S: Journaled> SeenLock<S> {
    /// Waits until it is the turn of this number, and takes the state.
    fn wait<R: Wait>(&self, rt: &R, place: &mut Place<S, S::Entry>, ticket: u64) -> S
        requires seat { place.old.table_id ≡ id_of self.now }
        requires waits { IsWaiting place.old.me }
        requires number { ticket ≡ place.old.me.0.ticket % modulus }
        ensures seat { (place.new.table_id ≡ place.old.table_id) × (place.new.id ≡ place.old.id) }
        ensures got { place.new.me ≡ (holding place.old.me.0 (S.entries result), (0, None) ∷ []) }
        ensures ground { S.ground result ≡ S.ground (origin_of self.now) }
        ensures seen { StartsWith (S.entries result) place.old.me.0.seen }
        ensures own { since S.maker (length (S.entries (origin_of self.now))) place.old.me.0.number (S.entries result)
            ≡ place.old.me.0.own }
    {
        for _ in rt.forever() {
            let found = self.look::<Brand>(place);
            if found == ticket {
                return self.take(place);
            }
            self.table.shared.park(rt, TURN, low(found));
        }
        unreachable!()
    }

    /// Waits for the turn of the seat, and gives the state. The seat is held until its `leave`.
    ///
    /// The state's history begins with all that the seat has seen, the entries of the seat's number in it
    /// since the start are the seat's own list, and the ground is that of the start.
    ///
    /// A thread that waits sleeps, and each `leave` wakes it for a look: `O(1)` steps beside those looks.
    /// No clause claims that the turn comes. It never does while another seat is held and isn't left, as
    /// where one thread enters by two seats.
    pub fn enter<R: Wait>(&self, rt: &R, seat: &mut Seat<S::Entry>) -> Held<S>
        requires own_lock { seat.old.lock ≡ id_of self.now }
        requires free { seat.old.held ≡ false }
        ensures seat { (seat.new.number ≡ seat.old.number) × (seat.new.held ≡ true) }
        ensures turn { turn_of result ≡ record seat.old { held = true; seen = S.entries (state_of result) } }
        ensures seen { StartsWith (S.entries (state_of result)) seat.old.seen }
        ensures own { entries_of S.maker seat.old.number
            (entries_since (length (S.entries (origin_of self.now))) (S.entries (state_of result))) ≡ seat.old.own }
        ensures ground { S.ground (state_of result) ≡ S.ground (origin_of self.now) }
    {
        let badge = replace(&mut seat.badge, Badge::blank());
        let mut place = badge.into_seat::<Option<S>>();
        let ticket = self.draw(&mut place);
        let state = self.wait(rt, &mut place, ticket);
        let before = state.length();
        let turn = Turn { place, before };
        Held { state, turn }
    }

    /// Gives the state back, and passes the turn on. The seat is free again.
    ///
    /// It asks that the turn is this seat's, that the ground is as at the start, and that the history is as
    /// it was at `enter`, or has one entry more, of this seat's number. Afterwards the seat has seen that
    /// history, and the entry that the turn added, if there is one, ends the seat's own list. `O(1)` steps;
    /// each thread that waits is woken for a look.
    pub fn leave(&self, seat: &mut Seat<S::Entry>, held: Held<S>)
        requires own_lock { (turn_of held).lock ≡ id_of self.now }
        requires own_turn { (seat.old.held ≡ true) × ((turn_of held).number ≡ seat.old.number) }
        requires ground { S.ground (state_of held) ≡ S.ground (origin_of self.now) }
        requires history { IsTurn S.maker seat.old.number (turn_of held).seen (S.entries (state_of held)) }
        ensures seat { (seat.new.lock ≡ id_of self.now) × (seat.new.number ≡ seat.old.number) × (seat.new.held ≡ false) }
        ensures seen { seat.new.seen ≡ S.entries (state_of held) }
        ensures own { seat.new.own ≡ (turn_of held).own
            ++ entries_since (length (turn_of held).seen) (S.entries (state_of held)) }
    {
        let Held { state, turn } = held;
        let Turn { mut place, before } = turn;
        if state.length() != before {
            self.add::<Brand>(&mut place, &state);
        }
        self.put(&mut place, state);
        self.pass(&mut place);
        self.table.shared.wake_all(TURN);
        seat.badge = place.into_badge();
    }
}
