//! What a seat knows: the view of a seat in the lock's table. It stands in proofs alone, and no value of
//! these types is made.
use std::collections::LinkedList;

/// What is kept of a seat that has ended.
pub struct Ended<E> {
    pub number: u64,
    pub seen: LinkedList<E>,
    pub own: LinkedList<E>,
}

/// What a seat knows. Its numbers may be any natural number.
pub struct Known<E> {
    /// It has drawn a number and has not passed the turn.
    pub waits: bool,
    /// The number drawn.
    pub ticket: u64,
    /// It has found its number on the board, and has the slot.
    pub holds: bool,
    /// False once another seat has taken it in.
    pub live: bool,
    /// The number of the seat.
    pub number: u64,
    /// The history as far as the seat has seen it.
    pub seen: LinkedList<E>,
    /// The entries that the seat made.
    pub own: LinkedList<E>,
    /// It is the first seat, which makes the others and takes them in.
    pub makes: bool,
    /// How many seats there are, as the first seat knows.
    pub made: u64,
    /// How many seats the lock is to have in all.
    pub count: u64,
    /// The seats that it has taken in.
    pub gone: LinkedList<Ended<E>>,
}
