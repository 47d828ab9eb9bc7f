//! A lock over a state with a history, whose seats know what they have seen of the history and which
//! entries they made.
//!
//! `SeenLock::new` makes the lock and all its seats. A thread that has a seat takes a turn: `enter` waits
//! for it and gives the state, `leave` gives the state back with one entry more, or none. At `enter` the
//! history begins with all that the seat has seen; at `close` it has everything of every seat, each entry
//! once, and nothing by anyone else.
//!
//! The lock is a table of `atomic_table` under one rule: three words (the turn, the next ticket, the length
//! of the history) and one slot, which has the state. No clause claims that a turn comes.
#![tactic(auto)]

mod held;
mod journaled;
mod known;
mod life;
mod lock;
mod plays;
mod seat;
mod steps;
mod turns;

pub use held::Held;
pub use journaled::Journaled;
pub use lock::SeenLock;
pub use seat::Seat;
