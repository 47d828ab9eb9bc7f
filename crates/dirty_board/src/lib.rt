//! The board of a live audit: the pairs of the current model in order, each with the verdict that is kept
//! of it and the keys that this verdict needs, or none, and with a mark while a claim of it is out; and the
//! tallies of the verdicts that are kept. Keeping and dropping a verdict costs by the keys and pairs that it
//! touches and by the failing elements of its specification, not by the number of pairs.
#![tactic(auto)]

mod adding;
mod board;
mod failing;
mod flags;
mod index;
mod ledger;
mod moves;
mod room;
mod rows;
mod table;
mod tallies;

pub use board::Board;
pub use room::Room;
pub use rows::{BoxedKept, Kept, Row};
