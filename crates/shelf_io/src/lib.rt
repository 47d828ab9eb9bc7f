//! The outside as traits: a shelf of files to read from, a sink to write to, and the points at which a
//! gate is called; with shelves and sinks in memory, and those of the system.
//!
//! A shelf or a sink answers `Failed` only where its count of faults rose, and a call that goes well
//! leaves the count: so a caller can tell a fault of the outside from every other answer. What a shelf
//! holds and what a sink was given stand in contracts where the object tells it; of what files hold and
//! what was written, those of the system tell nothing.
#![tactic(auto)]

mod gate;
mod mem_shelf;
mod mem_sink;
mod read_log;
mod read_note;
mod real;
mod traits;
mod whole;

pub use gate::{FreeGate, Gate, Point};
pub use mem_shelf::{MemShelf, ShelfFile};
pub use mem_sink::MemSink;
pub use read_log::ReadLog;
pub use real::{FileShelf, OutSink};
pub use traits::{Failed, Shelf, Sink};
pub use whole::{read_all, write_all};
