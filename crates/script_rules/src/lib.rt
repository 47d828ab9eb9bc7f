//! What the lines of a script ask of the core, in which order, and what is printed of it: the definitions of
//! the serial run of a script, and their laws.
#![tactic(auto)]

mod run_laws;

pub use run_laws::{drain_ends, drain_is_done, output_is_told, serial_is_legal, sync_drains_file};
