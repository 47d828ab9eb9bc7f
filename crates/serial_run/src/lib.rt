//! Scripts that are run on a core in the order of their lines: what each line does, the drain at the
//! end of a phase, and the output of whole phases. The journal of a run is the history that the
//! definitions give to the script, or a front of it where the run was stopped.
#![tactic(auto)]

mod editor;
mod laws;
mod lines;
mod phases;
mod run;
mod steps;
mod telling;
mod turns;

pub use laws::{full_is_long, only_serial, script_is_phased, stop_is_phased};
pub use run::{End, Ran, run_script};
