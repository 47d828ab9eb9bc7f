//! The reader of scripts: lines by which several editors change and audit a model, phase by phase.
#![tactic(auto)]

mod bytes;
mod edit;
mod editors;
mod fault;
mod laws;
mod line;
mod lines;
mod read;
mod writing;

pub use fault::{ScriptCause, ScriptFault};
pub use laws::{lines_and_feeds, one_script};
pub use read::{Script, read_script};
