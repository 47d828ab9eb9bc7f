//! The reader of scripts of one editor. It answers the script that the bytes mean, or exactly the first fault
//! with its line. It goes when the reader of scripts of several editors is in the program.
#![tactic(auto)]

mod fault;
mod lines;
mod number;
mod script;
mod script_line;

pub use fault::LineFault;
pub use script::read_script;
