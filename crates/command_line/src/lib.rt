//! The words of the command line, and what they ask for. They are read by `clap`, as a command with
//! subcommands of one level.
#![tactic(auto)]

mod command;

pub use command::{Command, Names, NotTaken, command_in};
