//! A reader of a small grammar, by the form of `reading`: numbers in nested parentheses, with blanks and comments.
#![tactic(auto)]

mod gap;
mod letters;
mod read;
#[cfg(test)]
mod tests;
mod token;
mod tree;

pub use letters::read_letters;
pub use read::{one_tree, read_tree};
pub use tree::{Cause, Tree};
