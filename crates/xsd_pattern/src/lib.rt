//! Patterns of restrictions: from their text to a tree, or to the first fault with its place.
#![tactic(auto)]

mod characters;
mod fault;
mod laws;
mod part;
mod pattern;
mod repeat;
mod set;
mod sides;
mod weight;

pub use fault::{PatternCause, PatternFault};
pub use laws::{one_tree, turns_shorten};
pub use pattern::Pattern;
