//! Patterns as trees, what a pattern matches, and a matcher that always ends.
//!
//! A tree is plain data to contracts: lists of trees and trees within trees. A pattern speaks of whole
//! texts; what it matches is defined by cases, apart from the matcher.
//!
//! The matcher follows all ways through the pattern at once and never goes back in the text. A pattern
//! becomes a list of steps, in which each single-character part stands as often as the repeats around
//! it say, with one mark each: whether the text so far can end with this part. Each character of the
//! text makes new marks of the old ones in one pass over the list.
#![tactic(auto)]

mod machine;
mod matcher;
mod program;
mod range;
mod search;
mod set;
mod tree;

pub use matcher::matches;
pub use tree::{Class, Part, Set, Times, Tree};
