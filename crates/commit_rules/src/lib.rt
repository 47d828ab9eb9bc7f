//! Judges commits: whether the edits of a draft are accepted on the model of a revision, or the first reason why
//! not. What edits make of the model is seen through a small overlay of the ids that they name; the model itself
//! isn't copied.
#![tactic(auto)]

mod judging;
mod missing;
mod outcome;
mod overlay;

pub use judging::judge;
