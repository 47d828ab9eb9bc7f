//! The evaluation of a claim: the verdict of a specification on an element at the claim's snapshot, and the keys
//! that the verdict needs.
//!
//! Each facet that the definitions look at is weighed along its path, whatever was found before. The keys are
//! collected as they come, and put in order once. All that is read is borrowed from the snapshot.
#![tactic(auto)]

mod assessing;
mod evaluating;
mod facets;
mod needs;
mod requirements;

pub use evaluating::{Evaluator, evaluate};
