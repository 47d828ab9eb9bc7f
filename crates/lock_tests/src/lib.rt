//! Tests of `seen_lock`: a log of notes under the lock, entered by one seat after another and by four
//! threads at once.
#![tactic(auto)]

mod log;
#[cfg(test)]
mod tests;
mod turns;

pub use log::{Log, Note};
pub use turns::{add, add_all, finds, in_threads};
