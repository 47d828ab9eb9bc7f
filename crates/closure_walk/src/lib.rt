//! Closures over a model, walked with each id once, and laws of closures, needs and paths.
//!
//! A closure is what chains of steps reach from some ids. The plain definition makes every step again in each
//! round; the walk here makes each step once, and reaches the same ids by the same keys.
#![tactic(auto)]

mod closing;
pub mod laws;

pub use closing::{Step, close};
