//! The index of a model: for each id the instances that hold a reference to it, and for each id and role the
//! instances that refer to the id by the role. And the log of changes: for each key the last revision that
//! changed it. Both are persistent trees: a change makes a new one, which shares all but the paths to what was
//! changed, and leaves the old one as it was.
#![tactic(auto)]

mod changed;
mod difference;
mod gather;
mod ids;
mod index;
mod log;
mod numbers;
mod standing;

pub use changed::push_changed;
pub use difference::ascending_keys;
pub use index::InverseIndex;
pub use log::ChangeLog;
pub use standing::references;
