//! Snapshots of a model over persistent trees, each of one revision, and what is handed out and handed in with
//! them: drafts of commits, claims of pairs to evaluate, and the findings of evaluations.
#![tactic(auto)]

mod answers;
mod assess;
mod attribute;
mod changes;
mod claim;
mod draft;
mod editing;
mod indexed;
mod look;
mod missing;
mod snapshot;

pub use answers::{Claimed, Delivered, Halt, NotPrepared, Published};
pub use assess::Assess;
pub use attribute::{id_of, with_attribute};
pub use claim::{Claim, Finding};
pub use draft::Draft;
pub use editing::Editing;
pub use missing::dangling;
pub use snapshot::{Snapshot, shows_its_model};
