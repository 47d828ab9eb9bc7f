//! The pure core of a live audit. A core holds one model in numbered revisions, and keeps the journal
//! of all that actors ask of it: to begin drafts, to commit them, to claim pairs of a specification and
//! an element, to deliver what an evaluation found of them or give them back, and to publish the report.
//! Each call adds the one entry that is lawful after the journal, or none.
#![tactic(auto)]

mod audit;
mod changes;
mod claims;
mod fits;
mod journal;
mod laws;
mod pairs;
mod plan;
mod prepared;

pub use audit::Core;
pub use fits::ModelFault;
pub use journal::CoreJournal;
pub use laws::prepared_stays;
pub use prepared::Prepared;
