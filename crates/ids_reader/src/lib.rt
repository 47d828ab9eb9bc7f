//! Reads specifications (IDS 1.0) from JSON, in the mapping that is this project's own. `serde_json` reads the bytes;
//! what the members of each object are stands in one table; the first cause of a refusal is told with its place.
#![tactic(auto)]

mod condition;
mod document;
mod facet;
mod fault;
mod members;
mod side;
mod specification;
mod standing;
mod tables;
mod value;

pub use document::read_ids;
pub use fault::{IdsCause, IdsFault};
