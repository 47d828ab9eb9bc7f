//! The entities of a schema and their attributes, and which instances fit them.
#![tactic(auto)]

mod checks;
mod climbs;
mod cycles;
mod fault;
mod index;
pub mod laws;
mod lookup;
mod order;
mod params;
mod redeclared;
mod relation;
mod shares;
mod slot;
mod table;

pub use fault::{InstanceFault, SchemaFault};
pub use relation::Relation;
pub use slot::AttrSlot;
pub use table::SchemaTable;
