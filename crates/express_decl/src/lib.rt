//! Declarations of a schema in EXPRESS: its entities with their attributes, and the names of its types.
#![tactic(auto)]

mod decl;
mod entity;
mod laws;
mod remark;
mod schema;
mod section;
mod step;
mod token;
mod word;

pub use decl::{DeclCause, DeclFault, Decls};
pub use laws::{one_result, one_token_list, turns_shorten};
pub use schema::read_declarations;
