//! Values of instances, keys of a model, and declarations: the plain data that every other crate
//! speaks of.
//!
//! Contracts see each type as data: a `Value` as a tree, a `Name` as its characters, an `InstId` as a
//! number, a list type as the list of its items. `==` of each is equality of that data, and a copy is
//! equal to what was copied. Keys are ordered by id first, all else by the fields, from the first on, and
//! by the variants as declared; lists by the first items that differ. The forms are those of ISO 10303-21
//! (values, instances) and ISO 10303-11 (declarations).
//!
//! A call that takes memory answers `Memory` where there is none, and then leaves what it was given as
//! it was. Between two places write `*a == *b`, not `a == b` at two references: only the first gives a
//! caller's proof the clause that the two are equal.
#![tactic(auto)]

mod decl;
mod equal;
mod id;
mod key;
mod list;
mod memory;
mod name;
mod order;
mod refs;
mod value;

pub use decl::{EntityDecl, EntityDecls, TypeDecl, TypeDecls};
pub use id::InstId;
pub use key::{Key, Keys, Role};
pub use list::{Bytes, Listed, Numbers, TryCopy};
pub use memory::{Memory, Refusal};
pub use name::{Name, Names};
pub use refs::refs_in;
pub use value::{Decimal, Instance, Instances, Value, ValueNode, Values};
