//! The property facet over what can be looked at in a model.
//!
//! The facet is weighed along its path, whatever it finds there: the keys that it looks at are those of the
//! definition, as a set. Names, values and instances are borrowed from the model.
#![tactic(auto)]

mod facet;
mod find;
mod hiding;
mod judging;
mod sets;
mod shape;
mod values;
mod weighing;

pub use facet::weigh_property;
