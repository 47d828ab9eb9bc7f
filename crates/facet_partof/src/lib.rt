//! The partOf facet over what can be looked at in a model.
//!
//! The facet is weighed along its path, whatever it finds there: the keys that it looks at are those of the
//! definition, as a set. Texts and instances are borrowed from the model.
#![tactic(auto)]

mod part_of;

pub use part_of::weigh_part_of;
