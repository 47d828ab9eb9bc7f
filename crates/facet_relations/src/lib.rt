//! The classification facet and the material facet over what can be looked at in a model.
//!
//! Each facet is weighed along its path, whatever it finds there: the keys that it looks at are those of the
//! definition, as a set. Texts and instances are borrowed from the model.
#![tactic(auto)]

mod classification;
mod material;
mod named;

pub use classification::weigh_classification;
pub use material::weigh_material;
