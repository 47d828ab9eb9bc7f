//! The entity facet and the attribute facet, which look at the element's own instance and, for a predefined type,
//! at those of its types.
#![tactic(auto)]

mod attribute;
mod entity;

pub use attribute::weigh_attribute;
pub use entity::entity_weighed;
