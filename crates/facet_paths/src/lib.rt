//! Walks over what can be looked at in a model, and the entity facet.
//!
//! A walk goes from an element by references and by relationships, whatever it finds, and notes the key of each
//! part of the model that it looks at. What it finds is borrowed from the model; it copies ids and keys alone.
#![tactic(auto)]

mod entity;
mod hops;
mod keys;
mod members;
mod part_of;
mod path;
mod predefined;
mod sets;
mod texts;
mod values;

pub use entity::{look_at_entity, weigh_entity};
pub use hops::{hop_all, push_each_relating, push_refs, push_relating, stand_all};
pub use keys::append_keys;
pub use members::{MaterialStep, SourceStep, members_of};
pub use part_of::ancestors_of;
pub use path::{Path, walk};
pub use sets::{held_ids, push_own_sets, push_sets_of_types};
pub use texts::{admits_name, admits_name_if_asked, attribute_of, is_word, text_at};
pub use values::is_set;
