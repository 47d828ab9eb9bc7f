//! Value conditions of an IDS: a simple text, or a restriction with enumerations, patterns, bounds and lengths, and
//! which values of a model they admit (IDS 1.0, `simpleValue` and `xs:restriction`).
//!
//! Contracts see a `Restriction` as its condition: plain data, with the trees of its patterns and its bounds in whole
//! units of 10^-15. The definition of what a condition admits is a test, so that other definitions filter by it.
#![tactic(auto)]

mod admit;
mod build;
mod condition;
mod laws;
mod literal;
mod number;
mod parts;
mod restriction;
mod word;

pub use laws::{decides_matches, further_parts, names_are_texts, patterns_are_read, simple_is_one};
pub use parts::{RestrictionFault, RestrictionParts};
pub use restriction::Restriction;
