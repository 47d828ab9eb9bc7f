//! A persistent map from numbers to values: a change makes a new map, and the old one stays as it was. The
//! two share all but the path to the key that was changed.
//!
//! A key has eight digits of five bits. The node of a level holds a branch for each digit that has a pair
//! below it, in ascending digit, and maps share what stands below a branch. Contracts see a `TreeMap` as
//! a finite map, and its walk as the list of its pairs in ascending key.
#![tactic(auto)]

mod branch;
mod group;
mod level;
mod lowest;
mod map;
mod node;
mod root;
mod tier;
mod walk;

pub use map::TreeMap;
pub use walk::Walk;
