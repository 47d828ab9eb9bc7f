//! Tests of `tree_map`: changed maps beside the old ones, the edges of the keys, and a large map with a thousand
//! changed ones.
#![tactic(auto)]

#[cfg(test)]
mod large;
#[cfg(test)]
mod small;
