//! Tests of `p21_read`: values, instances and files of ISO 10303-21, with both sides of each edge.
#![tactic(auto)]

#[cfg(test)]
mod faults;
#[cfg(test)]
mod files;
#[cfg(test)]
mod values;
