//! Tests of `xsd_pattern`: worked patterns, the edges of every construct, and patterns that are hard to match.
#![tactic(auto)]

#[cfg(test)]
mod faults;
#[cfg(test)]
mod matches;
#[cfg(test)]
mod reads;
