//! Tests of the core of an audit: which models it refuses, and what it answers to calls of several actors.
#![tactic(auto)]

#[cfg(test)]
mod faults;
#[cfg(test)]
mod fixtures;
#[cfg(test)]
mod prepared;
#[cfg(test)]
mod rows;
#[cfg(test)]
mod runs;
#[cfg(test)]
mod views;
