//! Tests of the plain data of an audit and of its report's text, by rows that were worked out by hand.
#![tactic(auto)]

#[cfg(test)]
mod model;
#[cfg(test)]
mod report;
