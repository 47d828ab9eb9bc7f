//! Tests of `script_read`: tables of what scripts are taken, what they mean, and which fault is the first.
#![tactic(auto)]

#[cfg(test)]
mod faults;
#[cfg(test)]
mod meanings;
